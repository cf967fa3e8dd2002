//! What explains a breach of rows behind which others may stand.

ghost use Rattle.std.specs.Prelude.{◌≡◌, ◌≤◌, IfOk, length, string_bytes};
ghost use Rattle.lft_ir.specs.Steps.Fits.{RowsFit};
ghost use Rattle.lft_races.specs.Races.{FirstSoFar};
ghost use Rattle.lft_log.specs.Explain.Reasons.{AreReasonsSoFar, GuessesSoFar, trace_heading_words, is_of_end};

use lft_ir::steps::Rows;
use lft_load::push_field;
use lft_model::{Breach, Plan};
use lft_races::hints::{Hint, hint_of, tell_hint};
use lft_report::explain;
use lft_tag::NoMemory;
use std::alloc::{AllocError, Global};

/// Whether a hint takes the last row for the end of the execution.
fn is_of_end(hint: Hint) -> bool
    ensures { result ≡ is_of_end hint }
{
    matches!(
        hint,
        Hint::TraceEnds | Hint::NoRows | Hint::NoEnds | Hint::RunsAtStop
    )
}

/// What a breach usually comes of, as a guess; nothing where no hint holds, or one of the end.
fn guess(alloc: Global, plan: &Plan, rows: &Rows, breach: Breach) -> Result<String, NoMemory>
    requires fit { RowsFit plan.now.program rows.now }
    requires first { FirstSoFar plan.now rows.now breach }
    ensures { IfOk result (λ text. GuessesSoFar plan.now rows.now breach (string_bytes text)) }
{
    let Some(hint) = hint_of(alloc, plan, rows, breach)? else {
        return Ok(String::new(alloc));
    };
    if is_of_end(hint) {
        return Ok(String::new(alloc));
    }
    let text = tell_hint(alloc, hint)?;
    Ok(text)
}

/// The heading: up to which line the trace is told of.
fn heading(alloc: Global, rows: &Rows) -> Result<String, AllocError>
    requires { length rows.now ≤ 4000000 }
    ensures { IfOk result (λ text. string_bytes text ≡ trace_heading_words rows.now) }
{
    let mut text = String::new(alloc);
    let line = rows.as_slice().len() as u64 + 1;
    push_field(&mut text, "\nOf the trace up to line ", line)?;
    text.push_str(":\n\n")?;
    Ok(text)
}

/// A heading, the facts behind a breach, and behind them a guess. Of the facts all are told, or the first lines of
/// each part.
pub(crate) fn reasons(
    alloc: Global,
    plan: &Plan,
    rows: &Rows,
    breach: Breach,
    all: bool,
) -> Result<Vec<u8>, NoMemory>
    requires fit { RowsFit plan.now.program rows.now }
    requires first { FirstSoFar plan.now rows.now breach }
    ensures { IfOk result (λ text. AreReasonsSoFar all plan.now rows.now breach text.items) }
{
    let heading = heading(alloc, rows)?;
    let why = explain(alloc, plan, rows, breach, all)?;
    let guess = guess(alloc, plan, rows, breach)?;
    let mut text = Vec::from_slice(alloc, heading.as_bytes())?;
    text.extend_from_slice(why.as_slice())?;
    text.extend_from_slice(guess.as_bytes())?;
    Ok(text)
}
