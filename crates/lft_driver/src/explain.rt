//! The verdict on three texts, and the facts behind a broken rule.

ghost use Rattle.std.specs.Prelude.{◌≡◌, ◌≢◌, true, OnOk, IfOk, IfErr, List, string_bytes};
ghost use Rattle.std.specs.Io.KnownBytes.{Keeps};
ghost use Rattle.lft_ir.specs.{Steps.Fits.RowsFit, declared.steps.row.Row.Row};
ghost use Rattle.lft_model.specs.{Plans.PlanParts, Workers.IsWorkers};
ghost use Rattle.lft_races.specs.Races.{FirstSoFar};
ghost use Rattle.lft_check.specs.Verdicts.{IsVerdict};
ghost use Rattle.lft_driver.specs.{Meaning.{IsNoTrace, Mean}, Judged.AcceptedRuns};
ghost use Rattle.lft_driver.specs.Explained.{Guesses, AreReasons, StandsBehind, IsExplanation, Writes, IsExplained, IsExplainedUnder, ExplainingRefusal, ExplainRefusal, ExplainRefusalUnder};
ghost use Rattle.lft_driver.specs.inner.Explained.{WriteRefusal};
ghost use Rattle.lft_load.specs.Refusals.{is_of_text};
ghost use Rattle.lft_load.specs.declared.fault.Part.TheVariants as part;

use crate::judge::{read_table, report, verdict_of};
use lft_check::Verdict;
use lft_ir::steps::Rows;
use lft_load::{Fault, load, write_text};
use lft_model::{Breach, Plan};
use lft_races::hints::{hint_of, tell_hint};
use lft_report::explain;
use lft_tag::NoMemory;
use std::alloc::Global;
use std::io::Write;
use std::thread::Threads;

/// What a breach usually comes of, as a guess; nothing where no hint holds.
fn guess(alloc: Global, plan: &Plan, rows: &Rows, breach: Breach) -> Result<String, NoMemory>
    requires fit { RowsFit plan.now.program rows.now }
    requires first { FirstSoFar plan.now rows.now breach }
    ensures { IfOk result (λ text. Guesses plan.now rows.now breach (string_bytes text)) }
{
    match hint_of(alloc, plan, rows, breach)? {
        Some(hint) => {
            let text = tell_hint(alloc, hint)?;
            Ok(text)
        }
        None => Ok(String::new(alloc)),
    }
}

/// An empty line, the facts behind a breach, and behind them a guess.
fn reasons(
    alloc: Global,
    plan: &Plan,
    rows: &Rows,
    breach: Breach,
    all: bool,
) -> Result<Vec<u8>, NoMemory>
    requires fit { RowsFit plan.now.program rows.now }
    requires first { FirstSoFar plan.now rows.now breach }
    ensures { IfOk result (λ text. AreReasons all plan.now rows.now breach text.items) }
{
    let why = explain(alloc, plan, rows, breach, all)?;
    let guess = guess(alloc, plan, rows, breach)?;
    let mut text = Vec::from_slice(alloc, b"\n")?;
    text.extend_from_slice(why.as_slice())?;
    text.extend_from_slice(guess.as_bytes())?;
    Ok(text)
}

/// Writes an empty line and what explains a breach.
pub(crate) fn write_reasons<W: Write>(
    alloc: Global,
    plan: &Plan,
    rows: &Rows,
    breach: Breach,
    all: bool,
    out: &mut W,
) -> Result<(), Fault>
    requires fit { RowsFit plan.now.program rows.now }
    requires first { FirstSoFar plan.now rows.now breach }
    ensures written { OnOk result (Writes (AreReasons all plan.now rows.now breach) (W.contents out.old) (W.contents out.new)) }
    ensures refused { IfErr result (WriteRefusal (AreReasons all plan.now rows.now breach) (W.contents out.old) (W.contents out.new)) }
{
    // The text is put together before it is written, so that a refused growth cuts no text.
    match reasons(alloc, plan, rows, breach, all) {
        Ok(text) => write_text(text.as_slice(), out),
        Err(_) => Err(Fault::no_memory()),
    }
}

/// Writes what stands behind the line of a verdict.
fn write_behind<W: Write>(
    alloc: Global,
    plan: &Plan,
    rows: &Rows,
    verdict: Verdict,
    all: bool,
    out: &mut W,
) -> Result<(), Fault>
    requires fit { RowsFit plan.now.program rows.now }
    requires verdict { IsVerdict plan.now rows.now verdict }
    ensures written { OnOk result (Writes (StandsBehind all plan.now rows.now verdict) (W.contents out.old) (W.contents out.new)) }
    ensures refused { IfErr result (WriteRefusal (StandsBehind all plan.now rows.now verdict) (W.contents out.old) (W.contents out.new)) }
{
    match verdict {
        Verdict::Accepted { .. } => Ok(()),
        Verdict::Broken(breach) => write_reasons(alloc, plan, rows, breach, all, out),
    }
}

/// Judges rows by so many workers, and writes the verdict's line. Then it looks for what explains it, and
/// writes that.
// Places that are kept while judging would spare the search, and each accepted trace would pay for them.
fn explain_rows<W: Write, R: Threads + Sync>(
    rt: &R,
    alloc: Global,
    plan: &Plan,
    rows: &Rows,
    workers: u32,
    all: bool,
    out: &mut W,
) -> Result<Verdict, Fault>
    requires fit { RowsFit plan.now.program rows.now }
    ensures verdict { IfOk result (IsVerdict plan.now rows.now) }
    ensures one_worker { IfOk result (AcceptedRuns plan.now rows.now) }
    ensures workers { OnOk result (IsWorkers workers) }
    ensures written { IfOk result (λ v. Writes (IsExplanation all plan.now rows.now v) (W.contents out.old) (W.contents out.new)) }
    ensures refused { IfErr result (ExplainingRefusal all plan.now rows.now workers (W.contents out.old) (W.contents out.new)) }
{
    // No `?` here and below: a clause speaks of the fault, and by a `match` its proof has it by name.
    let verdict = match verdict_of(rt, alloc, plan, rows, workers) {
        Ok(verdict) => verdict,
        Err(fault) => return Err(fault),
    };
    // The line comes first: the facts of a large trace want more memory than the verdict, and the line isn't
    // lost with them.
    match report(alloc, plan.program(), verdict, out) {
        Ok(()) => {}
        Err(fault) => return Err(fault),
    }
    match write_behind(alloc, plan, rows, verdict, all, out) {
        Ok(()) => Ok(verdict),
        Err(fault) => Err(fault),
    }
}

/// Judges a trace table of a plan by so many workers, and writes the verdict's line and what explains it,
/// as `explain_texts` does.
pub fn explain_plan<W: Write, R: Threads + Sync>(
    rt: &R,
    alloc: Global,
    plan: &Plan,
    trace: &[u8],
    workers: u32,
    all: bool,
    out: &mut W,
) -> Result<Verdict, Fault>
    ensures explained { IfOk result (IsExplainedUnder all plan.now trace.now (W.contents out.old) (W.contents out.new)) }
    ensures workers { OnOk result (IsWorkers workers) }
    ensures refused { IfErr result (ExplainRefusalUnder all plan.now trace.now workers (W.contents out.old) (W.contents out.new)) }
    ensures none { IfErr result (λ f. is_of_text f.part f.number ≡ true → IsNoTrace plan.now.program trace.now) }
    ensures kept { IfErr result (λ f. f.part ≢ part.Write → f.part ≢ part.Memory → Keeps (W.contents out.old) (W.contents out.new)) }
{
    // Read in any case, since facts are looked for among rows.
    match read_table(rt, alloc, plan, trace, workers) {
        Ok(rows) => explain_rows(rt, alloc, plan, &rows, workers, all, out),
        Err(fault) => Err(fault),
    }
}

/// Judges as `judge_texts` does, and writes behind the line of a broken rule an empty line and the
/// facts that explain it: all, or the first lines of each part. The line is written before the facts
/// are looked for. Where memory is refused then, the fault is `memory` 1 `NoMemory`, and the line alone
/// was written.
pub fn explain_texts<W: Write, R: Threads + Sync>(
    rt: &R,
    alloc: Global,
    program: &[u8],
    externals: &[u8],
    trace: &[u8],
    workers: u32,
    all: bool,
    out: &mut W,
) -> Result<Verdict, Fault>
    ensures explained { IfOk result (IsExplained all program.now externals.now trace.now (W.contents out.old) (W.contents out.new)) }
    ensures workers { OnOk result (IsWorkers workers) }
    ensures refused { IfErr result (ExplainRefusal all program.now externals.now trace.now workers (W.contents out.old) (W.contents out.new)) }
    ensures none { IfErr result (λ f. is_of_text f.part f.number ≡ true → (plan : PlanParts) (rows : List Row) → Mean program.now externals.now trace.now plan rows → ⊥) }
    ensures kept { IfErr result (λ f. f.part ≢ part.Write → f.part ≢ part.Memory → Keeps (W.contents out.old) (W.contents out.new)) }
{
    match load(alloc, program, externals) {
        Ok(plan) => explain_plan(rt, alloc, &plan, trace, workers, all, out),
        Err(fault) => Err(fault),
    }
}
