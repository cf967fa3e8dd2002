//! The line of a log, and the facts behind a broken rule.

ghost use Rattle.std.specs.Prelude.{◌≡◌, ◌≢◌, ◌∷◌, ◌++◌, [], IfErr, IfOk, IfSome};
ghost use Rattle.std.specs.Io.KnownBytes.{Keeps};
ghost use Rattle.lft_ir.specs.Steps.Fits.{RowsFit};
ghost use Rattle.lft_monitor.specs.Follows.{breach_of};
ghost use Rattle.lft_log.specs.{Logs.HasManyRows, Follow.Reaches.{OfReadReaches, WritesOrFails}};
ghost use Rattle.lft_log.specs.Explain.{Explained.{ExplainsCut, ExplainsFirst, IsLogExplainedUnder, IsLack, IsLogCut}, Refusals.ExplainLogRefusalUnder};
ghost use Rattle.lft_log.specs.inner.Explain.Explained.{IsListOf, IsLongKept, IsReasonOf, IsTextBehind};
ghost use Rattle.lft_load.specs.declared.fault.Part.TheVariants as part;

use crate::explain::cut::cut_at;
use crate::explain::first::is_first_so_far;
use crate::explain::listed::lines_of_runs;
use crate::explain::reasons::reasons;
use crate::follow::{Ended, Final, Following, Kept, Told, follow_plan};
use crate::rows_of_log;
use lft_ir::steps::Rows;
use lft_load::{Fault, write_text};
use lft_model::{Breach, Plan};
use lft_monitor::{BrokenRule, Ending, StillOpen};
use lft_tag::NoMemory;
use std::alloc::Global;
use std::io::{Read, Write};

/// Why nothing stands behind a line that should have more behind it.
#[derive(Clone, Copy, PartialEq, Eq, Debug)]
pub enum Unexplained {
    /// Of a breach: more was read than 4,000,000 rows or 2^30 bytes.
    TooLong,
    /// A growth of memory was refused.
    NoMemory,
}

impl From<NoMemory> for Unexplained {
    ghost use Rattle.std.specs.Prelude.{◌≡◌};
    ghost use Rattle.lft_log.specs.declared.explain.explaining.Unexplained.TheVariants.{NoMemory};

    ghost from_gives = { λ _ why. why ≡ NoMemory };

    fn from(_error: NoMemory) -> Unexplained {
        Unexplained::NoMemory
    }
}

/// What is told of a log, with what explains it.
#[derive(Clone, Copy)]
pub struct Explained {
    pub told: Final,
    /// Why what is to stand behind the line doesn't stand there.
    pub unexplained: Option<Unexplained>,
}

/// The same breach, where its line is one of a table.
fn breach_in_table(found: BrokenRule) -> Option<Breach>
    ensures { IfSome result (λ breach. breach ≡ breach_of found) }
{
    if found.line > u64::from(u32::MAX) {
        return None;
    }
    Some(Breach {
        rule: found.rule,
        tag: found.tag,
        reaction: found.reaction,
        row: found.line as u32,
    })
}

/// The rows of a log up to the one behind which the breach is sure; the plan becomes the one that the log
/// tells. At the end they may be all: where no row is missing, none behind them is needed.
// Rows behind the tag of the breach aren't all there. Rows that are kept while something waits for them would need
// other facts, with proofs of their own.
fn cut_of(
    alloc: Global,
    plan: &mut Plan,
    log: &[u8],
    breach: Breach,
    at_end: bool,
) -> Result<Rows, Unexplained>
    ensures cut { IfOk result (IsLogCut at_end plan.old log.now plan.new breach) }
    ensures fit { IfOk result (RowsFit plan.new.program) }
    ensures long { IfErr result (λ why. why ≡ Unexplained.TooLong → HasManyRows plan.old.program (log.now ++ 10 ∷ [])) }
{
    // What was told of a log was told of these rows. So they have a header, and the row behind which the
    // breach is sure, unless too many rows or too little memory cut them short.
    let Some(first) = rows_of_log(alloc, plan, log)? else {
        return Err(Unexplained::NoMemory);
    };
    match cut_at(alloc, first.rows.as_slice(), breach)? {
        Some(rows) => Ok(rows),
        None if first.is_cut => Err(Unexplained::TooLong),
        None if at_end => Ok(Rows::from_vec(first.rows)),
        None => Err(Unexplained::NoMemory),
    }
}

/// What explains a breach of these rows, where it is their first.
fn reasons_of_first(
    alloc: Global,
    plan: &Plan,
    rows: &Rows,
    breach: Breach,
    all: bool,
) -> Result<Vec<u8>, NoMemory>
    requires fit { RowsFit plan.now.program rows.now }
    ensures { IfOk result (λ text. ExplainsFirst all plan.now rows.now breach text.items) }
{
    if is_first_so_far(alloc, plan, rows, breach)? {
        reasons(alloc, plan, rows, breach, all)
    } else {
        Ok(Vec::new(alloc))
    }
}

/// What explains a breach that is told of a log.
fn reasons_of_log(
    alloc: Global,
    plan: &mut Plan,
    log: &[u8],
    found: BrokenRule,
    at_end: bool,
    all: bool,
) -> Result<Vec<u8>, Unexplained>
    ensures text { IfOk result (λ text. ExplainsCut all at_end plan.old log.now (breach_of found) text.items) }
    ensures long { IfErr result (λ why. why ≡ Unexplained.TooLong → HasManyRows plan.old.program (log.now ++ 10 ∷ [])) }
{
    // So few bytes as are kept have no such line.
    let Some(breach) = breach_in_table(found) else {
        return Err(Unexplained::NoMemory);
    };
    let rows = cut_of(alloc, plan, log, breach, at_end)?;
    let text = reasons_of_first(alloc, plan, &rows, breach, all)?;
    Ok(text)
}

/// What explains a breach that is told of a log, of which all may be kept.
fn reasons_of_kept(
    alloc: Global,
    plan: &mut Plan,
    kept: Kept,
    found: BrokenRule,
    at_end: bool,
    all: bool,
) -> Result<Vec<u8>, Unexplained>
    ensures text { IfOk result (λ text. IsReasonOf at_end plan.old kept found all text.items) }
    ensures long { IfErr result (λ why. why ≡ Unexplained.TooLong → IsLongKept plan.old kept) }
{
    match kept {
        Kept::All(log) => reasons_of_log(alloc, plan, log.as_slice(), found, at_end, all),
        Kept::TooLong => Err(Unexplained::TooLong),
        Kept::Nothing => Err(Unexplained::NoMemory),
    }
}

/// The lines of the runs that are open at the end.
fn lines_of_open(
    alloc: Global,
    plan: &Plan,
    still_open: Result<Vec<StillOpen>, NoMemory>,
) -> Result<Vec<u8>, NoMemory>
    ensures { IfOk result (λ text. IsListOf plan.now still_open text.items) }
{
    let runs = still_open?;
    let text = lines_of_runs(alloc, plan.program(), runs.as_slice())?;
    Ok(text)
}

/// What is to stand behind the line of what is told: what explains a breach, or the runs that are open at the
/// end.
fn text_behind(
    alloc: Global,
    plan: &mut Plan,
    kept: Kept,
    ended: Ended,
    all: bool,
) -> Result<Vec<u8>, Unexplained>
    ensures text { IfOk result (λ text. IsTextBehind all plan.old kept ended text.items) }
    ensures lack { IfErr result (IsLack (IsLongKept plan.old kept) ended.told) }
{
    match ended.told {
        Final::Soon(Told::Broken(found)) => reasons_of_kept(alloc, plan, kept, found, false, all),
        Final::AtEnd(Ending::Broken(found)) => reasons_of_kept(alloc, plan, kept, found, true, all),
        // So a run that hangs is named.
        Final::AtEnd(Ending::Unbroken(_)) => {
            let text = lines_of_open(alloc, plan, ended.still_open)?;
            Ok(text)
        }
        _ => Ok(Vec::new(alloc)),
    }
}

/// Follows the log of a reader under a plan as `follow_plan` does, and writes more behind the line. Behind that
/// of a broken rule stand the facts that explain it: all, or the first lines of each part. They are of the rows
/// up to the one behind which the breach is sure, as their heading says. Nothing stands there where the breach
/// isn't the first of these rows: a row that breaks rule 1 asks for a stop before an earlier row. Behind the
/// line of rows that end without a breach, and of which some are missing, stand the runs that are open. The line
/// is written before these are looked for. For the facts what is read is kept, as far as `follow_plan` keeps it,
/// and a copy of the plan. The faults are those of `follow_plan`.
pub fn explain_log_plan<R: Read, W: Write, E: Write>(
    alloc: Global,
    plan: Plan,
    path: &str,
    reader: &mut R,
    following: Following,
    all: bool,
    out: &mut W,
    errors: &mut E,
) -> Result<Explained, Fault>
    ensures explained { IfOk result (IsLogExplainedUnder plan following.until following.whole all (R.remaining reader.old) (R.remaining reader.new) (W.contents out.old) (W.contents out.new)) }
    ensures refused { IfErr result (ExplainLogRefusalUnder plan path.now following.until following.whole all (R.remaining reader.old) (R.remaining reader.new) (W.contents out.old) (W.contents out.new)) }
    ensures kept { IfErr result (λ f. f.part ≢ part.Write → Keeps (W.contents out.old) (W.contents out.new)) }
    ensures every { OfReadReaches plan following.every (R.remaining reader.old) (R.remaining reader.new) (WritesOrFails result (E.contents errors.old) (E.contents errors.new)) }
{
    // The log tells the plan more, and its rows are read once more under the plan as it was.
    let Ok(mut before) = plan.copy(alloc) else {
        return Err(Fault::no_memory());
    };
    // A pipe can't be opened again, so what is read is kept. It is read once more as a whole, so there is one
    // way to facts.
    let mut kept = Kept::All(Vec::new(alloc));
    let ended = match follow_plan(alloc, plan, path, reader, following, &mut kept, out, errors) {
        Ok(ended) => ended,
        Err(fault) => return Err(fault),
    };
    let told = ended.told;
    let text = match text_behind(alloc, &mut before, kept, ended, all) {
        Ok(text) => text,
        Err(why) => {
            return Ok(Explained {
                told,
                unexplained: Some(why),
            });
        }
    };
    match write_text(text.as_slice(), out) {
        Ok(()) => Ok(Explained {
            told,
            unexplained: None,
        }),
        Err(fault) => Err(fault),
    }
}
