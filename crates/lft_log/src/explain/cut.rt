//! The rows behind which a breach is sure.

ghost use Rattle.std.specs.Prelude.{◌<◌, ℕ, IfOk, IfSome, MatchOption};
ghost use Rattle.lft_ir.specs.{Parts.Parts, Steps.Fits.RowsFit};
ghost use Rattle.lft_log.specs.{Explain.Cuts.{IsCutBehind, IsEndBehind}, inner.Explain.Cuts.IsCutOf};

use lft_ir::steps::{Row, Rows, row_at};
use lft_model::Breach;
use lft_tag::NoMemory;
use std::alloc::Global;

/// How many rows there are up to the one at a later tag: with it where a run has no end, else without it.
fn end_behind(breach: Breach, place: usize) -> usize
    requires { place < 18446744073709551615 }
    ensures { IsEndBehind breach place result }
{
    // That a run has no end is sure once a later tag has begun, and the row of that shows it.
    if breach.rule == 5 { place + 1 } else { place }
}

/// How many rows there are up to the one behind which the breach is sure, if they are there: its own is the
/// last, where it breaks one of the rules 1 to 4; of rule 5 the first at a later tag, else the last before it.
fn end_of_cut(rows: &[Row], breach: Breach) -> Option<usize>
    ensures { MatchOption result ((n : ℕ) → ¬ IsCutBehind rows.now breach n) (IsCutBehind rows.now breach) }
{
    let line = breach.row as usize;
    if breach.rule < 5 {
        return if line > 0 && line - 1 <= rows.len() {
            Some(line - 1)
        } else {
            None
        };
    }
    // From the row behind its own on. A breach of a whole tag has the line 0: then from the first row on.
    for place in line.saturating_sub(1)..rows.len() {
        if breach.tag.is_before(row_at(rows, place).tag) {
            return Some(end_behind(breach, place));
        }
    }
    None
}

/// The rows up to the one behind which the breach is sure, if they are there.
pub(crate) fn cut_at(alloc: Global, rows: &[Row], breach: Breach) -> Result<Option<Rows>, NoMemory>
    ensures cut { IfOk result (IsCutOf rows.now breach) }
    ensures fit { (program : Parts) → RowsFit program rows.now → IfOk result (λ o. IfSome o (RowsFit program)) }
{
    match end_of_cut(rows, breach) {
        Some(end) => {
            let first = Vec::from_slice(alloc, &rows[..end])?;
            Ok(Some(Rows::from_vec(first)))
        }
        None => Ok(None),
    }
}
