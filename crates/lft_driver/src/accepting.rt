//! Verdicts on traces that are accepted after a short look.

ghost use Rattle.std.specs.Prelude.{◌≡◌, IfSome};
ghost use Rattle.lft_ir.specs.Steps.Fits.{RowsFit};
ghost use Rattle.lft_check.specs.{declared.verdict.Verdict.TheVariants.Accepted, Verdicts.IsVerdict};
ghost use Rattle.lft_driver.specs.inner.Accepting.{IsRight};

use lft_check::Verdict;
use lft_ir::steps::Rows;
use lft_model::Plan;
use lft_stream::RunCounts;
use lft_stream::batches::{accepts_reader, accepts_rows};
use std::alloc::Global;

/// The verdict on rows that are accepted with these counts.
pub(crate) fn accepted_by(counts: RunCounts) -> Verdict
    ensures { result ≡ Accepted counts.runs counts.tags }
{
    Verdict::Accepted {
        runs: counts.runs,
        tags: counts.tags,
    }
}

/// The verdict on rows that are known to be legal after going through them tag by tag. None says
/// nothing of them: then the checker judges them.
pub(crate) fn accepted(alloc: Global, plan: &Plan, rows: &Rows) -> Option<Verdict>
    requires fit { RowsFit plan.now.program rows.now }
    ensures { IfSome result (IsVerdict plan.now rows.now) }
{
    let counts = accepts_rows(alloc, plan, rows)?;
    Some(accepted_by(counts))
}

/// The verdict on a trace table that is accepted from its text, by one worker. None says nothing of it: then
/// the checker judges it.
pub(crate) fn accepted_text(alloc: Global, plan: &Plan, trace: &[u8]) -> Option<Verdict>
    ensures { IfSome result (IsRight plan.now trace.now) }
{
    match accepts_reader(alloc, plan, trace) {
        Ok(Some(counts)) => Some(accepted_by(counts)),
        // A failure of the look says nothing of the trace either: the checker reads the text anew.
        _ => None,
    }
}
