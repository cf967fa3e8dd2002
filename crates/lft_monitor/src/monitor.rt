//! Rows that come one after another, of which nothing is broken so far.

ghost use Rattle.std.specs.Prelude.{◌≡◌, ◌<◌, ◌-◌, List, ◌++◌, length, Some, IsTrue, slice_get};
ghost use Rattle.lft_tag.specs.Tags.{after};
ghost use Rattle.lft_ir.specs.{declared.steps.row.Row.Row as TheRow, Steps.Fits.RowsFit};
ghost use Rattle.lft_stream.specs.inner.Kept.{IsAcceptorOf, KeepRules};
ghost use Rattle.lft_monitor.specs.Sure.{IsUnbroken};

use lft_ir::steps::{Row, row_at};
use lft_model::Plan;
use lft_stream::Acceptor;
use std::alloc::Global;

/// Adds rows. With `is_kept` they are known to break none of the rules 1 to 5, and aren't asked for these.
fn add_rows(
    acceptor: &mut Acceptor,
    alloc: Global,
    plan: &Plan,
    rows: &[Row],
    is_kept: bool,
) -> bool
    requires fit { RowsFit plan.now.program rows.now }
    requires kept { IsTrue is_kept → KeepRules plan.now rows.now }
    requires stands { (done : List TheRow) × IsAcceptorOf plan.now done acceptor.old }
    ensures { IsTrue result → (done : List TheRow) → IsAcceptorOf plan.now done acceptor.old → IsAcceptorOf plan.now (done ++ rows.now) acceptor.new }
{
    if is_kept {
        acceptor.add_kept(plan, rows)
    } else {
        acceptor.add(alloc, plan, rows)
    }
}

/// Adds rows of whole tags. Where it is true nothing is broken up to the tag of the last row, whatever rows
/// come at later tags. Where it is false the rows may break a rule, or too much is to be looked at, or memory
/// is refused.
pub(crate) fn add_tags(
    acceptor: &mut Acceptor,
    alloc: Global,
    plan: &Plan,
    rows: &[Row],
    is_kept: bool,
) -> bool
    requires fit { RowsFit plan.now.program rows.now }
    requires some { 0 < length rows.now }
    requires kept { IsTrue is_kept → KeepRules plan.now rows.now }
    requires stands { (done : List TheRow) × IsAcceptorOf plan.now done acceptor.old }
    ensures stands { IsTrue result → (done : List TheRow) → IsAcceptorOf plan.now done acceptor.old → IsAcceptorOf plan.now (done ++ rows.now) acceptor.new }
    ensures unbroken { IsTrue result → (done : List TheRow) → IsAcceptorOf plan.now done acceptor.old → (x : TheRow) → slice_get rows.now (length rows.now - 1) ≡ Some x → IsUnbroken plan.now (done ++ rows.now) (after x.tag 0) }
{
    let last = row_at(rows, rows.len() - 1);
    let low = last.tag.after(0, 0);
    if !add_rows(acceptor, alloc, plan, rows, is_kept) {
        return false;
    }
    acceptor.is_timely(low)
}
