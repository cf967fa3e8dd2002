//! What makes the stop.

ghost use Rattle.std.specs.Prelude.{IfSome};
ghost use Rattle.lft_ir.specs.Steps.Fits.{RowsFit};
ghost use Rattle.lft_model.specs.declared.breach.Breach.{Breach as TheBreach};
ghost use Rattle.lft_facts.specs.{Reasons.IsReason, Enough.IsOwnReason};

use crate::facts::Reason;
use lft_ir::steps::{Row, is_stop, row_at};
use lft_model::{Plan, trace_stop};

/// The stop, and what makes it: the external inputs, or else the first row that asks for it.
pub(crate) fn stop_reason(plan: &Plan, rows: &[Row]) -> Option<Reason>
    requires { RowsFit plan.now.program rows.now }
    ensures holds { IfSome result (IsReason plan.now rows.now) }
    ensures own { (b : TheBreach) → IfSome result (IsOwnReason b) }
{
    let tag = trace_stop(plan, rows);
    if tag.is_same(plan.externals().stop()) {
        return Some(Reason::StopGiven { tag });
    }
    for place in 0..rows.len() {
        let row = row_at(rows, place);
        if is_stop(&row.step) && row.tag.after(0, 0).is_same(tag) {
            let row = place as u32;
            return Some(Reason::StopAsked { tag, row });
        }
    }
    None
}
