//! Rules 1 and 5: a run that is open when a row at a later tag comes.

ghost use Rattle.std.specs.Prelude.{◌≡◌, ◌+◌, ◌<◌, ◌≤◌, length, IfSome};
ghost use Rattle.lft_model.specs.{declared.breach.Breach.Breach as TheBreach, Plans.PlanParts};
ghost use Rattle.lft_facts.specs.{Reasons.IsReason, Enough.IsOwnReason};

use crate::facts::Reason;
use lft_ir::steps::{Row, row_at};
use lft_races::open_across;

/// That the run of the row was open when the first row at a later tag came.
pub(crate) fn across(rows: &[Row], row: u32) -> Option<Reason>
    requires { row < length rows.now }
    ensures holds { IfSome result (λ c. (plan : PlanParts) → IsReason plan rows.now c) }
    ensures own { IfSome result (λ c. (b : TheBreach) → b.row ≡ row + 2 → IsOwnReason b c) }
{
    let (start, later) = open_across(rows, row)?;
    Some(Reason::OpenAcross { row, start, later })
}

/// The first row behind this one that is at a later tag.
pub(crate) fn later_tag(rows: &[Row], row: u32) -> Option<Reason>
    requires few { length rows.now ≤ 4000000 }
    requires row { row < length rows.now }
    ensures holds { IfSome result (λ c. (plan : PlanParts) → IsReason plan rows.now c) }
    ensures own { IfSome result (λ c. (b : TheBreach) → b.row ≡ row + 2 → IsOwnReason b c) }
{
    let tag = row_at(rows, row as usize).tag;
    for place in row as usize + 1..rows.len() {
        if tag.is_before(row_at(rows, place).tag) {
            let later = place as u32;
            return Some(Reason::LaterTag { row, later });
        }
    }
    None
}
