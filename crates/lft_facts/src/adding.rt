//! Reasons behind facts.

ghost use Rattle.std.specs.Prelude.{◌≤◌, List, length, IfSome, OnOk};
ghost use Rattle.lft_ir.specs.declared.steps.row.Row.{Row as TheRow};
ghost use Rattle.lft_model.specs.{declared.breach.Breach.Breach as TheBreach, Plans.PlanParts};
ghost use Rattle.lft_facts.specs.{Reasons.IsReason, inner.Enough.Adds, Enough.IsOwnReason};

use crate::facts::{Fact, Reason};
use lft_tag::NoMemory;

/// Puts the reason, if there is one, behind the facts.
pub(crate) fn add(facts: &mut Vec<Fact>, reason: Option<Reason>) -> Result<(), NoMemory>
    ensures long { OnOk result (length facts.old.items ≤ length facts.new.items) }
    ensures adds { OnOk result ((b : TheBreach) (plan : PlanParts) (t : List TheRow) → IfSome reason (IsReason plan t) → IfSome reason (IsOwnReason b) → Adds b plan t facts.old.items facts.new.items) }
{
    if let Some(reason) = reason {
        facts.push(Fact::Reason(reason))?;
    }
    Ok(())
}
