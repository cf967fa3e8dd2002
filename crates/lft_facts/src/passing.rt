//! Rule 9: reactions on the way from one to another that have no run at the tag.

ghost use Rattle.std.specs.Prelude.{◌≡◌, List, IfSome, OnOk};
ghost use Rattle.lft_ir.specs.declared.steps.row.Row.{Row as TheRow};
ghost use Rattle.lft_model.specs.{declared.breach.Breach.Breach as TheBreach, Plans.PlanParts};
ghost use Rattle.lft_graph.specs.Precedence.{Precedes};
ghost use Rattle.lft_facts.specs.{Facts.{IsFact, AreFacts}, Reasons.IsReason, inner.Enough.Adds, Enough.IsOwnReason};
ghost use Rattle.lft_races.specs.inner.Runs.{HaveRun};

use crate::adding::add;
use crate::facts::{Fact, Reason};
use lft_lists::item_at;
use lft_tag::{NoMemory, Tag};

/// The two reactions of the step, if it is one.
fn ends_of(step: Fact) -> Option<(u32, u32)>
    ensures { (plan : PlanParts) (t : List TheRow) → IsFact plan t step → IfSome result (λ ends. Precedes plan.program ends.0 ends.1) }
{
    match step {
        Fact::DeclaredFirst { first, second } => Some((first, second)),
        Fact::Feeds { writer, reader, .. } => Some((writer, reader)),
        _ => None,
    }
}

/// That the reaction with which the step begins has no run at the tag, where it has none.
fn passed_by(tag: Tag, ran: &[bool], step: Fact) -> Option<Reason>
    ensures holds { (plan : PlanParts) (t : List TheRow) → IsFact plan t step → HaveRun t tag ran.now → IfSome result (IsReason plan t) }
    ensures own { (b : TheBreach) → b.tag ≡ tag → IfSome result (IsOwnReason b) }
{
    let (reaction, next) = ends_of(step)?;
    // No clause says here that the steps are of reactions with a mark.
    if (reaction as usize) < ran.len() && !ran[reaction as usize] {
        Some(Reason::PassedBy {
            tag,
            reaction,
            next,
        })
    } else {
        None
    }
}

/// Puts which reactions on the way have no run at the tag behind the steps.
pub(crate) fn add_passed_by(tag: Tag, ran: &[bool], facts: &mut Vec<Fact>) -> Result<(), NoMemory>
    ensures { OnOk result ((b : TheBreach) (plan : PlanParts) (t : List TheRow) → b.tag ≡ tag → AreFacts plan t facts.old.items → HaveRun t tag ran.now → Adds b plan t facts.old.items facts.new.items) }
{
    // Counted before, since what is put behind the steps is none.
    let count = facts.len();
    for place in 0..count {
        let step = item_at(facts.as_slice(), place);
        add(facts, passed_by(tag, ran, step))?;
    }
    Ok(())
}
