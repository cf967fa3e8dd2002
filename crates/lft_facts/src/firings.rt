//! When a timer fires just before and just after a tag at which it does not.

ghost use Rattle.std.specs.Prelude.{◌≡◌, ◌<◌, List, length, IfSome, OnOk};
ghost use Rattle.lft_ir.specs.declared.{parts.Trigger.TheVariants.Timer as TheTimer, steps.row.Row.Row as TheRow};
ghost use Rattle.lft_model.specs.{declared.breach.Breach.Breach as TheBreach, Plans.PlanParts, Presence.{Fires, Occurs}};
ghost use Rattle.lft_facts.specs.{Reasons.{IsNearest, IsReason}, inner.{Neighbours.{IsFiringBefore, IsFiringAfter}, Enough.Adds}, Enough.IsOwnReason};

use crate::adding::add;
use crate::facts::{Fact, Reason};
use lft_ir::steps::Row;
use lft_ir::{Timer, Trigger};
use lft_model::Plan;
use lft_tag::{NoMemory, Tag};

/// The last tag before this one at which the timer fires.
fn firing_before(timer: &Timer, tag: Tag) -> Option<Tag>
    requires { ¬ Fires timer.now tag }
    ensures { IfSome result (IsFiringBefore timer.now tag) }
{
    let first = Tag {
        time: timer.offset,
        micro: 0,
    };
    if !first.is_before(tag) {
        return None;
    }
    if timer.period == 0 {
        return Some(first);
    }
    // Where nothing is left over, the tag is at a later microstep: it isn't one of the timer's own.
    let since = (tag.time - timer.offset) % timer.period;
    Some(Tag {
        time: tag.time - since,
        micro: 0,
    })
}

/// The first tag after this one at which the timer fires.
fn firing_after(timer: &Timer, tag: Tag) -> Option<Tag>
    ensures { IfSome result (IsFiringAfter timer.now tag) }
{
    let first = Tag {
        time: timer.offset,
        micro: 0,
    };
    if tag.is_before(first) {
        return Some(first);
    }
    if timer.period == 0 {
        return None;
    }
    let since = (tag.time - timer.offset) % timer.period;
    // It fits for each tag and timer of a plan. Tested here, it needs no clause that says so.
    let time = (tag.time - since).checked_add(timer.period)?;
    Some(Tag { time, micro: 0 })
}

/// That the trigger is nearest to the tag at another one, if there is one.
fn nearest(tag: Tag, trigger: Trigger, at: Option<Tag>) -> Option<Reason>
    ensures holds { (plan : PlanParts) (t : List TheRow) → IfSome at (IsNearest plan t tag trigger) → IfSome result (IsReason plan t) }
    ensures own { (b : TheBreach) → b.tag ≡ tag → IfSome result (IsOwnReason b) }
{
    match at {
        Some(at) => Some(Reason::Nearest { tag, trigger, at }),
        None => None,
    }
}

/// Puts where the timer fires just before and just after the tag behind the facts.
pub(crate) fn add_firings(
    plan: &Plan,
    rows: &[Row],
    tag: Tag,
    number: u32,
    facts: &mut Vec<Fact>,
) -> Result<(), NoMemory>
    requires timer { number < length plan.now.program.timers }
    requires absent { ¬ Occurs plan.now rows.now tag (TheTimer number) }
    ensures { OnOk result ((b : TheBreach) → b.tag ≡ tag → Adds b plan.now rows.now facts.old.items facts.new.items) }
{
    let timer = plan.program().timer(number);
    let trigger = Trigger::Timer(number);
    add(facts, nearest(tag, trigger, firing_before(timer, tag)))?;
    add(facts, nearest(tag, trigger, firing_after(timer, tag)))?;
    Ok(())
}
