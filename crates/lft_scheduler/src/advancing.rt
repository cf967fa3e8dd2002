//! On to the next tag at which a reaction is triggered.

ghost use Rattle.std.specs.Prelude.{◌≡◌, ◌≤◌, ◌<◌, length, Some, IfSome, List, Contains};
ghost use Rattle.lft_tag.specs.{declared.Tag.Tag as TagOf, Tags.{Before, UpTo}};
ghost use Rattle.lft_ir.specs.{Parts.Parts, declared.steps.row.Row.Row as RowOf};
ghost use Rattle.lft_queue.specs.Pending.{Pending};
ghost use Rattle.lft_scheduler.specs.inner.{Listeners.AreListeners, Waits.{IsBetween, IsFoundUpTo}, Telling.TriggeredByQueue, Firings.AreFirstFirings};
ghost use Rattle.lft_scheduler.specs.inner.Agendas.{MayAdvance, IsReached, IsCurrent};

use crate::firings::Firings;
use crate::listeners::Listeners;
use crate::telling::tell;
use crate::turn::Turn;
use lft_model::Plan;
use lft_queue::Queue;
use lft_tag::Tag;

// The lesser of the tag, if there is one after the first and up to the stop, and the least so far.
fn sooner(least: Option<Tag>, from: Tag, stop: Tag, other: Option<Tag>) -> Option<Tag>
    requires between { IfSome least (IsBetween from stop) }
    ensures between { IfSome result (IsBetween from stop) }
    ensures covers { (g : TagOf) → other ≡ Some g → IsBetween from stop g → IsFoundUpTo result g }
    ensures more { (h : TagOf) → IsFoundUpTo least h → IsFoundUpTo result h }
{
    let Some(tag) = other else {
        return least;
    };
    if !from.is_before(tag) {
        return least;
    }
    if stop.is_before(tag) {
        return least;
    }
    let Some(earlier) = least else {
        return Some(tag);
    };
    if earlier.is_before(tag) {
        return least;
    }
    Some(tag)
}

// A tag after this one and up to the stop, and none between the two has a reaction that is
// triggered; None where none after this one has. The events are all later than it, and the firings
// are the first ones after it.
fn next_tag(firings: &Firings, queue: &Queue, from: Tag, stop: Tag) -> Option<Tag>
    requires later { (e : Pending) → Contains queue.now e → Before from e.tag }
    ensures between { IfSome result (IsBetween from stop) }
    ensures covers { (program : Parts) → AreFirstFirings program (λ h. Before from h) firings.now → (h : TagOf) (r : _) → TriggeredByQueue program queue.now stop h r → Before from h → UpTo h stop → IsFoundUpTo result h }
{
    let by_stop = sooner(None, from, stop, Some(stop));
    let by_events = sooner(by_stop, from, stop, queue.first_tag());
    sooner(by_events, from, stop, firings.first_tag())
}

// The microstep of the tag.
fn micro_of(tag: Tag) -> u32
    ensures same { result ≡ tag.micro }
    ensures fits { result < 4294967296 }
{
    tag.micro
}

/// Where no run is open: on to the least tag from this one on at which a reaction is pending. The
/// queue loses the events before it. Gives the tag that was reached; where nothing is left to run
/// up to the stop, nothing waits there.
pub(crate) fn advance(
    turn: &mut Turn,
    queue: &mut Queue,
    firings: &mut Firings,
    listeners: &Listeners,
    plan: &Plan,
    from: Tag,
    stop: Tag,
) -> Tag
    requires listeners { AreListeners plan.now.program listeners.now }
    requires phases { length turn.old.phases ≡ length plan.now.program.reactions }
    requires from { from.time ≤ 1000000000000000000 }
    requires stop { stop.time ≤ 1000000000000000000 }
    requires firings { AreFirstFirings plan.now.program (λ h. Before from h) firings.old }
    ensures time { result.time ≤ 1000000000000000000 }
    ensures firings { AreFirstFirings plan.now.program (λ h. Before result h) firings.new }
    ensures phases { length turn.new.phases ≡ length turn.old.phases }
    ensures current { (t : List RowOf) → MayAdvance plan.now t stop → IsReached plan.now t from stop turn.old queue.old → IsCurrent plan.now t result stop turn.new queue.new }
{
    // Asked for what every plan keeps: it is sound, so that what is triggered is what is pending.
    plan.keeps();
    let mut reached = from;
    'tags: loop {
        // Asked for what a microstep is: a 32-bit number, so that the tags of one time have an end.
        let _micro = micro_of(reached);
        if turn.first().is_some() {
            return reached;
        }
        queue.drop_until(reached);
        let Some(next) = next_tag(firings, queue, reached, stop) else {
            return reached;
        };
        reached = next;
        tell(turn, firings, listeners, plan, queue, reached, stop);
    }
}
