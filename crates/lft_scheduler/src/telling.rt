//! The reactions that are triggered at a tag are told.

ghost use Rattle.std.specs.Prelude.{◌≡◌, ◌≤◌, length, IsSome, IsTrue};
ghost use Rattle.lft_tag.specs.Tags.{Before, UpTo};
ghost use Rattle.lft_ir.specs.declared.parts.Name.{Name as NameOf};
ghost use Rattle.lft_scheduler.specs.inner.{Listeners.{IsListener, AreListeners}, Telling.{IsTold, FiresAt, TriggeredByQueue}, Firings.AreFirstFirings};
ghost use Rattle.lft_queue.specs.Pending.{value_of};

use crate::firings::Firings;
use crate::listeners::Listeners;
use crate::turn::Turn;
use lft_ir::Trigger;
use lft_lists::item_at;
use lft_model::Plan;
use lft_queue::Queue;
use lft_tag::Tag;

/// Where the trigger is present, the reactions that listen to it are told.
pub(crate) fn tell_of(
    turn: &mut Turn,
    listeners: &Listeners,
    plan: &Plan,
    trigger: Trigger,
    is_present: bool,
)
    requires listeners { AreListeners plan.now.program listeners.now }
    requires phases { length turn.old.phases ≡ length plan.now.program.reactions }
    ensures { IsTold (λ r. IsTrue is_present × IsListener plan.now.program trigger r) turn.old turn.new }
{
    if !is_present {
        return;
    }
    let reactions = listeners.of(trigger);
    for at in 0..reactions.len() {
        turn.trigger(item_at(reactions, at));
    }
}

// Those that listen to a timer that fires at the tag.
fn tell_timers(turn: &mut Turn, firings: &mut Firings, listeners: &Listeners, plan: &Plan, tag: Tag)
    requires listeners { AreListeners plan.now.program listeners.now }
    requires phases { length turn.old.phases ≡ length plan.now.program.reactions }
    requires time { tag.time ≤ 1000000000000000000 }
    requires firings { AreFirstFirings plan.now.program (λ h. UpTo tag h) firings.old }
    ensures told { IsTold (λ r. (n : _) × FiresAt plan.now.program tag n × IsListener plan.now.program (Trigger.Timer n) r) turn.old turn.new }
    ensures firings { AreFirstFirings plan.now.program (λ h. Before tag h) firings.new }
{
    // Asked for what every plan keeps: it is sound, so that these are timers of the program.
    plan.keeps();
    'due: while let Some(timer) = firings.take(plan.program(), tag) {
        tell_of(turn, listeners, plan, Trigger::Timer(timer), true);
    }
}

// Those that listen to a port or an action with an event at the tag.
fn tell_names(turn: &mut Turn, listeners: &Listeners, plan: &Plan, queue: &Queue, tag: Tag)
    requires listeners { AreListeners plan.now.program listeners.now }
    requires phases { length turn.old.phases ≡ length plan.now.program.reactions }
    ensures { IsTold (λ r. (n : NameOf) × IsSome (value_of tag n queue.now) × IsListener plan.now.program (Trigger.On n) r) turn.old turn.new }
{
    for name in queue.names_at(tag) {
        tell_of(turn, listeners, plan, Trigger::On(name), true);
    }
}

/// The reactions that are triggered at the tag are told, by the events in the queue, the stop and
/// the firings at the tag, which give way to the next ones.
pub(crate) fn tell(
    turn: &mut Turn,
    firings: &mut Firings,
    listeners: &Listeners,
    plan: &Plan,
    queue: &Queue,
    tag: Tag,
    stop: Tag,
)
    requires listeners { AreListeners plan.now.program listeners.now }
    requires phases { length turn.old.phases ≡ length plan.now.program.reactions }
    requires time { tag.time ≤ 1000000000000000000 }
    requires firings { AreFirstFirings plan.now.program (λ h. UpTo tag h) firings.old }
    ensures told { IsTold (TriggeredByQueue plan.now.program queue.now stop tag) turn.old turn.new }
    ensures firings { AreFirstFirings plan.now.program (λ h. Before tag h) firings.new }
{
    let is_first = tag.is_same(Tag { time: 0, micro: 0 });
    tell_of(turn, listeners, plan, Trigger::Startup, is_first);
    let is_last = tag.is_same(stop);
    tell_of(turn, listeners, plan, Trigger::Shutdown, is_last);
    tell_timers(turn, firings, listeners, plan, tag);
    tell_names(turn, listeners, plan, queue, tag);
}
