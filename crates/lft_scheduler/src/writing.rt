//! The reactions that the writes of a run trigger at its own tag are told.

ghost use Rattle.std.specs.Prelude.{◌≡◌, length};
ghost use Rattle.lft_tag.specs.Tags.{IsRecorded};
ghost use Rattle.lft_ir.specs.declared.parts.Name.{Name as NameOf};
ghost use Rattle.lft_scheduler.specs.inner.{Listeners.{IsListener, AreListeners, AreArrivals}, Telling.{IsTold, ArrivesAtOnce, TriggeredByWrites}};

use crate::listeners::{Arrivals, Listeners};
use crate::telling::tell_of;
use crate::turn::Turn;
use lft_ir::steps::Step;
use lft_ir::{Name, Trigger};
use lft_lists::item_at;
use lft_model::Plan;
use lft_tag::Tag;

// Those that listen to a port where a write of the origin at the tag arrives at once.
fn tell_write(
    turn: &mut Turn,
    listeners: &Listeners,
    arrivals: &Arrivals,
    plan: &Plan,
    tag: Tag,
    origin: u32,
)
    requires recorded { IsRecorded tag }
    requires listeners { AreListeners plan.now.program listeners.now }
    requires arrivals { AreArrivals plan.now.program arrivals.now }
    requires phases { length turn.old.phases ≡ length plan.now.program.reactions }
    ensures { (v : _) → IsTold (λ r. (p : _) × ArrivesAtOnce plan.now.program tag (Step.Write (NameOf.Port origin) v) p × IsListener plan.now.program (Trigger.On (NameOf.Port p)) r) turn.old turn.new }
{
    let ports = arrivals.of(origin);
    for at in 0..ports.len() {
        let number = item_at(ports, at);
        let arrives = tag.plus(plan.program().port(number).shift);
        let at_once = arrives.is_same(tag);
        tell_of(
            turn,
            listeners,
            plan,
            Trigger::On(Name::Port(number)),
            at_once,
        );
    }
}

// Those that listen to a port where what the step writes at the tag arrives at once.
fn tell_step(
    turn: &mut Turn,
    listeners: &Listeners,
    arrivals: &Arrivals,
    plan: &Plan,
    tag: Tag,
    step: Step,
)
    requires recorded { IsRecorded tag }
    requires listeners { AreListeners plan.now.program listeners.now }
    requires arrivals { AreArrivals plan.now.program arrivals.now }
    requires phases { length turn.old.phases ≡ length plan.now.program.reactions }
    ensures { IsTold (λ r. (p : _) × ArrivesAtOnce plan.now.program tag step p × IsListener plan.now.program (Trigger.On (NameOf.Port p)) r) turn.old turn.new }
{
    match step {
        Step::Write(Name::Port(origin), _) => {
            tell_write(turn, listeners, arrivals, plan, tag, origin);
        }
        Step::Write(Name::Action(_), _)
        | Step::Start
        | Step::Read(_, _)
        | Step::Schedule(_, _, _)
        | Step::Stop
        | Step::End => {}
    }
}

/// The reactions that listen to a port where what the steps write at the tag arrives at once are
/// told.
pub(crate) fn tell_writes(
    turn: &mut Turn,
    listeners: &Listeners,
    arrivals: &Arrivals,
    plan: &Plan,
    tag: Tag,
    steps: &[Step],
)
    requires recorded { IsRecorded tag }
    requires listeners { AreListeners plan.now.program listeners.now }
    requires arrivals { AreArrivals plan.now.program arrivals.now }
    requires phases { length turn.old.phases ≡ length plan.now.program.reactions }
    ensures { IsTold (TriggeredByWrites plan.now.program tag steps.now) turn.old turn.new }
{
    for at in 0..steps.len() {
        tell_step(turn, listeners, arrivals, plan, tag, item_at(steps, at));
    }
}
