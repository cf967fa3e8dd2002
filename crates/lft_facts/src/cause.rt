//! Why a trigger or an input is present.

ghost use Rattle.std.specs.Prelude.{◌≡◌, ◌<◌, ◌≤◌, ◌-◌, ℕ, length, IfSome, IfNone};
ghost use Rattle.lft_ir.specs.Sound.{IsNameOf, IsTriggerOf as IsKnown};
ghost use Rattle.lft_ir.specs.{declared.parts.{Name.TheVariants.{Port as ThePort, Action as TheAction}, Trigger.TheVariants.On as TheName}, Steps.Fits.RowsFit};
ghost use Rattle.lft_model.specs.Presence.{stop as the_stop, IsPresent, Occurs};
ghost use Rattle.lft_rows.specs.inner.Presence.Causes.{AreCauses};
ghost use Rattle.lft_facts.specs.{Facts.{CauseHolds, IsWrittenIn, FiresAfter}, inner.Enough.GivesTrigger};

use crate::facts::Cause;
use lft_ir::steps::Row;
use lft_ir::{Name, Trigger};
use lft_model::{Plan, fires};
use lft_rows::presence::{EventCause, last_cause};
use lft_tag::{Shift, Tag};

/// The place of the last row that gives the port an event at the tag.
pub(crate) fn writing_row(
    plan: &Plan,
    rows: &[Row],
    causes: &[EventCause],
    tag: Tag,
    port: u32,
) -> Option<u32>
    requires causes { AreCauses plan.now rows.now causes.now }
    requires port { port < length plan.now.program.ports }
    ensures some { IfSome result (λ i. IsWrittenIn plan.now rows.now tag port i) }
    ensures none { IfNone result (¬ IsPresent plan.now rows.now tag (ThePort port)) }
{
    let port = plan.program().port(port);
    // A run may write a port more than once at its tag. The last write counts.
    match last_cause(causes, port.origin, port.shift, tag) {
        Some(cause) => Some(cause.place),
        None => None,
    }
}

/// Which cause of an event of the action at the tag stands at the place: a row, or past the rows an
/// external event.
pub(crate) fn of_action(rows: &[Row], tag: Tag, action: u32, place: u32) -> Cause
    requires few { length rows.now ≤ 4000000 }
    ensures row { place < length rows.now → result ≡ Cause.Scheduled tag action place }
    ensures event { length rows.now ≤ place → result ≡ Cause.Given tag action (place - length rows.now) }
{
    let count = rows.len() as u32;
    if place < count {
        Cause::Scheduled {
            tag,
            action,
            row: place,
        }
    } else {
        Cause::Given {
            tag,
            action,
            event: place - count,
        }
    }
}

/// Why the action has an event at the tag, if it has one.
fn action_cause(
    plan: &Plan,
    rows: &[Row],
    causes: &[EventCause],
    tag: Tag,
    action: u32,
) -> Option<Cause>
    requires fit { RowsFit plan.now.program rows.now }
    requires causes { AreCauses plan.now rows.now causes.now }
    requires action { action < length plan.now.program.actions }
    ensures holds { IfSome result (CauseHolds plan.now rows.now) }
    ensures gives { IfSome result (λ c. GivesTrigger c tag (TheName (TheAction action))) }
    ensures none { IfNone result (¬ IsPresent plan.now rows.now tag (TheAction action)) }
{
    // One list has the causes of both kinds: the key of an action stands behind those of the ports.
    let key = plan.program().ports() as u32 + action;
    match last_cause(causes, key, Shift::none(), tag) {
        Some(cause) => Some(of_action(rows, tag, action, cause.place)),
        None => None,
    }
}

/// Why the port has an event at the tag, if it has one.
fn port_cause(
    plan: &Plan,
    rows: &[Row],
    causes: &[EventCause],
    tag: Tag,
    port: u32,
) -> Option<Cause>
    requires causes { AreCauses plan.now rows.now causes.now }
    requires port { port < length plan.now.program.ports }
    ensures holds { IfSome result (CauseHolds plan.now rows.now) }
    ensures gives { IfSome result (λ c. GivesTrigger c tag (TheName (ThePort port))) }
    ensures none { IfNone result (¬ IsPresent plan.now rows.now tag (ThePort port)) }
{
    match writing_row(plan, rows, causes, tag, port) {
        Some(row) => Some(Cause::Written { tag, port, row }),
        None => None,
    }
}

/// Why the port or action has an event at the tag, if it has one.
pub(crate) fn name_cause(
    plan: &Plan,
    rows: &[Row],
    causes: &[EventCause],
    tag: Tag,
    name: Name,
) -> Option<Cause>
    requires fit { RowsFit plan.now.program rows.now }
    requires causes { AreCauses plan.now rows.now causes.now }
    requires name { IsNameOf plan.now.program name }
    ensures holds { IfSome result (CauseHolds plan.now rows.now) }
    ensures gives { IfSome result (λ c. GivesTrigger c tag (TheName name)) }
    ensures none { IfNone result (¬ IsPresent plan.now rows.now tag name) }
{
    match name {
        Name::Port(port) => port_cause(plan, rows, causes, tag, port),
        Name::Action(action) => action_cause(plan, rows, causes, tag, action),
    }
}

/// How many periods after its offset the timer fires at the tag, if it does.
fn timer_cause(plan: &Plan, tag: Tag, number: u32) -> Option<u64>
    requires { number < length plan.now.program.timers }
    ensures some { IfSome result (λ count. FiresAfter plan.now.program tag number count) }
    ensures none { IfNone result ((count : ℕ) → ¬ FiresAfter plan.now.program tag number count) }
{
    let timer = plan.program().timer(number);
    if !fires(timer, tag) {
        return None;
    }
    // Without a period it fires once, at its offset.
    if timer.period == 0 {
        Some(0)
    } else {
        Some((tag.time - timer.offset) / timer.period)
    }
}

/// Why the trigger is present at the tag, if it is, where the execution ends at the stop.
pub(crate) fn trigger_cause(
    plan: &Plan,
    rows: &[Row],
    causes: &[EventCause],
    stop: Tag,
    tag: Tag,
    trigger: Trigger,
) -> Option<Cause>
    requires fit { RowsFit plan.now.program rows.now }
    requires causes { AreCauses plan.now rows.now causes.now }
    requires trigger { IsKnown plan.now.program trigger }
    requires stop { stop ≡ the_stop plan.now rows.now }
    ensures holds { IfSome result (CauseHolds plan.now rows.now) }
    ensures gives { IfSome result (λ c. GivesTrigger c tag trigger) }
    ensures none { IfNone result (¬ Occurs plan.now rows.now tag trigger) }
{
    match trigger {
        Trigger::Startup => {
            if tag.is_same(Tag { time: 0, micro: 0 }) {
                Some(Cause::AtStartup { tag })
            } else {
                None
            }
        }
        Trigger::Shutdown => {
            if tag.is_same(stop) {
                Some(Cause::AtShutdown { tag })
            } else {
                None
            }
        }
        Trigger::Timer(timer) => match timer_cause(plan, tag, timer) {
            Some(count) => Some(Cause::Fires { tag, timer, count }),
            None => None,
        },
        Trigger::On(name) => name_cause(plan, rows, causes, tag, name),
    }
}
