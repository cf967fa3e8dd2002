//! The first collision.

ghost use Rattle.std.specs.Prelude.{◌≡◌, ◌<◌, length, IfOk};
ghost use Rattle.lft_ir.specs.Steps.Fits.{RowsFit};
ghost use Rattle.lft_model.specs.Presence.{stop as the_stop, PortClash};
ghost use Rattle.lft_rows.specs.inner.Presence.{Causes.AreCauses, Clashes.{AreDoubles, HasTwo, PortsClash, ActionsClash}, Traces.IsSooner};
ghost use Rattle.lft_rows.specs.Presence.{Clashes.IsClash, Traces.LeastTag};

use crate::presence::causes::{EventCause, cause_tag, moved};
use crate::presence::pairs::first_pair;
use lft_ir::steps::Row;
use lft_lists::item_at;
use lft_model::Plan;
use lft_tag::{NoMemory, Tag};
use std::alloc::Global;

/// The earlier of two tags, of those that are.
pub fn sooner(first: Option<Tag>, second: Option<Tag>) -> Option<Tag>
    ensures { IsSooner first second result }
{
    match (first, second) {
        (Some(a), Some(b)) => { if b.is_before(a) { Some(b) } else { Some(a) } }
        (Some(a), None) => Some(a),
        (None, b) => b,
    }
}

/// For each port the first pair of its causes, told by its later cause.
fn doubles_of(
    alloc: Global,
    plan: &Plan,
    rows: &[Row],
    causes: &[EventCause],
) -> Result<Vec<Option<EventCause>>, NoMemory>
    requires { AreCauses plan.now rows.now causes.now }
    ensures { IfOk result (λ doubles. AreDoubles causes.now (length plan.now.program.ports) doubles.items) }
{
    let mut doubles = Vec::new(alloc);
    // Found once for each origin, since many ports may stand behind one and each asks for it.
    for port in 0..plan.program().ports() {
        doubles.push(first_pair(causes, port as u32, true))?;
    }
    Ok(doubles)
}

/// The first tag at which two causes give the port an event: two tags of one time at which its
/// origin is written, where its delays have a time.
fn port_clash(
    plan: &Plan,
    rows: &[Row],
    causes: &[EventCause],
    doubles: &[Option<EventCause>],
    number: u32,
) -> Option<Tag>
    requires causes { AreCauses plan.now rows.now causes.now }
    requires doubles { AreDoubles causes.now (length plan.now.program.ports) doubles.now }
    requires number { number < length plan.now.program.ports }
    ensures { LeastTag (λ g. PortClash plan.now rows.now g number) result }
{
    let port = plan.program().port(number);
    // Then two tags are led to two tags, and two writes at one tag are one event.
    if port.shift.time == 0 {
        return None;
    }
    match item_at(doubles, port.origin as usize) {
        Some(cause) => Some(moved(cause_tag(cause), port.shift)),
        None => None,
    }
}

/// The first tag at which two causes give the action an event.
fn action_clash(plan: &Plan, rows: &[Row], causes: &[EventCause], number: u32) -> Option<Tag>
    requires causes { AreCauses plan.now rows.now causes.now }
    requires fit { RowsFit plan.now.program rows.now }
    requires number { number < length plan.now.program.actions }
    ensures { LeastTag (λ g. HasTwo plan.now rows.now g number) result }
{
    let name = plan.program().ports() as u32 + number;
    match first_pair(causes, name, false) {
        Some(cause) => Some(cause_tag(cause)),
        None => None,
    }
}

/// The first tag at which two causes give a port an event.
fn ports_clash(
    plan: &Plan,
    rows: &[Row],
    causes: &[EventCause],
    doubles: &[Option<EventCause>],
) -> Option<Tag>
    requires causes { AreCauses plan.now rows.now causes.now }
    requires doubles { AreDoubles causes.now (length plan.now.program.ports) doubles.now }
    ensures { LeastTag (PortsClash plan.now rows.now (length plan.now.program.ports)) result }
{
    let mut least = None;
    for port in 0..plan.program().ports() {
        least = sooner(least, port_clash(plan, rows, causes, doubles, port as u32));
    }
    least
}

/// The first tag at which two causes give an action an event.
fn actions_clash(plan: &Plan, rows: &[Row], causes: &[EventCause]) -> Option<Tag>
    requires causes { AreCauses plan.now rows.now causes.now }
    requires fit { RowsFit plan.now.program rows.now }
    ensures { LeastTag (ActionsClash plan.now rows.now (length plan.now.program.actions)) result }
{
    let mut least = None;
    for action in 0..plan.program().actions() {
        least = sooner(least, action_clash(plan, rows, causes, action as u32));
    }
    least
}

/// The least tag up to the stop at which two causes give a port or an action an event.
pub(crate) fn clash_of(
    alloc: Global,
    plan: &Plan,
    rows: &[Row],
    stop: Tag,
    causes: &[EventCause],
) -> Result<Option<Tag>, NoMemory>
    requires causes { AreCauses plan.now rows.now causes.now }
    requires fit { RowsFit plan.now.program rows.now }
    requires stop { stop ≡ the_stop plan.now rows.now }
    ensures { IfOk result (IsClash (record { plan = plan.now; rows = rows.now })) }
{
    // Asked for what every plan keeps: each action and port that a cause names is the program's.
    plan.keeps();
    let doubles = doubles_of(alloc, plan, rows, causes)?;
    let ports = ports_clash(plan, rows, causes, doubles.as_slice());
    match sooner(ports, actions_clash(plan, rows, causes)) {
        // Causes may lead past the stop, where nothing happens any more.
        Some(tag) => Ok(if stop.is_before(tag) { None } else { Some(tag) }),
        None => Ok(None),
    }
}
