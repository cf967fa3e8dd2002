//! The causes of events that a trace and the external inputs have.

ghost use Rattle.std.specs.Prelude.{◌≡◌, ◌≤◌, IfOk, OnOk};
ghost use Rattle.lft_tag.specs.Tags.{IsRecorded};
ghost use Rattle.lft_ir.specs.{Sound.IsNameOf, Steps.Fits.{RowFits, RowsFit, EventFits}};
ghost use Rattle.lft_rows.specs.inner.Presence.Causes.{HasJust, IsRowCause, IsCause, AreCauses, write_cause, schedule_cause, step_cause, event_cause};

use crate::presence::causes::EventCause;
use lft_ir::steps::{Event, Row, Step, row_at};
use lft_ir::{Name, Program};
use lft_lists::item_at;
use lft_model::Plan;
use lft_tag::{NoMemory, Tag};
use std::alloc::Global;

/// The cause that a write of the name at the tag is: of a port alone.
fn of_write(tag: Tag, place: u32, name: Name) -> Option<EventCause>
    ensures { result ≡ write_cause tag place name }
{
    match name {
        Name::Port(port) => Some(EventCause {
            name: port,
            time: tag.time,
            micro: tag.micro,
            place,
        }),
        // Such a row breaks rule 4. Presence is asked of rows that break any rule, so it has to say
        // something.
        Name::Action(_) => None,
    }
}

/// The cause that a scheduling of the name at the tag is: of an action alone.
fn of_schedule(
    program: &Program,
    tag: Tag,
    place: u32,
    extra: u64,
    name: Name,
) -> Option<EventCause>
    requires recorded { IsRecorded tag }
    requires extra { extra ≤ 1000000000000000000 }
    requires name { IsNameOf program.now name }
    ensures { result ≡ schedule_cause program.now tag place extra name }
{
    match name {
        // As above: such a row breaks rule 4.
        Name::Port(_) => None,
        Name::Action(action) => {
            let to = tag.after(program.action(action).min_delay, extra);
            Some(EventCause {
                name: program.ports() as u32 + action,
                time: to.time,
                micro: to.micro,
                place,
            })
        }
    }
}

/// The cause that the row at the place is, if it is one.
fn of_row(program: &Program, place: u32, row: Row) -> Option<EventCause>
    requires { RowFits program.now row }
    ensures { result ≡ step_cause program.now row.tag place row.step }
{
    match row.step {
        Step::Write(name, _) => of_write(row.tag, place, name),
        Step::Schedule(name, _, extra) => of_schedule(program, row.tag, place, extra, name),
        Step::Start => None,
        Step::Read(_, _) => None,
        Step::Stop => None,
        Step::End => None,
    }
}

/// The cause that an external event is. Its place is counted on from the rows.
fn of_event(program: &Program, place: u32, event: Event) -> EventCause
    requires { EventFits program.now event }
    ensures { result ≡ event_cause program.now place event }
{
    EventCause {
        name: program.ports() as u32 + event.action,
        time: event.tag.time,
        micro: event.tag.micro,
        place,
    }
}

/// The causes that rows are, in order of the rows.
fn of_rows(alloc: Global, program: &Program, rows: &[Row]) -> Result<Vec<EventCause>, NoMemory>
    requires { RowsFit program.now rows.now }
    ensures { IfOk result (λ causes. HasJust (IsRowCause program.now rows.now) causes.items) }
{
    let mut causes = Vec::new(alloc);
    for place in 0..rows.len() {
        if let Some(cause) = of_row(program, place as u32, row_at(rows, place)) {
            causes.push(cause)?;
        }
    }
    Ok(causes)
}

/// Adds the causes that external events are.
fn add_events(plan: &Plan, rows: &[Row], causes: &mut Vec<EventCause>) -> Result<(), NoMemory>
    requires fit { RowsFit plan.now.program rows.now }
    requires rows { HasJust (IsRowCause plan.now.program rows.now) causes.old.items }
    ensures { OnOk result (HasJust (IsCause plan.now rows.now) causes.new.items) }
{
    let program = plan.program();
    let events = plan.externals().events();
    for place in 0..events.len() {
        // There are 4,000,000 rows and as many events at most, so the sum fits.
        let at = (rows.len() + place) as u32;
        causes.push(of_event(program, at, item_at(events, place)))?;
    }
    Ok(())
}

/// The causes of a trace and of the external inputs, by name, tag and place.
pub(crate) fn causes_of(
    alloc: Global,
    plan: &Plan,
    rows: &[Row],
) -> Result<Vec<EventCause>, NoMemory>
    requires { RowsFit plan.now.program rows.now }
    ensures { IfOk result (λ causes. AreCauses plan.now rows.now causes.items) }
{
    let mut causes = of_rows(alloc, plan.program(), rows)?;
    add_events(plan, rows, &mut causes)?;
    // It takes no memory. A write is one cause, however many ports it reaches: they are asked through their
    // origin.
    causes.sort_unstable();
    Ok(causes)
}
