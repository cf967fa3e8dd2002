//! What rows schedule, and what the external inputs give, for an action.

ghost use Rattle.std.specs.Prelude.{◌≡◌, ◌<◌, ◌≤◌, ◌↔◌, length, filter_map, IsTrue, IfSome, IfNone};
ghost use Rattle.lft_ir.specs.{declared.parts.Name.TheVariants.Action as TheAction, Steps.Fits.{RowFits, RowsFit}};
ghost use Rattle.lft_model.specs.{Fitting.EachFits, Presence.{At, IsPresent, events_of, given as the_given, min_delay, scheduled as the_scheduled}};

use crate::plan::Plan;
use lft_ir::steps::{Event, Row, Step, row_at};
use lft_ir::{Name, Value};
use lft_lists::item_at;
use lft_tag::Tag;

// The value that a row schedules for the action at the tag, if it does.
fn value_scheduled(plan: &Plan, row: Row, tag: Tag, action: u32) -> Option<Value>
    requires fit { RowFits plan.now.program row }
    requires action { action < length plan.now.program.actions }
    ensures { result ≡ the_scheduled tag action (min_delay plan.now.program action) row }
{
    match row.step {
        Step::Schedule(Name::Action(number), value, extra) => {
            let min_delay = plan.program().action(action).min_delay;
            if number == action && row.tag.after(min_delay, extra).is_same(tag) {
                Some(value)
            } else {
                None
            }
        }
        _ => None,
    }
}

// The value that an external event gives the action at the tag, if it does.
fn value_given(event: Event, tag: Tag, action: u32) -> Option<Value>
    ensures { result ≡ the_given tag action event }
{
    if event.tag.is_same(tag) && event.action == action {
        Some(event.value)
    } else {
        None
    }
}

/// The value of an event of the action at the tag, if it has one: the first of the rows, then of
/// the external inputs.
pub(crate) fn action_value(plan: &Plan, rows: &[Row], tag: Tag, action: u32) -> Option<Value>
    requires fit { RowsFit plan.now.program rows.now }
    requires action { action < length plan.now.program.actions }
    ensures some { IfSome result (λ v. At plan.now rows.now tag (TheAction action) v) }
    ensures none { IfNone result (IsPresent plan.now rows.now tag (TheAction action) → ⊥) }
{
    for place in 0..rows.len() {
        let value = value_scheduled(plan, row_at(rows, place), tag, action);
        if value.is_some() {
            return value;
        }
    }
    let events = plan.externals().events();
    for place in 0..events.len() {
        let value = value_given(item_at(events, place), tag, action);
        if value.is_some() {
            return value;
        }
    }
    None
}

// How many rows schedule the action for the tag.
fn count_scheduled(plan: &Plan, rows: &[Row], tag: Tag, action: u32) -> usize
    requires fit { EachFits plan.now.program rows.now }
    requires action { action < length plan.now.program.actions }
    ensures { result ≡ length (filter_map (the_scheduled tag action (min_delay plan.now.program action)) rows.now) }
{
    let mut count = 0;
    for place in 0..rows.len() {
        if value_scheduled(plan, row_at(rows, place), tag, action).is_some() {
            count += 1;
        }
    }
    count
}

// How many of the events are of the action at the tag.
fn count_given(events: &[Event], tag: Tag, action: u32) -> usize
    ensures { result ≡ length (filter_map (the_given tag action) events.now) }
{
    let mut count = 0;
    for place in 0..events.len() {
        if value_given(item_at(events, place), tag, action).is_some() {
            count += 1;
        }
    }
    count
}

/// Whether two schedule rows or external events give the action an event at the tag.
pub(crate) fn action_clashes(plan: &Plan, rows: &[Row], tag: Tag, action: u32) -> bool
    requires fit { EachFits plan.now.program rows.now }
    requires action { action < length plan.now.program.actions }
    ensures { IsTrue result ↔ (2 ≤ length (events_of plan.now rows.now tag action)) }
{
    let scheduled = count_scheduled(plan, rows, tag, action);
    if scheduled >= 2 {
        return true;
    }
    scheduled + count_given(plan.externals().events(), tag, action) >= 2
}
