//! What a run answered, by its steps.

ghost use Rattle.std.specs.Prelude.{◌≡◌, None, filter_map, IfOk};
ghost use Rattle.std.specs.List.{last_or};
ghost use Rattle.lft_model.specs.{Presence.{value_written as the_value_written, value_scheduled as the_value_scheduled}, Runs.{outcome_of, request_of}};
ghost use Rattle.lft_rows.specs.inner.Answers.Answers.{as_outcome, answer_of};

use crate::answers::outcomes::{Answer, Outcome, Schedulings};
use lft_ir::steps::{Step, is_stop};
use lft_ir::{Name, Value};
use lft_lists::item_at;
use lft_tag::NoMemory;
use std::alloc::Global;

/// The value that the step writes to the port, if it writes one.
fn value_written(step: Step, port: u32) -> Option<Value>
    ensures { result ≡ the_value_written port step }
{
    match step {
        Step::Write(Name::Port(number), value) => {
            if number == port { Some(value) } else { None }
        }
        _ => None,
    }
}

/// What the step schedules for the action, if it does: extra delay and value.
fn value_scheduled(step: Step, action: u32) -> Option<(u64, Value)>
    ensures { result ≡ the_value_scheduled action step }
{
    match step {
        Step::Schedule(Name::Action(number), value, delay) => {
            if number == action {
                Some((delay, value))
            } else {
                None
            }
        }
        _ => None,
    }
}

/// The last value that the steps write to the port.
fn last_written(steps: &[Step], port: u32) -> Option<Value>
    ensures { result ≡ last_or None (filter_map (the_value_written port) steps.now) }
{
    let mut last = None;
    for place in 0..steps.len() {
        let value = value_written(item_at(steps, place), port);
        if value.is_some() {
            last = value;
        }
    }
    last
}

/// What the steps schedule for the action, in order: extra delays in nanoseconds with their values.
fn all_scheduled(alloc: Global, steps: &[Step], action: u32) -> Result<Vec<(u64, Value)>, NoMemory>
    ensures { IfOk result (λ list. list.items ≡ filter_map (the_value_scheduled action) steps.now) }
{
    let mut list = Vec::new(alloc);
    for place in 0..steps.len() {
        if let Some(value) = value_scheduled(item_at(steps, place), action) {
            list.push(value)?;
        }
    }
    Ok(list)
}

/// Whether one of the steps requests a stop.
pub fn requests_stop(steps: &[Step]) -> bool
    ensures { result ≡ request_of steps.now }
{
    for place in 0..steps.len() {
        if is_stop(&item_at(steps, place)) {
            return true;
        }
    }
    false
}

/// What the steps answer for the effect.
fn outcome_of_steps(alloc: Global, effect: Name, steps: &[Step]) -> Result<Outcome, NoMemory>
    ensures { IfOk result (λ outcome. as_outcome outcome ≡ outcome_of steps.now effect) }
{
    match effect {
        Name::Port(port) => Ok(Outcome::Written(last_written(steps, port))),
        Name::Action(action) => {
            let list = all_scheduled(alloc, steps, action)?;
            Ok(Outcome::Scheduled(Schedulings::from_vec(list)))
        }
    }
}

/// What the steps answer for the effects, in order.
pub(crate) fn answer_of_steps(
    alloc: Global,
    effects: &[Name],
    steps: &[Step],
) -> Result<Answer, NoMemory>
    ensures { IfOk result (λ answer. answer ≡ answer_of effects.now steps.now) }
{
    let mut outcomes = Vec::new(alloc);
    for place in 0..effects.len() {
        let outcome = outcome_of_steps(alloc, effects[place], steps)?;
        outcomes.push(outcome)?;
    }
    Ok(Answer::from_parts(outcomes, requests_stop(steps)))
}
