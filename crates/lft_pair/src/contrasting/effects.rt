//! For which effects two runs answered otherwise.

ghost use Rattle.std.specs.Prelude.{◌≡◌, ◌↔◌, All, Contains, IsTrue, MatchOption, IfOk, slice_get, is_some};
ghost use Rattle.lft_ir.specs.declared.parts.Name.{Name as TheName, TheVariants.{Port, Action}};
ghost use Rattle.lft_pair.specs.Runs.{last_write as the_last_write, schedulings as the_schedulings, first_request as the_first_request};
ghost use Rattle.lft_pair.specs.{Contrasts.{value_of as the_value_of, event_of_scheduling as the_event_of}, inner.{Contrasts.events, Enough.IsOfEffect}};
ghost use Rattle.lft_pair.specs.Enough.{HaveSameOutcome, TellsOf, TellsStop, IsOutcomeTold};

use crate::contrasting::answers::{RunAnswers, first_request};
use crate::contrasting::contrasts::{Contrast, LastWrite, Placed, Scheduling};
use lft_ir::{Name, Value};
use lft_lists::item_at;
use lft_tag::NoMemory;
use std::alloc::Global;

/// The value of the write, if there is one.
fn value_of(write: Option<LastWrite>) -> Option<Value>
    ensures { result ≡ the_value_of write }
{
    match write {
        Some(write) => Some(write.value),
        None => None,
    }
}

/// Whether two writes have one value, or both are none.
fn is_same_value(first: Option<LastWrite>, second: Option<LastWrite>) -> bool
    ensures { IsTrue result ↔ (the_value_of first ≡ the_value_of second) }
{
    match (value_of(first), value_of(second)) {
        (Some(a), Some(b)) => a == b,
        (None, None) => true,
        (Some(_), None) | (None, Some(_)) => false,
    }
}

/// What two runs wrote last to the port, where it isn't one value.
fn written(port: u32, mine: &RunAnswers, theirs: &RunAnswers) -> Option<Contrast>
    ensures { MatchOption result (the_value_of (the_last_write mine.now port) ≡ the_value_of (the_last_write theirs.now port)) (TellsOf mine.now theirs.now (Port port)) }
{
    let first = mine.last_write(port);
    let second = theirs.last_write(port);
    if is_same_value(first, second) {
        return None;
    }
    Some(Contrast::Written {
        port,
        first,
        second,
    })
}

/// Whether two schedulings have one extra delay and one value, or both are none.
fn is_same_event(first: Option<Scheduling>, second: Option<Scheduling>) -> bool
    ensures { IsTrue result ↔ (the_event_of first ≡ the_event_of second) }
{
    match (first, second) {
        (Some(a), Some(b)) => a.delay == b.delay && a.value == b.value,
        (None, None) => true,
        (Some(_), None) | (None, Some(_)) => false,
    }
}

/// The first place at which the schedulings of the action aren't the same in two runs.
fn first_other(mine: &RunAnswers, theirs: &RunAnswers, action: u32) -> Option<usize>
    ensures { MatchOption result (events (the_schedulings mine.now action) ≡ events (the_schedulings theirs.now action)) (λ k. ¬ (the_event_of (slice_get (the_schedulings mine.now action) k) ≡ the_event_of (slice_get (the_schedulings theirs.now action) k))) }
{
    // One run may have more of them than the other: then the first that the other lacks is told.
    for place in 0..mine.count(action).max(theirs.count(action)) {
        if !is_same_event(
            mine.scheduling(action, place),
            theirs.scheduling(action, place),
        ) {
            return Some(place);
        }
    }
    None
}

/// The first scheduling of the action that isn't the same in two runs.
fn scheduled(action: u32, mine: &RunAnswers, theirs: &RunAnswers) -> Option<Contrast>
    ensures { MatchOption result (events (the_schedulings mine.now action) ≡ events (the_schedulings theirs.now action)) (TellsOf mine.now theirs.now (Action action)) }
{
    let place = first_other(mine, theirs, action)?;
    Some(Contrast::Scheduled {
        action,
        place,
        first: mine.scheduling(action, place),
        second: theirs.scheduling(action, place),
    })
}

/// What two runs answered for the effect, where it isn't the same.
fn effect(effect: Name, mine: &RunAnswers, theirs: &RunAnswers) -> Option<Contrast>
    ensures { MatchOption result (HaveSameOutcome mine.now theirs.now effect) (TellsOf mine.now theirs.now effect) }
{
    match effect {
        Name::Port(port) => written(port, mine, theirs),
        Name::Action(action) => scheduled(action, mine, theirs),
    }
}

/// Of each effect for which two runs answered otherwise, what they answered, in order.
pub(crate) fn effect_contrasts(
    alloc: Global,
    effects: &[Name],
    mine: &[Placed],
    theirs: &[Placed],
) -> Result<Vec<Contrast>, NoMemory>
    ensures right { IfOk result (λ list. All (IsOfEffect effects.now mine.now theirs.now) list.items) }
    ensures all { IfOk result (λ list. (n : TheName) → Contains effects.now n → IsOutcomeTold mine.now theirs.now list.items n) }
{
    let first = RunAnswers::new(alloc, mine)?;
    let second = RunAnswers::new(alloc, theirs)?;
    let mut told = Vec::new(alloc);
    for place in 0..effects.len() {
        if let Some(contrast) = effect(item_at(effects, place), &first, &second) {
            told.push(contrast)?;
        }
    }
    Ok(told)
}

/// Where two runs requested a stop, if one of them did not.
pub(crate) fn stop_contrast(mine: &[Placed], theirs: &[Placed]) -> Option<Contrast>
    ensures { MatchOption result (is_some (the_first_request mine.now) ≡ is_some (the_first_request theirs.now)) (TellsStop mine.now theirs.now) }
{
    let first = first_request(mine);
    let second = first_request(theirs);
    // An answer has whether a stop was requested. In which row, or how often, makes no difference.
    if first.is_some() == second.is_some() {
        return None;
    }
    Some(Contrast::Requested { first, second })
}
