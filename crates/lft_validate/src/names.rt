//! The reactors of a file, and the names and times of one member, in order.

ghost use Rattle.std.specs.Prelude.{◌≡◌, ◌++◌, IfOk, OnOk, filter_map, map, option_map, option_to_list};
ghost use Rattle.lft_validate.specs.{Members.{name_among, names_of, reactor_of, reactors_among, times_of}, inner.Members.behind};

use lft_resolve::kinds::Role;
use lft_tag::NoMemory;
use lft_tree::{Assignment, Item, Member, Reaction, Reactor, Reference, TimeExpression, Trigger};
use std::alloc::Global;

/// The reactor that the item is, if it is one.
fn reactor_of(item: &Item) -> Option<&Reactor>
    ensures { option_map (λ r. r.now) result ≡ reactor_of item.now }
{
    match item {
        Item::Reactor(reactor) => Some(reactor),
        Item::Preamble(_) => None,
    }
}

/// The reactors of a file, in order.
pub fn reactors_among(alloc: Global, items: &[Item]) -> Result<Vec<&Reactor>, NoMemory>
    ensures { IfOk result (λ v. behind v.items ≡ reactors_among items.now) }
{
    let mut found = Vec::new(alloc);
    for item in items {
        match reactor_of(item) {
            Some(reactor) => found.push(reactor)?,
            None => {}
        }
    }
    Ok(found)
}

/// Puts references to all of the names at the end.
fn push_all<'a>(found: &mut Vec<&'a Reference>, references: &'a [Reference]) -> Result<(), NoMemory>
    ensures { OnOk result (behind found.new.items ≡ behind found.old.items ++ references.now) }
{
    // No `extend_from_slice`: the list has references to names, and the tree the names themselves.
    for reference in references {
        found.push(reference)?;
    }
    Ok(())
}

/// The name of a trigger, if it has one.
fn name_among(trigger: &Trigger) -> Option<&Reference>
    ensures { option_map (λ r. r.now) result ≡ name_among trigger.now }
{
    match trigger {
        Trigger::Startup | Trigger::Shutdown => None,
        Trigger::Reference(reference) => Some(reference),
    }
}

/// The names among the triggers.
fn trigger_names(alloc: Global, triggers: &[Trigger]) -> Result<Vec<&Reference>, NoMemory>
    ensures { IfOk result (λ v. behind v.items ≡ filter_map name_among triggers.now) }
{
    let mut found = Vec::new(alloc);
    for trigger in triggers {
        match name_among(trigger) {
            Some(reference) => found.push(reference)?,
            None => {}
        }
    }
    Ok(found)
}

/// The names among a reaction's triggers and uses.
fn reads(alloc: Global, reaction: &Reaction) -> Result<Vec<&Reference>, NoMemory>
    ensures { IfOk result (λ v. behind v.items ≡ names_of Role.Read (Member.Reaction reaction.now)) }
{
    let mut found = trigger_names(alloc, &reaction.triggers)?;
    push_all(&mut found, &reaction.uses)?;
    Ok(found)
}

/// References to all of the names.
fn all(alloc: Global, references: &[Reference]) -> Result<Vec<&Reference>, NoMemory>
    ensures { IfOk result (λ v. behind v.items ≡ references.now) }
{
    let mut found = Vec::new(alloc);
    push_all(&mut found, references)?;
    Ok(found)
}

/// The names of the member that have the role, in order.
pub(crate) fn names_of(
    alloc: Global,
    member: &Member,
    role: Role,
) -> Result<Vec<&Reference>, NoMemory>
    ensures { IfOk result (λ v. behind v.items ≡ names_of role member.now) }
{
    match (role, member) {
        (Role::Read, Member::Reaction(reaction)) => reads(alloc, reaction),
        (Role::Effect, Member::Reaction(reaction)) => all(alloc, &reaction.effects),
        (Role::Source, Member::Connection(connection)) => all(alloc, &connection.sources),
        (Role::Destination, Member::Connection(connection)) => {
            all(alloc, &connection.destinations)
        }
        _ => Ok(Vec::new(alloc)),
    }
}

/// The times that are there, of two.
fn times_among<'a>(
    alloc: Global,
    first: &'a Option<TimeExpression>,
    second: &'a Option<TimeExpression>,
) -> Result<Vec<&'a TimeExpression>, NoMemory>
    ensures { IfOk result (λ v. behind v.items ≡ option_to_list first.now ++ option_to_list second.now) }
{
    let mut found = Vec::new(alloc);
    push_time(&mut found, first)?;
    push_time(&mut found, second)?;
    Ok(found)
}

/// The time, if it is there.
fn time_alone<'a>(
    alloc: Global,
    time: &'a Option<TimeExpression>,
) -> Result<Vec<&'a TimeExpression>, NoMemory>
    ensures { IfOk result (λ v. behind v.items ≡ option_to_list time.now) }
{
    let mut found = Vec::new(alloc);
    push_time(&mut found, time)?;
    Ok(found)
}

/// The times that are given to parameters.
fn values(alloc: Global, given: &[Assignment]) -> Result<Vec<&TimeExpression>, NoMemory>
    ensures { IfOk result (λ v. behind v.items ≡ map (λ a. a.value) given.now) }
{
    let mut found = Vec::new(alloc);
    for assignment in given {
        found.push(&assignment.value)?;
    }
    Ok(found)
}

/// The times of the member, in order.
pub(crate) fn times_of(alloc: Global, member: &Member) -> Result<Vec<&TimeExpression>, NoMemory>
    ensures { IfOk result (λ v. behind v.items ≡ times_of member.now) }
{
    match member {
        Member::Timer(timer) => times_among(alloc, &timer.offset, &timer.period),
        Member::Action(action) => time_alone(alloc, &action.min_delay),
        Member::Instance(instance) => values(alloc, &instance.given),
        Member::Connection(connection) => time_alone(alloc, &connection.delay),
        Member::Port(_) | Member::State(_) | Member::Preamble(_) | Member::Reaction(_) => {
            Ok(Vec::new(alloc))
        }
    }
}

/// Puts a time at the end, if there is one.
fn push_time<'a>(
    found: &mut Vec<&'a TimeExpression>,
    time: &'a Option<TimeExpression>,
) -> Result<(), NoMemory>
    ensures { OnOk result (behind found.new.items ≡ behind found.old.items ++ option_to_list time.now) }
{
    match time {
        Some(time) => Ok(found.push(time)?),
        None => Ok(()),
    }
}
