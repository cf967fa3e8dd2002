//! What the names in a reaction stand for, by number. Places are made numbers here as `find_sources`
//! of `lft_resolve::expansion` makes them of connections, by the same definitions.

ghost use Rattle.std.specs.Prelude.{◌≡◌, Some, IfOk};
ghost use Rattle.lft_resolve.specs.inner.Expansion.Joins.{port_at, port_of};
ghost use Rattle.lft_program.specs.inner.Laying.{AreNames, AreTriggersOfCues, Each, HasNamedThing, HasCue, IsFew, name_at, trigger_at};

use crate::nesting::{Nest, Numbering};
use lft_ir::{Name, Names, Trigger, Triggers};
use lft_resolve::by_number::{Cue, NamedThing};
use lft_resolve::expansion::End;
use lft_tag::NoMemory;
use std::alloc::Global;

// the number of the thing at a place of an instance
fn number_of(numbering: &Numbering, instance: u32, place: u32) -> u32
    requires { IsFew (port_at numbering.now.firsts.items instance place) }
    ensures { port_at numbering.now.firsts.items instance place ≡ Some result }
{
    numbering.firsts[instance as usize] + place
}

// the number of the port that an end is in an instance
fn port_number(nest: &Nest, instance: u32, end: End) -> u32
    requires { IsFew (port_of nest.now.ports.firsts.items nest.now.children instance end) }
    ensures { port_of nest.now.ports.firsts.items nest.now.children instance end ≡ Some result }
{
    match end {
        End::Own(port) => number_of(&nest.ports, instance, port),
        End::Inner {
            instance: place,
            port,
        } => match nest.children.child(instance, place) {
            Some(inner) => number_of(&nest.ports, inner, port),
            // The reactor contains an instance at this place, or the end would have no meaning.
            None => unreachable!(),
        },
    }
}

// the port or action that a spot is in an instance
fn name(nest: &Nest, instance: u32, spot: NamedThing) -> Name
    requires { HasNamedThing nest.now instance spot }
    ensures { name_at nest.now instance spot ≡ Some result }
{
    match spot {
        NamedThing::Port(end) => Name::Port(port_number(nest, instance, end)),
        NamedThing::Action(place) => Name::Action(number_of(&nest.actions, instance, place)),
    }
}

// what a cue is in an instance
fn trigger(nest: &Nest, instance: u32, cue: Cue) -> Trigger
    requires { HasCue nest.now instance cue }
    ensures { trigger_at nest.now instance cue ≡ Some result }
{
    match cue {
        Cue::Startup => Trigger::Startup,
        Cue::Shutdown => Trigger::Shutdown,
        Cue::Timer(place) => Trigger::Timer(number_of(&nest.timers, instance, place)),
        Cue::On(spot) => Trigger::On(name(nest, instance, spot)),
    }
}

/// The ports and actions that the spots are in an instance, in order.
pub(crate) fn names(
    alloc: Global,
    nest: &Nest,
    instance: u32,
    spots: &[NamedThing],
) -> Result<Names, NoMemory>
    requires { Each (HasNamedThing nest.now instance) spots.now }
    ensures { IfOk result (AreNames nest.now instance spots.now) }
{
    let mut names = Vec::new(alloc);
    for spot in spots {
        names.push(name(nest, instance, *spot))?;
    }
    Ok(Names::from_vec(names))
}

/// The triggers that the cues are in an instance, in order.
pub(crate) fn triggers(
    alloc: Global,
    nest: &Nest,
    instance: u32,
    cues: &[Cue],
) -> Result<Triggers, NoMemory>
    requires { Each (HasCue nest.now instance) cues.now }
    ensures { IfOk result (AreTriggersOfCues nest.now instance cues.now) }
{
    let mut triggers = Vec::new(alloc);
    for cue in cues {
        triggers.push(trigger(nest, instance, *cue))?;
    }
    let triggers = Triggers::new(alloc, triggers)?;
    Ok(triggers)
}
