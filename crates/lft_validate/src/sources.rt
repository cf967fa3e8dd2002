//! Ports that are written at two places of a reactor.

ghost use Rattle.std.specs.Prelude.{◌≡◌, List, Any, Contains, IfOk, IfSome, IfNone, map};
ghost use Rattle.lft_tree.specs.{View.{reactor_view, ref_view}, declared.tree.Reactor.Reactor};
ghost use Rattle.lft_validate.specs.{inner.{Seen.has_seen, Members.behind}, Members.all_names, Witnesses.{Shows, fault_shown}};
ghost use Rattle.lft_resolve.specs.{Causes.{TwoSources, WritesTwice}, inner.{References.ref_trees, Tests.IsTestOf}};
ghost use Rattle.lft_resolve.specs.declared.causes.ProgramFault.TheVariants as faults;

use crate::names::names_of;
use crate::seen::SeenNames;
use crate::twice::{first_named_twice, same_among};
use crate::witness::Witness;
use lft_resolve::hashing::NameHash;
use lft_resolve::kinds::Role;
use lft_tag::NoMemory;
use lft_tree::{Reactor, Reference};
use std::alloc::Global;

/// The names that have the role in the reactor, in the order of the text.
fn all_names(alloc: Global, reactor: &Reactor, role: Role) -> Result<Vec<&Reference>, NoMemory>
    ensures { IfOk result (λ v. behind v.items ≡ all_names role reactor.now) }
{
    let mut found = Vec::new(alloc);
    // One list over all members: a port may be written by a reaction and be the end of a connection.
    for member in &reactor.members {
        let names = names_of(alloc, member, role)?;
        found.extend_from_slice(names.as_slice())?;
    }
    Ok(found)
}

/// The names as a set.
fn set_of<'a>(alloc: Global, names: &[&'a Reference]) -> Result<SeenNames<'a>, NoMemory>
    ensures { IfOk result (λ set. IsTestOf (has_seen set) (ref_trees names.now)) }
{
    let mut set = SeenNames::new(alloc, NameHash::of_references(names));
    for name in names {
        set.add(name)?;
    }
    Ok(set)
}

/// The first destination that is an effect too, and the effect that it is first.
fn first_shared<'a>(
    alloc: Global,
    destinations: &[&'a Reference],
    effects: &[&'a Reference],
) -> Result<Option<(&'a Reference, &'a Reference)>, NoMemory>
    ensures some { IfOk result (λ found. IfSome found (λ p. Contains (behind destinations.now) p.0.now × Contains (behind effects.now) p.1.now × (ref_view p.0.now ≡ ref_view p.1.now))) }
    ensures none { IfOk result (λ found. IfNone found (¬ Any (λ ref. Contains (ref_trees effects.now) ref) (ref_trees destinations.now))) }
{
    let written = set_of(alloc, effects)?;
    for place in 0..destinations.len() {
        let name = destinations[place];
        if written.has(name) {
            // The set says only that it is there. It has no other names than the list, so it is found.
            return match same_among(effects, name) {
                Some(effect) => Ok(Some((name, effect))),
                None => Ok(None),
            };
        }
    }
    Ok(None)
}

/// A port that the reactor writes at two places.
fn written_twice<'a>(alloc: Global, reactor: &'a Reactor) -> Result<Option<Witness<'a>>, NoMemory>
    ensures shows { IfOk result (λ found. (reactors : List Reactor) → Contains reactors reactor.now → IfSome found (Shows reactors)) }
    ensures cause { IfOk result (λ found. IfSome found (λ w. fault_shown w ≡ faults.TwoSources)) }
    ensures none { IfOk result (λ found. IfNone found (¬ WritesTwice (reactor_view reactor.now))) }
{
    let destinations = all_names(alloc, reactor, Role::Destination)?;
    if let Some((first, second)) = first_named_twice(alloc, &destinations)? {
        return Ok(Some(Witness::JoinedTwice {
            reactor,
            first: destinations[first],
            second: destinations[second],
        }));
    }
    // Effects are compared with destinations alone: several reactions of a reactor may write one port.
    let effects = all_names(alloc, reactor, Role::Effect)?;
    match first_shared(alloc, &destinations, &effects)? {
        Some((joined, written)) => Ok(Some(Witness::JoinedAndWritten {
            reactor,
            joined,
            written,
        })),
        None => Ok(None),
    }
}

/// The first port of the file that is written at two places.
pub(crate) fn two_sources<'a>(
    alloc: Global,
    reactors: &[&'a Reactor],
) -> Result<Option<Witness<'a>>, NoMemory>
    ensures shows { IfOk result (λ found. IfSome found (Shows (behind reactors.now))) }
    ensures cause { IfOk result (λ found. IfSome found (λ w. fault_shown w ≡ faults.TwoSources)) }
    ensures none { IfOk result (λ found. IfNone found (¬ TwoSources (map reactor_view (behind reactors.now)))) }
{
    for reactor in reactors {
        if let Some(found) = written_twice(alloc, reactor)? {
            return Ok(Some(found));
        }
    }
    Ok(None)
}
