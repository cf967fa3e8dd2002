//! Names that reactors declare, and names of reactors, that stand twice.

ghost use Rattle.std.specs.Prelude.{◌≡◌, ◌++◌, List, Any, Contains, IfOk, OnOk, IfSome, IfNone, filter_map, map, option_map, string_bytes};
ghost use Rattle.lft_tree.specs.{View.reactor_view, declared.tree.Reactor.Reactor};
ghost use Rattle.lft_resolve.specs.{Causes.IsTwice, Kinds.names_in};
ghost use Rattle.lft_validate.specs.{Findings.name_at, inner.Members.behind, Members.{declared, declarations, own_name}, Witnesses.{Shows, fault_shown}};
ghost use Rattle.lft_resolve.specs.declared.causes.ProgramFault.TheVariants as faults;

use crate::placed::NameAt;
use crate::twice::two_named;
use crate::witness::Witness;
use lft_tag::NoMemory;
use lft_tree::{Member, Parameter, Reactor};
use std::alloc::Global;

/// The name that the member declares, if it declares one.
fn declared(member: &Member) -> Option<NameAt<'_>>
    ensures { option_map name_at result ≡ declared member.now }
{
    let (name, at) = match member {
        Member::Port(port) => (&port.name, port.at),
        Member::Timer(timer) => (&timer.name, timer.at),
        Member::Action(action) => (&action.name, action.at),
        Member::Instance(instance) => (&instance.name, instance.at),
        Member::State(_) | Member::Preamble(_) | Member::Reaction(_) | Member::Connection(_) => {
            return None;
        }
    };
    Some(NameAt {
        name: name.as_str(),
        at,
    })
}

/// The names of the parameters.
fn parameter_names(alloc: Global, parameters: &[Parameter]) -> Result<Vec<NameAt<'_>>, NoMemory>
    ensures { IfOk result (λ v. map name_at v.items ≡ map (λ p. (string_bytes p.name, p.at)) parameters.now) }
{
    let mut names = Vec::new(alloc);
    for parameter in parameters {
        names.push(NameAt {
            name: parameter.name.as_str(),
            at: parameter.at,
        })?;
    }
    Ok(names)
}

/// Puts the names that the members declare at the end.
fn push_declared<'a>(names: &mut Vec<NameAt<'a>>, members: &'a [Member]) -> Result<(), NoMemory>
    ensures { OnOk result (map name_at names.new.items ≡ map name_at names.old.items ++ filter_map declared members.now) }
{
    for member in members {
        match declared(member) {
            Some(name) => names.push(name)?,
            None => {}
        }
    }
    Ok(())
}

/// The names that the reactor declares, in the order of the text.
fn declarations(alloc: Global, reactor: &Reactor) -> Result<Vec<NameAt<'_>>, NoMemory>
    ensures { IfOk result (λ v. map name_at v.items ≡ declarations reactor.now) }
{
    // Parameters and members share one space of names, and parameters stand first in the text.
    let mut names = parameter_names(alloc, &reactor.parameters)?;
    push_declared(&mut names, &reactor.members)?;
    Ok(names)
}

/// The first thing that a reactor declares under a name that it has declared, behind what has it.
fn declared_twice<'a>(alloc: Global, reactor: &'a Reactor) -> Result<Option<Witness<'a>>, NoMemory>
    ensures shows { IfOk result (λ found. (reactors : List Reactor) → Contains reactors reactor.now → IfSome found (Shows reactors)) }
    ensures cause { IfOk result (λ found. IfSome found (λ w. fault_shown w ≡ faults.DuplicateName)) }
    ensures none { IfOk result (λ found. IfNone found (¬ IsTwice (names_in (reactor_view reactor.now)))) }
{
    let names = declarations(alloc, reactor)?;
    match two_named(alloc, &names)? {
        Some((first, second)) => Ok(Some(Witness::DeclaredTwice {
            reactor,
            first,
            second,
        })),
        None => Ok(None),
    }
}

/// The first reactor that declares one name twice.
pub(crate) fn some_declared_twice<'a>(
    alloc: Global,
    reactors: &[&'a Reactor],
) -> Result<Option<Witness<'a>>, NoMemory>
    ensures shows { IfOk result (λ found. IfSome found (Shows (behind reactors.now))) }
    ensures cause { IfOk result (λ found. IfSome found (λ w. fault_shown w ≡ faults.DuplicateName)) }
    ensures none { IfOk result (λ found. IfNone found (¬ Any (λ r. IsTwice (names_in (reactor_view r))) (behind reactors.now))) }
{
    for reactor in reactors {
        if let Some(found) = declared_twice(alloc, reactor)? {
            return Ok(Some(found));
        }
    }
    Ok(None)
}

/// The names of the reactors that have one.
fn reactor_names<'a>(alloc: Global, reactors: &[&'a Reactor]) -> Result<Vec<NameAt<'a>>, NoMemory>
    ensures { IfOk result (λ v. map name_at v.items ≡ filter_map own_name (behind reactors.now)) }
{
    let mut names = Vec::new(alloc);
    for reactor in reactors {
        match own_name(reactor) {
            Some(name) => names.push(name)?,
            None => {}
        }
    }
    Ok(names)
}

/// The name of the reactor, if it has one.
fn own_name(reactor: &Reactor) -> Option<NameAt<'_>>
    ensures { option_map name_at result ≡ own_name reactor.now }
{
    match &reactor.name {
        Some(name) => Some(NameAt {
            name: name.as_str(),
            at: reactor.at,
        }),
        None => None,
    }
}

/// Two reactors of one name.
pub(crate) fn same_reactors<'a>(
    alloc: Global,
    reactors: &[&'a Reactor],
) -> Result<Option<Witness<'a>>, NoMemory>
    ensures shows { IfOk result (λ found. IfSome found (Shows (behind reactors.now))) }
    ensures cause { IfOk result (λ found. IfSome found (λ w. fault_shown w ≡ faults.DuplicateName)) }
    ensures none { IfOk result (λ found. IfNone found (¬ IsTwice (map (λ p. p.0) (filter_map own_name (behind reactors.now))))) }
{
    // Of those that have a name: a main reactor may have none.
    let names = reactor_names(alloc, reactors)?;
    match two_named(alloc, &names)? {
        Some((first, second)) => Ok(Some(Witness::SameReactors { first, second })),
        None => Ok(None),
    }
}
