//! The names of reactors and of what a reactor declares.

ghost use Rattle.std.specs.Prelude.{◌≡◌, ◌++◌, IfOk, OnOk, map, filter_map, option_map};
ghost use Rattle.lft_tree.specs.View.{member_view, member_views, parameter_view, reactor_view};
ghost use Rattle.lft_resolve.specs.{Kinds.names_in, inner.{References.reactor_trees, Tests.{name_in, texts}}};

use lft_tag::NoMemory;
use lft_tree::{Member, Parameter, Reactor};
use std::alloc::Global;

/// The kinds of members that have names.
#[derive(Clone, Copy, PartialEq, Eq, Drop)]
pub enum Declared {
    Port,
    Timer,
    Action,
    Instance,
}

/// The name of a member of this kind.
fn name_of(member: &Member, kind: Declared) -> Option<&str>
    ensures { option_map (λ t. t.now) result ≡ name_in kind (member_view member.now) }
{
    match (kind, member) {
        (Declared::Port, Member::Port(port)) => Some(port.name.as_str()),
        (Declared::Timer, Member::Timer(timer)) => Some(timer.name.as_str()),
        (Declared::Action, Member::Action(action)) => Some(action.name.as_str()),
        (Declared::Instance, Member::Instance(instance)) => Some(instance.name.as_str()),
        _ => None,
    }
}

/// Puts the names of the members of this kind at the end.
pub fn push_names<'a>(
    names: &mut Vec<&'a str>,
    members: &'a [Member],
    kind: Declared,
) -> Result<(), NoMemory>
    ensures { OnOk result (texts names.new.items ≡ texts names.old.items ++ filter_map (name_in kind) (member_views members.now)) }
{
    for member in members {
        match name_of(member, kind) {
            Some(name) => names.push(name)?,
            None => {}
        }
    }
    Ok(())
}

/// The names of the parameters.
pub fn parameter_names(alloc: Global, parameters: &[Parameter]) -> Result<Vec<&str>, NoMemory>
    ensures { IfOk result (λ v. texts v.items ≡ map (λ x. x.name) (map parameter_view parameters.now)) }
{
    let mut names = Vec::new(alloc);
    for parameter in parameters {
        names.push(parameter.name.as_str())?;
    }
    Ok(names)
}

/// The names that the reactor declares: of parameters, ports, timers, actions and instances.
pub fn declared_names(alloc: Global, reactor: &Reactor) -> Result<Vec<&str>, NoMemory>
    ensures { IfOk result (λ v. texts v.items ≡ names_in (reactor_view reactor.now)) }
{
    let mut names = parameter_names(alloc, &reactor.parameters)?;
    push_names(&mut names, &reactor.members, Declared::Port)?;
    push_names(&mut names, &reactor.members, Declared::Timer)?;
    push_names(&mut names, &reactor.members, Declared::Action)?;
    push_names(&mut names, &reactor.members, Declared::Instance)?;
    Ok(names)
}

/// The names of the reactors that have one.
pub fn reactor_names<'a>(alloc: Global, reactors: &[&'a Reactor]) -> Result<Vec<&'a str>, NoMemory>
    ensures { IfOk result (λ v. texts v.items ≡ filter_map (λ r. r.name) (reactor_trees reactors.now)) }
{
    let mut names = Vec::new(alloc);
    for reactor in reactors {
        match &reactor.name {
            Some(name) => names.push(name.as_str())?,
            None => {}
        }
    }
    Ok(names)
}
