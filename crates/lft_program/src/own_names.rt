//! The names that the reactors of a file declare, by kind.

ghost use Rattle.std.specs.Prelude.{◌≡◌, IfOk, map, filter_map, option_map};
ghost use Rattle.lft_tree.specs.View.{member_view, member_views};
ghost use Rattle.lft_resolve.specs.inner.{Tests.texts, References.reactor_trees};
ghost use Rattle.lft_program.specs.inner.OwnNames.{name_in, name_lists, own_names};

use lft_tag::NoMemory;
use lft_tree::{Member, Reactor};
use std::alloc::Global;

/// The kinds of members whose full names have a dot.
#[derive(Clone, Copy, PartialEq, Eq, Drop)]
pub(crate) enum MemberKind {
    Instance,
    Port,
    Action,
    Timer,
}

/// The name of a member of this kind.
fn name_of(member: &Member, kind: MemberKind) -> Option<&str>
    ensures { option_map (λ t. t.now) result ≡ name_in kind (member_view member.now) }
{
    match (kind, member) {
        (MemberKind::Instance, Member::Instance(instance)) => Some(instance.name.as_str()),
        (MemberKind::Port, Member::Port(port)) => Some(port.name.as_str()),
        (MemberKind::Action, Member::Action(action)) => Some(action.name.as_str()),
        (MemberKind::Timer, Member::Timer(timer)) => Some(timer.name.as_str()),
        _ => None,
    }
}

/// The names of the members of this kind, in order.
fn names_among(alloc: Global, members: &[Member], kind: MemberKind) -> Result<Vec<&str>, NoMemory>
    ensures { IfOk result (λ v. texts v.items ≡ filter_map (name_in kind) (member_views members.now)) }
{
    let mut names = Vec::new(alloc);
    for member in members {
        match name_of(member, kind) {
            Some(name) => names.push(name)?,
            None => {}
        }
    }
    Ok(names)
}

/// The names that each of the reactors declares for its members of this kind.
pub(crate) fn own_names<'a>(
    alloc: Global,
    reactors: &[&'a Reactor],
    kind: MemberKind,
) -> Result<Vec<Vec<&'a str>>, NoMemory>
    ensures { IfOk result (λ v. name_lists v.items ≡ map (own_names kind) (reactor_trees reactors.now)) }
{
    let mut lists = Vec::new(alloc);
    // One kind at a time, as things have their numbers by kind.
    for reactor in reactors {
        lists.push(names_among(alloc, &reactor.members, kind)?)?;
    }
    Ok(lists)
}
