//! The first cause of refusal, in the order of the answers, with what shows it.

ghost use Rattle.std.specs.Prelude.{◌≡◌, Any, IfOk, IfSome, IfNone, map};
ghost use Rattle.lft_tree.specs.{Tree.reactors_of, View.{reactor_view, tree_view}};
ghost use Rattle.lft_resolve.specs.{Causes.{DuplicateName, HasLongTime, first_causes, later_causes}, inner.Tables.IsFile};
ghost use Rattle.lft_validate.specs.{inner.{Members.behind, Witnesses.{IsFirstShown, CauseSays, causes_in_order, time_causes}}, Members.reactors_among};
ghost use Rattle.lft_validate.specs.Witnesses.{Shows, fault_shown};

use crate::declared::{same_reactors, some_declared_twice};
use crate::mains::{long_default, no_main, two_mains};
use crate::members::first_member;
use crate::names::reactors_among;
use crate::sources::two_sources;
use crate::witness::Witness;
use lft_resolve::file::ReactorTable;
use lft_resolve::{FIRST_CAUSES, LATER_CAUSES, ProgramFault, Scopes};
use lft_tag::NoMemory;
use lft_tree::{Ast, Reactor};
use std::alloc::Global;

/// Two reactors of one name, two things of one name, or two values for one parameter.
fn duplicate_name<'a>(
    alloc: Global,
    reactors: &[&'a Reactor],
    file: &ReactorTable,
) -> Result<Option<Witness<'a>>, NoMemory>
    requires { IsFile (map reactor_view (behind reactors.now)) file.now }
    ensures shows { IfOk result (λ found. IfSome found (Shows (behind reactors.now))) }
    ensures cause { IfOk result (λ found. IfSome found (λ w. fault_shown w ≡ ProgramFault.DuplicateName)) }
    ensures none { IfOk result (λ found. IfNone found (¬ DuplicateName (map reactor_view (behind reactors.now)))) }
{
    // Each of the three shows the same cause, so their order is free.
    if let Some(found) = same_reactors(alloc, reactors)? {
        return Ok(Some(found));
    }
    if let Some(found) = some_declared_twice(alloc, reactors)? {
        return Ok(Some(found));
    }
    first_member(alloc, ProgramFault::DuplicateName, reactors, file)
}

/// A default that is past the greatest time, or a time in a member that is.
fn long_time<'a>(
    alloc: Global,
    reactors: &[&'a Reactor],
    file: &ReactorTable,
) -> Result<Option<Witness<'a>>, NoMemory>
    requires { IsFile (map reactor_view (behind reactors.now)) file.now }
    ensures shows { IfOk result (λ found. IfSome found (Shows (behind reactors.now))) }
    ensures cause { IfOk result (λ found. IfSome found (λ w. fault_shown w ≡ ProgramFault.DelayTooLong)) }
    ensures none { IfOk result (λ found. IfNone found (¬ Any HasLongTime (map reactor_view (behind reactors.now)))) }
{
    // A default stands in no member, so members alone don't show the cause.
    if let Some(found) = long_default(reactors) {
        return Ok(Some(found));
    }
    first_member(alloc, ProgramFault::DelayTooLong, reactors, file)
}

/// What shows that the reactors have the cause, if they have it. Most causes are shown by one member.
fn shown<'a>(
    alloc: Global,
    cause: ProgramFault,
    reactors: &[&'a Reactor],
    file: &ReactorTable,
) -> Result<Option<Witness<'a>>, NoMemory>
    requires { IsFile (map reactor_view (behind reactors.now)) file.now }
    ensures shows { IfOk result (λ found. IfSome found (Shows (behind reactors.now))) }
    ensures cause { IfOk result (λ found. IfSome found (λ w. fault_shown w ≡ cause)) }
    ensures none { IfOk result (λ found. IfNone found (¬ CauseSays (map reactor_view (behind reactors.now)) cause)) }
{
    match cause {
        ProgramFault::NoMain => Ok(no_main(reactors)),
        ProgramFault::TwoMains => Ok(two_mains(reactors)),
        ProgramFault::DuplicateName => duplicate_name(alloc, reactors, file),
        ProgramFault::TwoSources => two_sources(alloc, reactors),
        ProgramFault::DelayTooLong => long_time(alloc, reactors, file),
        _ => first_member(alloc, cause, reactors, file),
    }
}

// Each cause is looked for once: what is found shows it.
fn first_of<'a>(
    alloc: Global,
    causes: &[ProgramFault],
    reactors: &[&'a Reactor],
    file: &ReactorTable,
) -> Result<Option<Witness<'a>>, NoMemory>
    requires { IsFile (map reactor_view (behind reactors.now)) file.now }
    ensures { IfOk result (IsFirstShown (behind reactors.now) (causes_in_order (map reactor_view (behind reactors.now)) causes.now)) }
{
    for place in 0..causes.len() {
        if let Some(found) = shown(alloc, causes[place], reactors, file)? {
            return Ok(Some(found));
        }
    }
    Ok(None)
}

/// The same of the reactors of a tree.
fn first_in_tree<'a>(
    alloc: Global,
    causes: &[ProgramFault],
    ast: &'a Ast,
    scopes: &Scopes,
) -> Result<Option<Witness<'a>>, NoMemory>
    requires { scopes.now ≡ tree_view ast.now }
    ensures { IfOk result (IsFirstShown (reactors_among ast.now.items.items) (causes_in_order (reactors_of scopes.now) causes.now)) }
{
    let reactors = reactors_among(alloc, &ast.items)?;
    first_of(alloc, causes, &reactors, scopes.file())
}

/// Looks for a main reactor, for a second one, for a name that is declared twice, and for a `new` of a
/// reactor that isn't there, in this order. The names of all reactors are looked at, also of those of
/// which there is no instance.
pub fn check_first<'a>(
    alloc: Global,
    ast: &'a Ast,
    scopes: &Scopes,
) -> Result<Option<Witness<'a>>, NoMemory>
    requires { scopes.now ≡ tree_view ast.now }
    ensures { IfOk result (IsFirstShown (reactors_among ast.now.items.items) (first_causes (reactors_of scopes.now))) }
{
    first_in_tree(alloc, &FIRST_CAUSES, ast, scopes)
}

/// Looks in each reactor of the file for a name that is nothing, for one that may not stand in its place,
/// and then for how its ports, connections and reactions are written, in the order of the causes. A reactor
/// that isn't in the file declares no ports and no parameters, and of several reactors of one name the
/// first counts; `check_first` finds both.
pub fn check_later<'a>(
    alloc: Global,
    ast: &'a Ast,
    scopes: &Scopes,
) -> Result<Option<Witness<'a>>, NoMemory>
    requires { scopes.now ≡ tree_view ast.now }
    ensures { IfOk result (IsFirstShown (reactors_among ast.now.items.items) (later_causes (reactors_of scopes.now))) }
{
    first_in_tree(alloc, &LATER_CAUSES, ast, scopes)
}

/// Looks for a time in some reactor that is past 10^18 nanoseconds: a default of a parameter, or any other
/// time that is written. A named time is as long as its parameter.
pub fn check_times<'a>(
    alloc: Global,
    ast: &'a Ast,
    scopes: &Scopes,
) -> Result<Option<Witness<'a>>, NoMemory>
    requires { scopes.now ≡ tree_view ast.now }
    ensures { IfOk result (IsFirstShown (reactors_among ast.now.items.items) (time_causes (reactors_of scopes.now))) }
{
    // Apart from the later causes, since a cycle of connections is told before it.
    first_in_tree(alloc, &[ProgramFault::DelayTooLong], ast, scopes)
}
