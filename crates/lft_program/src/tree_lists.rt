//! What the instances of a nest declare, as the naming takes it.

ghost use Rattle.std.specs.Prelude.{◌≡◌, ◌≤◌, IfOk, length, map};
ghost use Rattle.lft_tree.specs.Tree.{FileTree, reactors_of};
ghost use Rattle.lft_program.specs.inner.{Nests.IsNest, OwnNames.{name_lists, own_names}, TreeLists.{AreLists, name_at, placed_at, seen}};
ghost use Rattle.lft_program.specs.declared.nesting.tables.Tables.{Tables};
ghost use Rattle.lft_resolve.specs.inner.References.{reactor_trees};

use crate::naming::{OwnName, PlacedReaction};
use crate::nesting::Nest;
use crate::own_names::{MemberKind, own_names};
use lft_resolve::expansion::{Instance, Thing};
use lft_tag::NoMemory;
use lft_tree::Reactor;
use std::alloc::Global;

/// What the instances of a nest declare, by kind and in the order of the numbers.
#[derive(Drop)]
pub struct Lists<'a> {
    pub instances: Vec<OwnName<'a>>,
    pub ports: Vec<OwnName<'a>>,
    pub(crate) actions: Vec<OwnName<'a>>,
    pub(crate) timers: Vec<OwnName<'a>>,
    pub(crate) reactions: Vec<PlacedReaction>,
}

/// The name at this place of the reactor of this instance; an empty one where there is none.
fn name_at<'a>(names: &[Vec<&'a str>], instances: &[Instance], number: u32, place: usize) -> &'a str
    ensures { result.now ≡ name_at (name_lists names.now) instances.now number place }
{
    match instances.get(number as usize) {
        Some(instance) => match names.get(instance.reactor as usize) {
            Some(own) => own.get(place).copied().unwrap_or(""),
            None => "",
        },
        None => "",
    }
}

/// The instances, each with its name in the one that contains it. The main instance has the name
/// of the first instance that it contains, or none: its full name doesn't come from it.
fn contained<'a>(
    alloc: Global,
    names: &[Vec<&'a str>],
    instances: &[Instance],
) -> Result<Vec<OwnName<'a>>, NoMemory>
    ensures { IfOk result (λ v. map seen v.items ≡ map (λ i. (i.parent, name_at (name_lists names.now) instances.now i.parent i.place)) instances.now) }
{
    let mut declared = Vec::new(alloc);
    for inner in instances {
        declared.push(OwnName {
            instance: inner.parent,
            name: name_at(names, instances, inner.parent, inner.place),
        })?;
    }
    Ok(declared)
}

/// The things with their names.
fn declared<'a>(
    alloc: Global,
    names: &[Vec<&'a str>],
    instances: &[Instance],
    things: &[Thing],
) -> Result<Vec<OwnName<'a>>, NoMemory>
    ensures { IfOk result (λ v. map seen v.items ≡ map (λ t. (t.instance, name_at (name_lists names.now) instances.now t.instance t.place)) things.now) }
{
    let mut declared = Vec::new(alloc);
    for thing in things {
        declared.push(OwnName {
            instance: thing.instance,
            name: name_at(names, instances, thing.instance, thing.place as usize),
        })?;
    }
    Ok(declared)
}

/// The things of one kind with their names.
fn declared_of<'a>(
    alloc: Global,
    reactors: &[&'a Reactor],
    instances: &[Instance],
    things: &[Thing],
    kind: MemberKind,
) -> Result<Vec<OwnName<'a>>, NoMemory>
    ensures { IfOk result (λ v. map seen v.items ≡ map (λ t. (t.instance, name_at (map (own_names kind) (reactor_trees reactors.now)) instances.now t.instance t.place)) things.now) }
{
    let names = own_names(alloc, reactors, kind)?;
    declared(alloc, &names, instances, things)
}

/// The reactions by their places.
fn placed(alloc: Global, things: &[Thing]) -> Result<Vec<PlacedReaction>, NoMemory>
    ensures { IfOk result (λ v. v.items ≡ map placed_at things.now) }
{
    let mut placed = Vec::new(alloc);
    for thing in things {
        placed.push(PlacedReaction {
            instance: thing.instance,
            place: thing.place,
        })?;
    }
    Ok(placed)
}

impl<'a> Lists<'a> {
    /// The lists of a nest's instances, whose reactors these are by number.
    pub fn of(alloc: Global, reactors: &[&'a Reactor], nest: &Nest) -> Result<Lists<'a>, NoMemory>
        requires { length nest.now.instances.items ≤ 10000 }
        ensures { IfOk result (λ l. (tree : FileTree) (tables : Tables) (n : IsNest tree tables nest.now)
            → reactor_trees reactors.now ≡ reactors_of tree → AreLists tree tables nest.now n l) }
    {
        let names = own_names(alloc, reactors, MemberKind::Instance)?;
        let ports = nest.ports_by_number(alloc)?;
        let actions = nest.actions_by_number(alloc)?;
        let timers = nest.timers_by_number(alloc)?;
        let reactions = nest.reactions_by_number(alloc)?;
        let instances = nest.instances.as_slice();
        Ok(Lists {
            instances: contained(alloc, &names, instances)?,
            ports: declared_of(alloc, reactors, instances, &ports, MemberKind::Port)?,
            actions: declared_of(alloc, reactors, instances, &actions, MemberKind::Action)?,
            timers: declared_of(alloc, reactors, instances, &timers, MemberKind::Timer)?,
            reactions: placed(alloc, &reactions)?,
        })
    }
}
