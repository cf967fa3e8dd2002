//! The parts of a flat program, made from the tables of a tree, its nest and its links. Timers,
//! actions and reactions take the links for the condition alone, which is one for all four kinds.

ghost use Rattle.std.specs.Prelude.{◌≡◌, Bool, Some, IfOk};
ghost use Rattle.std.specs.List.{AllZip};
ghost use Rattle.lft_tree.specs.Tree.{FileTree, ports_of, timers_of, actions_of, reactions_of};
ghost use Rattle.lft_program.specs.{Located.declared, Flattening.{IsPort, IsTimer, IsAction, IsReaction}};
ghost use Rattle.lft_program.specs.inner.Laying.{HasCues, IsActionAt, IsPortAt, IsReactionAt, IsTimerAt, action_at, cues_at, declarations_at, input_at, timer_at};
ghost use Rattle.lft_program.specs.inner.OfTree.{AreOfTree};
ghost use Rattle.lft_ir.specs.{Parts.Parts, Sound.KeepsOrigins};
ghost use Rattle.lft_resolve.specs.declared.by_number.sheets.{ActionSheet.ActionSheet, Cues.Cues as CuesOf, Declarations.Declarations as DeclarationsOf};
ghost use Rattle.lft_resolve.specs.declared.by_number.sheets.TimerSheet.{TimerSheet};

use crate::nesting::{Linked, Nest, Tables};
use crate::spots;
use lft_ir::{Action, Port, Reaction, Timer};
use lft_resolve::by_number::{Cues, Declarations};
use lft_resolve::expansion::Thing;
use lft_tag::NoMemory;
use std::alloc::Global;

// what the reactor of an instance declares
fn declarations_of<'a>(tables: &'a Tables, nest: &Nest, instance: u32) -> &'a Declarations
    requires { (d : DeclarationsOf) × (declarations_at tables.now nest.now instance ≡ Some d) }
    ensures { declarations_at tables.now nest.now instance ≡ Some result.now }
{
    let reactor = nest.instances[instance as usize].reactor;
    &tables.declarations[reactor as usize]
}

fn port(tables: &Tables, nest: &Nest, link: &Linked, thing: Thing) -> Port
    requires { (is_input : Bool) × (input_at tables.now nest.now thing ≡ Some is_input) }
    ensures { IsPortAt tables.now nest.now link.now thing result }
{
    let declarations = declarations_of(tables, nest, thing.instance);
    Port {
        instance: thing.instance,
        is_input: declarations.inputs[thing.place as usize],
        source: link.source,
        origin: link.origin,
        shift: link.shift,
    }
}

fn timer(tables: &Tables, nest: &Nest, thing: Thing) -> Timer
    requires { (sheet : TimerSheet) × (timer_at tables.now nest.now thing ≡ Some sheet) }
    ensures { IsTimerAt tables.now nest.now thing result }
{
    let declarations = declarations_of(tables, nest, thing.instance);
    let sheet = declarations.timers[thing.place as usize];
    Timer {
        instance: thing.instance,
        offset: nest.values.read(thing.instance, sheet.offset),
        period: nest.values.read(thing.instance, sheet.period),
    }
}

fn action(tables: &Tables, nest: &Nest, thing: Thing) -> Action
    requires { (sheet : ActionSheet) × (action_at tables.now nest.now thing ≡ Some sheet) }
    ensures { IsActionAt tables.now nest.now thing result }
{
    let declarations = declarations_of(tables, nest, thing.instance);
    let sheet = declarations.actions[thing.place as usize];
    Action {
        instance: thing.instance,
        physical: sheet.is_physical,
        min_delay: nest.values.read(thing.instance, sheet.min_delay),
    }
}

// what the names of a reaction stand for
fn cues_of<'a>(tables: &'a Tables, nest: &Nest, thing: Thing) -> &'a Cues
    requires { (c : CuesOf) × (cues_at tables.now nest.now thing ≡ Some c) }
    ensures { cues_at tables.now nest.now thing ≡ Some result.now }
{
    let reactor = nest.instances[thing.instance as usize].reactor;
    &tables.reactions[reactor as usize].reactions[thing.place as usize]
}

fn reaction(alloc: Global, tables: &Tables, nest: &Nest, thing: Thing) -> Result<Reaction, NoMemory>
    requires { (c : CuesOf) × (cues_at tables.now nest.now thing ≡ Some c) × HasCues nest.now thing.instance c }
    ensures { IfOk result (IsReactionAt tables.now nest.now thing) }
{
    let cues = cues_of(tables, nest, thing);
    Ok(Reaction {
        instance: thing.instance,
        place: thing.place,
        triggers: spots::triggers(alloc, nest, thing.instance, &cues.triggers)?,
        uses: spots::names(alloc, nest, thing.instance, &cues.uses)?,
        effects: spots::names(alloc, nest, thing.instance, &cues.effects)?,
    })
}

/// The ports of the instances, by number, each reached as the link of its number says.
pub(crate) fn ports(
    alloc: Global,
    tables: &Tables,
    nest: &Nest,
    links: &[Linked],
) -> Result<Vec<Port>, NoMemory>
    requires { (tree : FileTree) × AreOfTree tree tables.now nest.now links.now }
    ensures ports { IfOk result (λ v. (tree : FileTree) → (n : AreOfTree tree tables.now nest.now links.now) → AllZip (IsPort tree n.is_nest.located) (declared ports_of n.is_nest.located) v.items) }
    ensures origins { IfOk result (λ v. (tree : FileTree) → AreOfTree tree tables.now nest.now links.now → (program : Parts) → program.ports ≡ v.items → KeepsOrigins program) }
{
    let things = nest.ports_by_number(alloc)?;
    let mut ports = Vec::new(alloc);
    for number in 0..things.len() {
        ports.push(port(tables, nest, &links[number], things[number]))?;
    }
    Ok(ports)
}

/// The timers of the instances, by number, with their times in nanoseconds as the instance has them.
pub(crate) fn timers(
    alloc: Global,
    tables: &Tables,
    nest: &Nest,
    links: &[Linked],
) -> Result<Vec<Timer>, NoMemory>
    requires { (tree : FileTree) × AreOfTree tree tables.now nest.now links.now }
    ensures { IfOk result (λ v. (tree : FileTree) → (n : AreOfTree tree tables.now nest.now links.now) → AllZip IsTimer (declared timers_of n.is_nest.located) v.items) }
{
    let things = nest.timers_by_number(alloc)?;
    let mut timers = Vec::new(alloc);
    for number in 0..things.len() {
        timers.push(timer(tables, nest, things[number]))?;
    }
    Ok(timers)
}

/// The actions of the instances, by number, with their minimum delays in nanoseconds as the instance
/// has them.
pub(crate) fn actions(
    alloc: Global,
    tables: &Tables,
    nest: &Nest,
    links: &[Linked],
) -> Result<Vec<Action>, NoMemory>
    requires { (tree : FileTree) × AreOfTree tree tables.now nest.now links.now }
    ensures { IfOk result (λ v. (tree : FileTree) → (n : AreOfTree tree tables.now nest.now links.now) → AllZip IsAction (declared actions_of n.is_nest.located) v.items) }
{
    let things = nest.actions_by_number(alloc)?;
    let mut actions = Vec::new(alloc);
    for number in 0..things.len() {
        actions.push(action(tables, nest, things[number]))?;
    }
    Ok(actions)
}

/// The reactions of the instances, by number. A timer as a use isn't kept.
pub(crate) fn reactions(
    alloc: Global,
    tables: &Tables,
    nest: &Nest,
    links: &[Linked],
) -> Result<Vec<Reaction>, NoMemory>
    requires { (tree : FileTree) × AreOfTree tree tables.now nest.now links.now }
    ensures { IfOk result (λ v. (tree : FileTree) → (n : AreOfTree tree tables.now nest.now links.now) → AllZip (IsReaction n.is_nest.located) (declared reactions_of n.is_nest.located) v.items) }
{
    let things = nest.reactions_by_number(alloc)?;
    let mut reactions = Vec::new(alloc);
    for number in 0..things.len() {
        reactions.push(reaction(alloc, tables, nest, things[number])?)?;
    }
    Ok(reactions)
}
