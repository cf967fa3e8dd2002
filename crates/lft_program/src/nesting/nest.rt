//! The instances of a tree by number, with what is kept of each.

ghost use Rattle.std.specs.Prelude.{◌≡◌, ◌≤◌, ℕ, List, Err, IfOk, OnOk, length};
ghost use Rattle.lft_tree.specs.Tree.{FileTree};
ghost use Rattle.lft_resolve.specs.inner.Expansion.{Contents.{IsWalk, contained}, Numbers.{AreFirstNumbers, HasMoreThings, things}};
ghost use Rattle.lft_resolve.specs.{Expansion.Paths.{Exists, IsMoreThan}, declared.expansion.walk.Contents.Contents as TheContents, Causes.TooMany};
ghost use Rattle.lft_program.specs.inner.{Limits.{IsExcess, IsFull, IsPassed, limit_of}, Nests.IsNest, Tables.{AreTables, IsLawful}};
ghost use Rattle.lft_program.specs.declared.nesting.limits.Excess.{Excess as TheExcess};
ghost use Rattle.lft_program.specs.declared.nesting.nest.NestFault;

use crate::nesting::counts::{
    action_counts, join_counts, port_counts, reaction_counts, timer_counts,
};
use crate::nesting::limits::{Excess, LimitedKind, excess_of_instances};
use crate::nesting::tables::Tables;
use lft_resolve::expansion::{
    Children, Contents, Instance, Values, WalkFault, all_instances, count_things, first_numbers,
};
use std::alloc::Global;

/// How things of one kind are numbered: how many of them each reactor declares, by the reactor's
/// number, and the number of each instance's first one, by the instance's number.
#[derive(Drop)]
pub struct Numbering {
    pub counts: Vec<u32>,
    pub firsts: Vec<u32>,
}

/// The instances in pre-order, of which the main one is the first, with the instances that each
/// contains, the values of its parameters in nanoseconds, and the numbers of what it declares.
#[derive(Drop)]
pub struct Nest {
    pub instances: Vec<Instance>,
    pub children: Children,
    pub values: Values,
    pub ports: Numbering,
    pub timers: Numbering,
    pub actions: Numbering,
    pub reactions: Numbering,
}

/// Why there is no nest.
#[derive(Clone, Copy, PartialEq, Eq, Drop)]
pub enum NestFault {
    /// A limit on how many things a program has is passed.
    TooMany(Excess),
    /// A growth of memory was refused.
    NoMemory,
}

impl From<lft_tag::NoMemory> for NestFault {
    ghost use Rattle.std.specs.Prelude.{◌≡◌};
    ghost use Rattle.lft_program.specs.declared.nesting.nest.NestFault.TheVariants as faults;

    ghost from_gives = { λ _ e. e ≡ faults.NoMemory };

    fn from(_error: lft_tag::NoMemory) -> NestFault {
        NestFault::NoMemory
    }
}

// the instances in pre-order, where they are no more than may be
fn instances_of(alloc: Global, contents: &[Contents], main: u32) -> Result<Vec<Instance>, NestFault>
    ensures walk { IfOk result (λ v. IsWalk contents.now main v.items) }
    ensures few { IfOk result (λ v. length v.items ≤ 10000) }
    ensures within { OnOk result (IsMoreThan (Exists (contained contents.now) main) 10000 → ⊥) }
    ensures too_many { (e : TheExcess) → result ≡ Err (NestFault.TooMany e) → IsFull contents.now main e }
{
    match all_instances(alloc, contents, main) {
        Ok(instances) => Ok(instances),
        Err(WalkFault::TooMany) => {
            let excess = excess_of_instances(alloc, contents, main)?;
            Err(NestFault::TooMany(excess))
        }
        Err(WalkFault::NoMemory) => Err(NestFault::NoMemory),
    }
}

// how things of one kind are numbered, where they are no more than may be
fn numbered(
    alloc: Global,
    instances: &[Instance],
    counts: Vec<u32>,
    kind: LimitedKind,
) -> Result<Numbering, NestFault>
    ensures counts { IfOk result (λ n. n.counts ≡ counts) }
    ensures firsts { IfOk result (λ n. AreFirstNumbers counts.items instances.now n.firsts.items) }
    ensures few { IfOk result (λ _. things counts.items instances.now ≤ limit_of kind) }
    ensures within { OnOk result ((table : List TheContents) → (main : ℕ) → IsWalk table main instances.now → HasMoreThings table main counts.items (limit_of kind) → ⊥) }
    ensures too_many { (e : TheExcess) → result ≡ Err (NestFault.TooMany e) → IsPassed kind (things counts.items instances.now) e }
{
    match first_numbers(alloc, instances, &counts, kind.limit())? {
        Some(firsts) => Ok(Numbering { counts, firsts }),
        None => Err(NestFault::TooMany(Excess {
            kind,
            // `first_numbers` ends where the limit is passed, so for the words all are counted once more.
            count: count_things(&counts, instances) as u64,
            is_more: false,
        })),
    }
}

impl Nest {
    /// The nest of the tree whose reactors have these tables. Nothing is made past a limit. Of several
    /// limits that are passed the first is told, in the order of instances, reactions, ports, connections,
    /// actions, timers.
    pub fn of(alloc: Global, tables: &Tables) -> Result<Nest, NestFault>
        ensures nest { IfOk result (λ n. (tree : FileTree) → AreTables tree tables.now → IsLawful tree → IsNest tree tables.now n) }
        ensures within { OnOk result ((tree : FileTree) → AreTables tree tables.now → IsLawful tree → TooMany tree → ⊥) }
        ensures too_many { (e : TheExcess) → result ≡ Err (NestFault.TooMany e) → (tree : FileTree) → AreTables tree tables.now → IsLawful tree → IsExcess tree e }
    {
        let instances = instances_of(alloc, &tables.contents, tables.main)?;
        let counts = reaction_counts(alloc, &tables.reactions)?;
        let reactions = numbered(alloc, &instances, counts, LimitedKind::Reactions)?;
        let counts = port_counts(alloc, &tables.declarations)?;
        let ports = numbered(alloc, &instances, counts, LimitedKind::Ports)?;
        // Connections have no numbers in a flat program: they are counted for their limit alone.
        let counts = join_counts(alloc, &tables.connections)?;
        numbered(alloc, &instances, counts, LimitedKind::Connections)?;
        let counts = action_counts(alloc, &tables.declarations)?;
        let actions = numbered(alloc, &instances, counts, LimitedKind::Actions)?;
        let counts = timer_counts(alloc, &tables.declarations)?;
        let timers = numbered(alloc, &instances, counts, LimitedKind::Timers)?;
        Ok(Nest {
            children: Children::of(alloc, &instances)?,
            values: Values::of(alloc, &tables.parameters, &instances)?,
            instances,
            ports,
            timers,
            actions,
            reactions,
        })
    }
}
