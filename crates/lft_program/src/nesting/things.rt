//! What the instances of a nest declare, by number.

ghost use Rattle.std.specs.Prelude.{◌≤◌, length, IfOk};
ghost use Rattle.std.specs.List.{AllZip};
ghost use Rattle.lft_tree.specs.Tree.{FileTree, actions_of, ports_of, reactions_of, timers_of};
ghost use Rattle.lft_program.specs.{Located.declared, inner.Nests.{IsNest, IsThingOf}, declared.nesting.tables.Tables.Tables};

use crate::nesting::nest::Nest;
use lft_resolve::expansion::{Thing, list_things};
use lft_tag::NoMemory;
use std::alloc::Global;

impl Nest {
    /// The instance and the place of each port, by the port's number.
    pub(crate) fn ports_by_number(&self, alloc: Global) -> Result<Vec<Thing>, NoMemory>
        requires { length self.now.instances.items ≤ 10000 }
        ensures { IfOk result (λ v. (tree : FileTree) (tables : Tables) (n : IsNest tree tables self.now)
            → AllZip IsThingOf (declared ports_of n.located) v.items) }
    {
        list_things(alloc, &self.instances, &self.ports.counts)
    }

    /// The instance and the place of each timer, by the timer's number.
    pub(crate) fn timers_by_number(&self, alloc: Global) -> Result<Vec<Thing>, NoMemory>
        requires { length self.now.instances.items ≤ 10000 }
        ensures { IfOk result (λ v. (tree : FileTree) (tables : Tables) (n : IsNest tree tables self.now)
            → AllZip IsThingOf (declared timers_of n.located) v.items) }
    {
        list_things(alloc, &self.instances, &self.timers.counts)
    }

    /// The instance and the place of each action, by the action's number.
    pub(crate) fn actions_by_number(&self, alloc: Global) -> Result<Vec<Thing>, NoMemory>
        requires { length self.now.instances.items ≤ 10000 }
        ensures { IfOk result (λ v. (tree : FileTree) (tables : Tables) (n : IsNest tree tables self.now)
            → AllZip IsThingOf (declared actions_of n.located) v.items) }
    {
        list_things(alloc, &self.instances, &self.actions.counts)
    }

    /// The instance and the place of each reaction, by the reaction's number.
    pub(crate) fn reactions_by_number(&self, alloc: Global) -> Result<Vec<Thing>, NoMemory>
        requires { length self.now.instances.items ≤ 10000 }
        ensures { IfOk result (λ v. (tree : FileTree) (tables : Tables) (n : IsNest tree tables self.now)
            → AllZip IsThingOf (declared reactions_of n.located) v.items) }
    {
        list_things(alloc, &self.instances, &self.reactions.counts)
    }
}
