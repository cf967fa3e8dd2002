//! The graph of a program.

ghost use Rattle.std.specs.Prelude.{◌≡◌, ℕ, List, ◌<◌, length, slice_get, Some, Err, IfOk, OnOk};
ghost use Rattle.lft_graph.specs.{Precedence.{HasNoLoop, IsLevelled}, Graph.IsGraphOf, Loops.IsLoop};

use crate::before::all_before;
use crate::fault::GraphFault;
use crate::levels::levels;
use crate::members::{Members, copy_members};
use crate::order::by_level;
use lft_ir::Program;
use lft_tag::NoMemory;
use std::alloc::Global;
use std::marker::Model;

/// Which reactions of a program precede which at a tag, as a short list and a level for each.
#[derive(Debug, Drop)]
pub struct Graph {
    before: Vec<Members>,
    levels: Vec<u32>,
    by_level: Vec<u32>,
}

impl Model for Graph {
    ghost use Rattle.std.specs.Prelude.{◌≡◌, length};
    ghost use Rattle.lft_graph.specs.Graph.{GraphParts};

    ghost Value = { GraphParts };

    ghost view = { λ a. record { before = a.before.items; levels = a.levels.items; by_level = a.by_level.items } };

    ghost invariant = { λ a. length a.levels.items ≡ length a.before.items };
}

impl Graph {
    /// The graph of the program, or a causality loop. Where there are several loops, it is any.
    pub fn build(alloc: Global, program: &Program) -> Result<Graph, GraphFault>
        ensures graph { IfOk result (λ g. IsGraphOf program.now g) }
        ensures levelled { OnOk result (IsLevelled program.now) }
        ensures no_loop { OnOk result (HasNoLoop program.now) }
        ensures cycle { (l : List ℕ) → result ≡ Err (GraphFault.CausalityLoop l) → IsLoop program.now l }
    {
        let before = all_before(alloc, program)?;
        let levels = match levels(alloc, &before) {
            Ok(levels) => levels,
            Err(fault) => return Err(fault),
        };
        let by_level = by_level(alloc, &levels)?;
        Ok(Graph {
            before,
            levels,
            by_level,
        })
    }

    /// The short list of a reaction, ascending: the reaction declared just before it in its
    /// instance, and for each of its undelayed input ports the last declared writer of the port's
    /// origin.
    pub fn before(&self, reaction: u32) -> &[u32]
        requires { reaction < length self.now.before }
        ensures { slice_get self.now.before reaction ≡ Some result.now }
    {
        self.before[reaction as usize].as_slice()
    }

    /// The level of a reaction: 0 where its short list is empty, else one more than the greatest
    /// level in it.
    pub fn level(&self, reaction: u32) -> u32
        requires { reaction < length self.now.before }
        ensures { slice_get self.now.levels reaction ≡ Some result }
    {
        self.levels[reaction as usize]
    }

    /// All reactions by level and then by number.
    pub fn by_level(&self) -> &[u32]
        ensures { result.now ≡ self.now.by_level }
    {
        self.by_level.as_slice()
    }

    /// The same graph.
    pub fn copy(&self, alloc: Global) -> Result<Graph, NoMemory>
        ensures { IfOk result (λ copy. copy ≡ self.now) }
    {
        let before = copy_members(alloc, self.before.as_slice())?;
        let levels = Vec::from_slice(alloc, self.levels.as_slice())?;
        let by_level = Vec::from_slice(alloc, self.by_level())?;
        Ok(Graph {
            before,
            levels,
            by_level,
        })
    }
}
