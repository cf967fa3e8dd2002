//! One tag, by counters that each change brings up to date.

ghost use Rattle.std.specs.Prelude.{◌≡◌, ℕ, false, ◌<◌, length, slice_get, slice_set, replicate, Some, None, IfOk};
ghost use Rattle.lft_ir.specs.Parts.{Parts};
ghost use Rattle.lft_graph.specs.Graph.{IsGraphOf};
ghost use Rattle.lft_scheduler.specs.declared.turn.phase.Phase.TheVariants.{Idle, Waiting, Open};
ghost use Rattle.lft_scheduler.specs.inner.Turns.{IsPhasePending, IsReady, IsLeastReady, NoRunOpen, NonePending};

mod frees;
mod mirror;
mod moving;
mod phase;
mod seats;

use crate::turn::frees::least_below;
use crate::turn::mirror::mirror;
use crate::turn::moving::change;
use crate::turn::phase::is_pending;
use crate::turn::seats::{Seat, seat_at};
use lft_graph::{Graph, Set};
use lft_ir::Program;
use lft_queue::coming::NumberLists;
use lft_tag::NoMemory;
pub(crate) use phase::Phase;
use std::alloc::Global;
use std::marker::Model;

/// The reactions at one tag: which are triggered, which have an open run, and which is the least
/// ready one.
///
/// A reaction is *busy* where it is pending or one of its short list is busy. Each keeps how many
/// of its short list are busy; it is ready where it is triggered, hasn't started, and none is. A
/// change goes on only to those reactions that become busy by it, or are no longer busy; so over
/// a tag each step of the graph from a reaction that is busy at some time is taken twice, if none
/// is triggered after it was idle again, and other reactions aren't looked at.
#[derive(Drop)]
pub(crate) struct Turn {
    graph: Graph,
    after: NumberLists,
    seats: Vec<Seat>,
    frees: Set,
    stack: Vec<u32>,
}

impl Model for Turn {
    ghost use Rattle.lft_scheduler.specs.inner.{Turns.TurnParts, Seats.{IsKept, phases_of}};

    ghost Value = { TurnParts };

    ghost view = { λ a. record { graph = a.graph; phases = phases_of a.seats.items } };

    ghost invariant = { λ a. IsKept a.graph a.after a.seats.items a.frees a.stack.items };
}

impl Turn {
    /// A tag at which no reaction is triggered yet. It is the one call that takes memory.
    pub(crate) fn new(alloc: Global, program: &Program, graph: &Graph) -> Result<Turn, NoMemory>
        requires { IsGraphOf program.now graph.now }
        ensures graph { IfOk result (λ turn. turn.graph ≡ graph.now) }
        ensures idle { IfOk result (λ turn. turn.phases ≡ replicate (length graph.now.before) Idle) }
    {
        let count = program.reactions();
        let graph = graph.copy(alloc)?;
        let after = mirror(alloc, &graph, count)?;
        let idle = Seat {
            phase: Phase::Idle,
            waits: 0,
            counted: false,
        };
        let seats = vec![in alloc; idle; count]?;
        let frees = Set::with_room(alloc, count)?;
        let stack = vec![in alloc; 0; count]?;
        Ok(Turn {
            graph,
            after,
            seats,
            frees,
            stack,
        })
    }

    // writes the phase of a reaction
    fn change(&mut self, reaction: u32, phase: Phase)
        requires { reaction < length self.old.phases }
        ensures graph { self.new.graph ≡ self.old.graph }
        ensures phases { self.new.phases ≡ slice_set self.old.phases reaction phase }
    {
        change(
            &self.after,
            &mut self.seats,
            &mut self.frees,
            &mut self.stack,
            reaction,
            phase,
        );
    }

    /// How many reactions there are.
    pub(crate) fn reactions(&self) -> usize
        ensures { result ≡ length self.now.phases }
    {
        self.seats.len()
    }

    /// How far a reaction is.
    pub(crate) fn phase(&self, reaction: u32) -> Phase
        requires { reaction < length self.now.phases }
        ensures { slice_get self.now.phases reaction ≡ Some result }
    {
        seat_at(&self.seats, reaction).phase
    }

    /// The reaction is triggered at the tag. Where it is already, or its run is open, nothing
    /// changes.
    pub(crate) fn trigger(&mut self, reaction: u32)
        requires { reaction < length self.old.phases }
        ensures graph { self.new.graph ≡ self.old.graph }
        ensures idle { slice_get self.old.phases reaction ≡ Some Idle → self.new.phases ≡ slice_set self.old.phases reaction Waiting }
        ensures pending { IsPhasePending self.old.phases reaction → self.new.phases ≡ self.old.phases }
    {
        if !is_pending(self.phase(reaction)) {
            self.change(reaction, Phase::Waiting);
        }
    }

    /// The least ready reaction: it is triggered, its run hasn't started, and no reaction that
    /// precedes it is pending. None where no reaction is ready; where no run is open either,
    /// nothing is left to run at the tag.
    pub(crate) fn first(&self) -> Option<u32>
        ensures ready { (program : Parts) (r : ℕ) → IsGraphOf program self.now.graph → result ≡ Some r → IsLeastReady program self.now.phases r }
        ensures none { (program : Parts) (r : ℕ) → IsGraphOf program self.now.graph → result ≡ None → ¬ IsReady program self.now.phases r }
        ensures over { (program : Parts) → IsGraphOf program self.now.graph → result ≡ None → NoRunOpen self.now.phases → NonePending self.now.phases }
    {
        least_below(&self.frees, self.seats.len())
    }

    /// The run of the reaction starts.
    pub(crate) fn start(&mut self, reaction: u32)
        requires { slice_get self.old.phases reaction ≡ Some Waiting }
        ensures graph { self.new.graph ≡ self.old.graph }
        ensures phases { self.new.phases ≡ slice_set self.old.phases reaction Open }
    {
        self.change(reaction, Phase::Open);
    }

    /// The run of the reaction has ended.
    pub(crate) fn finish(&mut self, reaction: u32)
        requires { slice_get self.old.phases reaction ≡ Some Open }
        ensures graph { self.new.graph ≡ self.old.graph }
        ensures phases { self.new.phases ≡ slice_set self.old.phases reaction Idle }
    {
        self.change(reaction, Phase::Idle);
    }
}
