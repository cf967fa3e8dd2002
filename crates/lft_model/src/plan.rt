//! A program with its precedence and its external inputs.

ghost use Rattle.std.specs.Prelude.{◌≡◌, ◌↔◌, ◌≤◌, ◌<◌, ℕ, List, length, Err, IfOk, IfSome, IfNone, OnOk, OnErr, IsTrue};
ghost use Rattle.std.specs.List.{insert};

use lft_graph::{Graph, GraphFault};
use lft_ir::Program;
use lft_ir::steps::{Event, Externals};
use lft_tag::{NoMemory, Tag};
use std::alloc::Global;
use std::marker::Model;

/// What an execution is judged by: a program, its graph, and the external inputs that it is given.
#[derive(Debug, Drop)]
pub struct Plan {
    program: Program,
    externals: Externals,
    graph: Graph,
}

impl Model for Plan {
    ghost use Rattle.lft_model.specs.Plans.{PlanParts};

    ghost Value = { PlanParts };

    ghost view = { λ a. record { program = a.program; externals = a.externals } };

    ghost use Rattle.lft_graph.specs.Graph.{IsGraphOf};
    ghost use Rattle.lft_model.specs.Plans.{IsSoundPlan};

    ghost invariant = { λ a. IsSoundPlan (record { program = a.program; externals = a.externals }) × IsGraphOf a.program a.graph };
}

impl Plan {
    ghost use Rattle.lft_tag.specs.Tags.{IsRecorded};
    ghost use Rattle.lft_ir.specs.Steps.{Fits.{EventFits, ExternalsFit}, Inputs.IsTold};
    ghost use Rattle.lft_graph.specs.{Graph.IsGraphOf, Loops.IsLoop, Precedence.{HasNoLoop, IsLevelled}};
    ghost use Rattle.lft_model.specs.Plans.{IsSoundPlan};

    /// The plan of a program and of external inputs that fit it. Both are dropped on a refusal.
    pub fn new(alloc: Global, program: Program, externals: Externals) -> Result<Plan, GraphFault>
        requires fit { ExternalsFit program externals }
        ensures program { IfOk result (λ plan. plan.program ≡ program) }
        ensures externals { IfOk result (λ plan. plan.externals ≡ externals) }
        ensures no_loop { OnOk result (HasNoLoop program) }
        ensures cycle { (loop : List ℕ) → result ≡ Err (GraphFault.CausalityLoop loop) → IsLoop program loop }
    {
        match Graph::build(alloc, &program) {
            Ok(graph) => Ok(Plan::with_graph(program, externals, graph)),
            Err(fault) => Err(fault),
        }
    }

    /// The plan of a program, its graph, and external inputs that fit it. It takes no memory.
    pub fn with_graph(program: Program, externals: Externals, graph: Graph) -> Plan
        requires fit { ExternalsFit program externals }
        requires levels { IsLevelled program }
        requires graph { IsGraphOf program graph }
        ensures program { result.program ≡ program }
        ensures externals { result.externals ≡ externals }
    {
        // Asked for what every program and all external inputs keep: the one is sound, the others
        // stand in order.
        program.keeps();
        externals.keeps();
        Plan {
            program,
            externals,
            graph,
        }
    }

    /// Puts an external event at its place among the others, and gives the place; or gives None and
    /// leaves all as it was, where an event of its action at its tag is there already. Where memory is
    /// refused all stays as it was.
    pub fn tell(&mut self, event: Event) -> Result<Option<usize>, NoMemory>
        requires fit { EventFits self.old.program event }
        requires room { length self.old.externals.events < 4000000 }
        ensures program { self.new.program ≡ self.old.program }
        ensures stop { self.new.externals.stop ≡ self.old.externals.stop }
        ensures some { IfOk result (λ place. IfSome place (λ p. (p ≤ length self.old.externals.events) × (self.new.externals.events ≡ insert self.old.externals.events p event))) }
        ensures none { IfOk result (λ place. IfNone place (IsTold self.old.externals.events event × (self.new.externals.events ≡ self.old.externals.events))) }
        ensures err { OnErr result (self.new.externals.events ≡ self.old.externals.events) }
    {
        let told = self.externals.tell(event);
        // Asked for what all external inputs keep: they stand in order.
        self.externals.keeps();
        told
    }

    /// Makes the tag the stop. All else stays.
    pub fn stop_at(&mut self, stop: Tag)
        requires { IsRecorded stop }
        ensures program { self.new.program ≡ self.old.program }
        ensures externals { self.new.externals ≡ record { stop = stop; events = self.old.externals.events } }
    {
        self.externals.stop_at(stop);
        // Asked for what all external inputs keep: they stand in order.
        self.externals.keeps();
    }

    /// Does nothing. It is called for its clause, where code has the plan and a proof needs what
    /// every plan keeps: it is sound.
    pub fn keeps(&self)
        ensures sound { IsSoundPlan self.now }
    {
        let _ = &self.graph;
    }

    /// The flat program.
    pub fn program(&self) -> &Program
        ensures value { result.now ≡ self.now.program }
        ensures sound { IsSoundPlan self.now }
    {
        &self.program
    }

    /// Which reactions precede which at a tag.
    pub fn graph(&self) -> &Graph
        ensures graph { IsGraphOf self.now.program result.now }
        ensures sound { IsSoundPlan self.now }
    {
        &self.graph
    }

    /// The external inputs.
    pub fn externals(&self) -> &Externals
        ensures value { result.now ≡ self.now.externals }
        ensures sound { IsSoundPlan self.now }
    {
        &self.externals
    }

    /// Whether the two plans have the same program and external inputs. It takes no memory.
    pub fn same(&self, other: &Plan) -> bool
        ensures { IsTrue result ↔ (self.now ≡ other.now) }
    {
        self.program.same(&other.program) && self.externals.same(&other.externals)
    }

    /// The same plan.
    pub fn copy(&self, alloc: Global) -> Result<Plan, NoMemory>
        ensures { IfOk result (λ copy. copy ≡ self.now) }
    {
        let program = self.program.copy(alloc)?;
        let externals = self.externals.copy(alloc)?;
        let graph = self.graph.copy(alloc)?;
        Ok(Plan::with_graph(program, externals, graph))
    }
}
