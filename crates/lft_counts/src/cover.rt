//! All counts of a trace, row by row.

ghost use Rattle.std.specs.Prelude.{◌≡◌, ◌+◌, ◌≤◌, ◌<◌, ℕ, List, Some, IfOk, OnOk, IfSome, IfNone, length, map, slice_get};
ghost use Rattle.lft_graph.specs.Graph.{IsGraphOf};
ghost use Rattle.lft_ir.specs.{Parts.Parts, declared.{parts.{Value.Value, Name.TheVariants.Port}, steps.row.{Row.Row as TheRow, Step.TheVariants.Write}}};
ghost use Rattle.lft_ir.specs.Steps.Fits.{RowFits, RowsFit};
ghost use Rattle.lft_counts.specs.{inner.Counts.{Here, KeepsRows}, Orders.cleared, Cover.{IsCounting, IsCover, ListsOrders}};

use crate::inputs::{ReadInputs, add_row, all_inputs};
use crate::orders::Orders;
use crate::overlaps::Overlaps;
use crate::tally::Tally;
use crate::workers::Workers;
use lft_graph::Graph;
use lft_ir::steps::{Row, Step, is_start, row_at};
use lft_ir::{Name, Program};
use lft_tag::NoMemory;
use std::alloc::Global;

/// How often reactions run, ports are written and workers start runs.
#[derive(Drop)]
pub struct Counting {
    /// For each reaction its runs.
    pub runs: Tally,
    /// For each port the rows that write it.
    pub writes: Tally,
    pub workers: Workers,
}

/// What the rows of a trace exercise, as far as they are gone through.
#[derive(Drop)]
pub struct Cover {
    pub counting: Counting,
    pub orders: Orders,
    pub overlaps: Overlaps,
    /// Of each reaction which inputs were present together. No promise says that they are right.
    pub inputs: Vec<ReadInputs>,
    /// So many rows are gone through.
    pub rows: usize,
}

/// The port that a step writes, if it writes one.
fn written_port(step: &Step) -> Option<u32>
    ensures some { IfSome result (λ port. (v : Value) × (step.now ≡ Write (Port port) v)) }
    ensures none { IfNone result ((port : ℕ) (v : Value) → step.now ≡ Write (Port port) v → ⊥) }
{
    match step {
        Step::Write(Name::Port(port), _) => Some(*port),
        _ => None,
    }
}

impl Counting {
    /// Before the first row.
    fn new(alloc: Global, program: &Program) -> Result<Counting, NoMemory>
        ensures { IfOk result (λ counting. (t : List TheRow) → IsCounting program.now t 0 counting) }
    {
        let runs = Tally::new(alloc, program.reactions())?;
        let writes = Tally::new(alloc, program.ports())?;
        let workers = Workers::new(alloc);
        Ok(Counting {
            runs,
            writes,
            workers,
        })
    }

    /// Goes on past a row.
    fn add(&mut self, row: Row) -> Result<(), NoMemory>
        ghost here: { Here }
        requires row { slice_get here.trace here.place ≡ Some row }
        requires few { here.place < 4000000 }
        requires fits { RowFits here.program row }
        requires counting { IsCounting here.program here.trace here.place self.old }
        ensures { OnOk result (IsCounting here.program here.trace (here.place + 1) self.new) }
    {
        if is_start(&row.step) {
            self.runs.add(row.reaction as usize);
            self.workers.begin(row.worker)?;
            return Ok(());
        }
        if let Some(port) = written_port(&row.step) {
            self.writes.add(port as usize);
            return Ok(());
        }
        Ok(())
    }
}

impl Cover {
    /// Before the first row.
    pub fn new(alloc: Global, program: &Program, graph: &Graph) -> Result<Cover, NoMemory>
        requires { IsGraphOf program.now graph.now }
        ensures covers { IfOk result (λ cover. (t : List TheRow) → IsCover program.now t cover) }
        ensures rows { IfOk result (λ cover. cover.rows ≡ 0) }
        ensures listed { IfOk result (ListsOrders graph.now) }
    {
        let counting = Counting::new(alloc, program)?;
        let orders = Orders::new(alloc, program, graph)?;
        let overlaps = Overlaps::new(alloc, program.reactions())?;
        let inputs = all_inputs(alloc, program)?;
        Ok(Cover {
            counting,
            orders,
            overlaps,
            inputs,
            rows: 0,
        })
    }

    /// Goes on past a row.
    fn step(&mut self, row: Row) -> Result<(), NoMemory>
        ghost here: { Here }
        requires ruled { KeepsRows here.trace }
        requires row { slice_get here.trace here.place ≡ Some row }
        requires few { here.place < 4000000 }
        requires fits { RowFits here.program row }
        requires covers { IsCover here.program here.trace self.old × (self.old.rows ≡ here.place) }
        ensures covers { OnOk result (IsCover here.program here.trace self.new) }
        ensures rows { OnOk result (self.new.rows ≡ self.old.rows + 1) }
        ensures listed { OnOk result (map cleared self.new.orders.all.items ≡ map cleared self.old.orders.all.items) }
    {
        self.counting.add(row)?;
        self.orders.add(row);
        self.overlaps.add(row);
        add_row(&mut self.inputs, row);
        self.rows += 1;
        Ok(())
    }

    /// Goes on past rows that come next in the trace.
    pub fn add(&mut self, rows: &[Row]) -> Result<(), NoMemory>
        ghost of: { Parts × List TheRow }
        requires ruled { KeepsRows of.1 }
        requires next { (k : ℕ) (row : TheRow) → slice_get rows.now k ≡ Some row → slice_get of.1 (self.old.rows + k) ≡ Some row }
        requires fit { RowsFit of.0 rows.now }
        requires few { self.old.rows + length rows.now ≤ 4000000 }
        requires covers { IsCover of.0 of.1 self.old }
        ensures covers { OnOk result (IsCover of.0 of.1 self.new) }
        ensures rows { OnOk result (self.new.rows ≡ self.old.rows + length rows.now) }
        ensures listed { OnOk result (map cleared self.new.orders.all.items ≡ map cleared self.old.orders.all.items) }
    {
        for place in 0..rows.len() {
            self.step(row_at(rows, place))?;
        }
        Ok(())
    }
}
