//! How often both reactions of an order ran at one tag, and how often on two workers.

ghost use Rattle.std.specs.Prelude.{IfOk, OnOk, None, replicate, map, ◌≡◌, ◌++◌, ◌+◌, ◌<◌, ℕ, List, Some, length, slice_get};
ghost use Rattle.lft_graph.specs.{Graph.IsGraphOf, Counts.Count};
ghost use Rattle.lft_ir.specs.declared.steps.row.Row.{Row as TheRow};
ghost use Rattle.lft_model.specs.Runs.{start_row};
ghost use Rattle.lft_counts.specs.inner.{Counts.{Here, KeepsRows}, Orders.IsOrderMet};
ghost use Rattle.lft_counts.specs.Orders.{IsApart, IsCounted, IsLast, Stands, cleared, orders_from, unmet};

use lft_graph::Graph;
use lft_ir::Program;
use lft_ir::steps::{Row, is_start};
use lft_lists::item_at;
use lft_tag::{NoMemory, Tag};
use std::alloc::Global;

/// A start of a reaction: its tag and its worker.
#[derive(Clone, Copy, Drop)]
pub struct Last {
    pub tag: Tag,
    pub worker: u32,
}

/// An order: a reaction, and one in its short list that comes first. `both` is at how many tags both
/// ran, `apart` at how many of these on two workers.
#[derive(Clone, Copy, Drop)]
pub struct Order {
    pub first: u32,
    pub then: u32,
    pub both: u64,
    pub apart: u64,
}

impl Order {
    /// The order behind a start of its second reaction, where this is the last start of its first.
    fn met(self, last: Option<Last>, tag: Tag, worker: u32) -> Order
        requires both { self.both < 4000000 }
        requires apart { self.apart < 4000000 }
        ensures first { result.first ≡ self.first }
        ensures then { result.then ≡ self.then }
        ensures counted { (t : List TheRow) (i : ℕ) → KeepsRows t → slice_get t i ≡ Some (start_row worker tag self.then) → IsLast t i self.first last → IsCounted t i self → IsCounted t (i + 1) result }
    {
        let mut order = self;
        if let Some(start) = last {
            // The start of an earlier tag isn't cleared, which would cost all
            // reactions at each tag. Its tag tells it apart.
            if start.tag.is_same(tag) {
                order.both += 1;
                if start.worker != worker {
                    order.apart += 1;
                }
            }
        }
        order
    }
}

/// The orders of a program, those of each reaction behind one another.
#[derive(Drop)]
pub struct Orders {
    all: Vec<Order>,
    /// Where the orders of each reaction begin, and behind these where those of the last one end.
    begins: Vec<usize>,
    /// The last start of each reaction.
    lasts: Vec<Option<Last>>,
}

/// No last start of so many reactions.
fn no_lasts(alloc: Global, reactions: usize) -> Result<Vec<Option<Last>>, NoMemory>
    ensures { IfOk result (λ lasts. lasts.items ≡ replicate reactions None) }
{
    let lasts = vec![in alloc; None; reactions]?;
    Ok(lasts)
}

/// Puts the orders of a reaction behind those of the reactions before it.
fn push_orders(all: &mut Vec<Order>, then: u32, before: &[u32]) -> Result<(), NoMemory>
    ensures { OnOk result (all.new.items ≡ all.old.items ++ map (unmet then) before.now) }
{
    for place in 0..before.len() {
        let order = Order {
            first: item_at(before, place),
            then,
            both: 0,
            apart: 0,
        };
        all.push(order)?;
    }
    Ok(())
}

impl Orders {
    /// Before the first row.
    pub fn new(alloc: Global, program: &Program, graph: &Graph) -> Result<Orders, NoMemory>
        requires { IsGraphOf program.now graph.now }
        ensures stands { IfOk result (λ orders. (t : List TheRow) → Stands t (length program.now.reactions) 0 orders) }
        ensures all { IfOk result (λ orders. orders.all.items ≡ orders_from 0 graph.now.before) }
    {
        let mut all = Vec::new(alloc);
        let mut begins = Vec::with_capacity(alloc, program.reactions() + 1)?;
        begins.push(0)?;
        for reaction in 0..program.reactions() {
            push_orders(&mut all, reaction as u32, graph.before(reaction as u32))?;
            begins.push(all.as_slice().len())?;
        }
        let lasts = no_lasts(alloc, program.reactions())?;
        Ok(Orders { all, begins, lasts })
    }

    /// Goes on past a row that starts a run.
    fn start(&mut self, tag: Tag, worker: u32, reaction: u32)
        ghost here: { Here }
        requires ruled { KeepsRows here.trace }
        requires stands { Stands here.trace (length here.program.reactions) here.place self.old }
        requires row { slice_get here.trace here.place ≡ Some (start_row worker tag reaction) }
        requires few { here.place < 4000000 }
        requires reaction { reaction < length here.program.reactions }
        ensures stands { Stands here.trace (length here.program.reactions) (here.place + 1) self.new }
        ensures all { map cleared self.new.all.items ≡ map cleared self.old.all.items }
    {
        let begin = item_at(self.begins.as_slice(), reaction as usize);
        let end = item_at(self.begins.as_slice(), reaction as usize + 1);
        // The first reaction has started by now, if it runs at this tag: else
        // rule 9 is broken, and no count is told.
        for place in begin..end {
            let order = item_at(self.all.as_slice(), place);
            let last = item_at(self.lasts.as_slice(), order.first as usize);
            self.all[place] = order.met(last, tag, worker);
        }
        self.lasts[reaction as usize] = Some(Last { tag, worker });
    }

    /// Goes on past a row.
    pub fn add(&mut self, row: Row)
        ghost here: { Here }
        requires ruled { KeepsRows here.trace }
        requires stands { Stands here.trace (length here.program.reactions) here.place self.old }
        requires row { slice_get here.trace here.place ≡ Some row }
        requires few { here.place < 4000000 }
        requires reaction { row.reaction < length here.program.reactions }
        ensures stands { Stands here.trace (length here.program.reactions) (here.place + 1) self.new }
        ensures all { map cleared self.new.all.items ≡ map cleared self.old.all.items }
    {
        if is_start(&row.step) {
            self.start(row.tag, row.worker, row.reaction);
        }
    }

    /// The orders, by the number of their second reaction.
    pub fn as_slice(&self) -> &[Order]
        ensures { result.now ≡ self.now.all.items }
    {
        self.all.as_slice()
    }

    /// Of how many orders both reactions ran at one tag.
    pub fn held(&self) -> usize
        ensures { (t : List TheRow) (n i : ℕ) → Stands t n i self.now → Count (IsOrderMet t i self.now.all.items) (length self.now.all.items) result }
    {
        let mut many = 0;
        for place in 0..self.all.len() {
            if item_at(self.all.as_slice(), place).both != 0 {
                many += 1;
            }
        }
        many
    }

    /// Of how many orders both reactions ran at one tag on two workers.
    pub fn apart(&self) -> usize
        ensures { (t : List TheRow) (n i : ℕ) → Stands t n i self.now → Count (IsApart t i self.now.all.items) (length self.now.all.items) result }
    {
        let mut many = 0;
        for place in 0..self.all.len() {
            if item_at(self.all.as_slice(), place).apart != 0 {
                many += 1;
            }
        }
        many
    }
}
