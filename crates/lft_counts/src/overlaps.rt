//! Which reactions have open runs together, and how many.

ghost use Rattle.std.specs.Prelude.{◌≡◌, ◌+◌, ◌<◌, ◌/◌, ℕ, List, ◌↔◌, ◌*◌, Some, IfOk, IsTrue, length, slice_get};
ghost use Rattle.lft_graph.specs.Sets.{Has};
ghost use Rattle.lft_ir.specs.declared.steps.row.{Row.Row as TheRow, Step.TheVariants.{Start, End}};
ghost use Rattle.lft_counts.specs.{inner.Counts.{Here, KeepsRows}, Overlaps.{Overlap, met_by}};

use crate::tally::Tally;
use lft_graph::Set;
use lft_ir::steps::{Row, is_end, is_start};
use lft_tag::NoMemory;
use std::alloc::Global;

/// The reactions with an open run, and for each reaction those that had one when a run of it started.
// A start looks at the words of one set: 157 of them for 10,000 reactions, however many runs are open.
#[derive(Drop)]
pub struct Overlaps {
    running: Set,
    /// How many reactions have an open run.
    many: usize,
    met: Vec<Set>,
    /// For each number the starts that left so many reactions with an open run.
    widths: Tally,
}

/// So many empty sets, each with room for as many numbers.
fn no_sets(alloc: Global, count: usize) -> Result<Vec<Set>, NoMemory>
    ensures long { IfOk result (λ sets. length sets.items ≡ count) }
    ensures room { IfOk result (λ sets. (k : ℕ) (set : List ℕ) → slice_get sets.items k ≡ Some set → length set ≡ count / 64 + 1) }
    ensures none { IfOk result (λ sets. (k : ℕ) (set : List ℕ) → slice_get sets.items k ≡ Some set → (r : ℕ) → Has set r → ⊥) }
{
    let mut sets = Vec::with_capacity(alloc, count)?;
    for number in 0..count {
        sets.push(Set::with_room(alloc, count)?)?;
    }
    Ok(sets)
}

impl Overlaps {
    /// Before the first row.
    pub fn new(alloc: Global, reactions: usize) -> Result<Overlaps, NoMemory>
        ensures { IfOk result (λ overlaps. (t : List TheRow) → Overlap t reactions 0 overlaps) }
    {
        let running = Set::with_room(alloc, reactions)?;
        let met = no_sets(alloc, reactions)?;
        // Numbers count from 0, and all reactions may have an open run.
        let widths = Tally::new(alloc, reactions + 1)?;
        Ok(Overlaps {
            running,
            many: 0,
            met,
            widths,
        })
    }

    /// Goes on past a row that starts a run.
    fn start(&mut self, row: Row)
        ghost here: { Here }
        requires ruled { KeepsRows here.trace }
        requires stands { Overlap here.trace (length here.program.reactions) here.place self.old }
        requires row { slice_get here.trace here.place ≡ Some row }
        requires few { here.place < 4000000 }
        requires reaction { row.reaction < length here.program.reactions }
        requires step { row.step ≡ Start }
        ensures { Overlap here.trace (length here.program.reactions) (here.place + 1) self.new }
    {
        // Before its own run is among them, so that it meets others alone.
        self.met[row.reaction as usize].add_all(&self.running);
        // By the rules on rows no run of the reaction is open, so this puts it in.
        self.running.toggle(row.reaction);
        self.many += 1;
        self.widths.add(self.many);
    }

    /// Goes on past a row that ends a run.
    fn end(&mut self, row: Row)
        ghost here: { Here }
        requires ruled { KeepsRows here.trace }
        requires stands { Overlap here.trace (length here.program.reactions) here.place self.old }
        requires row { slice_get here.trace here.place ≡ Some row }
        requires reaction { row.reaction < length here.program.reactions }
        requires step { row.step ≡ End }
        ensures { Overlap here.trace (length here.program.reactions) (here.place + 1) self.new }
    {
        self.running.toggle(row.reaction);
        self.many -= 1;
    }

    /// Goes on past a row.
    pub fn add(&mut self, row: Row)
        ghost here: { Here }
        requires ruled { KeepsRows here.trace }
        requires stands { Overlap here.trace (length here.program.reactions) here.place self.old }
        requires row { slice_get here.trace here.place ≡ Some row }
        requires few { here.place < 4000000 }
        requires reaction { row.reaction < length here.program.reactions }
        ensures { Overlap here.trace (length here.program.reactions) (here.place + 1) self.new }
    {
        if is_start(&row.step) {
            self.start(row);
        } else if is_end(&row.step) {
            self.end(row);
        }
    }

    /// For each number the starts that left so many reactions with an open run, their own with them.
    pub fn widths(&self) -> &[u64]
        ensures { result.now ≡ self.now.widths }
    {
        self.widths.as_slice()
    }

    /// Whether the other reaction had an open run when a run of this one started.
    pub fn has_met(&self, reaction: u32, other: u32) -> bool
        requires reaction { reaction < length self.now.met.items }
        requires other { other < 64 * length (met_by self.now reaction) }
        ensures { IsTrue result ↔ Has (met_by self.now reaction) other }
    {
        self.met[reaction as usize].has(other)
    }

    /// Whether none of 64 reactions had an open run when a run of this one started: those from 64 times the
    /// word on.
    pub fn has_none(&self, reaction: u32, word: usize) -> bool
        requires reaction { reaction < length self.now.met.items }
        requires word { word < length (met_by self.now reaction) }
        ensures { IsTrue result → (r : ℕ) → r / 64 ≡ word → Has (met_by self.now reaction) r → ⊥ }
    {
        self.met[reaction as usize].has_none(word)
    }
}
