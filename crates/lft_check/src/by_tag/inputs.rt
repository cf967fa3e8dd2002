//! Whether runs read what is present.

ghost use Rattle.std.specs.Prelude.{◌≡◌, ◌<◌, ◌≤◌, ◌↔◌, ℕ, false, Some, length, IsTrue, slice_get};
ghost use Rattle.lft_ir.specs.{Parts.inputs, Sound.IsNameOf};
ghost use Rattle.lft_ir.specs.declared.{parts.{Name.Name as TheName, Reaction.Reaction as TheReaction}, steps.row.Row.Row as TheRow};
ghost use Rattle.lft_model.specs.Presence.{Collision};
ghost use Rattle.lft_rows.specs.inner.{Marks.HasSeat, Slices.IsSlice};
ghost use Rattle.lft_check.specs.inner.ByTag.{Reads.{IsMissed, MissesInput, TellsWrongRead}, Walks.HasWalked};

use crate::by_tag::absences::{BLOCK, end_of};
use crate::by_tag::sliced::Sliced;
use crate::by_tag::walk::Walk;
use lft_ir::steps::{Step, row_at};
use lft_ir::{Name, Value};
use lft_lists::item_at;
use lft_rows::Slice;

/// Whether the two are one value, or both none.
fn same_values(a: Option<Value>, b: Option<Value>) -> bool
    ensures { IsTrue result ↔ (a ≡ b) }
{
    a == b
}

impl<'a> Sliced<'a> {
    /// Whether the input at the seat is present at the tag, and the run of the reaction there didn't
    /// read it.
    fn misses(&self, walk: &Walk, slice: Slice, reaction: u32, seat: usize, name: Name) -> bool
        requires slice { IsSlice self.now.rows slice }
        requires walked { HasWalked self.now slice walk.now }
        requires seat { (x : TheReaction) × (slice_get self.now.plan.program.reactions reaction ≡ Some x) × HasSeat x name seat }
        requires name { IsNameOf self.now.plan.program name }
        ensures { IsTrue result ↔ IsMissed self.now.plan self.now.rows slice.tag reaction name }
    {
        // A mark is at hand, and the value has to be searched for among all causes.
        if self.read_at(walk, slice, reaction, seat).is_some() {
            return false;
        }
        self.value_at(slice.tag, name).is_some()
    }

    /// Whether the run of the reaction at the tag misses one of its inputs from one place on before
    /// another.
    fn misses_in(&self, walk: &Walk, slice: Slice, reaction: u32, from: usize, to: usize) -> bool
        requires slice { IsSlice self.now.rows slice }
        requires walked { HasWalked self.now slice walk.now }
        requires reaction { reaction < length self.now.plan.program.reactions }
        requires to { (x : TheReaction) → slice_get self.now.plan.program.reactions reaction ≡ Some x → to ≤ length (inputs x) }
        ensures some { IsTrue result → MissesInput self.now.plan self.now.rows slice.tag reaction }
        ensures none { result ≡ false → (x : TheReaction) (n : TheName) (k : ℕ) → slice_get self.now.plan.program.reactions reaction ≡ Some x → HasSeat x n k → from ≤ k → k < to → ¬ IsMissed self.now.plan self.now.rows slice.tag reaction n }
    {
        let names = walk.marks.inputs(self.program(), reaction);
        let mut seat = from;
        while seat < to {
            if self.misses(walk, slice, reaction, seat, item_at(names, seat)) {
                return true;
            }
            seat += 1;
        }
        false
    }

    /// Whether the run of the reaction at the tag misses an input.
    fn misses_input(&self, walk: &mut Walk, slice: Slice, reaction: u32) -> bool
        requires slice { IsSlice self.now.rows slice }
        requires walked { HasWalked self.now slice walk.old }
        requires reaction { reaction < length self.now.plan.program.reactions }
        ensures walked { HasWalked self.now slice walk.new }
        ensures misses { IsTrue result ↔ MissesInput self.now.plan self.now.rows slice.tag reaction }
    {
        let count = walk.marks.inputs(self.program(), reaction).len();
        for block in 0..count / BLOCK + 1 {
            if !self.is_quiet(walk, slice, reaction, block) {
                let from = block * BLOCK;
                if self.misses_in(walk, slice, reaction, from, end_of(from, count)) {
                    return true;
                }
            }
        }
        false
    }

    /// Whether the row at the place, one of the slice over which the walk went last, tells that its run
    /// read something else than its inputs: the run starts and misses an input, or the row reads what
    /// isn't present.
    pub fn tells_wrong_read(&self, walk: &mut Walk, slice: Slice, place: usize) -> bool
        requires slice { IsSlice self.now.rows slice }
        requires walked { HasWalked self.now slice walk.old }
        requires place { place < length self.now.rows }
        requires no_clash { Collision self.now.plan self.now.rows slice.tag → ⊥ }
        ensures walked { HasWalked self.now slice walk.new }
        ensures tells { (row : TheRow) → slice_get self.now.rows place ≡ Some row → IsTrue result ↔ TellsWrongRead self.now.plan self.now.rows slice.tag row }
    {
        let row = row_at(self.rows(), place);
        match row.step {
            // What a run should have read and didn't stands in no row, so its start tells of it.
            Step::Start => self.misses_input(walk, slice, row.reaction),
            Step::Read(name, value) => { !same_values(Some(value), self.value_at(slice.tag, name)) }
            Step::Write(_, _) | Step::Schedule(_, _, _) | Step::Stop | Step::End => false,
        }
    }
}
