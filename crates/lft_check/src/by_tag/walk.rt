//! A walk over the tags of sliced rows, in order: what the runs at a tag read.

ghost use Rattle.std.specs.Prelude.{◌≡◌, ◌<◌, IfOk, Some, slice_get};
ghost use Rattle.lft_ir.specs.declared.parts.{Reaction.Reaction as TheReaction, Name.Name as TheName};
ghost use Rattle.lft_model.specs.Runs.{read_of, steps_of};
ghost use Rattle.lft_rows.specs.inner.{Marks.{HasSeat, width}, Slices.IsSlice};
ghost use Rattle.lft_check.specs.inner.ByTag.Walks.{IsWalkBefore, HasWalked};

use crate::by_tag::absences::{Absences, absences_of};
use crate::by_tag::sliced::Sliced;
use lft_ir::Value;
use lft_rows::{Marks, Slice};
use lft_tag::NoMemory;
use std::alloc::Global;

/// How far a walk over the tags of sliced rows has come.
#[derive(Drop)]
pub struct Walk {
    pub(crate) marks: Marks,
    pub(crate) absences: Vec<Absences>,
}

impl<'a> Sliced<'a> {
    /// A walk that hasn't begun.
    pub fn walk(&self, alloc: Global) -> Result<Walk, NoMemory>
        ensures { IfOk result (IsWalkBefore self.now 0) }
    {
        let marks = Marks::new(alloc, self.program())?;
        let absences = absences_of(alloc, self.program())?;
        Ok(Walk { marks, absences })
    }

    /// Goes over the rows at one more tag.
    pub fn walk_over(&self, walk: &mut Walk, slice: Slice)
        requires slice { IsSlice self.now.rows slice }
        requires before { IsWalkBefore self.now slice.first walk.old }
        ensures { HasWalked self.now slice walk.new }
    {
        walk.marks
            .pass_all(self.program(), self.rows(), slice.first, slice.end);
    }

    /// What the run of the reaction at the tag read of the input at the seat, if it did.
    pub(crate) fn read_at(
        &self,
        walk: &Walk,
        slice: Slice,
        reaction: u32,
        seat: usize,
    ) -> Option<Value>
        requires slice { IsSlice self.now.rows slice }
        requires walked { HasWalked self.now slice walk.now }
        requires seat { (x : TheReaction) × (slice_get self.now.plan.program.reactions reaction ≡ Some x) × (seat < width x) }
        ensures { (x : TheReaction) (n : TheName) → slice_get self.now.plan.program.reactions reaction ≡ Some x → HasSeat x n seat → result ≡ read_of (steps_of self.now.rows slice.tag reaction) n }
    {
        walk.marks
            .read_at(self.program(), self.rows(), slice, reaction, seat)
    }
}
