//! What a run read of an input.

ghost use Rattle.std.specs.Prelude.{◌≡◌, ◌<◌, Some, slice_get};
ghost use Rattle.lft_ir.specs.{declared.parts.{Name.Name as TheName, Reaction.Reaction as TheReaction}, Steps.Fits.RowsFit};
ghost use Rattle.lft_model.specs.Runs.{read_of, steps_of};
ghost use Rattle.lft_rows.specs.inner.{Marks.{AreMarks, HasSeat, width}, Reads.value_read as the_value_read, Slices.IsSlice};

use crate::marks::Marks;
use crate::slices::Slice;
use lft_ir::steps::{Row, Step, row_at};
use lft_ir::{Program, Value};

/// The value that a step reads, if it reads one.
fn value_read(step: &Step) -> Option<Value>
    ensures { result ≡ the_value_read step.now }
{
    match step {
        Step::Read(_, value) => Some(*value),
        Step::Start => None,
        Step::Write(_, _) => None,
        Step::Schedule(_, _, _) => None,
        Step::Stop => None,
        Step::End => None,
    }
}

impl Marks {
    /// What the run of the reaction at the tag of the slice read of the input at the seat, if it did.
    pub fn read_at(
        &self,
        program: &Program,
        rows: &[Row],
        slice: Slice,
        reaction: u32,
        seat: usize,
    ) -> Option<Value>
        requires fit { RowsFit program.now rows.now }
        requires slice { IsSlice rows.now slice }
        requires marks { AreMarks program.now rows.now slice.first slice.end self.now }
        requires seat { (x : TheReaction) × (slice_get program.now.reactions reaction ≡ Some x) × (seat < width x) }
        ensures { (x : TheReaction) (n : TheName) → slice_get program.now.reactions reaction ≡ Some x → HasSeat x n seat → result ≡ read_of (steps_of rows.now slice.tag reaction) n }
    {
        let mark = self.of(program, reaction, seat) as usize;
        // An older mark is of a row before the slice, and so of another run.
        if mark > slice.first {
            let row = row_at(rows, mark - 1);
            value_read(&row.step)
        } else {
            None
        }
    }
}
