//! Rule 4: what a reaction declares, and what was read before.

ghost use Rattle.std.specs.Prelude.{◌≡◌, ℕ, ◌+◌, ◌<◌, ◌≤◌, length, Some, IsTrue, ◌↔◌, slice_get};
ghost use Rattle.lft_ir.specs.{Sound.IsNameOf, declared.steps.row.Row.Row as TheRow, Steps.Fits.RowFits};
ghost use Rattle.lft_model.specs.Breaches.{IsUndeclared, MayWrite, MaySchedule};
ghost use Rattle.lft_rows.specs.inner.{Effects.AreEffects, Marks.AreMarks, Passes.{RisesTo, IsBadRead}};

use crate::effects::Effects;
use crate::marks::Marks;
use lft_ir::steps::{Row, Step, row_at};
use lft_ir::{Name, Program};
use lft_tag::Tag;

/// Whether the row's step names what its reaction didn't declare for it, or reads a name again.
pub(crate) fn is_undeclared(
    program: &Program,
    rows: &[Row],
    place: usize,
    row: Row,
    marks: &Marks,
    effects: &Effects,
) -> bool
    requires known { RowFits program.now row }
    requires place { slice_get rows.now place ≡ Some row }
    requires rising { RisesTo rows.now place row.tag }
    requires marks { AreMarks program.now rows.now 0 place marks.now }
    requires effects { AreEffects program.now effects.now }
    ensures { IsTrue result ↔ IsUndeclared program.now rows.now place row row.step }
{
    match row.step {
        Step::Read(name, _) => is_bad_read(program, rows, place, row, name, marks),
        Step::Write(name, _) => !may_write(program, effects, row.reaction, name),
        Step::Schedule(name, _, _) => !may_schedule(program, effects, row.reaction, name),
        Step::Start => false,
        Step::Stop => false,
        Step::End => false,
    }
}

/// Whether the name isn't among the inputs of the row's reaction, or was read before in its run.
fn is_bad_read(
    program: &Program,
    rows: &[Row],
    place: usize,
    row: Row,
    name: Name,
    marks: &Marks,
) -> bool
    requires known { row.reaction < length program.now.reactions }
    requires place { slice_get rows.now place ≡ Some row }
    requires rising { RisesTo rows.now place row.tag }
    requires marks { AreMarks program.now rows.now 0 place marks.now }
    ensures { IsTrue result ↔ IsBadRead program.now rows.now place row name }
{
    match marks.seat(program, row.reaction, name) {
        Some(seat) => was_at(rows, place, row.tag, marks.of(program, row.reaction, seat)),
        None => true,
    }
}

/// Whether the row before the place past it is at the tag, if it is one.
fn was_at(rows: &[Row], place: usize, tag: Tag, mark: u32) -> bool
    requires { (mark ≤ place) × (place < length rows.now) }
    ensures { IsTrue result ↔ ((j : ℕ) × (row : TheRow) × (mark ≡ j + 1) × (slice_get rows.now j ≡ Some row) × (row.tag ≡ tag)) }
{
    mark > 0 && row_at(rows, mark as usize - 1).tag.is_same(tag)
}

/// Whether the name is a port among the reaction's effects.
fn may_write(program: &Program, effects: &Effects, reaction: u32, name: Name) -> bool
    requires effects { AreEffects program.now effects.now }
    requires known { reaction < length program.now.reactions }
    ensures { IsTrue result ↔ MayWrite program.now reaction name }
{
    match name {
        Name::Port(port) => effects.writes(program, reaction, port),
        // An action is scheduled and never written, also where it is among the effects.
        Name::Action(_) => false,
    }
}

/// Whether the name is a logical action among the reaction's effects.
fn may_schedule(program: &Program, effects: &Effects, reaction: u32, name: Name) -> bool
    requires effects { AreEffects program.now effects.now }
    requires known { reaction < length program.now.reactions }
    requires named { IsNameOf program.now name }
    ensures { IsTrue result ↔ MaySchedule program.now reaction name }
{
    match name {
        Name::Port(_) => false,
        Name::Action(action) => {
            // A physical action has its events from outside, also where it is among the effects.
            effects.schedules(program, reaction, action) && !program.action(action).physical
        }
    }
}
