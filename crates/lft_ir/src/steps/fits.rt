//! Rows and external inputs that are of a program and within the limits of a table.

ghost use Rattle.std.specs.Prelude.{◌≡◌, ◌↔◌, IsTrue};
ghost use Rattle.lft_ir.specs.{Sound.IsNameOf, Steps.Fits.{EventFits, RowFits, StepFits}};
ghost use Rattle.lft_tag.specs.Tags.{IsRecorded};

use crate::steps::externals::Event;
use crate::steps::row::{Row, Step};
use crate::{Name, Program};
use lft_tag::{MAX_MICRO, MAX_TIME, Tag};

/// Whether a row is of the program, and its tag and its delay are within their limits.
pub(crate) fn row_fits(row: Row, program: &Program) -> bool
    ensures { IsTrue result ↔ RowFits program.now row }
{
    is_recorded(row.tag)
        && (row.reaction as usize) < program.reactions()
        && step_fits(row.step, program)
}

/// Whether an event is of the program, and its tag within its limits.
pub(crate) fn event_fits(event: Event, program: &Program) -> bool
    ensures { IsTrue result ↔ EventFits program.now event }
{
    is_recorded(event.tag) && (event.action as usize) < program.actions()
}

/// Whether a tag may be recorded.
pub(crate) fn is_recorded(tag: Tag) -> bool
    ensures { IsTrue result ↔ IsRecorded tag }
{
    tag.time <= MAX_TIME && tag.micro <= MAX_MICRO
}

fn step_fits(step: Step, program: &Program) -> bool
    ensures { IsTrue result ↔ StepFits program.now step }
{
    match step {
        Step::Start => true,
        Step::Read(name, _) => name_fits(name, program),
        Step::Write(name, _) => name_fits(name, program),
        // A longer delay could lead to a tag whose time 64 bits don't hold.
        Step::Schedule(name, _, delay) => name_fits(name, program) && delay <= MAX_TIME,
        Step::Stop => true,
        Step::End => true,
    }
}

fn name_fits(name: Name, program: &Program) -> bool
    ensures { IsTrue result ↔ IsNameOf program.now name }
{
    match name {
        Name::Port(number) => (number as usize) < program.ports(),
        Name::Action(number) => (number as usize) < program.actions(),
    }
}
