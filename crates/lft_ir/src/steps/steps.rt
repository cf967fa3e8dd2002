//! A row at a place, and tests of steps.

ghost use Rattle.std.specs.Prelude.{◌≡◌, ◌<◌, length, Some, IsTrue, ◌↔◌, slice_get};
ghost use Rattle.lft_ir.specs.declared.steps.row.Step.TheVariants.{Start, Stop, End};

use crate::steps::row::{Row, Step};

/// The row at the place, counted from 0, said as the clauses on rows have it (`slice_get`).
pub fn row_at(rows: &[Row], place: usize) -> Row
    requires { place < length rows.now }
    ensures { slice_get rows.now place ≡ Some result }
{
    rows[place]
}

/// Whether a run starts here.
pub fn is_start(step: &Step) -> bool
    ensures { IsTrue result ↔ (step.now ≡ Start) }
{
    matches!(step, Step::Start)
}

/// Whether a run ends here.
pub fn is_end(step: &Step) -> bool
    ensures { IsTrue result ↔ (step.now ≡ End) }
{
    matches!(step, Step::End)
}

/// Whether the end of the execution is asked for here.
pub fn is_stop(step: &Step) -> bool
    ensures { IsTrue result ↔ (step.now ≡ Stop) }
{
    matches!(step, Step::Stop)
}
