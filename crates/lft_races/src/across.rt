//! Runs that are open when a row at a later tag comes.

ghost use Rattle.std.specs.Prelude.{◌↔◌, ◌<◌, length, IsTrue, IfSome, IfNone};
ghost use Rattle.lft_races.specs.Across.{IsAcross, IsOpenAcross};

use crate::ordering::{first_greater, own_start};
use lft_ir::steps::{Row, row_at};

/// The row that starts the run of this one, and the first row of all at a later tag, where that run is open
/// and the one stands before the other.
pub fn open_across(rows: &[Row], row: u32) -> Option<(u32, u32)>
    requires { row < length rows.now }
    ensures some { IfSome result (λ found. IsOpenAcross rows.now row found.0 found.1) }
    ensures none { IfNone result (¬ IsAcross rows.now row) }
{
    let own = row_at(rows, row as usize);
    let later = first_greater(rows, row, own.tag)?;
    let start = own_start(rows, row)?;
    if start < later {
        Some((start, later))
    } else {
        None
    }
}

/// Whether the row is of a run that was open when the first row at a later tag came.
pub fn is_open_across(rows: &[Row], row: u32) -> bool
    requires { row < length rows.now }
    ensures { IsTrue result ↔ IsAcross rows.now row }
{
    open_across(rows, row).is_some()
}
