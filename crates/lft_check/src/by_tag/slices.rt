//! The rows cut where the tag changes.

ghost use Rattle.std.specs.Prelude.{◌≡◌, Some, IsTrue, ◌↔◌, IfOk, slice_get};
ghost use Rattle.lft_ir.specs.declared.steps.row.Row.{Row as TheRow};
ghost use Rattle.lft_rows.specs.inner.Slices.{Rises};
ghost use Rattle.lft_check.specs.inner.ByTag.Slices.{AreSlices};

use lft_ir::steps::{Row, row_at};
use lft_rows::Slice;
use lft_tag::{NoMemory, Tag};
use std::alloc::Global;

/// Whether there is no row at the place, or one of another tag.
fn is_other(rows: &[Row], place: usize, tag: Tag) -> bool
    ensures { IsTrue result ↔ ((row : TheRow) → slice_get rows.now place ≡ Some row → ¬ (row.tag ≡ tag)) }
{
    place >= rows.len() || !row_at(rows, place).tag.is_same(tag)
}

/// The slices of rows whose tags never fall, by tag.
pub(crate) fn slices_of(alloc: Global, rows: &[Row]) -> Result<Vec<Slice>, NoMemory>
    requires { Rises rows.now }
    ensures { IfOk result (λ slices. AreSlices rows.now slices.items) }
{
    let mut slices = Vec::new(alloc);
    let mut first = 0;
    for place in 0..rows.len() {
        let tag = row_at(rows, place).tag;
        let end = place + 1;
        if is_other(rows, end, tag) {
            slices.push(Slice { tag, first, end })?;
            first = end;
        }
    }
    Ok(slices)
}
