//! The rows of a tag.

ghost use Rattle.std.specs.Prelude.{◌≡◌, ◌<◌, length};
ghost use Rattle.lft_rows.specs.inner.Slices.{IsSlice, Rises};
ghost use Rattle.lft_races.specs.inner.Noted.{IsNew};

use lft_ir::steps::{Row, row_at};
use lft_rows::Slice;

/// The rows at the tag of the row at the place, the first of its tag.
pub(crate) fn slice_from(rows: &[Row], first: usize) -> Slice
    requires first { first < length rows.now }
    requires rises { Rises rows.now }
    requires new { IsNew rows.now first }
    ensures first { result.first ≡ first }
    ensures slice { IsSlice rows.now result }
    ensures next { IsNew rows.now result.end }
{
    let tag = row_at(rows, first).tag;
    for end in first + 1..rows.len() {
        if !row_at(rows, end).tag.is_same(tag) {
            return Slice { tag, first, end };
        }
    }
    Slice {
        tag,
        first,
        end: rows.len(),
    }
}
