//! Rows at the tag of the last one.

ghost use Rattle.std.specs.Prelude.{◌≤◌, length, IsTrue};
ghost use Rattle.lft_tag.specs.declared.Tag.{Tag as TheTag};
ghost use Rattle.lft_rows.specs.inner.Slices.{Rises};
ghost use Rattle.lft_queue.specs.Coming.AtTag.{AreAt};
ghost use Rattle.lft_monitor.specs.inner.Follows.{BeginsLast};

use lft_ir::steps::{Row, row_at};

/// Where the rows begin that are at the tag of the last one before the end.
pub(crate) fn last_begins(rows: &[Row], end: usize) -> usize
    requires { end ≤ length rows.now }
    ensures { BeginsLast rows.now end result }
{
    if end == 0 {
        return 0;
    }
    let tag = row_at(rows, end - 1).tag;
    for passed in 1..end {
        if !row_at(rows, end - 1 - passed).tag.is_same(tag) {
            return end - passed;
        }
    }
    0
}

/// Whether rows that rise are all at one tag.
fn are_at_one(rows: &[Row]) -> bool
    requires { Rises rows.now }
    ensures { IsTrue result → (g : TheTag) × AreAt rows.now g }
{
    if rows.is_empty() {
        return true;
    }
    let last = row_at(rows, rows.len() - 1).tag;
    row_at(rows, 0).tag.is_same(last)
}

/// Where the rows at the last tag begin, of rows that rise.
pub(crate) fn begin_of_last(rows: &[Row]) -> usize
    requires { Rises rows.now }
    ensures { BeginsLast rows.now (length rows.now) result }
{
    // Asked first: rows of one tag that come one by one are not all gone over each time.
    if are_at_one(rows) {
        return 0;
    }
    last_begins(rows, rows.len())
}
