//! Which runs at a tag haven't ended.

ghost use Rattle.std.specs.Prelude.{◌≡◌, ◌+◌, ◌<◌, ◌≤◌, length, IfOk};
ghost use Rattle.lft_races.specs.inner.{Races.AreUnfinished, Noted.AreBelow};

use crate::runs::runs_at;
use lft_ir::steps::{Row, is_end, row_at};
use lft_tag::{NoMemory, Tag};
use std::alloc::Global;

/// Takes the mark from the reaction of the row at the place, where it ends at the tag.
fn unmark(rows: &[Row], tag: Tag, place: usize, marks: &mut [bool])
    requires place { place < length rows.now }
    requires known { AreBelow rows.now (length marks.old) }
    requires so_far { AreUnfinished rows.now tag place marks.old }
    ensures long { length marks.new ≡ length marks.old }
    ensures left { AreUnfinished rows.now tag (place + 1) marks.new }
{
    let row = row_at(rows, place);
    if !is_end(&row.step) {
        return;
    }
    if !row.tag.is_same(tag) {
        return;
    }
    marks[row.reaction as usize] = false;
}

/// Of each of the reactions, counted from 0, whether it has a run at the tag that no row before the
/// place ends.
pub fn unfinished_at(
    alloc: Global,
    rows: &[Row],
    tag: Tag,
    place: usize,
    reactions: usize,
) -> Result<Vec<bool>, NoMemory>
    requires place { place ≤ length rows.now }
    requires known { AreBelow rows.now reactions }
    ensures long { IfOk result (λ marks. length marks.items ≡ reactions) }
    ensures marked { IfOk result (λ marks. AreUnfinished rows.now tag place marks.items) }
{
    // Runs that start behind the place count too: at the place they haven't ended.
    let mut marks = runs_at(alloc, rows, tag, reactions)?;
    for end in 0..place {
        unmark(rows, tag, end, marks.as_mut_slice());
    }
    Ok(marks)
}
