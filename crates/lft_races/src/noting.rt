//! Which runs at a tag no row ends, by its rows from the last one on.

ghost use Rattle.std.specs.Prelude.{◌≡◌, ◌+◌, ◌/◌, ◌<◌, ◌≤◌, length, IfOk};
ghost use Rattle.lft_rows.specs.inner.Slices.{IsSlice};
ghost use Rattle.lft_races.specs.inner.Noted.{AreBelow, AreNoted, AreUpTo, EndRuns, HasOpenReactions, HasUnfinished};

use lft_graph::Set;
use lft_ir::steps::{Row, is_end, is_start, row_at};
use lft_lists::item_at;
use lft_rows::Slice;
use lft_tag::NoMemory;
use std::alloc::Global;

/// Notes the place past the row at the place, where it is the first of the slice that ends a run of its
/// reaction.
fn note_end(rows: &[Row], slice: Slice, place: usize, ends: &mut [u32])
    requires few { length rows.now ≤ 4000000 }
    requires slice { IsSlice rows.now slice }
    requires from { slice.first ≤ place }
    requires before { place < slice.end }
    requires known { AreBelow rows.now (length ends.old) }
    requires so_far { AreNoted rows.now slice place ends.old }
    ensures long { length ends.new ≡ length ends.old }
    ensures noted { AreNoted rows.now slice (place + 1) ends.new }
{
    let row = row_at(rows, place);
    if !is_end(&row.step) {
        return;
    }
    let noted = item_at(ends, row.reaction as usize);
    // A place up to the first row of the slice is of an earlier tag. So the
    // list isn't cleared for each tag.
    if slice.first < noted as usize {
        return;
    }
    ends[row.reaction as usize] = place as u32 + 1;
}

/// Notes where each reaction ends first in the rows of the slice: the place past that row.
pub(crate) fn note_ends(rows: &[Row], slice: Slice, ends: &mut [u32])
    requires few { length rows.now ≤ 4000000 }
    requires slice { IsSlice rows.now slice }
    requires known { AreBelow rows.now (length ends.old) }
    requires earlier { AreUpTo ends.old slice.first }
    ensures long { length ends.new ≡ length ends.old }
    ensures noted { AreNoted rows.now slice slice.end ends.new }
{
    for place in slice.first..slice.end {
        note_end(rows, slice, place, ends);
    }
}

/// Adds the reaction of the row at the place, where that row starts a run at the tag that no row ends.
fn add_open(rows: &[Row], slice: Slice, ends: &[u32], place: usize, left: &mut Set)
    requires slice { IsSlice rows.now slice }
    requires from { slice.first ≤ place }
    requires before { place < slice.end }
    requires known { AreBelow rows.now (length ends.now) }
    requires noted { AreNoted rows.now slice slice.end ends.now }
    requires room { length left.old ≡ length ends.now / 64 + 1 }
    requires so_far { HasOpenReactions rows.now slice place left.old }
    ensures room { length left.new ≡ length left.old }
    ensures more { HasOpenReactions rows.now slice (place + 1) left.new }
{
    let row = row_at(rows, place);
    if !is_start(&row.step) {
        return;
    }
    let noted = item_at(ends, row.reaction as usize);
    if slice.first < noted as usize {
        return;
    }
    left.insert(row.reaction);
}

/// The reactions with a run at the tag of the slice that no row ends.
pub(crate) fn open_runs(
    alloc: Global,
    rows: &[Row],
    slice: Slice,
    ends: &[u32],
) -> Result<Set, NoMemory>
    requires slice { IsSlice rows.now slice }
    requires known { AreBelow rows.now (length ends.now) }
    requires noted { AreNoted rows.now slice slice.end ends.now }
    ensures room { IfOk result (λ set. length set ≡ length ends.now / 64 + 1) }
    ensures left { IfOk result (λ set. HasUnfinished rows.now slice.tag slice.end set) }
{
    let mut left = Set::with_room(alloc, ends.len())?;
    for place in slice.first..slice.end {
        add_open(rows, slice, ends, place, &mut left);
    }
    Ok(left)
}

/// Adds the reaction of the row at the place, where that row is the first that ends its run: before it
/// the run hasn't ended.
pub(crate) fn unfinish(rows: &[Row], slice: Slice, ends: &[u32], place: usize, unfinished: &mut Set)
    requires slice { IsSlice rows.now slice }
    requires from { slice.first ≤ place }
    requires before { place < slice.end }
    requires known { AreBelow rows.now (length ends.now) }
    requires runs { EndRuns rows.now }
    requires noted { AreNoted rows.now slice slice.end ends.now }
    requires room { length unfinished.old ≡ length ends.now / 64 + 1 }
    requires so_far { HasUnfinished rows.now slice.tag (place + 1) unfinished.old }
    ensures room { length unfinished.new ≡ length unfinished.old }
    ensures more { HasUnfinished rows.now slice.tag place unfinished.new }
{
    let row = row_at(rows, place);
    if !is_end(&row.step) {
        return;
    }
    let noted = item_at(ends, row.reaction as usize);
    if noted as usize != place + 1 {
        return;
    }
    unfinished.insert(row.reaction);
}
