//! The runs of a trace by tag.

ghost use Rattle.std.specs.Prelude.{◌≡◌, ◌++◌, ◌∷◌, [], ◌+◌, ◌<◌, ◌≤◌, length, Some, slice_get, slice_range, OnOk, IfOk};
ghost use Rattle.lft_model.specs.Plans.{PlanParts};
ghost use Rattle.lft_rows.specs.inner.Slices.{IsSlice};
ghost use Rattle.lft_check.specs.inner.ByTag.Slices.{IsCuttable, AreSlices};
ghost use Rattle.lft_slices.specs.{Pieces.AreRuns, inner.Pieces.{AreEndsTo, AreStartsTo, ArePieces}};

use lft_ir::steps::{Row, is_end, is_start, row_at};
use lft_lists::item_at;
use lft_rows::Slice;
use lft_tag::{NoMemory, Tag};
use std::alloc::Global;

/// A run: its reaction, and the places of its start row and of its end row among all rows, counted
/// from 0. Its tag is that of these rows; what it read and answered they have between them, and
/// `Cut::reads` and `Cut::answer` tell it.
// Runs are ordered by their reaction, so that field stands first. There are millions of them, so a
// run has no list of its own.
#[derive(Clone, Copy, PartialEq, Eq, PartialOrd, Ord, Debug, Drop)]
pub struct Piece {
    pub reaction: u32,
    pub start: u32,
    pub end: u32,
}

/// The tags with a run, ascending; the runs at one tag after those at another; and where those at
/// each tag begin, with the end behind the last.
#[derive(Drop)]
pub(crate) struct Pieces {
    pub(crate) tags: Vec<Tag>,
    pub(crate) firsts: Vec<usize>,
    pub(crate) list: Vec<Piece>,
}

/// Keeps the place of each end row of the slice under its reaction. What ended nowhere in the slice
/// keeps what it had.
fn keep_ends(rows: &[Row], slice: Slice, ends: &mut Vec<u32>)
    requires rules { (plan : PlanParts) × IsCuttable (record { plan = plan; rows = rows.now }) × (length ends.old.items ≡ length plan.program.reactions) }
    requires slice { IsSlice rows.now slice }
    ensures count { length ends.new.items ≡ length ends.old.items }
    ensures ends { AreEndsTo rows.now slice slice.end ends.new.items }
{
    for place in slice.first..slice.end {
        let row = row_at(rows, place);
        if is_end(&row.step) {
            // What an earlier tag left isn't cleared, which would cost all reactions at each
            // tag. A run that starts in the slice ends in it, so its place is put over it.
            ends[row.reaction as usize] = place as u32;
        }
    }
}

/// The place that is kept under the reaction.
fn end_of(ends: &[u32], reaction: u32) -> u32
    requires { reaction < length ends.now }
    ensures { slice_get ends.now reaction ≡ Some result }
{
    ends[reaction as usize]
}

/// Adds the runs that start in the slice to an empty list, in order of their start rows.
fn add_starts(
    rows: &[Row],
    slice: Slice,
    ends: &[u32],
    found: &mut Vec<Piece>,
) -> Result<(), NoMemory>
    requires rules { (plan : PlanParts) × IsCuttable (record { plan = plan; rows = rows.now }) × (length ends.now ≡ length plan.program.reactions) }
    requires slice { IsSlice rows.now slice }
    requires ends { AreEndsTo rows.now slice slice.end ends.now }
    requires empty { found.old.items ≡ [] }
    ensures { OnOk result (AreStartsTo rows.now slice slice.end found.new.items) }
{
    for place in slice.first..slice.end {
        let row = row_at(rows, place);
        if is_start(&row.step) {
            let piece = Piece {
                reaction: row.reaction,
                start: place as u32,
                end: end_of(ends, row.reaction),
            };
            found.push(piece)?;
        }
    }
    Ok(())
}

/// Puts the runs at the tag of the slice in place of those in the list.
fn find_runs(
    rows: &[Row],
    slice: Slice,
    ends: &mut Vec<u32>,
    found: &mut Vec<Piece>,
) -> Result<(), NoMemory>
    requires rules { (plan : PlanParts) × IsCuttable (record { plan = plan; rows = rows.now }) × (length ends.old.items ≡ length plan.program.reactions) }
    requires slice { IsSlice rows.now slice }
    ensures count { length ends.new.items ≡ length ends.old.items }
    ensures runs { OnOk result (AreRuns rows.now slice.tag found.new.items) }
{
    keep_ends(rows, slice, ends);
    found.clear();
    add_starts(rows, slice, ends.as_slice(), found)?;
    // Unstable will do: by rule 3 no two runs at a tag are of one reaction.
    found.sort_unstable();
    Ok(())
}

impl Pieces {
    /// Adds the runs at one more tag.
    fn add(&mut self, tag: Tag, runs: &[Piece]) -> Result<(), NoMemory>
        ensures tags { OnOk result (self.new.tags.items ≡ self.old.tags.items ++ tag ∷ []) }
        ensures list { OnOk result (self.new.list.items ≡ self.old.list.items ++ runs.now) }
        ensures firsts { OnOk result (self.new.firsts.items ≡ self.old.firsts.items ++ length self.new.list.items ∷ []) }
    {
        self.tags.push(tag)?;
        self.list.extend_from_slice(runs)?;
        self.firsts.push(self.list.len())?;
        Ok(())
    }

    /// The runs at the tag at the place, by reaction number.
    pub(crate) fn at(&self, place: usize) -> &[Piece]
        requires long { length self.now.firsts.items ≡ length self.now.tags.items + 1 }
        requires place { place < length self.now.tags.items }
        requires range { (a b : _) → slice_get self.now.firsts.items place ≡ Some a → slice_get self.now.firsts.items (place + 1) ≡ Some b → (a ≤ b) × (b ≤ length self.now.list.items) }
        ensures { (a b : _) → slice_get self.now.firsts.items place ≡ Some a → slice_get self.now.firsts.items (place + 1) ≡ Some b → result.now ≡ slice_range self.now.list.items a b }
    {
        let first = item_at(self.firsts.as_slice(), place);
        let end = item_at(self.firsts.as_slice(), place + 1);
        &self.list[first..end]
    }
}

/// The runs of the rows, slice by slice.
pub(crate) fn pieces_of(
    alloc: Global,
    rows: &[Row],
    slices: &[Slice],
    reactions: usize,
) -> Result<Pieces, NoMemory>
    requires rules { (plan : PlanParts) × IsCuttable (record { plan = plan; rows = rows.now }) × (reactions ≡ length plan.program.reactions) }
    requires slices { AreSlices rows.now slices.now }
    ensures { IfOk result (ArePieces rows.now) }
{
    let mut ends = vec![in alloc; 0; reactions]?;
    let mut found = Vec::new(alloc);
    let mut pieces = Pieces {
        tags: Vec::new(alloc),
        firsts: vec![in alloc; 0; 1]?,
        list: Vec::new(alloc),
    };
    for place in 0..slices.len() {
        let slice = item_at(slices, place);
        find_runs(rows, slice, &mut ends, &mut found)?;
        pieces.add(slice.tag, found.as_slice())?;
    }
    Ok(pieces)
}
