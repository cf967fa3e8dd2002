//! The first race of rows whose tags never fall.

ghost use Rattle.std.specs.Prelude.{◌≡◌, ◌↔◌, ◌+◌, ◌/◌, ◌<◌, ◌≤◌, length, IsTrue, IfOk};
ghost use Rattle.lft_ir.specs.Parts.{Parts};
ghost use Rattle.lft_graph.specs.inner.Sets.{AreAncestors};
ghost use Rattle.lft_rows.specs.inner.Slices.{IsSlice, Rises};
ghost use Rattle.lft_races.specs.{Races.{IsRace, IsFirstRace}, inner.Noted.{AreBelow, AreNoted, AreUpTo, EndRuns, HasUnfinished, IsFirstIn}};

use crate::noting::{note_ends, open_runs, unfinish};
use crate::slicing::slice_from;
use lft_graph::{Ancestors, Set};
use lft_ir::steps::{Row, is_start, row_at};
use lft_model::Plan;
use lft_rows::Slice;
use lft_tag::NoMemory;
use std::alloc::Global;

/// Whether the row at the place starts a run although one that precedes it hasn't ended.
fn is_race(
    rows: &[Row],
    slice: Slice,
    ancestors: &Ancestors,
    unfinished: &Set,
    place: usize,
) -> bool
    requires slice { IsSlice rows.now slice }
    requires from { slice.first ≤ place }
    requires before { place < slice.end }
    requires known { AreBelow rows.now (length ancestors.now) }
    requires unfinished { HasUnfinished rows.now slice.tag place unfinished.now }
    ensures { (program : Parts) → AreAncestors program ancestors.now → (IsTrue result ↔ IsRace program rows.now place) }
{
    let row = row_at(rows, place);
    if !is_start(&row.step) {
        return false;
    }
    // By words of 64 reactions: one by one, all that precedes it might be asked at each start.
    ancestors.of(row.reaction).meets(unfinished)
}

/// The race at the place, if it is one, else the first one behind it.
fn with_race(
    rows: &[Row],
    slice: Slice,
    ancestors: &Ancestors,
    unfinished: &Set,
    place: usize,
    later: Option<u32>,
) -> Option<u32>
    requires few { length rows.now ≤ 4000000 }
    requires slice { IsSlice rows.now slice }
    requires from { slice.first ≤ place }
    requires before { place < slice.end }
    requires known { AreBelow rows.now (length ancestors.now) }
    requires unfinished { HasUnfinished rows.now slice.tag place unfinished.now }
    requires later { (program : Parts) → AreAncestors program ancestors.now → IsFirstIn program rows.now (place + 1) slice.end later }
    ensures { (program : Parts) → AreAncestors program ancestors.now → IsFirstIn program rows.now place slice.end result }
{
    if is_race(rows, slice, ancestors, unfinished, place) {
        Some(place as u32)
    } else {
        later
    }
}

/// The first race at the tag of the slice, by its rows from the last one on, behind which the runs of a
/// set haven't ended.
fn race_by_rows(
    rows: &[Row],
    slice: Slice,
    ancestors: &Ancestors,
    ends: &[u32],
    left: Set,
) -> Option<u32>
    requires few { length rows.now ≤ 4000000 }
    requires slice { IsSlice rows.now slice }
    requires known { AreBelow rows.now (length ends.now) }
    requires each { length ancestors.now ≡ length ends.now }
    requires runs { EndRuns rows.now }
    requires noted { AreNoted rows.now slice slice.end ends.now }
    requires room { length left ≡ length ends.now / 64 + 1 }
    requires left { HasUnfinished rows.now slice.tag slice.end left }
    ensures { (program : Parts) → AreAncestors program ancestors.now → IsFirstIn program rows.now slice.first slice.end result }
{
    // From the last row on, so that the set only grows.
    let mut unfinished = left;
    let mut race = None;
    let mut place = slice.end;
    while place > slice.first {
        place -= 1;
        unfinish(rows, slice, ends, place, &mut unfinished);
        race = with_race(rows, slice, ancestors, &unfinished, place, race);
    }
    race
}

/// The first race at the tag of the slice.
fn race_in(
    alloc: Global,
    rows: &[Row],
    slice: Slice,
    ancestors: &Ancestors,
    ends: &mut [u32],
) -> Result<Option<u32>, NoMemory>
    requires few { length rows.now ≤ 4000000 }
    requires slice { IsSlice rows.now slice }
    requires known { AreBelow rows.now (length ends.old) }
    requires each { length ancestors.now ≡ length ends.old }
    requires runs { EndRuns rows.now }
    requires earlier { AreUpTo ends.old slice.first }
    ensures first { IfOk result (λ race. (program : Parts) → AreAncestors program ancestors.now → IsFirstIn program rows.now slice.first slice.end race) }
    ensures long { length ends.new ≡ length ends.old }
    ensures noted { AreUpTo ends.new slice.end }
{
    note_ends(rows, slice, ends);
    let left = open_runs(alloc, rows, slice, ends)?;
    Ok(race_by_rows(rows, slice, ancestors, ends, left))
}

/// The place of the first race. It takes time by the rows, and a bit for each two reactions.
pub(crate) fn first_race(alloc: Global, plan: &Plan, rows: &[Row]) -> Result<Option<u32>, NoMemory>
    requires few { length rows.now ≤ 4000000 }
    requires known { AreBelow rows.now (length plan.now.program.reactions) }
    requires rises { Rises rows.now }
    requires runs { EndRuns rows.now }
    ensures { IfOk result (IsFirstRace plan.now.program rows.now) }
{
    let ancestors = Ancestors::new(alloc, plan.program(), plan.graph())?;
    let mut ends = vec![in alloc; 0; plan.program().reactions()]?;
    let mut first = 0;
    while first < rows.len() {
        let slice = slice_from(rows, first);
        let race = race_in(alloc, rows, slice, &ancestors, ends.as_mut_slice())?;
        if let Some(place) = race {
            return Ok(Some(place));
        }
        first = slice.end;
    }
    Ok(None)
}
