//! Runs that have no end so far.

ghost use Rattle.std.specs.Prelude.{◌≡◌, ◌↔◌, ◌+◌, ◌<◌, ◌≤◌, ◌^◌, ℕ, Some, length, slice_get, IfOk, IsTrue};
ghost use Rattle.lft_ir.specs.declared.steps.row.Row.{Row as TheRow};
ghost use Rattle.lft_model.specs.{Breaches.IsUnended, Runs.end_row};
ghost use Rattle.lft_monitor.specs.{inner.OpenRuns.{AreOfReactionsBelow, EndBefore}, OpenRuns.{AreOpenRuns, run_in}};

use lft_ir::steps::{Row, is_end, is_start, row_at};
use lft_lists::item_at;
use lft_tag::NoMemory;
use std::alloc::Global;

/// A run that has no end so far.
#[derive(Clone, Copy, Drop)]
pub struct StillOpen {
    pub reaction: u32,
    pub worker: u32,
    /// The row's line of the table that starts it. The first row stands in line 2.
    pub line: u64,
}

/// Notes the place past the row, where it ends a run.
fn note_end(rows: &[Row], place: usize, last: &mut [usize])
    requires place { place < length rows.now }
    requires known { AreOfReactionsBelow rows.now (length last.old) }
    requires so_far { EndBefore rows.now place last.old }
    ensures long { length last.new ≡ length last.old }
    ensures noted { EndBefore rows.now (place + 1) last.new }
{
    let row = row_at(rows, place);
    if is_end(&row.step) {
        last[row.reaction as usize] = place + 1;
    }
}

/// Of each reaction, counted from 0, the place past the last row that ends a run of it, or 0.
fn last_ends(alloc: Global, rows: &[Row], reactions: usize) -> Result<Vec<usize>, NoMemory>
    requires known { AreOfReactionsBelow rows.now reactions }
    ensures long { IfOk result (λ last. length last.items ≡ reactions) }
    ensures last { IfOk result (λ last. EndBefore rows.now (length rows.now) last.items) }
{
    let mut last = vec![in alloc; 0usize; reactions]?;
    for place in 0..rows.len() {
        note_end(rows, place, last.as_mut_slice());
    }
    Ok(last)
}

/// Whether the row ends the run that the other starts.
fn is_end_of(row: Row, start: Row) -> bool
    ensures { IsTrue result ↔ (row ≡ end_row start.worker start.tag start.reaction) }
{
    is_end(&row.step)
        && row.worker == start.worker
        && row.reaction == start.reaction
        && row.tag.is_same(start.tag)
}

/// Whether a row behind the place, before the end, ends the run that the row at the place starts.
fn is_ended(rows: &[Row], place: usize, end: usize) -> bool
    requires place { place < length rows.now }
    requires end { end ≤ length rows.now }
    ensures { (row : TheRow) → slice_get rows.now place ≡ Some row → IsTrue result ↔ ((k : ℕ) × (place < k) × (k < end) × (slice_get rows.now k ≡ Some (end_row row.worker row.tag row.reaction))) }
{
    let start = row_at(rows, place);
    let mut last = end;
    while last > place + 1 {
        last -= 1;
        if is_end_of(row_at(rows, last), start) {
            return true;
        }
    }
    false
}

/// Whether the row at the place starts a run that no row ends.
fn is_open(rows: &[Row], place: usize, last: &[usize]) -> bool
    requires place { place < length rows.now }
    requires known { AreOfReactionsBelow rows.now (length last.now) }
    requires last { EndBefore rows.now (length rows.now) last.now }
    ensures { (row : TheRow) → slice_get rows.now place ≡ Some row → IsTrue result ↔ IsUnended rows.now place row }
{
    let row = row_at(rows, place);
    if !is_start(&row.step) {
        return false;
    }
    // The last end of the reaction is looked at first: mostly it is that of this run.
    let past = item_at(last, row.reaction as usize);
    !is_ended(rows, place, past.min(rows.len()))
}

/// The run that the row at the place starts, where so many rows stand before these.
fn run_at(rows: &[Row], place: usize, before: u64) -> StillOpen
    requires place { place < length rows.now }
    requires few { before + length rows.now ≤ 2 ^ 63 }
    ensures { (row : TheRow) → slice_get rows.now place ≡ Some row → result ≡ run_in row (before + place + 2) }
{
    let row = row_at(rows, place);
    StillOpen {
        reaction: row.reaction,
        worker: row.worker,
        line: before + place as u64 + 2,
    }
}

/// The runs without an end among rows, behind so many others.
pub(crate) fn open_among(
    alloc: Global,
    rows: &[Row],
    before: u64,
    reactions: usize,
) -> Result<Vec<StillOpen>, NoMemory>
    requires known { AreOfReactionsBelow rows.now reactions }
    requires few { before + length rows.now ≤ 2 ^ 63 }
    ensures { IfOk result (λ runs. AreOpenRuns before rows.now runs.items) }
{
    let last = last_ends(alloc, rows, reactions)?;
    let mut runs = Vec::new(alloc);
    for place in 0..rows.len() {
        if is_open(rows, place, last.as_slice()) {
            runs.push(run_at(rows, place, before))?;
        }
    }
    Ok(runs)
}
