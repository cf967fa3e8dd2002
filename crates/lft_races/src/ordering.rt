//! Rules 1, 3 and 4: which row before it a row contradicts.

ghost use Rattle.std.specs.Prelude.{◌≡◌, ◌↔◌, ◌<◌, ℕ, Some, length, slice_get, IsTrue, IfSome, IfNone};
ghost use Rattle.lft_tag.specs.{declared.Tag.Tag as TheTag, Tags.Before};
ghost use Rattle.lft_ir.specs.declared.steps.row.Row.{Row as TheRow};
ghost use Rattle.lft_model.specs.{Breaches.{IsLate, IsOpen, WasStarted, WasRead}, Runs.end_row};
ghost use Rattle.lft_races.specs.{Runs.{StartsAt, IsOpenSince}, inner.Across.OpensRun, Across.ReadsAt};

use crate::runs::is_start_at;
use lft_ir::Name;
use lft_ir::steps::{Row, Step, is_end, is_start, row_at};
use lft_tag::Tag;

/// The place of the first row before this place that is at a greater tag.
pub(crate) fn first_greater(rows: &[Row], place: u32, tag: Tag) -> Option<u32>
    requires place { place < length rows.now }
    ensures before { IfSome result (λ k. k < place) }
    ensures greater { IfSome result (λ k. (later : TheRow) × (slice_get rows.now k ≡ Some later) × Before tag later.tag) }
    ensures first { IfSome result (λ k. (m : ℕ) (x : TheRow) → m < k → slice_get rows.now m ≡ Some x → ¬ Before tag x.tag) }
    ensures none { IfNone result ((m : ℕ) (x : TheRow) → m < place → slice_get rows.now m ≡ Some x → ¬ Before tag x.tag) }
{
    for other in 0..place {
        if tag.is_before(row_at(rows, other as usize).tag) {
            return Some(other);
        }
    }
    None
}

/// The place of the first row before this one that is at a greater tag.
pub fn greater_row(rows: &[Row], place: u32, row: Row) -> u32
    requires place { place < length rows.now }
    requires late { IsLate rows.now place row }
    ensures before { result < place }
    ensures greater { (earlier : TheRow) × (slice_get rows.now result ≡ Some earlier) × Before row.tag earlier.tag }
{
    match first_greater(rows, place, row.tag) {
        Some(greater) => greater,
        // The row is late, so one before it is at a greater tag.
        None => unreachable!(),
    }
}

/// The place of the first row before this one that starts the reaction's run at the tag.
pub fn first_start(rows: &[Row], place: u32, tag: Tag, reaction: u32) -> Option<u32>
    requires place { place < length rows.now }
    ensures before { IfSome result (λ j. j < place) }
    ensures some { IfSome result (λ j. StartsAt rows.now tag reaction j) }
    ensures none { IfNone result (¬ WasStarted rows.now place tag reaction) }
{
    for other in 0..place {
        if is_start_at(rows, tag, reaction, other as usize) {
            return Some(other);
        }
    }
    None
}

/// Whether the row at the place ends the worker's run of the reaction at the tag.
pub fn is_end_at(rows: &[Row], worker: u32, tag: Tag, reaction: u32, place: u32) -> bool
    requires { place < length rows.now }
    ensures { IsTrue result ↔ (slice_get rows.now place ≡ Some (end_row worker tag reaction)) }
{
    let row = row_at(rows, place as usize);
    is_end(&row.step) && row.worker == worker && row.tag.is_same(tag) && row.reaction == reaction
}

/// Whether a row between the two places ends the worker's run of the reaction at the tag.
fn is_ended(rows: &[Row], start: u32, place: u32, worker: u32, tag: Tag, reaction: u32) -> bool
    requires start { start < place }
    requires place { place < length rows.now }
    ensures { IsTrue result ↔ ((k : ℕ) × (start < k) × (k < place) × (slice_get rows.now k ≡ Some (end_row worker tag reaction))) }
{
    for other in start + 1..place {
        if is_end_at(rows, worker, tag, reaction, other) {
            return true;
        }
    }
    false
}

/// Whether the row at the first place starts a run of the worker that is open before the other.
pub fn is_open_since(rows: &[Row], start: u32, place: u32, worker: u32) -> bool
    requires start { start < place }
    requires place { place < length rows.now }
    ensures { IsTrue result ↔ IsOpenSince rows.now place worker start }
{
    let row = row_at(rows, start as usize);
    is_start(&row.step)
        && row.worker == worker
        && !is_ended(rows, start, place, worker, row.tag, row.reaction)
}

/// The place of the first row that starts a run of the worker that is open before the place.
pub fn open_start(rows: &[Row], place: u32, worker: u32) -> u32
    requires place { place < length rows.now }
    requires open { (g : TheTag) × (r : ℕ) × IsOpen rows.now place worker g r }
    ensures { IsOpenSince rows.now place worker result }
{
    // This costs the rows, and not their square: where rule 3 holds, runs
    // of a worker don't overlap. Each is gone over to its end alone.
    for start in 0..place {
        if is_open_since(rows, start, place, worker) {
            return start;
        }
    }
    // The worker has a run open before the place, so it started one.
    unreachable!()
}

/// Whether the row at the first place starts the run of the one at the other, and it is open there.
fn is_own_start(rows: &[Row], start: u32, place: u32) -> bool
    requires start { start < place }
    requires place { place < length rows.now }
    ensures { IsTrue result ↔ OpensRun rows.now place start }
{
    let own = row_at(rows, place as usize);
    is_start_at(rows, own.tag, own.reaction, start as usize)
        && is_open_since(rows, start, place, own.worker)
}

/// The place of the first row before this one that starts its run, if that is open.
pub(crate) fn own_start(rows: &[Row], place: u32) -> Option<u32>
    requires place { place < length rows.now }
    ensures some { IfSome result (OpensRun rows.now place) }
    ensures first { IfSome result (λ j. (m : ℕ) → m < j → ¬ OpensRun rows.now place m) }
    ensures none { IfNone result ((m : ℕ) → m < place → ¬ OpensRun rows.now place m) }
{
    for start in 0..place {
        if is_own_start(rows, start, place) {
            return Some(start);
        }
    }
    None
}

/// Whether the row at the place reads the name in the reaction's run at the tag.
fn is_read_at(rows: &[Row], tag: Tag, reaction: u32, name: Name, place: u32) -> bool
    requires { place < length rows.now }
    ensures { IsTrue result ↔ ReadsAt rows.now tag reaction name place }
{
    let row = row_at(rows, place as usize);
    match row.step {
        Step::Read(other, _) => {
            other == name && row.tag.is_same(tag) && row.reaction == reaction
        }
        _ => false,
    }
}

/// The place of the first row before this one that reads the name in the reaction's run at the tag.
pub fn first_read(rows: &[Row], place: u32, tag: Tag, reaction: u32, name: Name) -> Option<u32>
    requires place { place < length rows.now }
    ensures before { IfSome result (λ j. j < place) }
    ensures some { IfSome result (λ j. ReadsAt rows.now tag reaction name j) }
    ensures none { IfNone result (¬ WasRead rows.now place tag reaction name) }
{
    for other in 0..place {
        if is_read_at(rows, tag, reaction, name, other) {
            return Some(other);
        }
    }
    None
}
