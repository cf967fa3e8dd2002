//! Where runs start.

ghost use Rattle.std.specs.Prelude.{◌≡◌, ◌↔◌, ◌+◌, ◌<◌, ◌≤◌, ℕ, Some, length, slice_get, IsTrue, IfOk};
ghost use Rattle.lft_ir.specs.declared.steps.row.Row.{Row as TheRow};
ghost use Rattle.lft_model.specs.Runs.{Ran};
ghost use Rattle.lft_races.specs.{Runs.StartsAt, inner.Runs.{HaveRunBefore, HaveRun}};

use lft_ir::steps::{Row, is_start, row_at};
use lft_tag::{NoMemory, Tag};
use std::alloc::Global;

/// Whether the row at the place starts the reaction's run at the tag.
pub fn is_start_at(rows: &[Row], tag: Tag, reaction: u32, place: usize) -> bool
    requires { place < length rows.now }
    ensures { IsTrue result ↔ StartsAt rows.now tag reaction place }
{
    let row = row_at(rows, place);
    is_start(&row.step) && row.tag.is_same(tag) && row.reaction == reaction
}

/// The place of the row that starts the reaction's run at the tag.
pub fn start_of(rows: &[Row], tag: Tag, reaction: u32) -> u32
    requires few { length rows.now ≤ 4000000 }
    requires ran { Ran rows.now tag reaction }
    ensures { StartsAt rows.now tag reaction result }
{
    // From the first row on: this is asked once or twice for a breach, so no list is kept for it.
    for place in 0..rows.len() {
        if is_start_at(rows, tag, reaction, place) {
            return place as u32;
        }
    }
    // The reaction ran at the tag, and a run has a start row.
    unreachable!()
}

/// Notes whether the row at the place starts a run at the tag.
fn note_run(rows: &[Row], tag: Tag, place: usize, ran: &mut [bool])
    requires place { place < length rows.now }
    requires known { (row : TheRow) → slice_get rows.now place ≡ Some row → row.reaction < length ran.old }
    requires so_far { HaveRunBefore rows.now tag place ran.old }
    ensures long { length ran.new ≡ length ran.old }
    ensures noted { HaveRunBefore rows.now tag (place + 1) ran.new }
{
    let reaction = row_at(rows, place).reaction;
    if !is_start_at(rows, tag, reaction, place) {
        return;
    }
    ran[reaction as usize] = true;
}

/// Whether each of the reactions, counted from 0, has a run at the tag.
pub fn runs_at(
    alloc: Global,
    rows: &[Row],
    tag: Tag,
    reactions: usize,
) -> Result<Vec<bool>, NoMemory>
    requires known { (i : ℕ) (row : TheRow) → slice_get rows.now i ≡ Some row → row.reaction < reactions }
    ensures long { IfOk result (λ ran. length ran.items ≡ reactions) }
    ensures ran { IfOk result (λ ran. HaveRun rows.now tag ran.items) }
{
    let mut ran = vec![in alloc; false; reactions]?;
    for place in 0..rows.len() {
        note_run(rows, tag, place, ran.as_mut_slice());
    }
    Ok(ran)
}
