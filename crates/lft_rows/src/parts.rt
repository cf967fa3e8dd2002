//! The rules 1 to 5 by several workers.

ghost use Rattle.std.specs.Prelude.{◌≡◌, ℕ, ◌+◌, ◌<◌, ◌++◌, length, Some, None, IsTrue, IfSome, IfOk, slice_get};
ghost use Rattle.std.specs.Thread.{IsSync};
ghost use Rattle.lft_tag.specs.Tags.{Before};
ghost use Rattle.lft_ir.specs.{Parts.Parts, declared.steps.row.Row.Row as TheRow, Steps.Fits.RowsFit};
ghost use Rattle.lft_rows.specs.inner.{Firsts.FirstRow, Parts.RisesBetween};

use crate::pass::first_breach;
use lft_ir::steps::{Row, row_at};
use lft_model::{Breach, Plan};
use lft_tag::{NoMemory, Tag};
use std::alloc::Global;
use std::thread::{Threads, join};

/// Fewer rows are gone over by one worker: of them a thread costs more than it brings.
const SHORT: usize = 1 << 14;

/// Whether the row at the place is at a later tag than the one before it.
fn rises_at(rows: &[Row], place: usize) -> bool
    requires { place < length rows.now }
    ensures { IsTrue result → (k : ℕ) × (x y : TheRow) × (place ≡ k + 1) × (slice_get rows.now k ≡ Some x) × (slice_get rows.now place ≡ Some y) × Before x.tag y.tag }
{
    if place == 0 {
        return false;
    }
    let before = row_at(rows, place - 1).tag;
    before.is_before(row_at(rows, place).tag)
}

/// The rows in two parts, cut at the first place from this one on where the tag rises.
fn cut_from(rows: &[Row], from: usize) -> Option<(&[Row], &[Row])>
    ensures parts { IfSome result (λ p. (rows.now ≡ p.0.now ++ p.1.now) × RisesBetween p.0.now p.1.now) }
    ensures first { IfSome result (λ p. (program : Parts) → RowsFit program rows.now → RowsFit program p.0.now) }
    ensures second { IfSome result (λ p. (program : Parts) → RowsFit program rows.now → RowsFit program p.1.now) }
{
    for place in from..rows.len() {
        if rises_at(rows, place) {
            return Some(rows.split_at(place));
        }
    }
    None
}

/// Whether it is known that no row breaks one of the rules 1 to 5. It isn't where memory is refused.
fn keeps(alloc: Global, plan: &Plan, stop: Tag, rows: &[Row]) -> bool
    requires { RowsFit plan.now.program rows.now }
    ensures { IsTrue result → FirstRow stop plan.now rows.now None }
{
    match first_breach(alloc, plan, stop, rows) {
        Ok(None) => true,
        Ok(Some(_)) => false,
        // Not known is enough here: the pass over all rows asks for its memory itself, and tells of it.
        Err(_) => false,
    }
}

/// The same of rows and workers that are divided in two, in the same proportion, until a part has
/// one worker. A run has one tag, so it lies in one part, with all that it read before.
#[cycle(parts)]
fn keep_parts<R: Threads + Sync>(
    rt: &R,
    alloc: Global,
    plan: &Plan,
    stop: Tag,
    rows: &[Row],
    workers: u32,
) -> bool
    requires { RowsFit plan.now.program rows.now }
    ensures { IsTrue result → FirstRow stop plan.now rows.now None }
{
    if workers < 2 || rows.len() < SHORT {
        return keeps(alloc, plan, stop, rows);
    }
    let low = workers / 2;
    let high = workers - low;
    // The share of the low workers is no longer than all rows, since they are fewer than all.
    let share = rows.len() / workers as usize;
    let Some((first, second)) = cut_from(rows, share * low as usize) else {
        // From there on all rows are of one tag. They may be of one run, so they aren't parted.
        return keeps(alloc, plan, stop, rows);
    };
    let front = move || -> bool
        requires { IsSync R.row × RowsFit plan.now.program first.now }
        ensures { IsTrue result → FirstRow stop plan.entry.now first.entry.now None }
    { keep_parts(rt, alloc, plan, stop, first, low) };
    let back = move || -> bool
        requires { IsSync R.row × RowsFit plan.now.program second.now }
        ensures { IsTrue result → FirstRow stop plan.entry.now second.entry.now None }
    { keep_parts(rt, alloc, plan, stop, second, high) };
    let (one, other) = join(rt, front, back);
    one && other
}

/// What `first_breach` answers, by so many workers at a time. Where a part has a breach, all rows are
/// gone over once more, by one worker.
pub fn first_breach_shared<R: Threads + Sync>(
    rt: &R,
    alloc: Global,
    plan: &Plan,
    stop: Tag,
    rows: &[Row],
    workers: u32,
) -> Result<Option<Breach>, NoMemory>
    requires { RowsFit plan.now.program rows.now }
    ensures { IfOk result (FirstRow stop plan.now rows.now) }
{
    // So no law on the first breach of parts is needed. A broken trace costs the pass twice.
    if keep_parts(rt, alloc, plan, stop, rows, workers) {
        return Ok(None);
    }
    first_breach(alloc, plan, stop, rows)
}
