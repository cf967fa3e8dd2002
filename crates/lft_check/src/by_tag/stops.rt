//! The stop of a trace by several workers.

ghost use Rattle.std.specs.Prelude.{◌≡◌, ◌⊎◌};
ghost use Rattle.std.specs.Thread.{IsSync};
ghost use Rattle.lft_tag.specs.Tags.{UpTo};
ghost use Rattle.lft_model.specs.{Fitting.EachFits, Presence.stop as the_stop};

use lft_ir::steps::Row;
use lft_model::{Plan, trace_stop};
use lft_tag::Tag;
use std::thread::{Threads, join};

/// Fewer rows are gone over by one worker: of them a thread costs more than it brings.
const SHORT: usize = 1 << 16;

/// The earlier of two tags.
fn earlier_of(a: Tag, b: Tag) -> Tag
    ensures one { (result ≡ a) ⊎ (result ≡ b) }
    ensures first { UpTo result a }
    ensures second { UpTo result b }
{
    if a.is_before(b) { a } else { b }
}

/// What `trace_stop` gives, by so many workers at a time: rows and workers are divided in two, in the
/// same proportion, until a part has one worker.
#[cycle(parts)]
pub(crate) fn trace_stop_shared<R: Threads + Sync>(
    rt: &R,
    plan: &Plan,
    rows: &[Row],
    workers: u32,
) -> Tag
    requires { EachFits plan.now.program rows.now }
    ensures { result ≡ the_stop plan.now rows.now }
{
    if workers < 2 || rows.len() < SHORT {
        return trace_stop(plan, rows);
    }
    let low = workers / 2;
    let high = workers - low;
    // The share of the low workers is no longer than all rows, since they are fewer than all.
    let share = rows.len() / workers as usize;
    let (first, second) = rows.split_at(share * low as usize);
    let front = move || -> Tag
        requires { IsSync R.row × EachFits plan.now.program first.now }
        ensures { result ≡ the_stop plan.entry.now first.entry.now }
    { trace_stop_shared(rt, plan, first, low) };
    let back = move || -> Tag
        requires { IsSync R.row × EachFits plan.now.program second.now }
        ensures { result ≡ the_stop plan.entry.now second.entry.now }
    { trace_stop_shared(rt, plan, second, high) };
    let (one, other) = join(rt, front, back);
    earlier_of(one, other)
}
