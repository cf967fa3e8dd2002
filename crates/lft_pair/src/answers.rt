//! Whether two runs answered alike, by their steps.

ghost use Rattle.std.specs.Prelude.{◌≡◌, IsTrue, IfOk, unwrap_or};
ghost use Rattle.std.specs.{BTreeMap.get, Bool.Decides, Ordering.nat_cmp};
ghost use Rattle.lft_pair.specs.inner.Answering.{SameAnswers, SameWritten, SameScheduled, AreWritten, AreScheduled, writing as the_writing, scheduling as the_scheduling};

use lft_ir::steps::Step;
use lft_ir::{Name, Value};
use lft_lists::item_at;
use lft_rows::answers::requests_stop;
use lft_tag::NoMemory;
use std::alloc::Global;
use std::collections::BTreeMap;

/// The port that the step writes and the value, if it writes one.
fn writing(step: Step) -> Option<(u32, Value)>
    ensures { result ≡ the_writing step }
{
    match step {
        Step::Write(Name::Port(port), value) => Some((port, value)),
        _ => None,
    }
}

/// The action that the step schedules, with the extra delay and the value, if it does.
fn scheduling(step: Step) -> Option<(u32, (u64, Value))>
    ensures { result ≡ the_scheduling step }
{
    match step {
        Step::Schedule(Name::Action(action), value, delay) => Some((action, (delay, value))),
        _ => None,
    }
}

/// The last value that the steps write to each port.
fn written_by(alloc: Global, steps: &[Step]) -> Result<BTreeMap<u32, Value>, NoMemory>
    ensures { IfOk result (AreWritten steps.now) }
{
    let mut written = BTreeMap::new(alloc);
    for place in 0..steps.len() {
        // Of several writes of a port the last one counts, and takes the place of those before it.
        if let Some(write) = writing(item_at(steps, place)) {
            let _before = written.insert(write.0, write.1)?;
        }
    }
    // Asked for its clause that the keys ascend.
    let _count = written.len();
    Ok(written)
}

/// The count of the action, or 0.
pub(crate) fn count_of(counts: &BTreeMap<u32, usize>, action: u32) -> usize
    ensures { result ≡ unwrap_or (get nat_cmp counts.now action) 0 }
{
    counts.get(&action).copied().unwrap_or(0)
}

/// What the steps schedule, under the action and the place among the schedulings of the action.
fn scheduled_by(
    alloc: Global,
    steps: &[Step],
) -> Result<BTreeMap<(u32, usize), (u64, Value)>, NoMemory>
    ensures { IfOk result (AreScheduled steps.now) }
{
    let mut counts = BTreeMap::new(alloc);
    let mut scheduled = BTreeMap::new(alloc);
    for place in 0..steps.len() {
        // A run may schedule an action again and again, and each is an event:
        // so the place among them is in the key.
        if let Some(event) = scheduling(item_at(steps, place)) {
            let count = count_of(&counts, event.0);
            let _before = scheduled.insert((event.0, count), event.1)?;
            let _count = counts.insert(event.0, count + 1)?;
        }
    }
    // Asked for its clause that the keys ascend.
    let _count = scheduled.len();
    Ok(scheduled)
}

/// Whether the two steps are known to be the same.
fn is_same_step(a: Step, b: Step) -> bool
    ensures { IsTrue result → a ≡ b }
{
    match (a, b) {
        (Step::Start, Step::Start) => true,
        (Step::Read(x, v), Step::Read(y, w)) => x == y && v == w,
        (Step::Write(x, v), Step::Write(y, w)) => x == y && v == w,
        (Step::Schedule(x, v, d), Step::Schedule(y, w, e)) => x == y && v == w && d == e,
        (Step::Stop, Step::Stop) => true,
        (Step::End, Step::End) => true,
        _ => false,
    }
}

/// Whether the two lists are known to be the same.
fn are_same_steps(a: &[Step], b: &[Step]) -> bool
    ensures { IsTrue result → a.now ≡ b.now }
{
    if a.len() != b.len() {
        return false;
    }
    for i in 0..a.len() {
        if !is_same_step(item_at(a, i), item_at(b, i)) {
            return false;
        }
    }
    true
}

/// Whether the steps write the same last value to each port.
fn same_written(alloc: Global, mine: &[Step], theirs: &[Step]) -> Result<bool, NoMemory>
    ensures { IfOk result (λ same. Decides same (SameWritten mine.now theirs.now)) }
{
    let first = written_by(alloc, mine)?;
    let second = written_by(alloc, theirs)?;
    Ok(first == second)
}

/// Whether the steps schedule the same for each action, in the same order.
fn same_scheduled(alloc: Global, mine: &[Step], theirs: &[Step]) -> Result<bool, NoMemory>
    ensures { IfOk result (λ same. Decides same (SameScheduled mine.now theirs.now)) }
{
    let first = scheduled_by(alloc, mine)?;
    let second = scheduled_by(alloc, theirs)?;
    Ok(first == second)
}

/// Whether two runs with these steps answered the same. Most such runs have the same steps. Of the
/// others what they wrote and scheduled is compared, and no list of effects is gone through.
pub(crate) fn same_answers(alloc: Global, mine: &[Step], theirs: &[Step]) -> Result<bool, NoMemory>
    ensures { IfOk result (λ same. Decides same (SameAnswers mine.now theirs.now)) }
{
    if are_same_steps(mine, theirs) {
        return Ok(true);
    }
    if requests_stop(mine) != requests_stop(theirs) {
        return Ok(false);
    }
    let written = same_written(alloc, mine, theirs)?;
    if !written {
        return Ok(false);
    }
    let scheduled = same_scheduled(alloc, mine, theirs)?;
    Ok(scheduled)
}
