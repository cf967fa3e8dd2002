//! External inputs told to the plan that rows are judged by.

ghost use Rattle.std.specs.Prelude.{◌≡◌, ◌↔◌, ◌≤◌, ◌^◌, ◌++◌, ◌∷◌, List, [], length, slice_range, IfOk, IfErr, OnErr, IsTrue};
ghost use Rattle.lft_tag.specs.Tags.{IsRecorded};
ghost use Rattle.lft_ir.specs.{declared.steps.row.Row.Row as TheRow, Steps.Fits.EventFits};
ghost use Rattle.lft_model.specs.Plans.{PlanParts};
ghost use Rattle.lft_monitor.specs.{inner.Follows.{IsFollowerOf, next_of}, Follows.IsPassed};
ghost use Rattle.lft_trace.specs.declared.{external_table.Entry.Entry as TheEntry, log_table.Line.Line as TheLine};
ghost use Rattle.lft_trace.specs.inner.LogTables.{EntryFits, InputsFit, inputs_behind};
ghost use Rattle.lft_log.specs.{Logs.{rows, tag_of_entry}, Told.HasTold, inner.Told.{IsBeforeLatest, IsInputFault, IsLatestTag, IsTaken}};

use crate::fault::LogFault;
use crate::front::LinesRead;
use lft_ir::steps::{Event, Row, row_at};
use lft_model::Plan;
use lft_monitor::{Follower, Receipt};
use lft_tag::Tag;
use lft_trace::Entry;

/// Tells an event to the plan that the rows are judged by. Its line has this number.
fn tell_event(
    follower: &Follower,
    plan: &mut Plan,
    event: Event,
    number: u64,
) -> Result<(), LogFault>
    requires fit { EventFits plan.old.program event }
    ensures program { plan.new.program ≡ plan.old.program }
    ensures told { IfOk result (λ _. (base : PlanParts) (before : List TheEntry) → HasTold base before plan.old → HasTold base (before ++ Entry.Happens event ∷ []) plan.new) }
    ensures timely { IfOk result (λ _. (t : List TheRow) → IsFollowerOf plan.old t follower.now → ¬ IsPassed t event.tag) }
    ensures stands { (t : List TheRow) → IsFollowerOf plan.old t follower.now → IsFollowerOf plan.new t follower.now }
    ensures stays { OnErr result (plan.new ≡ plan.old) }
    ensures fault { IfErr result (λ f. (t u : List TheRow) → IsFollowerOf plan.old t follower.now → IsInputFault plan.old (t ++ u) (Entry.Happens event) number f) }
{
    match follower.add_event(plan, event) {
        Ok(Receipt::Taken) => {
            // Asked for what every plan keeps: its external events stand in order.
            plan.keeps();
            Ok(())
        }
        Ok(Receipt::Late) => Err(LogFault::LateInput(number)),
        Ok(Receipt::Again) => Err(LogFault::InputAgain(number)),
        Ok(Receipt::ManyLater) => Err(LogFault::ManyLater(number)),
        Ok(Receipt::TooMany) => Err(LogFault::TooManyInputs),
        Err(_) => Err(LogFault::NoMemory),
    }
}

/// Tells a stop to the plan that the rows are judged by. Its line has this number.
fn tell_stop(
    follower: &mut Follower,
    plan: &mut Plan,
    stop: Tag,
    number: u64,
) -> Result<(), LogFault>
    requires fit { IsRecorded stop }
    ensures program { plan.new.program ≡ plan.old.program }
    ensures told { IfOk result (λ _. (base : PlanParts) (before : List TheEntry) → HasTold base before plan.old → HasTold base (before ++ Entry.Stops stop ∷ []) plan.new) }
    ensures timely { IfOk result (λ _. (t : List TheRow) → IsFollowerOf plan.old t follower.old → ¬ IsPassed t stop) }
    ensures stands { (t : List TheRow) → IsFollowerOf plan.old t follower.old → IsFollowerOf plan.new t follower.new }
    ensures next { next_of follower.new ≡ next_of follower.old }
    ensures stays { OnErr result (plan.new ≡ plan.old) }
    ensures fault { IfErr result (λ f. (t u : List TheRow) → IsFollowerOf plan.old t follower.old → IsInputFault plan.old (t ++ u) (Entry.Stops stop) number f) }
{
    if follower.stop_at(plan, stop) {
        Ok(())
    } else {
        Err(LogFault::LateInput(number))
    }
}

/// Tells an external input to the plan that the rows are judged by. Its line has this number.
fn tell(follower: &mut Follower, plan: &mut Plan, entry: Entry, number: u64) -> Result<(), LogFault>
    requires fit { EntryFits plan.old.program entry }
    ensures program { plan.new.program ≡ plan.old.program }
    ensures told { IfOk result (λ _. (base : PlanParts) (before : List TheEntry) → HasTold base before plan.old → HasTold base (before ++ entry ∷ []) plan.new) }
    ensures timely { IfOk result (λ _. (t : List TheRow) → IsFollowerOf plan.old t follower.old → ¬ IsPassed t (tag_of_entry entry)) }
    ensures stands { (t : List TheRow) → IsFollowerOf plan.old t follower.old → IsFollowerOf plan.new t follower.new }
    ensures next { next_of follower.new ≡ next_of follower.old }
    ensures stays { OnErr result (plan.new ≡ plan.old) }
    ensures fault { IfErr result (λ f. (t u : List TheRow) → IsFollowerOf plan.old t follower.old → IsInputFault plan.old (t ++ u) entry number f) }
{
    match entry {
        Entry::Happens(event) => tell_event(follower, plan, event, number),
        Entry::Stops(stop) => tell_stop(follower, plan, stop, number),
    }
}

/// The latest tag of rows and one more, where this is that of the others.
fn latest_with(latest: Option<Tag>, row: Row) -> Option<Tag>
    ensures { (t : List TheRow) → IsLatestTag t latest → IsLatestTag (t ++ row ∷ []) result }
{
    match latest {
        None => Some(row.tag),
        Some(high) => {
            if high.is_before(row.tag) {
                Some(row.tag)
            } else {
                Some(high)
            }
        }
    }
}

/// The latest tag of rows and some more, where this is that of the others.
fn latest_of(before: Option<Tag>, rows: &[Row]) -> Option<Tag>
    ensures { (t : List TheRow) → IsLatestTag t before → IsLatestTag (t ++ rows.now) result }
{
    let mut latest = before;
    for place in 0..rows.len() {
        latest = latest_with(latest, row_at(rows, place));
    }
    latest
}

/// Whether the tag is before the latest one, where there is one.
fn is_before_latest(tag: Tag, latest: Option<Tag>) -> bool
    ensures { IsTrue result ↔ IsBeforeLatest tag latest }
{
    match latest {
        Some(latest) => tag.is_before(latest),
        None => false,
    }
}

/// The tag of an external input.
fn tag_of(entry: Entry) -> Tag
    ensures { result ≡ tag_of_entry entry }
{
    match entry {
        Entry::Happens(event) => event.tag,
        Entry::Stops(tag) => tag,
    }
}

/// Tells an external input behind rows that aren't judged yet, of which this is the latest tag.
fn tell_behind(
    follower: &mut Follower,
    plan: &mut Plan,
    latest: Option<Tag>,
    entry: Entry,
    number: u64,
) -> Result<(), LogFault>
    requires fit { EntryFits plan.old.program entry }
    ensures program { plan.new.program ≡ plan.old.program }
    ensures told { IfOk result (λ _. (base : PlanParts) (before : List TheEntry) → HasTold base before plan.old → HasTold base (before ++ entry ∷ []) plan.new) }
    ensures timely { IfOk result (λ _. (t u : List TheRow) → IsFollowerOf plan.old t follower.old → IsLatestTag u latest → ¬ IsPassed (t ++ u) (tag_of_entry entry)) }
    ensures stands { (t : List TheRow) → IsFollowerOf plan.old t follower.old → IsFollowerOf plan.new t follower.new }
    ensures next { next_of follower.new ≡ next_of follower.old }
    ensures stays { OnErr result (plan.new ≡ plan.old) }
    ensures fault { IfErr result (λ f. (t u : List TheRow) → IsFollowerOf plan.old t follower.old → IsLatestTag u latest → IsInputFault plan.old (t ++ u) entry number f) }
{
    // Rows at its own tag may stand before it: only one at a later tag makes it late.
    if is_before_latest(tag_of(entry), latest) {
        return Err(LogFault::LateInput(number));
    }
    tell(follower, plan, entry, number)
}

/// The rows from a place up to another.
fn rows_between(rows: &[Row], begin: usize, end: usize) -> &[Row]
    requires { (begin ≤ end) × (end ≤ length rows.now) }
    ensures { result.now ≡ slice_range rows.now begin end }
{
    &rows[begin..end]
}

/// How many rows and how many external inputs of a front are taken, and the fault of the line behind
/// them, if it has one.
#[derive(Clone, Copy)]
pub(crate) struct Taken {
    pub rows: usize,
    pub inputs: usize,
    pub fault: Option<LogFault>,
}

/// Tells the external inputs among rows before the follower goes past these, up to one that can't be taken. So
/// many came before them.
pub(crate) fn tell_all(
    follower: &mut Follower,
    plan: &mut Plan,
    front: &LinesRead,
    before: u64,
) -> Taken
    requires few { before ≤ 2 ^ 62 }
    requires lines { (lines : List TheLine) × (next_of follower.old ≡ rows lines) × (front.now.inputs.items ≡ inputs_behind 0 lines) }
    requires fit { InputsFit plan.old.program front.now.inputs.items }
    requires stands { (t : List TheRow) × IsFollowerOf plan.old t follower.old }
    ensures program { plan.new.program ≡ plan.old.program }
    ensures next { next_of follower.new ≡ next_of follower.old }
    ensures within { (result.rows ≤ length (next_of follower.old)) × (result.inputs ≤ length front.now.inputs.items) }
    ensures stands { (t : List TheRow) → IsFollowerOf plan.old t follower.old → IsFollowerOf plan.new t follower.new }
    ensures taken { (t : List TheRow) (lines : List TheLine) → IsFollowerOf plan.old t follower.old → next_of follower.old ≡ rows lines → front.now.inputs.items ≡ inputs_behind 0 lines → IsTaken plan.old plan.new t before front.now lines result }
{
    let inputs = front.inputs.as_slice();
    let mut latest = None;
    let mut gone = 0;
    for place in 0..inputs.len() {
        let among = inputs[place];
        latest = latest_of(
            latest,
            rows_between(follower.next(), gone, among.rows_before),
        );
        gone = among.rows_before;
        let number = before + place as u64 + 2;
        if let Err(fault) = tell_behind(follower, plan, latest, among.entry, number) {
            return Taken {
                rows: gone,
                inputs: place,
                fault: Some(fault),
            };
        }
    }
    Taken {
        rows: follower.next().len(),
        inputs: inputs.len(),
        fault: front.fault,
    }
}
