//! Rows that are judged while they come.

ghost use Rattle.std.specs.Prelude.{◌≡◌, ◌↔◌, ◌+◌, ◌<◌, ◌≤◌, ◌^◌, ℕ, List, [], ◌++◌, length, take, drop, Some, false, IfErr, IfNone, IfOk, OnErr, IsTrue, MatchOption, slice_get, slice_range};
ghost use Rattle.lft_tag.specs.Tags.{Before, IsRecorded};
ghost use Rattle.lft_ir.specs.{declared.steps.row.Row.Row as TheRow, Steps.Fits.{EventFits, RowsFit}};
ghost use Rattle.lft_model.specs.{Fitting.EachFits, Plans.PlanParts};
ghost use Rattle.lft_stream.specs.inner.Kept.{KeepRules};
ghost use Rattle.lft_monitor.specs.inner.Going.{IsGoing, IsHalt};
ghost use Rattle.lft_monitor.specs.inner.Follows.{HasGonePast, IsHeld, IsHitch, IsFollowedOn, IsFollowerOf, IsJudgedTo, IsReceipt, stopped_at, TellsProgress, IsClosing, IsEnding, IsJudgedOf, IsTurn, IsUnjudged, done_of, held_of, next_of};
ghost use Rattle.lft_monitor.specs.{Follows.{IsPassed, HasManyLater, IsJudged}, OpenRuns.AreOpenRuns};

use crate::found::{BrokenRule, found_at, found_of};
use crate::gone::{Going, Halt};
use crate::judged::{Closing, Ending, Judged, Unjudged};
use crate::last::{begin_of_last, last_begins};
use crate::open::{StillOpen, open_among};
use crate::reach::Reach;
use lft_ir::steps::{Event, Row, row_at};
use lft_model::Plan;
use lft_stream::earlier_of;
use lft_tag::{MAX_ROWS, NoMemory, Tag};
use std::alloc::Global;

/// What rows show that come behind others.
#[derive(Clone, Copy, PartialEq, Eq, Debug, Drop)]
pub enum Progress {
    /// More rows may come.
    GoesOn,
    /// Nothing is to be judged behind it.
    Broken(BrokenRule),
    /// The rows that are judged break no rule. Of the next ones, up to the line, too much is to be kept or
    /// looked at, or memory is refused.
    Odd(Reach, u64),
    /// A row stands behind 4,000,000 at one tag, or more came than are counted.
    TooMany,
}

/// What became of an external event that was told.
#[derive(Clone, Copy, PartialEq, Eq, Debug, Drop)]
pub enum Receipt {
    /// It stands in the plan now.
    Taken,
    /// A row at a later tag came before.
    Late,
    /// An event of its action stands at its tag already.
    Again,
    /// There are as many events as a table may have.
    TooMany,
    /// More than 65,536 events are at later tags. The event would have to be put before all of these.
    ManyLater,
}

/// More rows aren't counted.
const MOST: u64 = 1 << 62;

/// So many events may be moved for one that is told before them. Without a bound events that are told in
/// falling order would cost the square of their number.
const MOST_LATER: usize = 65_536;

/// What is kept of rows so far: those of the last tag, and of those before what causes something later.
#[derive(Drop)]
pub struct Follower {
    judged: Judged,
    going: Going,
    /// Those at the last tag, and behind them rows that it goes past next. More may be put behind these.
    pub rows: Vec<Row>,
    /// How many rows are at the last tag.
    held: usize,
}

/// Why rows behind those that are judged aren't gone past.
#[derive(Clone, Copy, Drop)]
pub(crate) enum Hitch {
    Broken(BrokenRule),
    /// Of the rows up to the line too much is to be kept or looked at, or memory is refused.
    Odd(u64),
}

/// Judges the rows before the place, at which the first row of a later tag stands. None where they break no
/// rule. They are known to break none of the rules 1 to 5.
fn judge_before(
    alloc: Global,
    plan: &Plan,
    judged: &mut Judged,
    rows: &[Row],
    begin: usize,
) -> Result<Option<Hitch>, NoMemory>
    requires few { judged.old.count + length rows.now ≤ 2 ^ 62 + 4000000 }
    requires fit { RowsFit plan.now.program rows.now }
    requires begin { begin < length rows.now }
    requires kept { KeepRules plan.now (slice_range rows.now 0 begin) }
    requires stands { (done : List TheRow) × IsJudgedOf plan.now done judged.old }
    ensures { IfOk result (λ o. (done : List TheRow) → IsJudgedOf plan.now done judged.old → MatchOption o (IsJudgedOf plan.now (done ++ slice_range rows.now 0 begin) judged.new) (λ hitch. (end : ℕ) → IsTurn plan.now done rows.now begin end → IsHitch plan.now (done ++ rows.now) (length done) hitch)) }
{
    let is_clean = judged.judge(alloc, plan, &rows[0..begin], true)?;
    if is_clean {
        return Ok(None);
    }
    let high = row_at(rows, begin).tag;
    match judged.past.first_breach(alloc, plan, &rows[0..begin], high) {
        Some(breach) => Ok(Some(Hitch::Broken(found_of(breach)))),
        None => {
            let line = judged.count + begin as u64 + 1;
            Ok(Some(Hitch::Odd(line)))
        }
    }
}

/// What is told where going over rows ended before the last one.
fn tell(
    alloc: Global,
    plan: &Plan,
    judged: &mut Judged,
    rows: &[Row],
    halt: Halt,
) -> Result<Hitch, NoMemory>
    requires few { judged.old.count + length rows.now ≤ 2 ^ 62 + 4000000 }
    requires fit { RowsFit plan.now.program rows.now }
    requires place { (halt.place < length rows.now) × (halt.end < length rows.now) }
    requires halt { (done : List TheRow) × IsHeld plan.now done rows.now judged.old × IsHalt plan.now done rows.now halt }
    ensures { IfOk result (λ hitch. (done : List TheRow) → IsHeld plan.now done rows.now judged.old → IsHalt plan.now done rows.now halt → IsHitch plan.now (done ++ rows.now) (length done) hitch) }
{
    let found = found_at(rows, halt.place, judged.count, halt.rule);
    let begin = last_begins(rows, halt.end);
    match judge_before(alloc, plan, judged, rows, begin)? {
        Some(hitch) => Ok(hitch),
        None => Ok(Hitch::Broken(found)),
    }
}

/// Goes over rows that come behind those that are judged. It judges all but those at the last tag, and tells
/// where these begin.
fn go_past(
    alloc: Global,
    plan: &Plan,
    judged: &mut Judged,
    going: &mut Going,
    rows: &[Row],
) -> Result<Result<usize, Hitch>, NoMemory>
    requires few { judged.old.count + length rows.now ≤ 2 ^ 62 + 4000000 }
    requires fit { RowsFit plan.now.program rows.now }
    requires stands { (done : List TheRow) × IsHeld plan.now done rows.now judged.old × IsGoing plan.now done rows.now going.old }
    ensures within { IfOk result (λ r. IfOk r (λ begin. begin ≤ length rows.now)) }
    ensures judged { IfOk result (λ r. IfOk r (λ begin. (done : List TheRow) → IsHeld plan.now done rows.now judged.old → IsGoing plan.now done rows.now going.old → IsJudgedTo plan.now done rows.now judged.new going.new begin)) }
    ensures hitch { IfOk result (λ r. IfErr r (λ hitch. (done : List TheRow) → IsHeld plan.now done rows.now judged.old → IsGoing plan.now done rows.now going.old → IsHitch plan.now (done ++ rows.now) (length done) hitch)) }
{
    let last = judged.past.stop;
    if let Some(halt) = going.go_over(alloc, plan, last, rows)? {
        let hitch = tell(alloc, plan, judged, rows, halt)?;
        return Ok(Err(hitch));
    }
    let begin = begin_of_last(rows);
    if begin == 0 {
        return Ok(Ok(0));
    }
    if let Some(hitch) = judge_before(alloc, plan, judged, rows, begin)? {
        return Ok(Err(hitch));
    }
    going.begin(alloc, plan, judged.past.stop)?;
    Ok(Ok(begin))
}

/// Takes the first rows away, and moves the others to their place.
fn drop_first(rows: &mut Vec<Row>, count: usize)
    requires { count ≤ length rows.old.items }
    ensures { rows.new.items ≡ drop count rows.old.items }
{
    if count == 0 {
        return;
    }
    let end = rows.len();
    rows.copy_within(count..end, 0);
    rows.truncate(end - count);
}

/// Whether the event that has `MOST_LATER` others behind it is at a later tag.
fn has_many_later(events: &[Event], tag: Tag) -> bool
    ensures { IsTrue result → HasManyLater events.now tag }
{
    events.len() > MOST_LATER && tag.is_before(events[events.len() - 1 - MOST_LATER].tag)
}

impl Follower {
    /// Before the first row.
    pub fn new(alloc: Global, plan: &Plan) -> Result<Follower, NoMemory>
        ensures { IfOk result (HasGonePast plan.now []) }
    {
        Ok(Follower {
            judged: Judged::new(alloc, plan)?,
            going: Going::new(alloc, plan)?,
            rows: Vec::new(alloc),
            held: 0,
        })
    }

    /// How far the rows are judged.
    // The plan is passed for what the contract says of it.
    pub fn reach(&self, plan: &Plan) -> Reach
        ensures { (t : List TheRow) → IsFollowerOf plan.now t self.now → IsJudged plan.now t result }
    {
        let _ = plan;
        self.judged.reach
    }

    /// The rows that it goes past next. `close`, `finish` and `open_runs` leave them out.
    pub fn next(&self) -> &[Row]
        requires { self.now.held ≤ length self.now.rows.items }
        ensures { result.now ≡ next_of self.now }
    {
        &self.rows.as_slice()[self.held..self.rows.len()]
    }

    /// Leaves out those of them that stand behind so many.
    pub fn cut(&mut self, count: usize)
        requires within { self.old.held ≤ length self.old.rows.items }
        requires count { count ≤ length (next_of self.old) }
        ensures next { next_of self.new ≡ take count (next_of self.old) }
        ensures stands { (plan : PlanParts) (t : List TheRow) → IsFollowerOf plan t self.old → IsFollowerOf plan t self.new }
    {
        self.rows.truncate(self.held + count);
    }

    /// Goes on past so many more of its rows.
    fn go_to(&mut self, alloc: Global, plan: &Plan, count: usize) -> Result<Option<Hitch>, NoMemory>
        requires count { count ≤ length (next_of self.old) }
        requires short { self.old.held + count ≤ 4000000 }
        requires fit { EachFits plan.now.program (next_of self.old) }
        requires few { self.old.judged.count ≤ 2 ^ 62 }
        requires stands { (t : List TheRow) × IsFollowerOf plan.now t self.old }
        ensures on { IfOk result (λ o. (t : List TheRow) → IsFollowerOf plan.now t self.old → MatchOption o (IsFollowedOn plan.now t (take count (next_of self.old)) self.old self.new) (IsHitch plan.now (t ++ take count (next_of self.old)) (length (done_of t self.old)))) }
        ensures next { IfOk result (λ o. IfNone o (next_of self.new ≡ drop count (next_of self.old))) }
    {
        let end = self.held + count;
        let rows = &self.rows.as_slice()[0..end];
        match go_past(alloc, plan, &mut self.judged, &mut self.going, rows)? {
            Ok(begin) => {
                drop_first(&mut self.rows, begin);
                self.held = end - begin;
                Ok(None)
            }
            Err(hitch) => Ok(Some(hitch)),
        }
    }

    /// Goes on past all of its rows. A tag is judged once a row at a later one is there.
    // At once, where these are no more than a table may have.
    pub fn go_on(&mut self, alloc: Global, plan: &Plan) -> Result<Progress, NoMemory>
        requires fit { EachFits plan.now.program (next_of self.old) }
        requires stands { (t : List TheRow) × IsFollowerOf plan.now t self.old }
        ensures { IfOk result (λ p. (t : List TheRow) → IsFollowerOf plan.now t self.old → TellsProgress plan.now t (next_of self.old) self.new p) }
    {
        let reach = self.judged.reach;
        'parts: loop {
            if self.judged.count > MOST {
                return Ok(Progress::TooMany);
            }
            let left = self.rows.len() - self.held;
            let count = left.min(MAX_ROWS - self.held);
            if count == 0 && left > 0 {
                return Ok(Progress::TooMany);
            }
            match self.go_to(alloc, plan, count)? {
                None => {
                    if count == left {
                        return Ok(Progress::GoesOn);
                    }
                }
                Some(Hitch::Broken(found)) => return Ok(Progress::Broken(found)),
                Some(Hitch::Odd(line)) => return Ok(Progress::Odd(reach, line)),
            }
        }
    }

    /// Whether a row at a later tag came.
    fn is_past(&self, tag: Tag) -> bool
        ensures past { IsTrue result → (x : TheRow) × (slice_get (held_of self.now) 0 ≡ Some x) × Before tag x.tag }
        ensures not { result ≡ false → (x : TheRow) → slice_get (held_of self.now) 0 ≡ Some x → ¬ Before tag x.tag }
    {
        let rows = self.rows.as_slice();
        self.held > 0 && !rows.is_empty() && tag.is_before(row_at(rows, 0).tag)
    }

    /// Puts an external event at its place in the plan that the rows are judged by. Of those that aren't
    /// taken, a late one is told first, then too many. An event at the last row's tag isn't late.
    pub fn add_event(&self, plan: &mut Plan, event: Event) -> Result<Receipt, NoMemory>
        requires fit { EventFits plan.old.program event }
        ensures receipt { IfOk result (IsReceipt plan.old plan.new event) }
        ensures err { OnErr result (plan.new ≡ plan.old) }
        ensures late { IfOk result (λ receipt. (t : List TheRow) → IsFollowerOf plan.old t self.now → (receipt ≡ Receipt.Late) ↔ IsPassed t event.tag) }
        ensures stands { (t : List TheRow) → IsFollowerOf plan.old t self.now → IsFollowerOf plan.new t self.now }
    {
        if self.is_past(event.tag) {
            return Ok(Receipt::Late);
        }
        if plan.externals().events().len() >= MAX_ROWS {
            return Ok(Receipt::TooMany);
        }
        if has_many_later(plan.externals().events(), event.tag) {
            return Ok(Receipt::ManyLater);
        }
        match plan.tell(event)? {
            Some(_) => {
                // Asked for what every plan keeps: its external events stand in order.
                plan.keeps();
                Ok(Receipt::Taken)
            }
            None => Ok(Receipt::Again),
        }
    }

    /// Makes the tag the stop of the plan that the rows are judged by, where it is earlier than the plan's
    /// own. It is false where a row at a later tag came: then all stays as it was. A stop at the last row's
    /// tag isn't late.
    pub fn stop_at(&mut self, plan: &mut Plan, stop: Tag) -> bool
        requires { IsRecorded stop }
        ensures stopped { IsTrue result → plan.new ≡ stopped_at plan.old stop }
        ensures stays { result ≡ false → (plan.new ≡ plan.old) × (self.new ≡ self.old) }
        ensures late { (t : List TheRow) → IsFollowerOf plan.old t self.old → (result ≡ false) ↔ IsPassed t stop }
        ensures next { next_of self.new ≡ next_of self.old }
        ensures stands { (t : List TheRow) → IsFollowerOf plan.old t self.old → IsFollowerOf plan.new t self.new }
    {
        if self.is_past(stop) {
            return false;
        }
        plan.stop_at(earlier_of(stop, plan.externals().stop()));
        self.judged.stop_at(stop);
        self.going.stop_at(stop);
        true
    }

    /// What is told where the rows can't be judged to their end.
    fn unjudged(&self) -> Unjudged
        requires { (plan : PlanParts) × (t : List TheRow) × IsFollowerOf plan t self.now }
        ensures { (plan : PlanParts) (t : List TheRow) → IsFollowerOf plan t self.now → IsUnjudged plan t result }
    {
        Unjudged {
            reach: self.judged.reach,
            line: self.judged.count + self.held as u64 + 1,
        }
    }

    /// What the rows show where all at their last tag are there. The last tag is judged too, and nothing behind
    /// it.
    pub fn close(&mut self, alloc: Global, plan: &Plan) -> Result<Closing, Unjudged>
        requires { (t : List TheRow) × IsFollowerOf plan.now t self.old }
        ensures closed { IfOk result (λ closing. (t : List TheRow) → IsFollowerOf plan.now t self.old → IsClosing plan.now t closing) }
        ensures unjudged { IfErr result (λ left. (t : List TheRow) → IsFollowerOf plan.now t self.old → IsUnjudged plan.now t left) }
    {
        if self.judged.count > MOST {
            return Err(self.unjudged());
        }
        let rows = &self.rows.as_slice()[0..self.held];
        self.judged.close(alloc, plan, rows)
    }

    /// The runs that have no end so far. They are at the last tag.
    pub fn open_runs(&self, alloc: Global, plan: &Plan) -> Result<Vec<StillOpen>, NoMemory>
        requires { (t : List TheRow) × IsFollowerOf plan.now t self.now }
        ensures { IfOk result (λ runs. (t : List TheRow) → IsFollowerOf plan.now t self.now → AreOpenRuns 0 t runs.items) }
    {
        let reactions = plan.program().reactions();
        let rows = &self.rows.as_slice()[0..self.held];
        open_among(alloc, rows, self.judged.count, reactions)
    }

    /// What the rows show where no more come. The last tag is judged too, where all of its runs are there.
    /// With `whole` no row is missing.
    pub fn finish(&mut self, alloc: Global, plan: &Plan, whole: bool) -> Result<Ending, Unjudged>
        requires { (t : List TheRow) × IsFollowerOf plan.now t self.old }
        ensures ended { IfOk result (λ ending. (t : List TheRow) → IsFollowerOf plan.now t self.old → IsEnding plan.now whole t ending) }
        ensures unjudged { IfErr result (λ left. (t : List TheRow) → IsFollowerOf plan.now t self.old → IsUnjudged plan.now t left) }
    {
        if self.judged.count > MOST {
            return Err(self.unjudged());
        }
        let rows = &self.rows.as_slice()[0..self.held];
        self.judged.finish(alloc, plan, rows, whole)
    }
}
