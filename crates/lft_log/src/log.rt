//! A log: a trace table that comes in pieces, with lines of external inputs among its rows.

ghost use Rattle.std.specs.Prelude.{◌≡◌, Bool, ◌+◌, ◌++◌, ◌^◌, ◌≤◌, ℕ, List, [], Option, true, false, length, IfOk, IfErr, IfNone, IfSome, IsTrue, MatchOption};
ghost use Rattle.lft_tag.specs.declared.Tag.{Tag as TheTag};
ghost use Rattle.lft_tables.specs.Parts.{EndsLine};
ghost use Rattle.lft_ir.specs.declared.steps.row.Row.{Row as TheRow};
ghost use Rattle.lft_model.specs.{Fitting.EachFits, Plans.PlanParts};
ghost use Rattle.lft_monitor.specs.{inner.Follows.{HasGonePast, IsFollowerOf, next_of}, Follows.{IsJudged, IsQuiet}};
ghost use Rattle.lft_log.specs.Logs.{AreLines, BeginsLong, HasNoEnd, IsHead};
ghost use Rattle.lft_log.specs.Told.{AreAll, AreOpenIn, IsEnded, IsFaultAtEnd, IsFaultOf, IsFinal, IsSaid, IsSoon, KeepTo, TellsOpen};
ghost use Rattle.lft_log.specs.inner.Told.{IsAskedOf, IsBegun, IsFaultOfRows, IsLog, IsLogOf};

use crate::asked::Asked;
use crate::fault::LogFault;
use crate::front::read_front;
use crate::lines::{before_end, below_header, is_whole, whole_lines};
use crate::telling::tell_all;
use crate::told::{Ended, Final, Told};
use lft_model::Plan;
use lft_monitor::{Closing, Ending, Follower, Progress, Reach, StillOpen};
use lft_tag::{NoMemory, Tag};
use lft_trace::ReactionNumbers;
use std::alloc::Global;

/// No line has more bytes.
const LONGEST: usize = 1 << 20;

/// More rows aren't counted, and no more external inputs.
// Far enough from 2^64 that the lines of one more piece don't overflow.
const MOST: u64 = 1 << 62;

/// What is kept of a log so far.
// The order of the lines says up to which tag all external inputs are told. At a second pipe a reader
// would wait for the next event while the runtime waits at the first.
#[derive(Drop)]
pub struct Log {
    numbers: ReactionNumbers,
    follower: Follower,
    /// The bytes of a line whose end hasn't come.
    rest: Vec<u8>,
    /// How many rows came.
    rows: u64,
    /// How many external inputs came.
    inputs: u64,
    /// Whether the header came.
    is_begun: bool,
    asked: Asked,
}

/// Goes on past the rows that the follower has.
fn add_rows(follower: &mut Follower, alloc: Global, plan: &Plan) -> Result<Option<Told>, LogFault>
    requires fit { EachFits plan.now.program (next_of follower.old) }
    requires stands { (t : List TheRow) × IsFollowerOf plan.now t follower.old }
    ensures told { IfOk result (λ o. (t : List TheRow) → IsFollowerOf plan.now t follower.old → MatchOption o (HasGonePast plan.now (t ++ next_of follower.old) follower.new × IsQuiet plan.now (t ++ next_of follower.old)) (λ told. (until : Option TheTag) (more : List TheRow) → IsSaid plan.now until (t ++ next_of follower.old) more told)) }
    ensures fault { IfErr result (λ f. (t : List TheRow) → IsFollowerOf plan.now t follower.old → IsFaultOfRows (t ++ next_of follower.old) f) }
{
    match follower.go_on(alloc, plan) {
        Ok(Progress::GoesOn) => Ok(None),
        Ok(Progress::Broken(found)) => Ok(Some(Told::Broken(found))),
        Ok(Progress::Odd(reach, line)) => Ok(Some(Told::Odd(reach, line))),
        Ok(Progress::TooMany) => Err(LogFault::TooManyRows),
        Err(_) => Err(LogFault::NoMemory),
    }
}

/// What all rows show that are asked for.
fn close(follower: &mut Follower, alloc: Global, plan: &Plan) -> Told
    requires { (t : List TheRow) × IsFollowerOf plan.now t follower.old }
    ensures { (until : Option TheTag) (t more : List TheRow) → IsFollowerOf plan.now t follower.old → IsQuiet plan.now t → AreAll until t more → IsSaid plan.now until t more result }
{
    match follower.close(alloc, plan) {
        Ok(Closing::Unbroken(reach)) => Told::Reached(reach),
        Ok(Closing::Broken(found)) => Told::Broken(found),
        Err(left) => Told::Odd(left.reach, left.line),
    }
}

/// Goes on past the rows that the follower has, up to the last that is asked for. The first one behind it
/// shows only that there are no more.
fn add_asked(
    follower: &mut Follower,
    asked: &mut Asked,
    alloc: Global,
    plan: &Plan,
) -> Result<Option<Told>, LogFault>
    requires fit { EachFits plan.now.program (next_of follower.old) }
    requires stands { (t : List TheRow) × IsFollowerOf plan.now t follower.old }
    ensures until { asked.new.until ≡ asked.old.until }
    ensures told { IfOk result (λ o. (t : List TheRow) → IsFollowerOf plan.now t follower.old → IsAskedOf t asked.old → MatchOption o (HasGonePast plan.now (t ++ next_of follower.old) follower.new × IsAskedOf (t ++ next_of follower.old) asked.new) (λ told. (u more : List TheRow) × (next_of follower.old ≡ u ++ more) × KeepTo asked.old.until (t ++ u) × IsSaid plan.now asked.old.until (t ++ u) more told)) }
    ensures fault { IfErr result (λ f. (t : List TheRow) → IsFollowerOf plan.now t follower.old → IsFaultOfRows (t ++ next_of follower.old) f) }
{
    let Some(end) = asked.past_end(follower.next()) else {
        return add_rows(follower, alloc, plan);
    };
    follower.cut(end);
    match add_rows(follower, alloc, plan) {
        Ok(Some(told)) => Ok(Some(told)),
        Ok(None) => Ok(Some(close(follower, alloc, plan))),
        Err(fault) => Err(fault),
    }
}

/// The lines below the header, which came before or stands above them.
fn body_of(is_begun: bool, lines: &[u8]) -> Option<&[u8]>
    ensures none { IfNone result ((is_begun ≡ false) × ((head rest : List ℕ) → lines.now ≡ head ++ rest → ¬ IsHead head)) }
    ensures begun { IfSome result (λ body. is_begun ≡ true → body.now ≡ lines.now) }
    ensures fresh { IfSome result (λ body. is_begun ≡ false → (head : List ℕ) × (lines.now ≡ head ++ body.now) × IsHead head) }
{
    if is_begun {
        Some(lines)
    } else {
        below_header(lines)
    }
}

impl Log {
    /// Before the first byte. No row is judged behind the first tag with rows at or past the tag.
    pub fn new(alloc: Global, plan: &Plan, until: Option<Tag>) -> Result<Log, NoMemory>
        ensures { IfOk result (IsLog plan.now plan.now until []) }
    {
        // Asked for what every plan keeps: its external events stand in order.
        plan.keeps();
        Ok(Log {
            numbers: ReactionNumbers::new(alloc, plan.program())?,
            follower: Follower::new(alloc, plan)?,
            rest: Vec::new(alloc),
            rows: 0,
            inputs: 0,
            is_begun: false,
            asked: Asked::new(until),
        })
    }

    /// How many rows came.
    pub fn rows(&self) -> u64
        ensures { result ≡ self.now.rows }
    {
        self.rows
    }

    /// How far the rows are judged.
    pub fn reach(&self, plan: &Plan) -> Reach
        ensures { (t : List TheRow) → IsFollowerOf plan.now t self.now.follower → IsJudged plan.now t result }
    {
        self.follower.reach(plan)
    }

    /// Goes on past whole lines below the header, which are all that wait to be read.
    fn add_body(
        &mut self,
        alloc: Global,
        plan: &mut Plan,
        lines: &[u8],
    ) -> Result<Option<Told>, LogFault>
        requires lines { AreLines lines.now }
        requires stands { (base : PlanParts) × (until : Option TheTag) × (bytes : List ℕ) × IsBegun base plan.old until bytes lines.now self.old }
        ensures program { plan.new.program ≡ plan.old.program }
        ensures rest { self.new.rest ≡ self.old.rest }
        ensures told { IfOk result (λ o. (base : PlanParts) (until : Option TheTag) (bytes : List ℕ) → IsBegun base plan.old until bytes lines.now self.old → MatchOption o (IsBegun base plan.new until bytes [] self.new) (IsSoon base until bytes)) }
        ensures fault { IfErr result (λ f. (base : PlanParts) (until : Option TheTag) (bytes : List ℕ) → IsBegun base plan.old until bytes lines.now self.old → IsFaultOf base bytes f) }
    {
        if self.rows > MOST {
            return Err(LogFault::TooManyRows);
        }
        if self.inputs > MOST {
            return Err(LogFault::TooManyInputs);
        }
        let Ok(front) = read_front(
            alloc,
            plan.program(),
            &mut self.numbers,
            lines,
            self.rows,
            self.inputs,
            &mut self.follower.rows,
        ) else {
            return Err(LogFault::NoMemory);
        };
        // Told first: rows of these lines may be at the tags of these inputs.
        let taken = tell_all(&mut self.follower, plan, &front, self.inputs);
        self.inputs += taken.inputs as u64;
        self.rows += taken.rows as u64;
        self.follower.cut(taken.rows);
        match add_asked(&mut self.follower, &mut self.asked, alloc, plan) {
            // The rows before a bad line are judged first: a breach of theirs is
            // sure, whatever that line was to say.
            Ok(None) => match taken.fault {
                Some(fault) => Err(fault),
                None => Ok(None),
            },
            Ok(Some(told)) => Ok(Some(told)),
            Err(fault) => Err(fault),
        }
    }

    /// Goes on past whole lines, which are all that wait to be read.
    fn add_lines(
        &mut self,
        alloc: Global,
        plan: &mut Plan,
        lines: &[u8],
    ) -> Result<Option<Told>, LogFault>
        requires lines { EndsLine lines.now }
        requires stands { (base : PlanParts) × (until : Option TheTag) × (bytes : List ℕ) × IsLogOf base plan.old until bytes lines.now self.old }
        ensures program { plan.new.program ≡ plan.old.program }
        ensures rest { self.new.rest ≡ self.old.rest }
        ensures told { IfOk result (λ o. (base : PlanParts) (until : Option TheTag) (bytes : List ℕ) → IsLogOf base plan.old until bytes lines.now self.old → MatchOption o (IsLogOf base plan.new until bytes [] self.new) (IsSoon base until bytes)) }
        ensures fault { IfErr result (λ f. (base : PlanParts) (until : Option TheTag) (bytes : List ℕ) → IsLogOf base plan.old until bytes lines.now self.old → IsFaultOf base bytes f) }
    {
        let Some(body) = body_of(self.is_begun, lines) else {
            return Err(LogFault::NoHeader);
        };
        self.is_begun = true;
        self.add_body(alloc, plan, body)
    }

    /// Whether the first line of the piece is too long with what came of it.
    fn is_long(&self, piece: &[u8]) -> bool
        ensures { IsTrue result → HasNoEnd self.now.rest.items → BeginsLong (self.now.rest.items ++ piece.now) }
    {
        // No piece has more bytes than a line may have, so its other lines are short enough.
        self.rest.len() + before_end(piece) > LONGEST
    }

    /// The number of the line that comes next.
    fn next_line(&self) -> u64
        requires { self.now.rows ≤ 2 ^ 62 + 4000000 }
        ensures begun { self.now.is_begun ≡ true → result ≡ self.now.rows + 2 }
        ensures fresh { self.now.is_begun ≡ false → result ≡ 1 }
    {
        if self.is_begun { self.rows + 2 } else { 1 }
    }

    /// Goes on past the rest and more bytes, which are whole lines together.
    fn add_whole(
        &mut self,
        alloc: Global,
        plan: &mut Plan,
        more: &[u8],
    ) -> Result<Option<Told>, LogFault>
        requires line { EndsLine more.now }
        requires stands { (base : PlanParts) × (until : Option TheTag) × (bytes : List ℕ) × IsLog base plan.old until bytes self.old }
        ensures program { plan.new.program ≡ plan.old.program }
        ensures told { IfOk result (λ o. (base : PlanParts) (until : Option TheTag) (bytes : List ℕ) → IsLog base plan.old until bytes self.old → MatchOption o (IsLogOf base plan.new until (bytes ++ more.now) [] self.new × (self.new.rest.items ≡ [])) (IsSoon base until (bytes ++ more.now))) }
        ensures fault { IfErr result (λ f. (base : PlanParts) (until : Option TheTag) (bytes : List ℕ) → IsLog base plan.old until bytes self.old → IsFaultOf base (bytes ++ more.now) f) }
    {
        let mut lines = std::mem::replace(&mut self.rest, Vec::new(alloc));
        let Ok(()) = lines.extend_from_slice(more) else {
            return Err(LogFault::NoMemory);
        };
        self.add_lines(alloc, plan, lines.as_slice())
    }

    /// Keeps bytes of a line whose end hasn't come.
    fn keep(&mut self, more: &[u8]) -> Result<Option<Told>, LogFault>
        ensures told { IfOk result (λ o. (base plan : PlanParts) (until : Option TheTag) (bytes : List ℕ) → IsLogOf base plan until bytes self.old.rest.items self.old → HasNoEnd (self.old.rest.items ++ more.now) → MatchOption o (IsLog base plan until (bytes ++ more.now) self.new) (λ told. ⊥)) }
        ensures fault { IfErr result (λ f. (base : PlanParts) (bytes : List ℕ) → IsFaultOf base bytes f) }
    {
        match self.rest.extend_from_slice(more) {
            Ok(()) => Ok(None),
            Err(_) => Err(LogFault::NoMemory),
        }
    }

    /// Goes on past a piece of the table. No piece has more bytes than a line may have.
    pub fn add(
        &mut self,
        alloc: Global,
        plan: &mut Plan,
        piece: &[u8],
    ) -> Result<Option<Told>, LogFault>
        requires { (base : PlanParts) × (until : Option TheTag) × (bytes : List ℕ) × IsLog base plan.old until bytes self.old }
        ensures program { plan.new.program ≡ plan.old.program }
        ensures told { IfOk result (λ o. (base : PlanParts) (until : Option TheTag) (bytes : List ℕ) → IsLog base plan.old until bytes self.old → MatchOption o (IsLog base plan.new until (bytes ++ piece.now) self.new) (IsSoon base until (bytes ++ piece.now))) }
        ensures fault { IfErr result (λ f. (base : PlanParts) (until : Option TheTag) (bytes : List ℕ) → IsLog base plan.old until bytes self.old → IsFaultOf base (bytes ++ piece.now) f) }
    {
        if self.is_long(piece) {
            return Err(LogFault::LongLine(self.next_line()));
        }
        let end = whole_lines(piece);
        if end == 0 {
            return self.keep(piece);
        }
        match self.add_whole(alloc, plan, &piece[0..end]) {
            Ok(None) => self.keep(&piece[end..piece.len()]),
            Ok(Some(told)) => Ok(Some(told)),
            Err(fault) => Err(fault),
        }
    }

    /// What the rows show where no more come and no half line is left. With `whole` no row is missing.
    fn end(&mut self, alloc: Global, plan: &Plan, whole: bool) -> Final
        requires none { length self.old.rest.items ≡ 0 }
        requires stands { (base : PlanParts) × (until : Option TheTag) × (bytes : List ℕ) × IsLog base plan.now until bytes self.old }
        ensures { (base : PlanParts) (until : Option TheTag) (bytes : List ℕ) → IsLog base plan.now until bytes self.old → self.old.is_begun ≡ true → IsFinal base until whole bytes result }
    {
        match self.follower.finish(alloc, plan, whole) {
            Ok(ending) => Final::AtEnd(ending),
            Err(left) => Final::Soon(Told::Odd(left.reach, left.line)),
        }
    }

    /// The same where a half line may be left. Nobody knows what it would have said.
    fn end_cut(&mut self, alloc: Global, plan: &Plan) -> Final
        requires { (base : PlanParts) × (until : Option TheTag) × (bytes : List ℕ) × IsLog base plan.now until bytes self.old }
        ensures { (base : PlanParts) (until : Option TheTag) (whole : Bool) (bytes : List ℕ) → IsLog base plan.now until bytes self.old → self.old.is_begun ≡ true → IsFinal base until whole bytes result }
    {
        let reach = self.follower.reach(plan);
        match self.follower.finish(alloc, plan, false) {
            Ok(Ending::Unbroken(reach)) => Final::AtEnd(Ending::Unbroken(reach)),
            // A breach that only the end makes sure isn't told: the half line may
            // be the row that is missing.
            Ok(_) => Final::AtEnd(Ending::Unbroken(reach)),
            Err(left) => Final::Soon(Told::Odd(left.reach, left.line)),
        }
    }

    /// The same, whether a half line is left or not.
    fn end_here(&mut self, alloc: Global, plan: &Plan, whole: bool) -> Final
        requires begun { self.old.is_begun ≡ true }
        requires stands { (base : PlanParts) × (until : Option TheTag) × (bytes : List ℕ) × IsLog base plan.now until bytes self.old }
        ensures { (base : PlanParts) (until : Option TheTag) (bytes : List ℕ) → IsLog base plan.now until bytes self.old → IsFinal base until whole bytes result }
    {
        if self.rest.is_empty() {
            self.end(alloc, plan, whole)
        } else {
            self.end_cut(alloc, plan)
        }
    }

    /// The runs that have no end so far.
    fn still_open(&self, alloc: Global, plan: &Plan) -> Result<Vec<StillOpen>, NoMemory>
        requires begun { self.now.is_begun ≡ true }
        requires stands { (base : PlanParts) × (until : Option TheTag) × (bytes : List ℕ) × IsLog base plan.now until bytes self.now }
        ensures { (base : PlanParts) (until : Option TheTag) (bytes : List ℕ) → IsLog base plan.now until bytes self.now → IfOk result (λ runs. AreOpenIn base bytes runs.items) }
    {
        self.follower.open_runs(alloc, plan)
    }

    /// What the table shows where no more comes and its lines are whole, but for a last one that says nothing.
    fn told_at_end(&mut self, alloc: Global, plan: &Plan, whole: bool) -> Result<Ended, LogFault>
        requires { (base : PlanParts) × (until : Option TheTag) × (bytes : List ℕ) × IsLog base plan.now until bytes self.old }
        ensures ended { IfOk result (λ e. (base : PlanParts) (until : Option TheTag) (bytes : List ℕ) → IsLog base plan.now until bytes self.old → IsFinal base until whole bytes e.told) }
        ensures still_open { IfOk result (λ e. (base : PlanParts) (until : Option TheTag) (bytes : List ℕ) → IsLog base plan.now until bytes self.old → IfOk e.still_open (λ runs. AreOpenIn base bytes runs.items)) }
        ensures fault { IfErr result (λ f. (f ≡ LogFault.NoHeader) × (self.old.is_begun ≡ false)) }
    {
        if !self.is_begun {
            return Err(LogFault::NoHeader);
        }
        let still_open = self.still_open(alloc, plan);
        let told = self.end_here(alloc, plan, whole);
        Ok(Ended { told, still_open })
    }

    /// What the table shows where no more comes. A last line without its end counts only if nothing can
    /// be missing of it. With `whole` no row is missing, if the last line counts.
    pub fn finish(&mut self, alloc: Global, plan: &mut Plan, whole: bool) -> Result<Ended, LogFault>
        requires { (base : PlanParts) × (until : Option TheTag) × (bytes : List ℕ) × IsLog base plan.old until bytes self.old }
        ensures program { plan.new.program ≡ plan.old.program }
        ensures ended { IfOk result (λ e. (base : PlanParts) (until : Option TheTag) (bytes : List ℕ) → IsLog base plan.old until bytes self.old → IsEnded base until whole bytes e.told) }
        ensures still_open { IfOk result (λ e. (base : PlanParts) (until : Option TheTag) (bytes : List ℕ) → IsLog base plan.old until bytes self.old → TellsOpen base bytes e.told e.still_open) }
        ensures fault { IfErr result (λ f. (base : PlanParts) (until : Option TheTag) (bytes : List ℕ) → IsLog base plan.old until bytes self.old → IsFaultAtEnd base bytes f) }
    {
        if !is_whole(self.rest.as_slice()) {
            return self.told_at_end(alloc, plan, whole);
        }
        match self.add_whole(alloc, plan, b"\n") {
            Ok(None) => self.told_at_end(alloc, plan, whole),
            Ok(Some(told)) => Ok(Ended::soon(alloc, told)),
            Err(fault) => Err(fault),
        }
    }
}
