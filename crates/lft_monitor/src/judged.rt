//! Rows whose tags are finished, and how far they are judged.

ghost use Rattle.std.specs.Prelude.{◌≡◌, ◌+◌, ◌<◌, ◌≤◌, ◌^◌, List, [], ◌++◌, length, false, IfErr, IfOk, IfSome, IsTrue};
ghost use Rattle.lft_ir.specs.{declared.steps.row.Row.Row as TheRow, Steps.Fits.RowsFit};
ghost use Rattle.lft_model.specs.Breaches.{First};
ghost use Rattle.lft_rows.specs.inner.Parts.{AreEarlier};
ghost use Rattle.lft_stream.specs.inner.Kept.{KeepRules};
ghost use Rattle.lft_monitor.specs.inner.Follows.{AreJudged, IsClosing, IsEnding, IsJudgedOf, IsReached, IsUnjudged, stopped_judged};
ghost use Rattle.lft_monitor.specs.Follows.{IsFirstUpToLast, IsJudged, breach_of};

use crate::found::{BrokenRule, found_behind};
use crate::gone::stop_over;
use crate::monitor::add_tags;
use crate::past::Past;
use crate::reach::{Reach, reach_behind};
use lft_ir::steps::{Row, row_at};
use lft_model::Plan;
use lft_rows::first_breach;
use lft_stream::{Acceptor, RunCounts, earlier_of};
use lft_tag::{NoMemory, Tag};
use std::alloc::Global;

/// What rows show that are all.
#[derive(Clone, Copy, PartialEq, Eq, Debug, Drop)]
pub enum Ending {
    /// Nothing is due up to the stop.
    Accepted(RunCounts),
    /// No rule is broken up to the tag, and more rows are needed.
    Unbroken(Reach),
    /// The first rule that is broken, where no row is missing.
    Broken(BrokenRule),
}

/// What rows show that are all up to their last tag.
#[derive(Clone, Copy, PartialEq, Eq, Debug, Drop)]
pub enum Closing {
    /// No rule is broken in them.
    Unbroken(Reach),
    /// The first rule that they break.
    Broken(BrokenRule),
}

/// Rows that can't be judged up to their last line: too much is kept, or memory is refused. No rule is
/// broken up to the tag.
#[derive(Clone, Copy, PartialEq, Eq, Debug, Drop)]
pub struct Unjudged {
    pub reach: Reach,
    pub line: u64,
}

/// What is kept of rows that are judged.
#[derive(Drop)]
pub(crate) struct Judged {
    acceptor: Acceptor,
    pub past: Past,
    /// How many they are.
    pub count: u64,
    pub reach: Reach,
}

impl Judged {
    /// Before the first row.
    pub(crate) fn new(alloc: Global, plan: &Plan) -> Result<Judged, NoMemory>
        ensures { IfOk result (IsJudgedOf plan.now []) }
    {
        Ok(Judged {
            acceptor: Acceptor::alone(alloc, plan)?,
            past: Past::new(alloc, plan)?,
            count: 0,
            reach: Reach {
                runs: 0,
                tags: 0,
                tag: None,
            },
        })
    }

    /// Judges more rows, of whole tags. It is false where they may break a rule, or too much is to be
    /// looked at, or memory is refused. With `is_kept` they are known to break none of the rules 1 to 5.
    pub(crate) fn judge(
        &mut self,
        alloc: Global,
        plan: &Plan,
        rows: &[Row],
        is_kept: bool,
    ) -> Result<bool, NoMemory>
        requires fit { RowsFit plan.now.program rows.now }
        requires kept { IsTrue is_kept → KeepRules plan.now rows.now }
        requires few { self.old.count + length rows.now ≤ 2 ^ 62 + 4000000 }
        requires stands { (done : List TheRow) × IsJudgedOf plan.now done self.old }
        ensures stands { IfOk result (λ yes. IsTrue yes → (done : List TheRow) → IsJudgedOf plan.now done self.old → IsJudgedOf plan.now (done ++ rows.now) self.new) }
        ensures some { IfOk result (λ yes. yes ≡ false → 0 < length rows.now) }
        ensures past { IfOk result (λ yes. yes ≡ false → self.new.past ≡ self.old.past) }
        ensures reach { IfOk result (λ yes. yes ≡ false → self.new.reach ≡ self.old.reach) }
        ensures count { IfOk result (λ yes. yes ≡ false → self.new.count ≡ self.old.count) }
    {
        if rows.is_empty() {
            return Ok(true);
        }
        if !add_tags(&mut self.acceptor, alloc, plan, rows, is_kept) {
            return Ok(false);
        }
        let Some(reach) = reach_behind(self.reach, rows) else {
            return Ok(false);
        };
        self.past.add(alloc, plan, rows, self.acceptor.is_apart())?;
        self.reach = reach;
        self.count += rows.len() as u64;
        Ok(true)
    }

    /// Makes the tag the stop, where it is earlier.
    pub(crate) fn stop_at(&mut self, stop: Tag)
        ensures { self.new ≡ stopped_judged self.old stop }
    {
        self.acceptor.stop_at(stop);
        self.past.stop = earlier_of(stop, self.past.stop);
    }

    /// The first breach of all rows, where these come behind those that are judged and no more come. None
    /// where none is found: there is none, or there are too many rows, or memory is refused.
    fn first_of(&self, alloc: Global, plan: &Plan, rows: &[Row]) -> Option<BrokenRule>
        requires fit { RowsFit plan.now.program rows.now }
        requires stands { (t : List TheRow) × AreJudged plan.now t self.now }
        ensures { IfSome result (λ found. (t : List TheRow) → AreJudged plan.now t self.now → AreEarlier t rows.now → First plan.now (t ++ rows.now) (breach_of found)) }
    {
        let stop = stop_over(self.past.stop, rows);
        match first_breach(alloc, plan, stop, rows) {
            Ok(Some(breach)) => Some(found_behind(breach, self.count)),
            Ok(None) => self.past.first_of_all(alloc, plan, rows),
            Err(_) => None,
        }
    }

    /// The same where that breach is at a tag up to the last of these rows. It may be at a later one, where a
    /// run is missing.
    fn first_up_to_last(&self, alloc: Global, plan: &Plan, rows: &[Row]) -> Option<BrokenRule>
        requires some { 0 < length rows.now }
        requires fit { RowsFit plan.now.program rows.now }
        requires stands { (t : List TheRow) × AreJudged plan.now t self.now }
        ensures { IfSome result (λ found. (t : List TheRow) → AreJudged plan.now t self.now → AreEarlier t rows.now → IsFirstUpToLast plan.now (t ++ rows.now) (breach_of found)) }
    {
        let found = self.first_of(alloc, plan, rows)?;
        if row_at(rows, rows.len() - 1).tag.is_before(found.tag) {
            return None;
        }
        Some(found)
    }

    /// What the rows show, where these come behind those that are judged, and all at their last tag are there.
    pub(crate) fn close(
        &mut self,
        alloc: Global,
        plan: &Plan,
        rows: &[Row],
    ) -> Result<Closing, Unjudged>
        requires fit { RowsFit plan.now.program rows.now }
        requires few { self.old.count ≤ 2 ^ 62 }
        requires stands { (t : List TheRow) × IsJudgedOf plan.now t self.old }
        ensures closed { IfOk result (λ closing. (t : List TheRow) → IsJudgedOf plan.now t self.old → AreEarlier t rows.now → IsClosing plan.now (t ++ rows.now) closing) }
        ensures unjudged { IfErr result (λ left. (t : List TheRow) → IsJudgedOf plan.now t self.old → IsJudged plan.now (t ++ rows.now) self.old.reach → IsUnjudged plan.now (t ++ rows.now) left) }
    {
        let left = Unjudged {
            reach: self.reach,
            line: self.count + rows.len() as u64 + 1,
        };
        match self.judge(alloc, plan, rows, false) {
            Ok(true) => Ok(Closing::Unbroken(self.reach)),
            Ok(false) => match self.first_up_to_last(alloc, plan, rows) {
                Some(found) => Ok(Closing::Broken(found)),
                None => Err(left),
            },
            Err(_) => Err(left),
        }
    }

    /// What rows show that aren't accepted, where these come behind those that are judged. The line is that
    /// of the last row.
    fn end(
        &self,
        alloc: Global,
        plan: &Plan,
        rows: &[Row],
        whole: bool,
        line: u64,
    ) -> Result<Ending, Unjudged>
        requires fit { RowsFit plan.now.program rows.now }
        requires stands { (t : List TheRow) × AreJudged plan.now t self.now }
        ensures ended { IfOk result (λ ending. (t : List TheRow) → AreJudged plan.now t self.now → AreEarlier t rows.now → IsReached plan.now (t ++ rows.now) self.now.reach → IsEnding plan.now whole (t ++ rows.now) ending) }
        ensures unjudged { IfErr result (λ left. left ≡ record { reach = self.now.reach; line = line }) }
    {
        let Some(found) = self.first_of(alloc, plan, rows) else {
            return Err(Unjudged {
                reach: self.reach,
                line,
            });
        };
        if whole {
            Ok(Ending::Broken(found))
        } else {
            Ok(Ending::Unbroken(self.reach))
        }
    }

    /// What the rows show, where these come behind those that are judged, and no more come. With `whole`
    /// none is missing.
    pub(crate) fn finish(
        &mut self,
        alloc: Global,
        plan: &Plan,
        rows: &[Row],
        whole: bool,
    ) -> Result<Ending, Unjudged>
        requires fit { RowsFit plan.now.program rows.now }
        requires few { self.old.count ≤ 2 ^ 62 }
        requires stands { (t : List TheRow) × IsJudgedOf plan.now t self.old }
        ensures ended { IfOk result (λ ending. (t : List TheRow) → IsJudgedOf plan.now t self.old → AreEarlier t rows.now → IsJudged plan.now (t ++ rows.now) self.old.reach → IsEnding plan.now whole (t ++ rows.now) ending) }
        ensures unjudged { IfErr result (λ left. (t : List TheRow) → IsJudgedOf plan.now t self.old → IsJudged plan.now (t ++ rows.now) self.old.reach → IsUnjudged plan.now (t ++ rows.now) left) }
    {
        let reach = self.reach;
        let line = self.count + rows.len() as u64 + 1;
        match self.judge(alloc, plan, rows, false) {
            Ok(true) => match self.acceptor.finish(plan) {
                Some(counts) => Ok(Ending::Accepted(counts)),
                None => {
                    if whole {
                        self.end(alloc, plan, &rows[0..0], whole, line)
                    } else {
                        Ok(Ending::Unbroken(self.reach))
                    }
                }
            },
            Ok(false) => self.end(alloc, plan, rows, whole, line),
            Err(_) => Err(Unjudged { reach, line }),
        }
    }
}
