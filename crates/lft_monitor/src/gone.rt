//! The rows at hand, gone over for the rules 1 to 5 as they come.

ghost use Rattle.std.specs.Prelude.{◌≡◌, ◌+◌, ◌-◌, ◌<◌, ◌≤◌, ◌↔◌, List, ◌++◌, ◌∷◌, [], length, take, IfOk, IsTrue, None, Some, OnOk, MatchOption, slice_get};
ghost use Rattle.lft_tag.specs.Tags.{Before, IsRecorded, earlier};
ghost use Rattle.lft_ir.specs.{Parts.Parts, declared.steps.row.Row.Row as TheRow, Steps.Fits.RowsFit};
ghost use Rattle.lft_model.specs.{Fitting.EachFits, Plans.PlanParts, Presence.stop as stop_of};
ghost use Rattle.lft_rows.specs.inner.Passes.{IsPass};
ghost use Rattle.lft_monitor.specs.inner.Going.{IsGoing, IsFirstBad, IsRunLost, HasEnded, HasGone, opened};

use crate::last::begin_of_last;
use lft_ir::steps::{Row, is_end, is_start, is_stop, row_at};
use lft_model::Plan;
use lft_rows::Pass;
use lft_stream::earlier_of;
use lft_tag::{NoMemory, Tag};
use std::alloc::Global;

/// Where going over rows ended before the last one.
#[derive(Clone, Copy, Drop)]
pub(crate) struct Halt {
    /// The row here breaks the rule, one of 1 to 5.
    pub place: usize,
    /// It is this row, or a run that it starts has no end and this one is at a later tag.
    pub end: usize,
    pub rule: u8,
}

/// How far the rows at hand are gone over.
#[derive(Drop)]
pub(crate) struct Going {
    pass: Pass,
    /// What the rows so far ask for, with those that stand before the rows at hand.
    stop: Tag,
    /// At most so many runs are open, so that a look for one without an end is seldom made.
    runs: usize,
    passed: usize,
}

/// The stop, where a row comes behind others with this stop.
fn stop_behind(last: Tag, row: Row) -> Tag
    requires { IsRecorded row.tag }
    ensures { (plan : PlanParts) (t : List TheRow) → last ≡ stop_of plan t → result ≡ stop_of plan (t ++ row ∷ []) }
{
    if !is_stop(&row.step) {
        return last;
    }
    let asked = row.tag.after(0, 0);
    if asked.is_before(last) { asked } else { last }
}

/// The stop, where rows come behind others with this stop.
pub(crate) fn stop_over(last: Tag, rows: &[Row]) -> Tag
    requires { (program : Parts) × EachFits program rows.now }
    ensures { (plan : PlanParts) (t : List TheRow) → last ≡ stop_of plan t → result ≡ stop_of plan (t ++ rows.now) }
{
    let mut stop = last;
    for place in 0..rows.len() {
        stop = stop_behind(stop, row_at(rows, place));
    }
    stop
}

/// Whether none of the rows from the place on asks for the stop.
fn ask_for_none(rows: &[Row], from: usize) -> bool
    requires { from ≤ length rows.now }
    ensures { IsTrue result → (plan : PlanParts) (t : List TheRow) → stop_of plan (t ++ rows.now) ≡ stop_of plan (t ++ take from rows.now) }
{
    for place in from..rows.len() {
        if is_stop(&row_at(rows, place).step) {
            return false;
        }
    }
    true
}

/// Whether the row at the place is at a later tag than the one before it.
fn rises_at(rows: &[Row], place: usize) -> bool
    requires { (0 < place) × (place < length rows.now) }
    ensures { (x y : TheRow) → slice_get rows.now (place - 1) ≡ Some x → slice_get rows.now place ≡ Some y → IsTrue result ↔ Before x.tag y.tag }
{
    row_at(rows, place - 1)
        .tag
        .is_before(row_at(rows, place).tag)
}

impl Going {
    /// Before the first row.
    pub(crate) fn new(alloc: Global, plan: &Plan) -> Result<Going, NoMemory>
        ensures { IfOk result (λ going. (rows : List TheRow) → IsGoing plan.now [] rows going) }
    {
        let mut pass = Pass::new(alloc, plan.program())?;
        pass.begin(alloc, plan)?;
        Ok(Going {
            pass,
            stop: plan.externals().stop(),
            runs: 0,
            passed: 0,
        })
    }

    /// Makes the tag the stop, where it is earlier.
    pub(crate) fn stop_at(&mut self, stop: Tag)
        ensures { self.new ≡ record self.old { stop = earlier stop self.old.stop } }
    {
        self.stop = earlier_of(stop, self.stop);
    }

    /// Begins anew, before rows that stand behind others with this stop.
    pub(crate) fn begin(&mut self, alloc: Global, plan: &Plan, last: Tag) -> Result<(), NoMemory>
        requires { IsPass plan.now.program self.old.pass }
        ensures { OnOk result ((done rows : List TheRow) → last ≡ stop_of plan.now done → IsGoing plan.now done rows self.new) }
    {
        self.pass.begin(alloc, plan)?;
        self.stop = last;
        self.runs = 0;
        self.passed = 0;
        Ok(())
    }

    /// The first run without an end, where the row at the place is at a later tag than those before it.
    fn lost_before(&self, rows: &[Row], place: usize) -> Option<usize>
        requires place { place < length rows.now }
        requires passed { place ≡ self.now.passed }
        requires stands { (plan : PlanParts) × (done : List TheRow) × IsGoing plan done rows.now self.now }
        ensures { (plan : PlanParts) (done : List TheRow) → IsGoing plan done rows.now self.now → MatchOption result (HasEnded rows.now place) (λ start. IsRunLost plan done rows.now start place) }
    {
        if self.runs == 0 || place == 0 {
            return None;
        }
        // All rows are looked at, so this is asked only where the tag rises.
        if !rises_at(rows, place) {
            return None;
        }
        self.pass.first_open(&rows[0..place], place)
    }

    /// Goes on past the row at the place, which breaks none of the rules 1 to 4.
    fn note(&mut self, row: Row, place: usize)
        requires recorded { IsRecorded row.tag }
        requires place { place < 4000000 }
        requires few { self.old.runs ≤ place }
        ensures pass { self.new.pass ≡ self.old.pass }
        ensures passed { self.new.passed ≡ place + 1 }
        ensures runs { self.new.runs ≡ opened self.old.runs row.step }
        ensures stop { (plan : PlanParts) (t : List TheRow) → self.old.stop ≡ stop_of plan t → self.new.stop ≡ stop_of plan (t ++ row ∷ []) }
    {
        if is_start(&row.step) {
            self.runs += 1;
        } else if is_end(&row.step) {
            self.runs = self.runs.saturating_sub(1);
        }
        self.stop = stop_behind(self.stop, row);
        self.passed = place + 1;
    }

    /// Goes over the row at the place. The rule is the least of 1 to 4 that it breaks.
    fn pass_row(&mut self, plan: &Plan, rows: &[Row], place: usize) -> Result<Option<u8>, NoMemory>
        requires fit { RowsFit plan.now.program rows.now }
        requires place { place < length rows.now }
        requires passed { place ≡ self.old.passed }
        requires ended { HasEnded rows.now place }
        requires stands { (d : List TheRow) × IsGoing plan.now d rows.now self.old }
        ensures { IfOk result (λ o. (done : List TheRow) → IsGoing plan.now done rows.now self.old → MatchOption o (IsGoing plan.now done rows.now self.new × (self.new.passed ≡ place + 1)) (IsFirstBad plan.now done rows.now place)) }
    {
        if let Some(found) = self
            .pass
            .go_on(plan, self.stop, &rows[0..place + 1], place)?
        {
            return Ok(Some(found.1));
        }
        self.note(row_at(rows, place), place);
        Ok(None)
    }

    /// Goes on over the rows at hand one by one, up to the first that breaks one of the rules 1 to 4, or behind
    /// which a run without an end is sure.
    fn go_by_rows(&mut self, plan: &Plan, rows: &[Row]) -> Result<Option<Halt>, NoMemory>
        requires fit { RowsFit plan.now.program rows.now }
        requires stands { (d : List TheRow) × IsGoing plan.now d rows.now self.old }
        ensures { IfOk result (λ halt. (done : List TheRow) → IsGoing plan.now done rows.now self.old → HasGone plan.now done rows.now self.new halt) }
    {
        for place in self.passed..rows.len() {
            if let Some(start) = self.lost_before(rows, place) {
                return Ok(Some(Halt {
                    place: start,
                    end: place,
                    rule: 5,
                }));
            }
            if let Some(rule) = self.pass_row(plan, rows, place)? {
                return Ok(Some(Halt {
                    place,
                    end: place,
                    rule,
                }));
            }
        }
        Ok(None)
    }

    /// Goes on over the rows at hand at once, of which none from there on asks for the stop. It is false where
    /// one of them breaks one of the rules 1 to 5, and how far they are gone over isn't known then.
    fn go_at_once(&mut self, plan: &Plan, rows: &[Row]) -> Result<bool, NoMemory>
        requires fit { RowsFit plan.now.program rows.now }
        requires stands { (d : List TheRow) × IsGoing plan.now d rows.now self.old }
        requires stays { (plan : PlanParts) (t : List TheRow) → stop_of plan (t ++ rows.now) ≡ stop_of plan (t ++ take self.old.passed rows.now) }
        ensures gone { IfOk result (λ yes. IsTrue yes → (done : List TheRow) → IsGoing plan.now done rows.now self.old → HasGone plan.now done rows.now self.new None) }
        ensures pass { IfOk result (λ yes. IsPass plan.now.program self.new.pass) }
    {
        if let Some(_found) = self.pass.go_on(plan, self.stop, rows, self.passed)? {
            return Ok(false);
        }
        // No row behind its tag ends a run, so one that is open still before the last tag was lost.
        if let Some(_start) = self.pass.first_open(rows, begin_of_last(rows)) {
            return Ok(false);
        }
        self.passed = rows.len();
        self.runs = rows.len();
        Ok(true)
    }

    /// Goes on over the rows at hand, which stand behind others with this stop, up to the first that breaks one
    /// of the rules 1 to 4, or behind which a run without an end is sure.
    // Mostly none does, and then they cost less together than one by one.
    pub(crate) fn go_over(
        &mut self,
        alloc: Global,
        plan: &Plan,
        last: Tag,
        rows: &[Row],
    ) -> Result<Option<Halt>, NoMemory>
        requires fit { RowsFit plan.now.program rows.now }
        requires stands { (d : List TheRow) × IsGoing plan.now d rows.now self.old × (last ≡ stop_of plan.now d) }
        ensures { IfOk result (λ halt. (done : List TheRow) → last ≡ stop_of plan.now done → IsGoing plan.now done rows.now self.old → HasGone plan.now done rows.now self.new halt) }
    {
        if !ask_for_none(rows, self.passed) {
            return self.go_by_rows(plan, rows);
        }
        if self.go_at_once(plan, rows)? {
            return Ok(None);
        }
        self.begin(alloc, plan, last)?;
        self.go_by_rows(plan, rows)
    }
}
