//! The pass over the rows for the rules 1 to 5.

ghost use Rattle.std.specs.Prelude.{◌≡◌, ℕ, List, ◌+◌, ◌<◌, ◌≤◌, length, Some, IsTrue, ◌↔◌, IfOk, OnOk, slice_get};
ghost use Rattle.lft_tag.specs.{declared.Tag.Tag as TheTag, Tags.UpTo};
ghost use Rattle.lft_ir.specs.{declared.steps.row.Row.Row as TheRow, Steps.Fits.RowsFit};
ghost use Rattle.lft_model.specs.{Plans.PlanParts, Breaches.IsOutOfOrder};
ghost use Rattle.lft_rows.specs.inner.{Effects.AreEffects, Firsts.FirstRow, Marks.IsLaid, Places.last_of};
ghost use Rattle.lft_rows.specs.inner.Passes.{IsLatest, LastStart, Holds, HasOpen, IsKnown, FirstUnended, KeepsEarly, EarlyRule, IsEarly, IsPass, HasPassed, HasGoneOn};

use crate::declared::is_undeclared;
use crate::effects::Effects;
use crate::marks::Marks;
use crate::open::{LastStarts, OpenRuns};
use lft_ir::Program;
use lft_ir::steps::{Row, Step, is_end, is_start, row_at};
use lft_model::{Breach, Plan};
use lft_tag::{NoMemory, Tag};
use std::alloc::Global;

/// What a pass over the rows keeps.
#[derive(Drop)]
struct Known {
    last: Tag,
    starts: LastStarts,
    runs: OpenRuns,
    marks: Marks,
}

/// Where a pass ended, and why: the rule that the row at the place breaks, if any.
#[derive(Clone, Copy)]
struct Early {
    place: usize,
    rule: Option<u8>,
}

/// What passes over the rows of a program go by. Whoever makes it looks at the whole program, so it is
/// kept for many of them.
#[derive(Drop)]
pub struct Pass {
    effects: Effects,
    known: Known,
}

/// Whether the open run of the row's worker is of the row's tag and reaction.
fn has_open(rows: &[Row], row: Row, runs: &OpenRuns) -> bool
    requires { (p i : ℕ) × Holds rows.now p i runs.now }
    ensures { IsTrue result ↔ HasOpen rows.now runs.now row }
{
    match runs.of(row.worker) {
        Some(start) => {
            let first = row_at(rows, start);
            first.tag.is_same(row.tag) && first.reaction == row.reaction
        }
        None => false,
    }
}

/// Takes a run from the open ones where the row at the place ends it.
fn close(rows: &[Row], place: usize, runs: &mut OpenRuns)
    requires place { place < length rows.now }
    requires held { (p : ℕ) × (p ≤ place) × Holds rows.now p place runs.old }
    ensures { (p : ℕ) → p ≤ place → Holds rows.now p place runs.old → Holds rows.now p (place + 1) runs.new }
{
    let row = row_at(rows, place);
    // An end of another run ends nothing. Behind the first wrong row such rows may stand.
    if is_end(&row.step) && has_open(rows, row, runs) {
        runs.end(row.worker);
    }
}

/// Takes the runs from the open ones that a row from the place on ends.
fn close_rest(rows: &[Row], from: usize, runs: &mut OpenRuns)
    requires from { from ≤ length rows.now }
    requires held { Holds rows.now from from runs.old }
    ensures { Holds rows.now from (length rows.now) runs.new }
{
    for place in from..rows.len() {
        close(rows, place, runs);
    }
}

/// Whether the row starts a run that was started before or whose worker has an open one, or stands
/// outside the open run of its worker, tag and reaction.
fn is_out_of_order(rows: &[Row], place: usize, row: Row, known: &Known) -> bool
    requires latest { IsLatest rows.now place known.now.last }
    requires started { (r : ℕ) → LastStart rows.now place r (last_of known.now.starts r) }
    requires held { Holds rows.now place place known.now.runs }
    requires in_time { UpTo known.now.last row.tag }
    ensures { IsTrue result ↔ IsOutOfOrder rows.now place row row.step }
{
    if is_start(&row.step) {
        if known.runs.of(row.worker).is_some() {
            return true;
        }
        match known.starts.of(row.reaction) {
            Some(tag) => tag.is_same(row.tag),
            None => false,
        }
    } else {
        !has_open(rows, row, &known.runs)
    }
}

/// The first place before the end whose row starts a run that is still open.
fn least_open(rows: &[Row], end: usize, runs: &OpenRuns) -> Option<usize>
    requires end { end ≤ length rows.now }
    requires held { Holds rows.now end (length rows.now) runs.now }
    ensures { FirstUnended rows.now end result }
{
    // Mostly no run is open, and there are far fewer workers than rows.
    if runs.are_none() {
        return None;
    }
    for place in 0..end {
        let row = row_at(rows, place);
        if is_start(&row.step) && runs.of(row.worker) == Some(place) {
            return Some(place);
        }
    }
    None
}

/// The same, of the runs that are open behind all rows.
fn open_before(rows: &[Row], end: usize, runs: &OpenRuns) -> Option<usize>
    requires end { end ≤ length rows.now }
    requires held { Holds rows.now (length rows.now) (length rows.now) runs.now }
    ensures { FirstUnended rows.now end result }
{
    for place in 0..end {
        let row = row_at(rows, place);
        if is_start(&row.step) && runs.of(row.worker) == Some(place) {
            return Some(place);
        }
    }
    None
}

impl Known {
    /// What is known before the first row.
    fn new(alloc: Global, program: &Program) -> Result<Known, NoMemory>
        ensures { IfOk result (λ known. (t : List TheRow) → IsKnown program.now t 0 known) }
    {
        let marks = Marks::new(alloc, program)?;
        let starts = LastStarts::new(alloc, program.reactions())?;
        let runs = OpenRuns::new(alloc)?;
        Ok(Known {
            last: Tag { time: 0, micro: 0 },
            starts,
            runs,
            marks,
        })
    }

    /// Nothing is known of any row, once more.
    fn clear(&mut self, alloc: Global, program: &Program) -> Result<(), NoMemory>
        requires { IsLaid program.now self.old.marks }
        ensures { OnOk result ((t : List TheRow) → IsKnown program.now t 0 self.new) }
    {
        self.last = Tag { time: 0, micro: 0 };
        self.starts = LastStarts::new(alloc, program.reactions())?;
        self.runs = OpenRuns::new(alloc)?;
        self.marks.clear();
        Ok(())
    }

    /// The least of the rules 1 to 4 that the row at the place breaks.
    fn rule(
        &self,
        plan: &Plan,
        effects: &Effects,
        stop: Tag,
        rows: &[Row],
        place: usize,
    ) -> Option<u8>
        requires effects { AreEffects plan.now.program effects.now }
        requires known { IsKnown plan.now.program rows.now place self.now }
        requires fit { RowsFit plan.now.program rows.now }
        requires place { place < length rows.now }
        requires kept { KeepsEarly stop plan.now rows.now place }
        ensures { (row : _) → slice_get rows.now place ≡ Some row → EarlyRule stop plan.now rows.now place row result }
    {
        let row = row_at(rows, place);
        // In the order of numbers: the least is told, and the third question takes it that no tag has fallen.
        if row.tag.is_before(self.last) {
            Some(1)
        } else if stop.is_before(row.tag) {
            Some(2)
        } else if is_out_of_order(rows, place, row, self) {
            Some(3)
        } else if is_undeclared(plan.program(), rows, place, row, &self.marks, effects) {
            Some(4)
        } else {
            None
        }
    }

    /// Goes on past the row at the place, which breaks none of the rules 1 to 4.
    fn add(&mut self, program: &Program, rows: &[Row], place: usize) -> Result<(), NoMemory>
        requires known { IsKnown program.now rows.now place self.old }
        requires fit { RowsFit program.now rows.now }
        requires place { place < length rows.now }
        requires kept { (stop : TheTag) × (plan : PlanParts) × KeepsEarly stop plan rows.now (place + 1) }
        ensures { OnOk result (IsKnown program.now rows.now (place + 1) self.new) }
    {
        let row = row_at(rows, place);
        match row.step {
            Step::Start => {
                self.runs.begin(row.worker, place)?;
                self.starts.begin(row.reaction, row.tag);
            }
            Step::Read(_, _) => self.marks.pass(program, rows, place),
            // The row breaks no rule, so the open run of its worker is its own.
            Step::End => self.runs.end(row.worker),
            Step::Write(_, _) => {}
            Step::Schedule(_, _, _) => {}
            Step::Stop => {}
        }
        self.last = row.tag;
        Ok(())
    }
}

/// Goes over the rows up to the first that breaks one of the rules 1 to 4.
fn early_rows(
    known: &mut Known,
    effects: &Effects,
    plan: &Plan,
    stop: Tag,
    rows: &[Row],
) -> Result<Early, NoMemory>
    requires fit { RowsFit plan.now.program rows.now }
    requires effects { AreEffects plan.now.program effects.now }
    requires known { IsKnown plan.now.program rows.now 0 known.old }
    ensures early { IfOk result (IsEarly stop plan.now rows.now known.new.runs) }
    ensures laid { OnOk result (IsLaid plan.now.program known.new.marks) }
{
    let program = plan.program();
    for place in 0..rows.len() {
        if let Some(rule) = known.rule(plan, effects, stop, rows, place) {
            return Ok(Early {
                place,
                rule: Some(rule),
            });
        }
        known.add(program, rows, place)?;
    }
    Ok(Early {
        place: rows.len(),
        rule: None,
    })
}

impl Pass {
    /// Before the first pass.
    pub fn new(alloc: Global, program: &Program) -> Result<Pass, NoMemory>
        ensures { IfOk result (IsPass program.now) }
    {
        let effects = Effects::new(alloc, program)?;
        let known = Known::new(alloc, program)?;
        Ok(Pass { effects, known })
    }

    /// The first row that breaks one of the rules 1 to 5, and the least of these that it breaks, where
    /// the stop tag is this one: for a whole trace its own stop, for some rows of it that of the whole.
    pub fn first_breach(
        &mut self,
        alloc: Global,
        plan: &Plan,
        stop: Tag,
        rows: &[Row],
    ) -> Result<Option<Breach>, NoMemory>
        requires fit { RowsFit plan.now.program rows.now }
        requires pass { IsPass plan.now.program self.old }
        ensures first { IfOk result (FirstRow stop plan.now rows.now) }
        ensures pass { OnOk result (IsPass plan.now.program self.new) }
    {
        self.known.clear(alloc, plan.program())?;
        let early = early_rows(&mut self.known, &self.effects, plan, stop, rows)?;
        // The pass has stopped at a wrong row, and a run that is open there may end behind it.
        close_rest(rows, early.place, &mut self.known.runs);
        match least_open(rows, early.place, &self.known.runs) {
            // It starts before the row at which the pass stopped. So of the two rows this one is the lesser.
            Some(start) => Ok(Some(breach(rows, start, 5))),
            None => match early.rule {
                Some(rule) => Ok(Some(breach(rows, early.place, rule))),
                None => Ok(None),
            },
        }
    }

    /// Before the first of some rows.
    pub fn begin(&mut self, alloc: Global, plan: &Plan) -> Result<(), NoMemory>
        requires { IsPass plan.now.program self.old }
        ensures { OnOk result ((stop : TheTag) (t : List TheRow) → HasPassed stop plan.now t 0 self.new) }
    {
        self.known.clear(alloc, plan.program())?;
        Ok(())
    }

    /// Goes on over the rows from the place on, up to the first that breaks one of the rules 1 to 4:
    /// its place, and the least of these that it breaks.
    pub fn go_on(
        &mut self,
        plan: &Plan,
        stop: Tag,
        rows: &[Row],
        from: usize,
    ) -> Result<Option<(usize, u8)>, NoMemory>
        requires fit { RowsFit plan.now.program rows.now }
        requires from { from ≤ length rows.now }
        requires passed { HasPassed stop plan.now rows.now from self.old }
        ensures { IfOk result (HasGoneOn stop plan.now rows.now self.new) }
    {
        let program = plan.program();
        for place in from..rows.len() {
            if let Some(rule) = self.known.rule(plan, &self.effects, stop, rows, place) {
                return Ok(Some((place, rule)));
            }
            self.known.add(program, rows, place)?;
        }
        Ok(None)
    }

    /// The place of the first row before the end that starts a run without an end row. All rows were
    /// gone over.
    pub fn first_open(&self, rows: &[Row], end: usize) -> Option<usize>
        requires end { end ≤ length rows.now }
        requires passed { (stop : TheTag) × (plan : PlanParts) × HasPassed stop plan rows.now (length rows.now) self.now }
        ensures { FirstUnended rows.now end result }
    {
        open_before(rows, end, &self.known.runs)
    }
}

/// What a pass answers that is made for these rows alone.
pub fn first_breach(
    alloc: Global,
    plan: &Plan,
    stop: Tag,
    rows: &[Row],
) -> Result<Option<Breach>, NoMemory>
    requires fit { RowsFit plan.now.program rows.now }
    ensures { IfOk result (FirstRow stop plan.now rows.now) }
{
    Pass::new(alloc, plan.program())?.first_breach(alloc, plan, stop, rows)
}

/// The breach of the rule by the row at the place.
fn breach(rows: &[Row], place: usize, rule: u8) -> Breach
    requires place { place < length rows.now }
    requires few { length rows.now ≤ 4000000 }
    ensures rule { result.rule ≡ rule }
    ensures row { result.row ≡ place + 2 }
    ensures tag { (row : _) → slice_get rows.now place ≡ Some row → result.tag ≡ row.tag }
    ensures reaction { (row : _) → slice_get rows.now place ≡ Some row → result.reaction ≡ Some row.reaction }
{
    let row = row_at(rows, place);
    Breach {
        rule,
        tag: row.tag,
        reaction: Some(row.reaction),
        row: place as u32 + 2,
    }
}
