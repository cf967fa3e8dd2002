//! Rows that are kept once their tags are finished: those of runs that cause something later.

ghost use Rattle.std.specs.Prelude.{◌≡◌, ◌<◌, ◌⊎◌, ℕ, List, length, Some, cond, slice_get, IfOk, IsTrue, true, false};
ghost use Rattle.lft_tag.specs.{declared.{Tag.Tag as TheTag, Shift.Shift as TheShift}, Shifts.shifted, Tags.{IsRecorded, Before, after_all}};
ghost use Rattle.lft_ir.specs.{Origins.Origin, declared.steps.row.Row.Row as TheRow, Steps.Fits.RowFits};
ghost use Rattle.lft_model.specs.Fitting.{EachFits};
ghost use Rattle.lft_queue.specs.inner.{Coming.Unread.GoesAsFar, Reading.is_read};
ghost use Rattle.lft_stream.specs.inner.Owed.{MeetNowhere};
ghost use Rattle.lft_monitor.specs.inner.Kept.{AreFurthest, AreWaysOfWrites, IsIdle, AreMarkedRows, IsKept};

use lft_ir::steps::{Row, Step, is_end, is_start, row_at};
use lft_ir::{Name, Program};
use lft_lists::item_at;
use lft_model::Plan;
use lft_queue::read_ports;
use lft_tag::{NoMemory, Shift, Tag};
use std::alloc::Global;

/// The further of two ways.
fn further(one: Shift, other: Shift) -> Shift
    ensures one { GoesAsFar one result }
    ensures other { GoesAsFar other result }
{
    if one.time < other.time || (one.time == other.time && one.steps < other.steps) {
        other
    } else {
        one
    }
}

/// For each port the furthest that its writes are carried, of the marked ports.
fn furthest_of(alloc: Global, program: &Program, marked: &[bool]) -> Result<Vec<Shift>, NoMemory>
    requires { length marked.now ≡ length program.now.ports }
    ensures { IfOk result (λ furthest. AreFurthest program.now (λ p. slice_get marked.now p ≡ Some true) furthest.items) }
{
    let mut furthest = vec![in alloc; Shift::none(); program.ports()]?;
    for number in 0..program.ports() {
        let port = program.port(number as u32);
        let origin = port.origin as usize;
        let way = further(furthest[origin], port.shift);
        if item_at(marked, number) {
            furthest[origin] = way;
        }
    }
    Ok(furthest)
}

/// How far writes are carried.
#[derive(Drop)]
pub(crate) struct CarriedWrites {
    /// For each port the furthest, to any port.
    furthest: Vec<Shift>,
    /// For each port the furthest, to ports that some reaction reads.
    heard: Vec<Shift>,
}

/// Whether the furthest way of the port leads from the tag to the low tag or behind it.
fn leads_on(furthest: &[Shift], origin: u32, tag: Tag, low: Tag) -> bool
    requires recorded { IsRecorded tag }
    requires port { origin < length furthest.now }
    ensures { result ≡ false → (f : TheShift) × (slice_get furthest.now origin ≡ Some f) × Before (shifted tag (f.time, f.steps)) low }
{
    let furthest = item_at(furthest, origin as usize);
    !tag.plus(furthest).is_before(low)
}

/// Whether no more rows come at the tag's time, and no two writes meet.
fn is_over(tag: Tag, low: Tag, is_apart: bool) -> bool
    ensures { IsTrue result → IsTrue is_apart × (tag.time < low.time) }
{
    is_apart && tag.time < low.time
}

impl CarriedWrites {
    /// The ways of a program.
    pub(crate) fn new(alloc: Global, program: &Program) -> Result<CarriedWrites, NoMemory>
        ensures { IfOk result (AreWaysOfWrites program.now) }
    {
        let all = vec![in alloc; true; program.ports()]?;
        let read = read_ports(alloc, program)?;
        let furthest = furthest_of(alloc, program, all.as_slice())?;
        let heard = furthest_of(alloc, program, read.as_slice())?;
        Ok(CarriedWrites { furthest, heard })
    }

    /// For each port the furthest way that matters, where its time is over or not.
    fn of(&self, is_over: bool) -> &[Shift]
        ensures { result.now ≡ cond is_over self.now.heard.items self.now.furthest.items }
    {
        if is_over {
            self.heard.as_slice()
        } else {
            self.furthest.as_slice()
        }
    }

    /// Whether a write of the port at the tag is heard of at the low tag or behind it. Where no reaction reads
    /// what it is carried to, it is only if it meets another write. It meets none where that is known and no more
    /// rows come at its time.
    fn lead_on(&self, program: &Program, origin: u32, tag: Tag, low: Tag, is_apart: bool) -> bool
        requires recorded { IsRecorded tag }
        requires port { origin < length program.now.ports }
        requires ways { AreWaysOfWrites program.now self.now }
        ensures { result ≡ false → (p : ℕ) (delays : List ℕ) → Origin program.now p origin delays → Before (after_all tag delays) low ⊎ (is_read program.now p ≡ false) × IsTrue is_apart × (tag.time < low.time) }
    {
        // Asked for what a program keeps: its ports have their origins and their ways.
        let _ = program.ports();
        leads_on(self.of(is_over(tag, low, is_apart)), origin, tag, low)
    }
}

/// Whether the row causes something from the low tag on, or asks for the stop. With `is_apart` no two writes of
/// all rows meet from there on where no reaction reads.
fn causes_from(plan: &Plan, ways: &CarriedWrites, row: Row, low: Tag, is_apart: bool) -> bool
    requires fit { RowFits plan.now.program row }
    requires ways { AreWaysOfWrites plan.now.program ways.now }
    ensures { result ≡ false → (last : TheTag) (t : List TheRow) → (IsTrue is_apart → MeetNowhere last plan.now t low) → IsIdle last plan.now t low row }
{
    match row.step {
        Step::Schedule(Name::Action(number), _, delay) => {
            let min_delay = plan.program().action(number).min_delay;
            !row.tag.after(min_delay, delay).is_before(low)
        }
        Step::Write(Name::Port(number), _) => {
            ways.lead_on(plan.program(), number, row.tag, low, is_apart)
        }
        Step::Schedule(Name::Port(_), _, _) => false,
        Step::Write(Name::Action(_), _) => false,
        Step::Start => false,
        Step::Read(_, _) => false,
        Step::Stop => true,
        Step::End => false,
    }
}

/// Marks the rows that cause something from the low tag on or ask for the stop, and where their runs
/// start and end.
fn marks_of(
    alloc: Global,
    plan: &Plan,
    ways: &CarriedWrites,
    rows: &[Row],
    low: Tag,
    is_apart: bool,
) -> Result<Vec<bool>, NoMemory>
    requires fit { EachFits plan.now.program rows.now }
    requires ways { AreWaysOfWrites plan.now.program ways.now }
    ensures long { IfOk result (λ marks. length marks.items ≡ length rows.now) }
    ensures idle { IfOk result (λ marks. (last : TheTag) (t : List TheRow) → (IsTrue is_apart → MeetNowhere last plan.now t low) → AreMarkedRows last plan.now t rows.now low marks.items) }
{
    let mut marks = vec![in alloc; false; rows.len()]?;
    // Where the last run of each reaction started. A run is over before its reaction has another one.
    let mut starts = vec![in alloc; 0; plan.program().reactions()]?;
    for place in 0..rows.len() {
        let row = row_at(rows, place);
        let reaction = row.reaction as usize;
        if causes_from(plan, ways, row, low, is_apart) {
            marks[place] = true;
            marks[starts[reaction]] = true;
        } else if is_start(&row.step) {
            starts[reaction] = place;
        } else if is_end(&row.step) {
            marks[place] = marks[starts[reaction]];
        }
    }
    Ok(marks)
}

/// The rows that cause something from the low tag on or ask for the stop, and where their runs start and
/// end, in their order.
pub(crate) fn keep_rows(
    alloc: Global,
    plan: &Plan,
    ways: &CarriedWrites,
    rows: &[Row],
    low: Tag,
    is_apart: bool,
) -> Result<Vec<Row>, NoMemory>
    requires fit { EachFits plan.now.program rows.now }
    requires ways { AreWaysOfWrites plan.now.program ways.now }
    ensures { IfOk result (λ kept. (last : TheTag) (t : List TheRow) → (IsTrue is_apart → MeetNowhere last plan.now t low) → IsKept last plan.now t rows.now kept.items low) }
{
    let marks = marks_of(alloc, plan, ways, rows, low, is_apart)?;
    let mut kept = Vec::new(alloc);
    for place in 0..rows.len() {
        if marks[place] {
            kept.push(row_at(rows, place))?;
        }
    }
    Ok(kept)
}
