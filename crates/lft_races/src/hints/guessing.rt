//! Which hint a breach has.

ghost use Rattle.std.specs.Prelude.{◌≡◌, ◌≢◌, ◌↔◌, ◌+◌, ◌<◌, ℕ, length, IsTrue, IfSome, IfNone, IfOk};
ghost use Rattle.lft_ir.specs.{declared.parts.Trigger.TheVariants.Shutdown, Steps.Fits.RowsFit};
ghost use Rattle.lft_model.specs.{Plans.PlanParts, Presence.{stop, Triggered}};
ghost use Rattle.lft_races.specs.{Races.FirstSoFar, declared.hints.hint.Hint.Hint as TheHint, inner.Hints.Actions.AreActions};
ghost use Rattle.lft_races.specs.Hints.Hints.{HasPort, HasRace, HasTrigger, HasWholeDelay, IsHint, IsLateByRecorder, IsOfOpen, IsOfStart, IsSmallStop, IsThousandfold, IsUntriggeredHint, SchedulesWhole};

use crate::hints::hint::Hint;
use crate::hints::rows::{
    all_before, is_first_of_worker, is_passed, is_second, none_ends, none_reads, none_writes,
};
use crate::{is_open_across, race_before};
use lft_ir::steps::{Row, Rows, Step, is_start, row_at};
use lft_ir::{Name, Trigger};
use lft_lists::item_at;
use lft_model::{Breach, Plan, trace_stop};
use lft_rows::presence::presence_of;
use lft_tag::{MAX_TIME, NoMemory, Tag};
use std::alloc::Global;
use std::collections::BTreeMap;

/// Whether the trigger is among those of the reaction.
fn has_trigger(plan: &Plan, reaction: u32, trigger: Trigger) -> bool
    requires { reaction < length plan.now.program.reactions }
    ensures { IsTrue result ↔ HasTrigger plan.now.program reaction trigger }
{
    let triggers = plan.program().reaction(reaction).triggers.as_slice();
    for place in 0..triggers.len() {
        if item_at(triggers, place) == trigger {
            return true;
        }
    }
    false
}

/// Whether a port is among the triggers of the reaction.
fn has_port(plan: &Plan, reaction: u32) -> bool
    requires { reaction < length plan.now.program.reactions }
    ensures { IsTrue result ↔ HasPort plan.now.program reaction }
{
    let triggers = plan.program().reaction(reaction).triggers.as_slice();
    for place in 0..triggers.len() {
        if let Trigger::On(Name::Port(_)) = item_at(triggers, place) {
            return true;
        }
    }
    false
}

/// Whether the stop is that of the external inputs.
fn is_given_stop(plan: &Plan, rows: &[Row]) -> bool
    requires { RowsFit plan.now.program rows.now }
    ensures { IsTrue result ↔ (stop plan.now rows.now ≡ plan.now.externals.stop) }
{
    trace_stop(plan, rows).is_same(plan.externals().stop())
}

/// Whether the reaction is triggered at the tag. Its triggers are looked up in the causes of events, and
/// the rows are gone through once, not once for each trigger.
fn is_triggered(
    alloc: Global,
    plan: &Plan,
    rows: &[Row],
    tag: Tag,
    reaction: u32,
) -> Result<bool, NoMemory>
    requires fit { RowsFit plan.now.program rows.now }
    requires reaction { reaction < length plan.now.program.reactions }
    ensures { IfOk result (λ is. IsTrue is ↔ Triggered plan.now rows.now tag reaction) }
{
    let presence = presence_of(alloc, plan, rows, trace_stop(plan, rows))?;
    Ok(presence.triggered(tag, reaction))
}

/// Whether the reaction is triggered at a thousand times the time of the tag.
fn is_thousandfold(
    alloc: Global,
    plan: &Plan,
    rows: &[Row],
    tag: Tag,
    reaction: u32,
) -> Result<bool, NoMemory>
    requires fit { RowsFit plan.now.program rows.now }
    requires reaction { reaction < length plan.now.program.reactions }
    ensures { IfOk result (λ is. IsTrue is ↔ IsThousandfold plan.now rows.now tag reaction) }
{
    if tag.time == 0 {
        return Ok(false);
    }
    // A tag may be as late as 10^18, of which a thousand times overflows.
    match tag.time.checked_mul(1000) {
        Some(time) if time <= MAX_TIME => {
            let later = Tag {
                time,
                micro: tag.micro,
            };
            is_triggered(alloc, plan, rows, later, reaction)
        }
        _ => Ok(false),
    }
}

/// The actions among the triggers of the reaction, each with its place there.
fn trigger_actions(
    alloc: Global,
    plan: &Plan,
    reaction: u32,
) -> Result<BTreeMap<u32, usize>, NoMemory>
    requires { reaction < length plan.now.program.reactions }
    ensures { IfOk result (AreActions plan.now.program reaction) }
{
    let triggers = plan.program().reaction(reaction).triggers.as_slice();
    // A map, as each row asks: a search among the triggers would cost rows times triggers.
    let mut actions = BTreeMap::new(alloc);
    for place in 0..triggers.len() {
        if let Trigger::On(Name::Action(action)) = item_at(triggers, place) {
            let _before = actions.insert(action, place)?;
        }
    }
    Ok(actions)
}

/// Whether the row schedules one of the actions, which trigger the reaction, for the tag, if its delay is
/// taken for the whole one.
fn schedules_whole(
    plan: &Plan,
    actions: &BTreeMap<u32, usize>,
    row: Row,
    tag: Tag,
    reaction: u32,
) -> bool
    requires { AreActions plan.now.program reaction actions.now }
    ensures { IsTrue result ↔ SchedulesWhole plan.now.program tag reaction row }
{
    match row.step {
        Step::Schedule(Name::Action(action), _, extra) => {
            // Where an event comes after some time, its microstep is 0.
            extra > 0
                && tag.micro == 0
                && row.tag.time < tag.time
                && tag.time - row.tag.time == extra
                && actions.get(&action).is_some()
        }
        _ => false,
    }
}

/// The place of the first such row.
fn whole_delay(
    alloc: Global,
    plan: &Plan,
    rows: &[Row],
    tag: Tag,
    reaction: u32,
) -> Result<Option<u32>, NoMemory>
    requires few { length rows.now < 4294967296 }
    requires reaction { reaction < length plan.now.program.reactions }
    ensures some { IfOk result (λ found. IfSome found (HasWholeDelay plan.now.program rows.now tag reaction)) }
    ensures none { IfOk result (λ found. IfNone found ((i : ℕ) → HasWholeDelay plan.now.program rows.now tag reaction i → ⊥)) }
{
    let actions = trigger_actions(alloc, plan, reaction)?;
    for place in 0..rows.len() {
        if schedules_whole(plan, &actions, row_at(rows, place), tag, reaction) {
            return Ok(Some(place as u32));
        }
    }
    Ok(None)
}

/// What may be behind a run that nothing triggers.
fn of_untriggered(
    alloc: Global,
    plan: &Plan,
    rows: &[Row],
    tag: Tag,
    reaction: u32,
) -> Result<Option<Hint>, NoMemory>
    requires fit { RowsFit plan.now.program rows.now }
    requires reaction { reaction < length plan.now.program.reactions }
    ensures some { IfOk result (λ hint. IfSome hint (IsUntriggeredHint plan.now rows.now tag reaction)) }
    ensures none { IfOk result (λ hint. IfNone hint ((other : TheHint) → IsUntriggeredHint plan.now rows.now tag reaction other → ⊥)) }
{
    if is_thousandfold(alloc, plan, rows, tag, reaction)? {
        return Ok(Some(Hint::Thousandfold));
    }
    if let Some(row) = whole_delay(alloc, plan, rows, tag, reaction)? {
        return Ok(Some(Hint::WholeDelay { row }));
    }
    if has_trigger(plan, reaction, Trigger::Shutdown) {
        return Ok(Some(Hint::RunsAtStop));
    }
    if none_writes(rows) && has_port(plan, reaction) {
        return Ok(Some(Hint::NoWrites));
    }
    Ok(None)
}

/// What the recorder may have done with a row that is late. It takes no memory.
fn of_recorder(rows: &[Row], breach: Breach) -> Hint
    requires rule { breach.rule ≡ 1 }
    requires row { (i : ℕ) × (breach.row ≡ i + 2) × (i < length rows.now) }
    ensures { (plan : PlanParts) → IsLateByRecorder plan rows.now breach → IsHint plan rows.now breach result }
{
    // Where the logs of workers were put one behind another, the first row of the next one is late.
    if is_first_of_worker(rows, breach.row as usize - 2) {
        Hint::FirstOfWorker
    } else {
        Hint::LateRow
    }
}

/// What may be behind a breach of rule 3 before which no run starts too early. It takes no memory.
fn of_disorder(rows: &[Row], breach: Breach) -> Hint
    requires rule { breach.rule ≡ 3 }
    requires row { (i : ℕ) × (breach.row ≡ i + 2) × (i < length rows.now) }
    ensures { (plan : PlanParts) → (¬ HasRace plan rows.now breach) → IsHint plan rows.now breach result }
{
    if breach.row == 2 {
        return Hint::FirstRow;
    }
    // Both starts are of one run, so neither worker numbers nor sorted rows are to blame.
    if is_second(rows, breach.row as usize - 2) {
        Hint::StartedTwice
    } else {
        Hint::OneNumber
    }
}

/// Whether the breach is of a row that starts a run.
fn is_of_start(rows: &[Row], breach: Breach) -> bool
    requires { (i : ℕ) × (breach.row ≡ i + 2) × (i < length rows.now) }
    ensures { IsTrue result ↔ IsOfStart rows.now breach }
{
    let row = row_at(rows, breach.row as usize - 2);
    is_start(&row.step)
}

/// Whether the breach is of a row of a run that was open when the first row at a later tag came.
fn is_of_open(rows: &[Row], breach: Breach) -> bool
    requires { (i : ℕ) × (breach.row ≡ i + 2) × (i < length rows.now) }
    ensures { IsTrue result ↔ IsOfOpen rows.now breach }
{
    is_open_across(rows, breach.row - 2)
}

/// What may be behind a breach of rule 1: the recorder, where the row starts a run; the next tag or the
/// recorder, where its run was open when a row at a later tag came; else the scheduler, where a run starts
/// too early before it, or the recorder.
fn of_late(
    alloc: Global,
    plan: &Plan,
    rows: &[Row],
    breach: Breach,
) -> Result<Option<Hint>, NoMemory>
    requires fit { RowsFit plan.now.program rows.now }
    requires first { FirstSoFar plan.now rows.now breach }
    requires rule { breach.rule ≡ 1 }
    ensures some { IfOk result (λ hint. IfSome hint (IsHint plan.now rows.now breach)) }
    ensures none { IfOk result (λ hint. IfNone hint ((other : TheHint) → IsHint plan.now rows.now breach other → ⊥)) }
{
    // A start at an earlier tag comes of sorted rows or of a log behind another one, and of no race.
    if is_of_start(rows, breach) {
        return Ok(Some(of_recorder(rows, breach)));
    }
    // In the rows a tag that began too soon and a row that is written late look alike.
    if is_of_open(rows, breach) {
        return Ok(Some(Hint::NextTag));
    }
    let race = race_before(alloc, plan, rows, breach)?;
    if let Some(_) = race {
        return Ok(Some(Hint::Scheduler));
    }
    Ok(Some(of_recorder(rows, breach)))
}

/// What may be behind a breach of rule 3: the scheduler, where a run starts too early before it, or this one
/// a second time, else the recorder.
fn of_order(
    alloc: Global,
    plan: &Plan,
    rows: &[Row],
    breach: Breach,
) -> Result<Option<Hint>, NoMemory>
    requires fit { RowsFit plan.now.program rows.now }
    requires first { FirstSoFar plan.now rows.now breach }
    requires rule { breach.rule ≡ 3 }
    ensures some { IfOk result (λ hint. IfSome hint (IsHint plan.now rows.now breach)) }
    ensures none { IfOk result (λ hint. IfNone hint ((other : TheHint) → IsHint plan.now rows.now breach other → ⊥)) }
{
    let race = race_before(alloc, plan, rows, breach)?;
    match race {
        Some(_) => Ok(Some(Hint::Scheduler)),
        None => Ok(Some(of_disorder(rows, breach))),
    }
}

/// What may be behind a breach of rule 8.
fn of_run(
    alloc: Global,
    plan: &Plan,
    rows: &[Row],
    breach: Breach,
) -> Result<Option<Hint>, NoMemory>
    requires fit { RowsFit plan.now.program rows.now }
    requires rule { breach.rule ≡ 8 }
    ensures some { IfOk result (λ hint. IfSome hint (IsHint plan.now rows.now breach)) }
    ensures none { IfOk result (λ hint. IfNone hint ((other : TheHint) → IsHint plan.now rows.now breach other → ⊥)) }
{
    match breach.reaction {
        // Asked here, since no clause says that this breach is one of these rows.
        Some(reaction) if (reaction as usize) < plan.program().reactions() => {
            of_untriggered(alloc, plan, rows, breach.tag, reaction)
        }
        _ => Ok(None),
    }
}

/// Whether the tag is over a hundred times as late as the stop of the external inputs.
fn is_small_stop(plan: &Plan, rows: &[Row], tag: Tag) -> bool
    requires { RowsFit plan.now.program rows.now }
    ensures { IsTrue result ↔ IsSmallStop plan.now rows.now tag }
{
    let stop = plan.externals().stop().time;
    // Saturating: a stop near 10^18 would overflow. No tag is as late as
    // that, so the answer stays the same.
    is_given_stop(plan, rows) && stop > 0 && stop.saturating_mul(100) < tag.time
}

/// The hint on a run that is missing, if there is one.
fn of_missing(plan: &Plan, rows: &[Row], breach: Breach) -> Option<Hint>
    requires fit { RowsFit plan.now.program rows.now }
    requires rule { breach.rule ≡ 7 }
    ensures some { IfSome result (IsHint plan.now rows.now breach) }
    ensures none { IfNone result ((hint : TheHint) → IsHint plan.now rows.now breach hint → ⊥) }
{
    // Asked first: of no rows all are before any tag.
    if rows.is_empty() {
        return Some(Hint::NoRows);
    }
    if all_before(rows, breach.tag) && is_given_stop(plan, rows) {
        return Some(Hint::TraceEnds);
    }
    None
}

/// The hint on a run without an end row, if there is one.
fn of_unended(rows: &[Row], breach: Breach) -> Option<Hint>
    requires { breach.rule ≡ 5 }
    ensures some { (plan : PlanParts) → IfSome result (IsHint plan rows.now breach) }
    ensures none { (plan : PlanParts) → IfNone result ((hint : TheHint) → IsHint plan rows.now breach hint → ⊥) }
{
    // Asked first: where no run ends, rows at later tags mostly stand behind it too.
    if none_ends(rows) {
        return Some(Hint::NoEnds);
    }
    if is_passed(rows, breach.tag) {
        return Some(Hint::LateEnd);
    }
    None
}

/// The hint on the rules 2, 5, 7 and 10 that holds of the breach, if one does. It takes no memory.
fn of_other_rules(plan: &Plan, rows: &[Row], breach: Breach) -> Option<Hint>
    requires fit { RowsFit plan.now.program rows.now }
    requires other { (breach.rule ≢ 1) × (breach.rule ≢ 3) × (breach.rule ≢ 8) }
    ensures some { IfSome result (IsHint plan.now rows.now breach) }
    ensures none { IfNone result ((hint : TheHint) → IsHint plan.now rows.now breach hint → ⊥) }
{
    match breach.rule {
        2 => if is_small_stop(plan, rows, breach.tag) {
            Some(Hint::SmallStop)
        } else {
            None
        },
        5 => of_unended(rows, breach),
        7 => of_missing(plan, rows, breach),
        10 => if none_reads(rows) {
            Some(Hint::NoReads)
        } else {
            None
        },
        _ => None,
    }
}

/// The first of the hints that holds of the breach, if one does.
pub fn hint_of(
    alloc: Global,
    plan: &Plan,
    rows: &Rows,
    breach: Breach,
) -> Result<Option<Hint>, NoMemory>
    requires fit { RowsFit plan.now.program rows.now }
    requires first { FirstSoFar plan.now rows.now breach }
    ensures some { IfOk result (λ hint. IfSome hint (IsHint plan.now rows.now breach)) }
    ensures none { IfOk result (λ hint. IfNone hint ((other : TheHint) → IsHint plan.now rows.now breach other → ⊥)) }
{
    // A stop that is too late reads as a missing run, and times in microseconds as a run without a trigger.
    // Who reads the verdict alone looks for a fault of the scheduler.
    let rows = rows.as_slice();
    match breach.rule {
        1 => of_late(alloc, plan, rows, breach),
        3 => of_order(alloc, plan, rows, breach),
        8 => of_run(alloc, plan, rows, breach),
        _ => Ok(of_other_rules(plan, rows, breach)),
    }
}
