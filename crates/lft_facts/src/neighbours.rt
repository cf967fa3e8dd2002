//! The runs of a reaction just before and just after a tag at which it has none.

ghost use Rattle.std.specs.Prelude.{◌≡◌, ◌+◌, ◌<◌, ◌≤◌, Some, length, IfSome, IfNone, OnOk};
ghost use Rattle.lft_tag.specs.{declared.Tag.Tag as TheTag, Tags.{Before, UpTo}};
ghost use Rattle.lft_ir.specs.Steps.Fits.{RowsFit};
ghost use Rattle.lft_model.specs.{declared.breach.Breach.Breach as TheBreach, Plans.PlanParts, Runs.Ran};
ghost use Rattle.lft_facts.specs.{Reasons.{IsRunBefore, IsRunAfter}, inner.{Enough.Adds, Neighbours.IsNearestStart}};

use crate::facts::{Fact, Reason};
use lft_ir::steps::{Row, row_at};
use lft_model::{Plan, trace_stop};
use lft_races::is_start_at;
use lft_tag::{NoMemory, Tag};

/// The run that starts in the row at the place, where it is of the reaction, before the tag, and
/// later than the one so far; else the one so far.
fn later(
    rows: &[Row],
    tag: Tag,
    reaction: u32,
    so_far: Option<(Tag, u32)>,
    place: usize,
) -> Option<(Tag, u32)>
    requires few { length rows.now ≤ 4000000 }
    requires place { place < length rows.now }
    requires so_far { IsNearestStart (λ (k : TheTag). Before k tag) UpTo rows.now reaction place so_far }
    ensures { IsNearestStart (λ (k : TheTag). Before k tag) UpTo rows.now reaction (place + 1) result }
{
    let at = row_at(rows, place).tag;
    if !is_start_at(rows, at, reaction, place) {
        return so_far;
    }
    if !at.is_before(tag) {
        return so_far;
    }
    match so_far {
        Some(run) => {
            if run.0.is_before(at) {
                Some((at, place as u32))
            } else {
                so_far
            }
        }
        None => Some((at, place as u32)),
    }
}

/// The run that starts in the row at the place, where it is of the reaction, after the tag, and
/// earlier than the one so far; else the one so far.
fn earlier(
    rows: &[Row],
    tag: Tag,
    reaction: u32,
    so_far: Option<(Tag, u32)>,
    place: usize,
) -> Option<(Tag, u32)>
    requires few { length rows.now ≤ 4000000 }
    requires place { place < length rows.now }
    requires so_far { IsNearestStart (λ (k : TheTag). Before tag k) (λ (k h : TheTag). UpTo h k) rows.now reaction place so_far }
    ensures { IsNearestStart (λ (k : TheTag). Before tag k) (λ (k h : TheTag). UpTo h k) rows.now reaction (place + 1) result }
{
    let at = row_at(rows, place).tag;
    if !is_start_at(rows, at, reaction, place) {
        return so_far;
    }
    if !tag.is_before(at) {
        return so_far;
    }
    match so_far {
        Some(run) => {
            if at.is_before(run.0) {
                Some((at, place as u32))
            } else {
                so_far
            }
        }
        None => Some((at, place as u32)),
    }
}

/// The tag of the reaction's last run before the tag, and the place of its start row.
fn run_before(rows: &[Row], tag: Tag, reaction: u32) -> Option<(Tag, u32)>
    requires few { length rows.now ≤ 4000000 }
    ensures some { IfSome result (λ run. IsRunBefore rows.now tag reaction run.0 run.1) }
    ensures none { IfNone result ((k : TheTag) → Before k tag → ¬ Ran rows.now k reaction) }
{
    let mut run = None;
    // Each start is compared, so that no clause has to say that tags rise.
    for place in 0..rows.len() {
        run = later(rows, tag, reaction, run, place);
    }
    run
}

/// The tag of the reaction's first run after the tag, and the place of its start row.
fn run_after(rows: &[Row], tag: Tag, reaction: u32) -> Option<(Tag, u32)>
    requires few { length rows.now ≤ 4000000 }
    ensures some { IfSome result (λ run. IsRunAfter rows.now tag reaction run.0 run.1) }
    ensures none { IfNone result ((k : TheTag) → Before tag k → ¬ Ran rows.now k reaction) }
{
    let mut run = None;
    for place in 0..rows.len() {
        run = earlier(rows, tag, reaction, run, place);
    }
    run
}

/// Puts the first run of the reaction after the tag behind the facts, if it has one.
fn add_after(rows: &[Row], tag: Tag, reaction: u32, facts: &mut Vec<Fact>) -> Result<(), NoMemory>
    requires few { length rows.now ≤ 4000000 }
    ensures { OnOk result ((b : TheBreach) (plan : PlanParts) → b.tag ≡ tag → b.reaction ≡ Some reaction → Adds b plan rows.now facts.old.items facts.new.items) }
{
    match run_after(rows, tag, reaction) {
        Some((at, start)) => {
            facts.push(Fact::Reason(Reason::RunAfter {
                tag,
                reaction,
                at,
                start,
            }))?;
            Ok(())
        }
        None => Ok(()),
    }
}

/// Puts the first run of the reaction after the tag behind the facts, or that it has none at all.
fn add_after_or_never(
    rows: &[Row],
    tag: Tag,
    reaction: u32,
    facts: &mut Vec<Fact>,
) -> Result<(), NoMemory>
    requires few { length rows.now ≤ 4000000 }
    requires none { ¬ Ran rows.now tag reaction }
    requires before { (k : TheTag) → Before k tag → ¬ Ran rows.now k reaction }
    ensures { OnOk result ((b : TheBreach) (plan : PlanParts) → b.tag ≡ tag → b.reaction ≡ Some reaction → Adds b plan rows.now facts.old.items facts.new.items) }
{
    match run_after(rows, tag, reaction) {
        Some((at, start)) => {
            facts.push(Fact::Reason(Reason::RunAfter {
                tag,
                reaction,
                at,
                start,
            }))?;
            Ok(())
        }
        None => {
            facts.push(Fact::Reason(Reason::NeverRuns { reaction }))?;
            Ok(())
        }
    }
}

/// Puts the runs of the reaction that are nearest to the tag behind the facts.
pub(crate) fn add_runs(
    rows: &[Row],
    tag: Tag,
    reaction: u32,
    facts: &mut Vec<Fact>,
) -> Result<(), NoMemory>
    requires few { length rows.now ≤ 4000000 }
    requires none { ¬ Ran rows.now tag reaction }
    ensures { OnOk result ((b : TheBreach) (plan : PlanParts) → b.tag ≡ tag → b.reaction ≡ Some reaction → Adds b plan rows.now facts.old.items facts.new.items) }
{
    match run_before(rows, tag, reaction) {
        Some((at, start)) => {
            facts.push(Fact::Reason(Reason::RunBefore {
                tag,
                reaction,
                at,
                start,
            }))?;
            add_after(rows, tag, reaction, facts)?;
            Ok(())
        }
        None => add_after_or_never(rows, tag, reaction, facts),
    }
}

/// Puts the last row and the stop behind the facts, where that row is before the tag.
pub(crate) fn add_last_row(
    plan: &Plan,
    rows: &[Row],
    tag: Tag,
    facts: &mut Vec<Fact>,
) -> Result<(), NoMemory>
    requires fit { RowsFit plan.now.program rows.now }
    ensures { OnOk result ((b : TheBreach) → Adds b plan.now rows.now facts.old.items facts.new.items) }
{
    if rows.len() == 0 {
        return Ok(());
    }
    // The last row has the greatest tag: one at a lesser tag would break rule 1, and be the breach.
    let place = rows.len() - 1;
    let last = row_at(rows, place).tag;
    if last.is_before(tag) {
        facts.push(Fact::Reason(Reason::LastRow {
            row: place as u32,
            tag: last,
            stop: trace_stop(plan, rows),
        }))?;
    }
    Ok(())
}
