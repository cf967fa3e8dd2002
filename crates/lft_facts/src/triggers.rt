//! Rules 7 and 8: a reaction that is triggered and has no run, and a run that isn't triggered.

ghost use Rattle.std.specs.Prelude.{◌<◌, ◌≤◌, Some, length, IfOk};
ghost use Rattle.lft_ir.specs.Steps.Fits.{RowsFit};
ghost use Rattle.lft_model.specs.{Presence.Triggered, Runs.Ran};
ghost use Rattle.lft_rows.specs.inner.Presence.Causes.{AreCauses};
ghost use Rattle.lft_facts.specs.{Facts.{CauseHolds, AreFacts}, inner.Enough.{Gives, GivesTrigger, AreOwnAt}};
ghost use Rattle.lft_races.specs.Hints.Hints.{HasTrigger};

use crate::cause::trigger_cause;
use crate::facts::{Cause, Fact};
use lft_ir::Trigger;
use lft_ir::steps::Row;
use lft_lists::item_at;
use lft_model::{Plan, trace_stop};
use lft_races::start_of;
use lft_rows::presence::EventCause;
use lft_tag::{NoMemory, Tag};
use std::alloc::Global;

/// The first trigger of the reaction that is present at the tag, and why it is.
fn present_trigger(
    plan: &Plan,
    rows: &[Row],
    causes: &[EventCause],
    tag: Tag,
    reaction: u32,
) -> (Trigger, Cause)
    requires fit { RowsFit plan.now.program rows.now }
    requires causes { AreCauses plan.now rows.now causes.now }
    requires triggered { Triggered plan.now rows.now tag reaction }
    ensures trigger { HasTrigger plan.now.program reaction result.0 }
    ensures holds { CauseHolds plan.now rows.now result.1 }
    ensures gives { GivesTrigger result.1 tag result.0 }
{
    let stop = trace_stop(plan, rows);
    let triggers = plan.program().reaction(reaction).triggers.as_slice();
    for place in 0..triggers.len() {
        let trigger = item_at(triggers, place);
        if let Some(cause) = trigger_cause(plan, rows, causes, stop, tag, trigger) {
            return (trigger, cause);
        }
    }
    // The reaction is triggered at the tag, so one of its triggers is present.
    unreachable!()
}

/// The facts that give the breach of rule 7 by the reaction at the tag.
pub(crate) fn not_run(
    alloc: Global,
    plan: &Plan,
    rows: &[Row],
    causes: &[EventCause],
    tag: Tag,
    reaction: u32,
) -> Result<Vec<Fact>, NoMemory>
    requires fit { RowsFit plan.now.program rows.now }
    requires causes { AreCauses plan.now rows.now causes.now }
    requires triggered { Triggered plan.now rows.now tag reaction }
    requires none { ¬ Ran rows.now tag reaction }
    ensures holds { IfOk result (λ facts. AreFacts plan.now rows.now facts.items) }
    ensures enough { IfOk result (λ facts. Gives facts.items tag (Some reaction) 7) }
    ensures own { IfOk result (λ facts. AreOwnAt tag (Some reaction) facts.items) }
{
    let (trigger, cause) = present_trigger(plan, rows, causes, tag, reaction);
    let mut facts = Vec::new(alloc);
    facts.push(Fact::NoRun { tag, reaction })?;
    facts.push(Fact::HasTrigger { reaction, trigger })?;
    facts.push(Fact::Cause(cause))?;
    Ok(facts)
}

/// The facts that give the breach of rule 8 by the reaction's run at the tag.
pub(crate) fn not_triggered(
    alloc: Global,
    plan: &Plan,
    rows: &[Row],
    tag: Tag,
    reaction: u32,
) -> Result<Vec<Fact>, NoMemory>
    requires few { length rows.now ≤ 4000000 }
    requires known { reaction < length plan.now.program.reactions }
    requires ran { Ran rows.now tag reaction }
    requires none { ¬ Triggered plan.now rows.now tag reaction }
    ensures holds { IfOk result (λ facts. AreFacts plan.now rows.now facts.items) }
    ensures enough { IfOk result (λ facts. Gives facts.items tag (Some reaction) 8) }
    ensures own { IfOk result (λ facts. AreOwnAt tag (Some reaction) facts.items) }
{
    let start = start_of(rows, tag, reaction);
    let triggers = plan.program().reaction(reaction).triggers.as_slice();
    let count = triggers.len();
    let mut facts = Vec::new(alloc);
    facts.push(Fact::Runs {
        tag,
        reaction,
        start,
    })?;
    // By the count no trigger can be left out: so the facts on each of them are enough.
    facts.push(Fact::TriggerCount { reaction, count })?;
    for place in 0..count {
        facts.push(Fact::Untriggered {
            tag,
            reaction,
            place,
            trigger: item_at(triggers, place),
        })?;
    }
    Ok(facts)
}
