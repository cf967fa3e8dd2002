//! Rule 6: two causes of one event.

ghost use Rattle.std.specs.Prelude.{◌≤◌, ◌<◌, None, length, IfOk, IfSome, IfNone};
ghost use Rattle.lft_ir.specs.Steps.Fits.{RowsFit};
ghost use Rattle.lft_model.specs.Presence.{PortClash, Collision, events_of};
ghost use Rattle.lft_rows.specs.inner.Presence.Causes.{AreCauses};
ghost use Rattle.lft_facts.specs.{Facts.{AreTwoCauses, AreFacts}, inner.Enough.{Gives, GivesClash, AreOwnAt}};

use crate::cause::of_action;
use crate::facts::{Cause, Fact};
use lft_ir::steps::Row;
use lft_model::Plan;
use lft_rows::presence::{EventCause, cause_tag, first_cause, last_cause};
use lft_tag::{NoMemory, Shift, Tag};
use std::alloc::Global;

/// Two rows that give the port an event at the tag from two tags, if there are.
fn port_clash(
    plan: &Plan,
    rows: &[Row],
    causes: &[EventCause],
    tag: Tag,
    port: u32,
) -> Option<(Cause, Cause)>
    requires causes { AreCauses plan.now rows.now causes.now }
    requires port { port < length plan.now.program.ports }
    ensures holds { IfSome result (λ two. AreTwoCauses plan.now rows.now tag two.0 two.1) }
    ensures gives { IfSome result (λ two. GivesClash two.0 two.1 tag) }
    ensures none { IfNone result (¬ PortClash plan.now rows.now tag port) }
{
    let flat = plan.program().port(port);
    let Some(last) = last_cause(causes, flat.origin, flat.shift, tag) else {
        return None;
    };
    let Some(first) = first_cause(causes, flat.origin, flat.shift, tag) else {
        return None;
    };
    // Two writes at one tag are one event, with the last value.
    if cause_tag(first).is_same(cause_tag(last)) {
        return None;
    }
    // Of the rows at that tag the last counts.
    let Some(other) = last_cause(causes, flat.origin, Shift::none(), cause_tag(first)) else {
        return None;
    };
    Some((
        Cause::Written {
            tag,
            port,
            row: other.place,
        },
        Cause::Written {
            tag,
            port,
            row: last.place,
        },
    ))
}

/// Two rows, or a row and an external event, that give the action an event at the tag, if there are.
fn action_clash(
    plan: &Plan,
    rows: &[Row],
    causes: &[EventCause],
    tag: Tag,
    action: u32,
) -> Option<(Cause, Cause)>
    requires fit { RowsFit plan.now.program rows.now }
    requires causes { AreCauses plan.now rows.now causes.now }
    requires action { action < length plan.now.program.actions }
    ensures holds { IfSome result (λ two. AreTwoCauses plan.now rows.now tag two.0 two.1) }
    ensures gives { IfSome result (λ two. GivesClash two.0 two.1 tag) }
    ensures none { IfNone result (¬ (2 ≤ length (events_of plan.now rows.now tag action))) }
{
    let key = plan.program().ports() as u32 + action;
    let Some(first) = first_cause(causes, key, Shift::none(), tag) else {
        return None;
    };
    let Some(last) = last_cause(causes, key, Shift::none(), tag) else {
        return None;
    };
    // Each scheduling is an event of its own, also at one tag.
    if first.place == last.place {
        return None;
    }
    Some((
        of_action(rows, tag, action, first.place),
        of_action(rows, tag, action, last.place),
    ))
}

/// Two causes that give one port or action an event at the tag.
fn two_causes(plan: &Plan, rows: &[Row], causes: &[EventCause], tag: Tag) -> (Cause, Cause)
    requires fit { RowsFit plan.now.program rows.now }
    requires causes { AreCauses plan.now rows.now causes.now }
    requires clash { Collision plan.now rows.now tag }
    ensures holds { AreTwoCauses plan.now rows.now tag result.0 result.1 }
    ensures gives { GivesClash result.0 result.1 tag }
{
    for port in 0..plan.program().ports() {
        if let Some(two) = port_clash(plan, rows, causes, tag, port as u32) {
            return two;
        }
    }
    for action in 0..plan.program().actions() {
        if let Some(two) = action_clash(plan, rows, causes, tag, action as u32) {
            return two;
        }
    }
    // There is a collision at the tag, and it is of a port or an action.
    unreachable!()
}

/// The fact that gives the breach of rule 6 at the tag.
pub(crate) fn collision(
    alloc: Global,
    plan: &Plan,
    rows: &[Row],
    causes: &[EventCause],
    tag: Tag,
) -> Result<Vec<Fact>, NoMemory>
    requires fit { RowsFit plan.now.program rows.now }
    requires causes { AreCauses plan.now rows.now causes.now }
    requires clash { Collision plan.now rows.now tag }
    ensures holds { IfOk result (λ facts. AreFacts plan.now rows.now facts.items) }
    ensures enough { IfOk result (λ facts. Gives facts.items tag None 6) }
    ensures own { IfOk result (λ facts. AreOwnAt tag None facts.items) }
{
    let (first, second) = two_causes(plan, rows, causes, tag);
    let mut facts = Vec::new(alloc);
    facts.push(Fact::Clash { tag, first, second })?;
    Ok(facts)
}
