//! Facts beside those that are enough: causes of what is present, what makes the stop, and what is
//! nearest to what is absent.

ghost use Rattle.std.specs.Prelude.{◌≡◌, IfOk, IfSome, OnOk};
ghost use Rattle.lft_ir.specs.{Sound.{IsNameOf, IsTriggerOf as IsKnown}, declared.parts.Trigger.TheVariants.On as TheName, Steps.Fits.RowsFit};
ghost use Rattle.lft_model.specs.{declared.breach.Breach.Breach as TheBreach, Presence.Occurs};
ghost use Rattle.lft_rows.specs.inner.Presence.Causes.{AreCauses};
ghost use Rattle.lft_facts.specs.{Facts.{IsFact, AreFacts}, Reasons.{IsNearest, IsReason}, inner.Enough.{Adds, Extends}, Enough.{IsOwn, IsOwnReason, AreOwn}};

use crate::adding::add;
use crate::cause::name_cause;
use crate::facts::{Cause, Fact, Reason};
use crate::firings::add_firings;
use crate::nearest::{event_after, event_before};
use crate::neighbours::{add_last_row, add_runs};
use crate::stopping::stop_reason;
use lft_ir::steps::Row;
use lft_ir::{Name, Trigger};
use lft_lists::item_at;
use lft_model::Plan;
use lft_rows::presence::EventCause;
use lft_tag::{NoMemory, Tag};
use std::alloc::Global;

/// Puts why the port or action has an event at the tag behind the facts, if it has one.
fn add_event(
    plan: &Plan,
    rows: &[Row],
    causes: &[EventCause],
    tag: Tag,
    name: Name,
    facts: &mut Vec<Fact>,
) -> Result<(), NoMemory>
    requires fit { RowsFit plan.now.program rows.now }
    requires causes { AreCauses plan.now rows.now causes.now }
    requires name { IsNameOf plan.now.program name }
    ensures { OnOk result ((b : TheBreach) → Adds b plan.now rows.now facts.old.items facts.new.items) }
{
    match name_cause(plan, rows, causes, tag, name) {
        Some(cause) => {
            facts.push(Fact::Cause(cause))?;
            Ok(())
        }
        None => Ok(()),
    }
}

/// Puts that an event of the port or action is nearest to the tag behind the facts, and its cause.
fn add_nearest(
    plan: &Plan,
    rows: &[Row],
    causes: &[EventCause],
    tag: Tag,
    name: Name,
    at: Option<Tag>,
    facts: &mut Vec<Fact>,
) -> Result<(), NoMemory>
    requires fit { RowsFit plan.now.program rows.now }
    requires causes { AreCauses plan.now rows.now causes.now }
    requires name { IsNameOf plan.now.program name }
    requires nearest { IfSome at (IsNearest plan.now rows.now tag (TheName name)) }
    ensures { OnOk result ((b : TheBreach) → b.tag ≡ tag → Adds b plan.now rows.now facts.old.items facts.new.items) }
{
    match at {
        Some(at) => {
            facts.push(Fact::Reason(Reason::Nearest {
                tag,
                trigger: Trigger::On(name),
                at,
            }))?;
            add_event(plan, rows, causes, at, name, facts)
        }
        None => Ok(()),
    }
}

/// Puts the events of the port or action that are nearest to the tag behind the facts.
fn add_near(
    plan: &Plan,
    rows: &[Row],
    causes: &[EventCause],
    tag: Tag,
    name: Name,
    facts: &mut Vec<Fact>,
) -> Result<(), NoMemory>
    requires fit { RowsFit plan.now.program rows.now }
    requires causes { AreCauses plan.now rows.now causes.now }
    requires name { IsNameOf plan.now.program name }
    ensures { OnOk result ((b : TheBreach) → b.tag ≡ tag → Adds b plan.now rows.now facts.old.items facts.new.items) }
{
    let before = event_before(plan, rows, causes, tag, name);
    add_nearest(plan, rows, causes, tag, name, before, facts)?;
    let after = event_after(plan, rows, causes, tag, name);
    add_nearest(plan, rows, causes, tag, name, after, facts)?;
    Ok(())
}

/// Puts what is nearest to the tag of a trigger that is absent there behind the facts: events, firings,
/// or what makes the stop.
fn add_absent(
    plan: &Plan,
    rows: &[Row],
    causes: &[EventCause],
    stop: Option<Reason>,
    tag: Tag,
    trigger: Trigger,
    facts: &mut Vec<Fact>,
) -> Result<(), NoMemory>
    requires fit { RowsFit plan.now.program rows.now }
    requires causes { AreCauses plan.now rows.now causes.now }
    requires stop { IfSome stop (IsReason plan.now rows.now) }
    requires stop_own { (b : TheBreach) → IfSome stop (IsOwnReason b) }
    requires trigger { IsKnown plan.now.program trigger }
    requires absent { ¬ Occurs plan.now rows.now tag trigger }
    ensures { OnOk result ((b : TheBreach) → b.tag ≡ tag → Adds b plan.now rows.now facts.old.items facts.new.items) }
{
    match trigger {
        // Where it is present is no question: at the first tag of all.
        Trigger::Startup => Ok(()),
        Trigger::Shutdown => add(facts, stop),
        Trigger::Timer(timer) => add_firings(plan, rows, tag, timer, facts),
        Trigger::On(name) => add_near(plan, rows, causes, tag, name, facts),
    }
}

/// Puts what stands right behind the fact behind the others: what makes the stop, where something is
/// present there, and what is nearest to a trigger that is absent.
fn add_details(
    plan: &Plan,
    rows: &[Row],
    causes: &[EventCause],
    stop: Option<Reason>,
    fact: Fact,
    facts: &mut Vec<Fact>,
) -> Result<(), NoMemory>
    requires fit { RowsFit plan.now.program rows.now }
    requires causes { AreCauses plan.now rows.now causes.now }
    requires stop { IfSome stop (IsReason plan.now rows.now) }
    requires stop_own { (b : TheBreach) → IfSome stop (IsOwnReason b) }
    requires fact { IsFact plan.now rows.now fact }
    ensures { OnOk result ((b : TheBreach) → IsOwn b fact → Adds b plan.now rows.now facts.old.items facts.new.items) }
{
    // Asked for what every plan keeps: what its reactions name is of its program.
    plan.keeps();
    match fact {
        Fact::Cause(Cause::AtShutdown { .. }) => add(facts, stop),
        Fact::Untriggered { tag, trigger, .. } => {
            add_absent(plan, rows, causes, stop, tag, trigger, facts)
        }
        _ => Ok(()),
    }
}

/// Puts the reasons of a fact that stand behind all others behind the facts. Of an input that was to be
/// read otherwise: why it is present, or the events that are nearest to it. Of a run that is missing:
/// the runs that are nearest to it, and where the trace ends.
fn add_reasons(
    plan: &Plan,
    rows: &[Row],
    causes: &[EventCause],
    fact: Fact,
    facts: &mut Vec<Fact>,
) -> Result<(), NoMemory>
    requires fit { RowsFit plan.now.program rows.now }
    requires causes { AreCauses plan.now rows.now causes.now }
    requires fact { IsFact plan.now rows.now fact }
    ensures { OnOk result ((b : TheBreach) → IsOwn b fact → Adds b plan.now rows.now facts.old.items facts.new.items) }
{
    // Asked for what every plan keeps: what its reactions name is of its program.
    plan.keeps();
    match fact {
        Fact::Reads {
            tag,
            name,
            read,
            present,
            ..
        } => {
            if read == present {
                Ok(())
            } else if present.is_some() {
                add_event(plan, rows, causes, tag, name, facts)
            } else {
                add_near(plan, rows, causes, tag, name, facts)
            }
        }
        Fact::NoRun { tag, reaction } => {
            add_runs(rows, tag, reaction, facts)?;
            add_last_row(plan, rows, tag, facts)?;
            Ok(())
        }
        _ => Ok(()),
    }
}

/// The facts, each with its details right behind it, and at the end the reasons of all. So the
/// inputs of a run stand together.
pub(crate) fn with_reasons(
    alloc: Global,
    plan: &Plan,
    rows: &[Row],
    causes: &[EventCause],
    facts: Vec<Fact>,
) -> Result<Vec<Fact>, NoMemory>
    requires fit { RowsFit plan.now.program rows.now }
    requires causes { AreCauses plan.now rows.now causes.now }
    requires holds { AreFacts plan.now rows.now facts.items }
    ensures { IfOk result (λ all. (b : TheBreach) → AreOwn b facts.items → Extends b plan.now rows.now facts.items all.items) }
{
    // Many facts may be of the stop: a reaction may name `shutdown` again and again.
    let stop = stop_reason(plan, rows);
    let mut all = Vec::new(alloc);
    for place in 0..facts.len() {
        let fact = item_at(facts.as_slice(), place);
        all.push(fact)?;
        add_details(plan, rows, causes, stop, fact, &mut all)?;
    }
    for place in 0..facts.len() {
        let fact = item_at(facts.as_slice(), place);
        add_reasons(plan, rows, causes, fact, &mut all)?;
    }
    Ok(all)
}
