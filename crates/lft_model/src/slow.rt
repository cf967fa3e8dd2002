//! Presence, triggering, collisions and inputs, plainly over all rows: for tests and for readers.

ghost use Rattle.std.specs.Prelude.{◌≡◌, ◌<◌, ◌↔◌, List, Option, length, IsTrue, IfSome, IfNone, IfOk};
ghost use Rattle.lft_ir.specs.{Sound.{IsNameOf, IsTriggerOf}, declared.parts.Value.Value as Carried, Steps.Fits.RowsFit};
ghost use Rattle.lft_model.specs.{Fitting.EachFits, Presence.{At, IsPresent, OccursUntil, Triggered, Collision, Inputs}};

mod actions;
mod ports;

use crate::plan::Plan;
use crate::reads::Reads;
use crate::stop::trace_stop;
use crate::timers::fires;
use actions::{action_clashes, action_value};
use lft_ir::steps::{Row, Rows};
use lft_ir::{Name, Trigger, Value};
use lft_tag::{NoMemory, Tag};
use ports::{port_clashes, port_value};
use std::alloc::Global;

// The value of an event of the port or action at the tag, if it has one.
fn value_at(plan: &Plan, rows: &[Row], tag: Tag, name: Name) -> Option<Value>
    requires fit { RowsFit plan.now.program rows.now }
    requires name { IsNameOf plan.now.program name }
    ensures some { IfSome result (λ v. At plan.now rows.now tag name v) }
    ensures none { IfNone result (IsPresent plan.now rows.now tag name → ⊥) }
{
    match name {
        Name::Port(port) => port_value(plan, rows, tag, port),
        Name::Action(action) => action_value(plan, rows, tag, action),
    }
}

/// Whether the port or action has an event at the tag, which may lie past the stop. Every row that
/// names it counts, also one that breaks a rule. It takes no memory.
pub fn present_slow(plan: &Plan, rows: &Rows, tag: Tag, name: Name) -> bool
    requires fit { RowsFit plan.now.program rows.now }
    requires name { IsNameOf plan.now.program name }
    ensures { IsTrue result ↔ IsPresent plan.now rows.now tag name }
{
    value_at(plan, rows.as_slice(), tag, name).is_some()
}

// Whether the trigger is present at the tag, where the execution ends at the stop.
fn occurs(plan: &Plan, rows: &[Row], stop: Tag, tag: Tag, trigger: Trigger) -> bool
    requires fit { RowsFit plan.now.program rows.now }
    requires trigger { IsTriggerOf plan.now.program trigger }
    ensures { IsTrue result ↔ OccursUntil stop plan.now rows.now tag trigger }
{
    match trigger {
        Trigger::Startup => tag.is_same(Tag { time: 0, micro: 0 }),
        Trigger::Shutdown => tag.is_same(stop),
        Trigger::Timer(number) => fires(plan.program().timer(number), tag),
        Trigger::On(name) => value_at(plan, rows, tag, name).is_some(),
    }
}

/// Whether a trigger of the reaction is present at the tag, which may lie past the stop. It takes
/// no memory.
pub fn triggered_slow(plan: &Plan, rows: &Rows, tag: Tag, reaction: u32) -> bool
    requires fit { RowsFit plan.now.program rows.now }
    requires reaction { reaction < length plan.now.program.reactions }
    ensures { IsTrue result ↔ Triggered plan.now rows.now tag reaction }
{
    let rows = rows.as_slice();
    let stop = trace_stop(plan, rows);
    let triggers = plan.program().reaction(reaction).triggers.as_slice();
    for place in 0..triggers.len() {
        if occurs(plan, rows, stop, tag, triggers[place]) {
            return true;
        }
    }
    false
}

/// Whether two causes give one port or action an event at the tag: two tags at which the origin of
/// the port was written, or two schedule rows or external events of the action. It takes no memory.
pub fn clash_slow(plan: &Plan, rows: &Rows, tag: Tag) -> bool
    requires { EachFits plan.now.program rows.now }
    ensures { IsTrue result ↔ Collision plan.now rows.now tag }
{
    let rows = rows.as_slice();
    for port in 0..plan.program().ports() {
        if port_clashes(plan, rows, tag, port as u32) {
            return true;
        }
    }
    for action in 0..plan.program().actions() {
        if action_clashes(plan, rows, tag, action as u32) {
            return true;
        }
    }
    false
}

/// What the reaction reads at the tag, where no port and no action has two causes: each of its
/// inputs in order, triggers before uses.
pub fn inputs_slow(
    alloc: Global,
    plan: &Plan,
    rows: &Rows,
    tag: Tag,
    reaction: u32,
) -> Result<Reads, NoMemory>
    requires fit { RowsFit plan.now.program rows.now }
    requires reaction { reaction < length plan.now.program.reactions }
    requires no_clash { Collision plan.now rows.now tag → ⊥ }
    ensures inputs { IfOk result (Inputs plan.now rows.now tag reaction) }
    ensures only { IfOk result (λ reads. (other : List (Option Carried)) → Inputs plan.now rows.now tag reaction other → other ≡ reads) }
{
    let rows = rows.as_slice();
    let reaction = plan.program().reaction(reaction);
    let mut reads = Vec::new(alloc);
    let triggers = reaction.triggers.as_slice();
    for place in 0..triggers.len() {
        if let Trigger::On(name) = triggers[place] {
            reads.push(value_at(plan, rows, tag, name))?;
        }
    }
    let uses = reaction.uses.as_slice();
    for place in 0..uses.len() {
        reads.push(value_at(plan, rows, tag, uses[place]))?;
    }
    Ok(Reads::from_vec(reads))
}
