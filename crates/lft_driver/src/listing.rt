//! The lines of all that a program has, one thing a line, for scripts.

ghost use Rattle.std.specs.Prelude.{◌≡◌, ◌++◌, ◌<◌, Some, IfOk, OnOk, flat_map, length, slice_get, string_bytes};
ghost use Rattle.std.specs.List.{enumerate_from};
ghost use Rattle.lft_ir.specs.declared.parts.{Action.Action as ActionOf, Reaction.Reaction as ReactionOf, Timer.Timer as TimerOf};
ghost use Rattle.lft_graph.specs.Graph.{IsGraphOf};
ghost use Rattle.lft_driver.specs.Shown.{action_line, all_words, effect_line, effect_word, instance_line, action_kind_words, link_words, reaction_lines, timer_line, trigger_line, trigger_name, use_line};

use crate::show::{push_line, push_ports};
use lft_graph::Graph;
use lft_ir::words::{push_action, push_name, push_reaction, push_timer};
use lft_ir::{Name, Program, Trigger};
use lft_lists::item_at;
use lft_load::push_field;
use std::alloc::{AllocError, Global};

/// Puts the line of an instance at the end of a text.
fn push_instance(text: &mut String, name: &str) -> Result<(), AllocError>
    ensures { OnOk result (string_bytes text.new ≡ string_bytes text.old ++ instance_line name.now) }
{
    text.push_str("instance ")?;
    text.push_str(name)?;
    text.push_str("\n")?;
    Ok(())
}

/// Puts the lines of all instances at the end of a text.
fn push_instances(text: &mut String, program: &Program) -> Result<(), AllocError>
    ensures { OnOk result (string_bytes text.new ≡ string_bytes text.old ++ flat_map instance_line program.now.names.instances) }
{
    for number in 0..program.instances() {
        push_instance(text, program.name_of_instance(number as u32))?;
    }
    Ok(())
}

/// The kind of an action.
fn kind(physical: bool) -> &'static str
    ensures { result.now ≡ action_kind_words physical }
{
    if physical { "physical" } else { "logical" }
}

/// Puts the line of an action at the end of a text.
fn push_action_line(text: &mut String, program: &Program, number: u32) -> Result<(), AllocError>
    requires { number < length program.now.actions }
    ensures { OnOk result ((action : ActionOf) → slice_get program.now.actions number ≡ Some action → string_bytes text.new ≡ string_bytes text.old ++ action_line program.now (number, action)) }
{
    let action = program.action(number);
    text.push_str("action ")?;
    push_action(text, program, number)?;
    text.push_str(" kind=")?;
    text.push_str(kind(action.physical))?;
    push_field(text, " least=", action.min_delay)?;
    text.push_str("\n")?;
    Ok(())
}

/// Puts the lines of all actions at the end of a text.
fn push_actions(text: &mut String, program: &Program) -> Result<(), AllocError>
    ensures { OnOk result (string_bytes text.new ≡ string_bytes text.old ++ flat_map (action_line program.now) (enumerate_from 0 program.now.actions)) }
{
    for number in 0..program.actions() {
        push_action_line(text, program, number as u32)?;
    }
    Ok(())
}

/// Puts the line of a timer at the end of a text.
fn push_timer_line(text: &mut String, program: &Program, number: u32) -> Result<(), AllocError>
    requires { number < length program.now.timers }
    ensures { OnOk result ((timer : TimerOf) → slice_get program.now.timers number ≡ Some timer → string_bytes text.new ≡ string_bytes text.old ++ timer_line program.now (number, timer)) }
{
    let timer = program.timer(number);
    text.push_str("timer ")?;
    push_timer(text, program, number)?;
    push_field(text, " offset=", timer.offset)?;
    push_field(text, " period=", timer.period)?;
    text.push_str("\n")?;
    Ok(())
}

/// Puts the lines of all timers at the end of a text.
fn push_timers(text: &mut String, program: &Program) -> Result<(), AllocError>
    ensures { OnOk result (string_bytes text.new ≡ string_bytes text.old ++ flat_map (timer_line program.now) (enumerate_from 0 program.now.timers)) }
{
    for number in 0..program.timers() {
        push_timer_line(text, program, number as u32)?;
    }
    Ok(())
}

/// Puts the head of the line that tells what a reaction has to do with a thing at the end of a text.
fn push_link(
    text: &mut String,
    program: &Program,
    word: &str,
    reaction: u32,
) -> Result<(), AllocError>
    ensures { OnOk result (string_bytes text.new ≡ string_bytes text.old ++ link_words program.now word.now reaction) }
{
    text.push_str(word)?;
    text.push_str(" ")?;
    push_reaction(text, program, reaction)?;
    text.push_str(" ")?;
    Ok(())
}

/// Puts the name of a trigger at the end of a text.
fn push_trigger(text: &mut String, program: &Program, trigger: Trigger) -> Result<(), AllocError>
    ensures { OnOk result (string_bytes text.new ≡ string_bytes text.old ++ trigger_name program.now trigger) }
{
    match trigger {
        Trigger::Startup => text.push_str("startup")?,
        Trigger::Shutdown => text.push_str("shutdown")?,
        Trigger::Timer(number) => push_timer(text, program, number)?,
        Trigger::On(name) => push_name(text, program, name)?,
    }
    Ok(())
}

/// Puts the line of a trigger of a reaction at the end of a text.
fn push_trigger_line(
    text: &mut String,
    program: &Program,
    reaction: u32,
    trigger: Trigger,
) -> Result<(), AllocError>
    ensures { OnOk result (string_bytes text.new ≡ string_bytes text.old ++ trigger_line program.now reaction trigger) }
{
    push_link(text, program, "trigger", reaction)?;
    push_trigger(text, program, trigger)?;
    text.push_str("\n")?;
    Ok(())
}

/// Puts the lines of all triggers of a reaction at the end of a text.
fn push_triggers(
    text: &mut String,
    program: &Program,
    reaction: u32,
    triggers: &[Trigger],
) -> Result<(), AllocError>
    ensures { OnOk result (string_bytes text.new ≡ string_bytes text.old ++ flat_map (trigger_line program.now reaction) triggers.now) }
{
    for place in 0..triggers.len() {
        push_trigger_line(text, program, reaction, item_at(triggers, place))?;
    }
    Ok(())
}

/// Puts the line of a use of a reaction at the end of a text.
fn push_use(
    text: &mut String,
    program: &Program,
    reaction: u32,
    name: Name,
) -> Result<(), AllocError>
    ensures { OnOk result (string_bytes text.new ≡ string_bytes text.old ++ use_line program.now reaction name) }
{
    push_link(text, program, "use", reaction)?;
    push_name(text, program, name)?;
    text.push_str("\n")?;
    Ok(())
}

/// Puts the lines of all uses of a reaction at the end of a text.
fn push_uses(
    text: &mut String,
    program: &Program,
    reaction: u32,
    uses: &[Name],
) -> Result<(), AllocError>
    ensures { OnOk result (string_bytes text.new ≡ string_bytes text.old ++ flat_map (use_line program.now reaction) uses.now) }
{
    for place in 0..uses.len() {
        push_use(text, program, reaction, item_at(uses, place))?;
    }
    Ok(())
}

/// The word of an effect, as of the card that answers it.
fn word_of(effect: Name) -> &'static str
    ensures { result.now ≡ effect_word effect }
{
    match effect {
        Name::Port(_) => "write",
        Name::Action(_) => "schedule",
    }
}

/// Puts the line of an effect of a reaction at the end of a text.
fn push_effect(
    text: &mut String,
    program: &Program,
    reaction: u32,
    effect: Name,
) -> Result<(), AllocError>
    ensures { OnOk result (string_bytes text.new ≡ string_bytes text.old ++ effect_line program.now reaction effect) }
{
    push_link(text, program, word_of(effect), reaction)?;
    push_name(text, program, effect)?;
    text.push_str("\n")?;
    Ok(())
}

/// Puts the lines of all effects of a reaction at the end of a text.
fn push_effects(
    text: &mut String,
    program: &Program,
    reaction: u32,
    effects: &[Name],
) -> Result<(), AllocError>
    ensures { OnOk result (string_bytes text.new ≡ string_bytes text.old ++ flat_map (effect_line program.now reaction) effects.now) }
{
    for place in 0..effects.len() {
        push_effect(text, program, reaction, item_at(effects, place))?;
    }
    Ok(())
}

/// Puts the line of a reaction, and below it those of its triggers, uses and effects, at the end of a text.
fn push_reaction_lines(
    text: &mut String,
    program: &Program,
    graph: &Graph,
    number: u32,
) -> Result<(), AllocError>
    requires reaction { number < length program.now.reactions }
    requires graph { IsGraphOf program.now graph.now }
    ensures { OnOk result ((x : ReactionOf) → slice_get program.now.reactions number ≡ Some x → string_bytes text.new ≡ string_bytes text.old ++ reaction_lines program.now graph.now (number, x)) }
{
    let reaction = program.reaction(number);
    push_line(text, program, graph, number)?;
    push_triggers(text, program, number, reaction.triggers.as_slice())?;
    push_uses(text, program, number, reaction.uses.as_slice())?;
    push_effects(text, program, number, reaction.effects.as_slice())
}

/// Puts the lines of all reactions at the end of a text.
fn push_all_reactions(text: &mut String, program: &Program, graph: &Graph) -> Result<(), AllocError>
    requires { IsGraphOf program.now graph.now }
    ensures { OnOk result (string_bytes text.new ≡ string_bytes text.old ++ flat_map (reaction_lines program.now graph.now) (enumerate_from 0 program.now.reactions)) }
{
    for number in 0..program.reactions() {
        push_reaction_lines(text, program, graph, number as u32)?;
    }
    Ok(())
}

/// The lines of all instances, ports, actions, timers and reactions.
pub(crate) fn all_lines(
    alloc: Global,
    program: &Program,
    graph: &Graph,
) -> Result<String, AllocError>
    requires { IsGraphOf program.now graph.now }
    ensures { IfOk result (λ text. string_bytes text ≡ all_words program.now graph.now) }
{
    let mut text = String::new(alloc);
    push_instances(&mut text, program)?;
    push_ports(&mut text, program)?;
    push_actions(&mut text, program)?;
    push_timers(&mut text, program)?;
    push_all_reactions(&mut text, program, graph)?;
    Ok(text)
}
