//! The text of what a reader asks next.

ghost use Rattle.std.specs.Prelude.{◌≡◌, ◌++◌, OnOk, flat_map, string_bytes};
ghost use Rattle.lft_model.specs.Runs.{inputs_of, effects_of};
ghost use Rattle.lft_report.specs.Reasons.{given_stop_words, asked_stop_words, in_line_words, has_open_words, spaced, listed_names, inputs_words, effects_words, kind_words as the_kind_words, named_kind_words, fed_words, ends_other_words, last_of_worker_words, later_words, reason_words};

use crate::neighbours::{push_last_row, push_never, push_run_after, push_run_before};
use crate::orders::push_passed_by;
use crate::rows::push_run;
use crate::ways::push_nearest;
use lft_facts::{Reason, ThingKind};
use lft_ir::steps::Row;
use lft_ir::words::{
    push_capital_line, push_line, push_name, push_port, push_reaction, push_tag, push_tag_at,
    push_worker_at,
};
use lft_ir::{Name, Program};
use lft_lists::item_at;
use lft_tag::{NoMemory, Tag};
use std::alloc::{AllocError, Global};

/// Puts that the external inputs say the stop at the end of the text.
fn push_given_stop(text: &mut String, tag: Tag) -> Result<(), AllocError>
    ensures { OnOk result (string_bytes text.new ≡ string_bytes text.old ++ given_stop_words tag) }
{
    text.push_str("  The stop is ")?;
    push_tag(text, tag)?;
    text.push_str(", as the external inputs say.\n")?;
    Ok(())
}

/// Puts that a row asks for the stop at the end of the text.
fn push_asked_stop(text: &mut String, rows: &[Row], tag: Tag, row: u32) -> Result<(), AllocError>
    ensures { OnOk result (string_bytes text.new ≡ string_bytes text.old ++ asked_stop_words rows.now tag row) }
{
    text.push_str("  The stop is ")?;
    push_tag(text, tag)?;
    text.push_str(": ")?;
    push_line(text, row)?;
    text.push_str(" asks for it at ")?;
    push_tag_at(text, rows, row)?;
    text.push_str(", one microstep before.\n")?;
    Ok(())
}

/// Puts a worker, what it does, and in which line at the end of the text.
fn push_in_line(
    text: &mut String,
    rows: &[Row],
    worker: u32,
    does: &str,
    row: u32,
) -> Result<(), AllocError>
    ensures { OnOk result (string_bytes text.new ≡ string_bytes text.old ++ in_line_words rows.now worker does.now row) }
{
    text.push_str("  Worker ")?;
    push_worker_at(text, rows, worker)?;
    text.push_str(does)?;
    push_line(text, row)?;
    text.push_str(".\n")?;
    Ok(())
}

/// Puts that a worker has a run open at the end of the text.
fn push_has_open(
    text: &mut String,
    program: &Program,
    rows: &[Row],
    start: u32,
) -> Result<(), AllocError>
    ensures { OnOk result (string_bytes text.new ≡ string_bytes text.old ++ has_open_words program.now rows.now start) }
{
    text.push_str("  Worker ")?;
    push_worker_at(text, rows, start)?;
    text.push_str(" has its run of ")?;
    push_run(text, program, rows, start)?;
    text.push_str(" open since ")?;
    push_line(text, start)?;
    text.push_str(".\n")?;
    Ok(())
}

/// Puts a blank and each of the names at the end of the text.
fn push_each(text: &mut String, program: &Program, names: &[Name]) -> Result<(), AllocError>
    ensures { OnOk result (string_bytes text.new ≡ string_bytes text.old ++ flat_map (spaced program.now) names.now) }
{
    for place in 0..names.len() {
        text.push_str(" ")?;
        push_name(text, program, item_at(names, place))?;
    }
    Ok(())
}

/// Puts the names, or that there are none, at the end of the text.
fn push_listed(text: &mut String, program: &Program, names: &[Name]) -> Result<(), AllocError>
    ensures { OnOk result (string_bytes text.new ≡ string_bytes text.old ++ listed_names program.now names.now) }
{
    if names.is_empty() {
        text.push_str(" none")?;
        Ok(())
    } else {
        push_each(text, program, names)
    }
}

/// Puts the inputs of the reaction, if there is one, at the end of the text.
fn push_inputs_of(
    alloc: Global,
    text: &mut String,
    program: &Program,
    reaction: u32,
) -> Result<(), NoMemory>
    ensures { OnOk result (string_bytes text.new ≡ string_bytes text.old ++ listed_names program.now (inputs_of program.now reaction)) }
{
    if (reaction as usize) < program.reactions() {
        let inputs = program.reaction(reaction).inputs(alloc)?;
        push_listed(text, program, inputs.as_slice())?;
        Ok(())
    } else {
        text.push_str(" none")?;
        Ok(())
    }
}

/// Puts the effects of the reaction, if there is one, at the end of the text.
fn push_effects_of(text: &mut String, program: &Program, reaction: u32) -> Result<(), AllocError>
    ensures { OnOk result (string_bytes text.new ≡ string_bytes text.old ++ listed_names program.now (effects_of program.now reaction)) }
{
    if (reaction as usize) < program.reactions() {
        push_listed(text, program, program.reaction(reaction).effects.as_slice())
    } else {
        text.push_str(" none")?;
        Ok(())
    }
}

/// Puts the inputs of a reaction, with its name, at the end of the text.
fn push_inputs(
    alloc: Global,
    text: &mut String,
    program: &Program,
    reaction: u32,
) -> Result<(), NoMemory>
    ensures { OnOk result (string_bytes text.new ≡ string_bytes text.old ++ inputs_words program.now reaction) }
{
    text.push_str("  Inputs of ")?;
    push_reaction(text, program, reaction)?;
    text.push_str(":")?;
    push_inputs_of(alloc, text, program, reaction)?;
    text.push_str("\n")?;
    Ok(())
}

/// Puts the effects of a reaction, with its name, at the end of the text.
fn push_effects(text: &mut String, program: &Program, reaction: u32) -> Result<(), AllocError>
    ensures { OnOk result (string_bytes text.new ≡ string_bytes text.old ++ effects_words program.now reaction) }
{
    text.push_str("  Effects of ")?;
    push_reaction(text, program, reaction)?;
    text.push_str(":")?;
    push_effects_of(text, program, reaction)?;
    text.push_str("\n")?;
    Ok(())
}

/// What a thing of that kind is, and what is done with it.
fn kind_words(kind: ThingKind) -> &'static str
    ensures { result.now ≡ the_kind_words kind }
{
    match kind {
        ThingKind::Port => " is a port: it is written, and not scheduled.\n",
        ThingKind::Logical => " is a logical action: it is scheduled, and not written.\n",
        ThingKind::Physical => " is a physical action: its events are external inputs.\n",
    }
}

/// Puts what a port or action is at the end of the text.
fn push_kind(
    text: &mut String,
    program: &Program,
    name: Name,
    kind: ThingKind,
) -> Result<(), AllocError>
    ensures { OnOk result (string_bytes text.new ≡ string_bytes text.old ++ named_kind_words program.now name kind) }
{
    text.push_str("  ")?;
    push_name(text, program, name)?;
    text.push_str(kind_words(kind))?;
    Ok(())
}

/// Puts which port feeds another one at the end of the text.
fn push_fed(text: &mut String, program: &Program, port: u32, origin: u32) -> Result<(), AllocError>
    ensures { OnOk result (string_bytes text.new ≡ string_bytes text.old ++ fed_words program.now port origin) }
{
    text.push_str("  ")?;
    push_port(text, program, port)?;
    text.push_str(" is fed by ")?;
    push_port(text, program, origin)?;
    text.push_str(": a write names that.\n")?;
    Ok(())
}

/// Puts which row ends another run at the end of the text.
fn push_ends_other(
    text: &mut String,
    program: &Program,
    rows: &[Row],
    end: u32,
) -> Result<(), AllocError>
    ensures { OnOk result (string_bytes text.new ≡ string_bytes text.old ++ ends_other_words program.now rows.now end) }
{
    text.push_str("  Worker ")?;
    push_worker_at(text, rows, end)?;
    text.push_str(" ends ")?;
    push_run(text, program, rows, end)?;
    text.push_str(" in ")?;
    push_line(text, end)?;
    text.push_str(".\n")?;
    Ok(())
}

/// Puts the last row of a worker at the end of the text.
fn push_last_of_worker(
    text: &mut String,
    rows: &[Row],
    row: u32,
    last: u32,
) -> Result<(), AllocError>
    ensures { OnOk result (string_bytes text.new ≡ string_bytes text.old ++ last_of_worker_words rows.now row last) }
{
    text.push_str("  The last row of worker ")?;
    push_worker_at(text, rows, row)?;
    text.push_str(" is ")?;
    push_line(text, last)?;
    text.push_str(".\n")?;
    Ok(())
}

/// Puts that a row is the first at a later tag at the end of the text.
fn push_later(text: &mut String, rows: &[Row], later: u32) -> Result<(), AllocError>
    ensures { OnOk result (string_bytes text.new ≡ string_bytes text.old ++ later_words rows.now later) }
{
    text.push_str("  ")?;
    push_capital_line(text, later)?;
    text.push_str(" is the first at a later tag, ")?;
    push_tag_at(text, rows, later)?;
    text.push_str(".\n")?;
    Ok(())
}

/// Puts the reason at the end of the text.
pub(crate) fn push_reason(
    alloc: Global,
    text: &mut String,
    program: &Program,
    rows: &[Row],
    reason: Reason,
) -> Result<(), NoMemory>
    ensures { OnOk result (string_bytes text.new ≡ string_bytes text.old ++ reason_words program.now rows.now reason) }
{
    match reason {
        Reason::Nearest { tag, trigger, at } => push_nearest(text, program, trigger, tag, at)?,
        Reason::PassedBy {
            tag,
            reaction,
            next,
        } => push_passed_by(text, program, tag, reaction, next)?,
        Reason::NeverRuns { reaction } => push_never(text, program, reaction)?,
        Reason::RunBefore { at, start, .. } => push_run_before(text, at, start)?,
        Reason::RunAfter { at, start, .. } => push_run_after(text, at, start)?,
        Reason::LastRow { row, tag, stop } => push_last_row(text, row, tag, stop)?,
        Reason::StopGiven { tag } => push_given_stop(text, tag)?,
        Reason::StopAsked { tag, row } => push_asked_stop(text, rows, tag, row)?,
        Reason::EndedIn { row, end } => {
            push_in_line(text, rows, row, " ended that run in ", end)?
        }
        Reason::HasOpen { start, .. } => push_has_open(text, program, rows, start)?,
        Reason::OpenOn { start, .. } => {
            push_in_line(text, rows, start, " has that run open since ", start)?
        }
        Reason::StartsIn { start, .. } => {
            push_in_line(text, rows, start, " starts that run later, in ", start)?
        }
        Reason::Inputs { reaction } => push_inputs(alloc, text, program, reaction)?,
        Reason::Effects { reaction } => push_effects(text, program, reaction)?,
        Reason::KindOf { name, kind } => push_kind(text, program, name, kind)?,
        Reason::FedBy { port, origin } => push_fed(text, program, port, origin)?,
        Reason::EndsOther { end, .. } => push_ends_other(text, program, rows, end)?,
        Reason::LastOfWorker { row, last } => push_last_of_worker(text, rows, row, last)?,
        Reason::OpenAcross { start, later, .. } => {
            push_has_open(text, program, rows, start)?;
            push_later(text, rows, later)?;
        }
        Reason::LaterTag { later, .. } => push_later(text, rows, later)?,
    }
    Ok(())
}
