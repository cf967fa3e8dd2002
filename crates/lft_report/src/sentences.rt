//! What is wrong, in a sentence.

ghost use Rattle.std.specs.Prelude.{◌≡◌, ◌≤◌, ◌++◌, IfOk, OnOk, length, string_bytes};
ghost use Rattle.lft_report.specs.Sentences.{more_words, port_more_words, action_more_words, clash_words, head_words, sentence as the_sentence};

use crate::orders::push_early_race;
use crate::rows::push_row_fact;
use crate::runs::{push_no_run, push_runs};
use lft_facts::{Cause, Fact};
use lft_ir::Program;
use lft_ir::steps::Row;
use lft_ir::words::{push_action, push_port, push_tag};
use lft_lists::item_at;
use lft_tag::Tag;
use std::alloc::{AllocError, Global};

/// Puts that something has more than one event at the end of the text.
fn push_more(text: &mut String, tag: Tag) -> Result<(), AllocError>
    ensures { OnOk result (string_bytes text.new ≡ string_bytes text.old ++ more_words tag) }
{
    text.push_str(" has more than one event at ")?;
    push_tag(text, tag)?;
    text.push_str(", which is outside the profile.\n")?;
    Ok(())
}

/// Puts that a port has more than one event at the end of the text.
fn push_port_more(
    text: &mut String,
    program: &Program,
    tag: Tag,
    port: u32,
) -> Result<(), AllocError>
    ensures { OnOk result (string_bytes text.new ≡ string_bytes text.old ++ port_more_words program.now tag port) }
{
    push_port(text, program, port)?;
    push_more(text, tag)?;
    Ok(())
}

/// Puts that an action has more than one event at the end of the text.
fn push_action_more(
    text: &mut String,
    program: &Program,
    tag: Tag,
    action: u32,
) -> Result<(), AllocError>
    ensures { OnOk result (string_bytes text.new ≡ string_bytes text.old ++ action_more_words program.now tag action) }
{
    push_action(text, program, action)?;
    push_more(text, tag)?;
    Ok(())
}

/// Puts what has more than one event, by the cause of one of them, at the end of the text.
fn push_clash(text: &mut String, program: &Program, cause: Cause) -> Result<(), AllocError>
    ensures { OnOk result (string_bytes text.new ≡ string_bytes text.old ++ clash_words program.now cause) }
{
    match cause {
        Cause::Written { tag, port, .. } => push_port_more(text, program, tag, port),
        Cause::Scheduled { tag, action, .. } => push_action_more(text, program, tag, action),
        Cause::Given { tag, action, .. } => push_action_more(text, program, tag, action),
        // No clash has such a cause: ports and actions alone have events.
        Cause::AtStartup { .. } | Cause::AtShutdown { .. } | Cause::Fires { .. } => Ok(()),
    }
}

/// Puts what a fact says of what is wrong at the end of the text.
fn push_head(
    text: &mut String,
    program: &Program,
    rows: &[Row],
    fact: Fact,
) -> Result<(), AllocError>
    requires { length rows.now ≤ 4000000 }
    ensures { OnOk result (string_bytes text.new ≡ string_bytes text.old ++ head_words program.now rows.now fact) }
{
    match fact {
        Fact::Row(fact) => push_row_fact(text, program, rows, fact),
        // Both causes are of one port or action, so the first names it.
        Fact::Clash { first, .. } => push_clash(text, program, first),
        Fact::NoRun { tag, reaction } => push_no_run(text, program, tag, reaction),
        Fact::Runs {
            tag,
            reaction,
            start,
        } => push_runs(text, program, tag, reaction, start),
        Fact::StartsEarly {
            tag,
            earlier,
            later,
            start,
            end,
        } => push_early_race(text, program, tag, earlier, later, start, end),
        // A race before the breach isn't what is wrong either, so it stands among the details.
        _ => Ok(()),
    }
}

/// What the facts say of what is wrong.
pub(crate) fn sentence(
    alloc: Global,
    program: &Program,
    rows: &[Row],
    facts: &[Fact],
) -> Result<String, AllocError>
    requires { length rows.now ≤ 4000000 }
    ensures { IfOk result (λ text. string_bytes text ≡ the_sentence program.now rows.now facts.now) }
{
    let mut text = String::new(alloc);
    for place in 0..facts.len() {
        push_head(&mut text, program, rows, item_at(facts, place))?;
    }
    Ok(text)
}
