//! The text of facts.

ghost use Rattle.std.specs.Prelude.{◌≡◌, ◌++◌, IfOk, OnOk, string_bytes};
ghost use Rattle.lft_ir.specs.Steps.Fits.{RowsFit};
ghost use Rattle.lft_report.specs.Told.{fact_words, details as the_details, part as the_part, told};

use crate::causes::push_cause;
use crate::orders::{push_declared, push_feeds, push_precedes, push_race};
use crate::quotes::quote;
use crate::reads::table;
use crate::reasons::push_reason;
use crate::runs::{push_absent, push_count, push_trigger_of};
use crate::sentences::sentence;
use crate::shortening::push_shown;
use lft_facts::{Fact, Facts};
use lft_ir::Program;
use lft_ir::steps::{Row, Rows};
use lft_lists::item_at;
use lft_tag::NoMemory;
use std::alloc::{AllocError, Global};

/// Puts a fact at the end of the text.
fn push_fact(
    alloc: Global,
    text: &mut String,
    program: &Program,
    rows: &[Row],
    fact: Fact,
) -> Result<(), NoMemory>
    requires { RowsFit program.now rows.now }
    ensures { OnOk result (string_bytes text.new ≡ string_bytes text.old ++ fact_words program.now rows.now fact) }
{
    match fact {
        // The sentence, the table and the quoted rows tell these.
        Fact::RowIs { .. }
        | Fact::Row(_)
        | Fact::NoRun { .. }
        | Fact::Runs { .. }
        | Fact::Reads { .. } => {}
        Fact::Cause(cause) => push_cause(alloc, text, program, rows, cause)?,
        Fact::Clash { first, second, .. } => {
            push_cause(alloc, text, program, rows, first)?;
            push_cause(alloc, text, program, rows, second)?;
        }
        Fact::HasTrigger { reaction, trigger } => {
            push_trigger_of(text, program, reaction, trigger)?
        }
        Fact::TriggerCount { reaction, count } => push_count(text, program, reaction, count)?,
        Fact::Untriggered { tag, trigger, .. } => push_absent(text, program, tag, trigger)?,
        Fact::StartsEarly { earlier, later, .. } => push_precedes(text, program, earlier, later)?,
        Fact::Race {
            tag,
            earlier,
            later,
            start,
            end,
        } => {
            push_race(text, program, tag, earlier, later, start, end)?;
            push_precedes(text, program, earlier, later)?;
        }
        Fact::DeclaredFirst { first, second } => push_declared(text, program, first, second)?,
        Fact::Feeds {
            writer,
            reader,
            port,
        } => push_feeds(text, program, writer, reader, port)?,
        Fact::Reason(reason) => push_reason(alloc, text, program, rows, reason)?,
    }
    Ok(())
}

/// What the facts say beside what is wrong, one after another.
fn details(
    alloc: Global,
    program: &Program,
    rows: &[Row],
    facts: &[Fact],
) -> Result<String, NoMemory>
    requires { RowsFit program.now rows.now }
    ensures { IfOk result (λ text. string_bytes text ≡ the_details program.now rows.now facts.now) }
{
    let mut text = String::new(alloc);
    for place in 0..facts.len() {
        push_fact(alloc, &mut text, program, rows, item_at(facts, place))?;
    }
    Ok(text)
}

/// Puts what is printed of a part at the end of the text, behind an empty line, where there is such a part.
fn push_part(alloc: Global, text: &mut Vec<u8>, part: &[u8], all: bool) -> Result<(), AllocError>
    ensures { OnOk result (text.new.items ≡ text.old.items ++ the_part all part.now) }
{
    if !part.is_empty() {
        text.push(b'\n')?;
        push_shown(alloc, text, part, all)?;
    }
    Ok(())
}

/// The text of facts: what is wrong, what was read, the rows that they name, and what else they say. Names
/// that are of nothing are written as nothing, so it asks for no facts that are true.
pub fn tell(
    alloc: Global,
    program: &Program,
    rows: &Rows,
    facts: &Facts,
    all: bool,
) -> Result<Vec<u8>, NoMemory>
    requires { RowsFit program.now rows.now }
    ensures { IfOk result (λ text. text.items ≡ told all program.now rows.now facts.now) }
{
    let rows = rows.as_slice();
    let facts = facts.as_slice();
    let sentence = sentence(alloc, program, rows, facts)?;
    let mut text = Vec::from_slice(alloc, sentence.as_bytes())?;
    let table = table(alloc, program, facts)?;
    push_part(alloc, &mut text, table.as_bytes(), all)?;
    let quotes = quote(alloc, program, rows, facts)?;
    push_part(alloc, &mut text, quotes.as_bytes(), all)?;
    let details = details(alloc, program, rows, facts)?;
    push_part(alloc, &mut text, details.as_bytes(), all)?;
    Ok(text)
}
