//! Words of rows: their line, their tag and their value.

ghost use Rattle.std.specs.Prelude.{◌≡◌, ◌+◌, ◌++◌, OnOk, decimal, string_bytes};
ghost use Rattle.lft_ir.specs.Words.Lines.{line_words, capital_line_words, tag_at, value_of as the_value_of, value_at, reaction_at, worker_at, name_of, name_at};

use crate::steps::{Row, Step, row_at};
use crate::words::words::{push_name, push_number, push_reaction, push_tag, push_value};
use crate::{Program, Value};
use std::alloc::AllocError;

/// Puts the number of the line of the row at the place at the end of the text.
fn push_line_number(text: &mut String, place: u32) -> Result<(), AllocError>
    ensures { OnOk result (string_bytes text.new ≡ string_bytes text.old ++ decimal (place + 2)) }
{
    // Line 1 has the header, and places count from 0.
    push_number(text, u64::from(place) + 2)
}

/// Puts the line of the row at the place at the end of the text.
pub fn push_line(text: &mut String, place: u32) -> Result<(), AllocError>
    ensures { OnOk result (string_bytes text.new ≡ string_bytes text.old ++ line_words place) }
{
    text.push_str("line ")?;
    push_line_number(text, place)
}

/// Puts the line of the row at the place, at the head of a sentence, at the end of the text.
pub fn push_capital_line(text: &mut String, place: u32) -> Result<(), AllocError>
    ensures { OnOk result (string_bytes text.new ≡ string_bytes text.old ++ capital_line_words place) }
{
    text.push_str("Line ")?;
    push_line_number(text, place)
}

/// The value that a step has.
fn value_of(step: Step) -> Option<Value>
    ensures { result ≡ the_value_of step }
{
    match step {
        Step::Read(_, value) | Step::Write(_, value) | Step::Schedule(_, value, _) => Some(value),
        Step::Start | Step::Stop | Step::End => None,
    }
}

/// Puts the value of the row at the place at the end of the text.
pub fn push_value_at(text: &mut String, rows: &[Row], place: u32) -> Result<(), AllocError>
    ensures { OnOk result (string_bytes text.new ≡ string_bytes text.old ++ value_at rows.now place) }
{
    // Who tells a fact needn't know that it is true, so there may be no such row.
    if (place as usize) < rows.len() {
        push_value(text, value_of(row_at(rows, place as usize).step))?;
    }
    Ok(())
}

/// Puts the tag of the row at the place at the end of the text.
pub fn push_tag_at(text: &mut String, rows: &[Row], place: u32) -> Result<(), AllocError>
    ensures { OnOk result (string_bytes text.new ≡ string_bytes text.old ++ tag_at rows.now place) }
{
    if (place as usize) < rows.len() {
        push_tag(text, row_at(rows, place as usize).tag)?;
    }
    Ok(())
}

/// Puts the reaction of the row at the place at the end of the text.
pub fn push_reaction_at(
    text: &mut String,
    program: &Program,
    rows: &[Row],
    place: u32,
) -> Result<(), AllocError>
    ensures { OnOk result (string_bytes text.new ≡ string_bytes text.old ++ reaction_at program.now rows.now place) }
{
    if (place as usize) < rows.len() {
        push_reaction(text, program, row_at(rows, place as usize).reaction)?;
    }
    Ok(())
}

/// Puts the worker of the row at the place at the end of the text.
pub fn push_worker_at(text: &mut String, rows: &[Row], place: u32) -> Result<(), AllocError>
    ensures { OnOk result (string_bytes text.new ≡ string_bytes text.old ++ worker_at rows.now place) }
{
    if (place as usize) < rows.len() {
        push_number(text, u64::from(row_at(rows, place as usize).worker))?;
    }
    Ok(())
}

/// Puts the name that a step has, if it has one, at the end of the text.
fn push_name_of(text: &mut String, program: &Program, step: Step) -> Result<(), AllocError>
    ensures { OnOk result (string_bytes text.new ≡ string_bytes text.old ++ name_of program.now step) }
{
    match step {
        Step::Read(name, _) | Step::Write(name, _) | Step::Schedule(name, _, _) => {
            push_name(text, program, name)
        }
        Step::Start | Step::Stop | Step::End => Ok(()),
    }
}

/// Puts the name in the row at the place at the end of the text.
pub fn push_name_at(
    text: &mut String,
    program: &Program,
    rows: &[Row],
    place: u32,
) -> Result<(), AllocError>
    ensures { OnOk result (string_bytes text.new ≡ string_bytes text.old ++ name_at program.now rows.now place) }
{
    if (place as usize) < rows.len() {
        push_name_of(text, program, row_at(rows, place as usize).step)?;
    }
    Ok(())
}
