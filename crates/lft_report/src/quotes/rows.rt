//! The text of a row, as a trace table has it.

ghost use Rattle.std.specs.Prelude.{◌≡◌, ◌<◌, ◌++◌, ◌∷◌, [], length, slice_index_or, IfOk, OnOk, decimal, string_bytes};
ghost use Rattle.std.specs.List.{join_with_byte};
ghost use Rattle.lft_ir.specs.{Sound.IsNameOf, Steps.Fits.{RowFits, RowsFit, StepFits}};
ghost use Rattle.lft_trace.specs.{Traces.word, Written.{event_of, name_text, value_text, delay_text, step_fields, row_fields}};
ghost use Rattle.lft_report.specs.Quotes.Quoted.{row_text as the_row_text};

use itoa::Buffer;
use lft_ir::steps::{Row, Step, row_at};
use lft_ir::words::push_number;
use lft_ir::{Name, Program, Value};
use std::alloc::{AllocError, Global};

/// The first field of a row.
fn event(step: Step) -> &'static str
    ensures { result.now ≡ word (event_of step) }
{
    match step {
        Step::Start => "start",
        Step::Read(_, _) => "read",
        Step::Write(_, _) => "write",
        Step::Schedule(_, _, _) => "schedule",
        Step::Stop => "stop",
        Step::End => "end",
    }
}

/// Puts a comma and a number at the end of the text.
fn push_number_field(text: &mut String, number: u64) -> Result<(), AllocError>
    ensures { OnOk result (string_bytes text.new ≡ string_bytes text.old ++ (44 ∷ decimal number)) }
{
    text.push_str(",")?;
    push_number(text, number)
}

/// Puts a comma and the name of the reaction at the end of the text.
fn push_reaction(text: &mut String, program: &Program, number: u32) -> Result<(), AllocError>
    requires { number < length program.now.reactions }
    ensures { OnOk result (string_bytes text.new ≡ string_bytes text.old ++ (44 ∷ slice_index_or program.now.names.reactions number [])) }
{
    text.push_str(",")?;
    text.push_str(program.name_of_reaction(number))?;
    Ok(())
}

/// Puts a comma and the name at the end of the text.
fn push_name(text: &mut String, program: &Program, name: Name) -> Result<(), AllocError>
    requires { IsNameOf program.now name }
    ensures { OnOk result (string_bytes text.new ≡ string_bytes text.old ++ (44 ∷ name_text program.now name)) }
{
    text.push_str(",")?;
    match name {
        Name::Port(number) => text.push_str(program.name_of_port(number))?,
        Name::Action(number) => text.push_str(program.name_of_action(number))?,
    }
    Ok(())
}

/// Puts a comma and the value at the end of the text.
fn push_value(text: &mut String, value: Value) -> Result<(), AllocError>
    ensures { OnOk result (string_bytes text.new ≡ string_bytes text.old ++ (44 ∷ value_text value)) }
{
    text.push_str(",")?;
    if let Value::Int(number) = value {
        let mut buffer = Buffer::new();
        text.push_str(buffer.format(number))?;
    }
    Ok(())
}

/// Puts a comma and the delay at the end of the text.
fn push_delay(text: &mut String, delay: u64) -> Result<(), AllocError>
    ensures { OnOk result (string_bytes text.new ≡ string_bytes text.old ++ (44 ∷ delay_text delay)) }
{
    text.push_str(",")?;
    // In a table an empty delay is 0. A row keeps no text, so the shorter form is told.
    if delay != 0 {
        push_number(text, delay)?;
    }
    Ok(())
}

/// Puts commas, the name, the value and the delay of a step at the end of the text.
fn push_step(text: &mut String, program: &Program, step: Step) -> Result<(), AllocError>
    requires { StepFits program.now step }
    ensures { OnOk result (string_bytes text.new ≡ string_bytes text.old ++ (44 ∷ join_with_byte 44 (step_fields program.now step))) }
{
    match step {
        Step::Read(name, value) | Step::Write(name, value) => {
            push_name(text, program, name)?;
            push_value(text, value)?;
            push_delay(text, 0)
        }
        Step::Schedule(name, value, delay) => {
            push_name(text, program, name)?;
            push_value(text, value)?;
            push_delay(text, delay)
        }
        Step::Start | Step::Stop | Step::End => {
            // A table has these fields in each row, so they are empty here and not left out.
            text.push_str(",,,")?;
            Ok(())
        }
    }
}

/// Puts the row at the end of the text.
fn push_row(text: &mut String, program: &Program, row: Row) -> Result<(), AllocError>
    requires { RowFits program.now row }
    ensures { OnOk result (string_bytes text.new ≡ string_bytes text.old ++ join_with_byte 44 (row_fields program.now row)) }
{
    text.push_str(event(row.step))?;
    push_number_field(text, u64::from(row.worker))?;
    push_number_field(text, row.tag.time)?;
    push_number_field(text, u64::from(row.tag.micro))?;
    push_reaction(text, program, row.reaction)?;
    push_step(text, program, row.step)?;
    Ok(())
}

/// The text of the row at the place; none where there is no such row.
pub(crate) fn row_text(
    alloc: Global,
    program: &Program,
    rows: &[Row],
    place: u32,
) -> Result<String, AllocError>
    requires { RowsFit program.now rows.now }
    ensures { IfOk result (λ text. string_bytes text ≡ the_row_text program.now rows.now place) }
{
    let mut text = String::new(alloc);
    if (place as usize) < rows.len() {
        push_row(&mut text, program, row_at(rows, place as usize))?;
    }
    Ok(text)
}
