//! The words of the table: which effect, and what the two runs answered for it.

ghost use Rattle.std.specs.Prelude.{◌≡◌, ◌++◌, IfOk, OnOk, string_bytes};
ghost use Rattle.lft_pair.specs.Words.{schedulings_before_words, effect_words, write_words, scheduling_words, request_words, first_words, second_words};

use crate::contrasting::contrasts::{Contrast, LastWrite, Scheduling};
use lft_ir::Program;
use lft_ir::words::{push_action, push_line, push_number, push_port, push_time, push_value};
use std::alloc::{AllocError, Global};

/// Puts how many schedulings stand before one at the end of the text, if there are any.
fn push_place(text: &mut String, place: usize) -> Result<(), AllocError>
    ensures { OnOk result (string_bytes text.new ≡ string_bytes text.old ++ schedulings_before_words place) }
{
    if place != 0 {
        text.push_str(" (")?;
        push_number(text, place as u64)?;
        text.push_str(" before)")?;
    }
    Ok(())
}

/// Puts the effect at the end of the text.
fn push_effect(text: &mut String, program: &Program, contrast: Contrast) -> Result<(), AllocError>
    ensures { OnOk result (string_bytes text.new ≡ string_bytes text.old ++ effect_words program.now contrast) }
{
    match contrast {
        Contrast::Written { port, .. } => push_port(text, program, port)?,
        Contrast::Scheduled { action, place, .. } => {
            push_action(text, program, action)?;
            push_place(text, place)?;
        }
        Contrast::Requested { .. } => text.push_str("stop request")?,
        Contrast::Starts { .. }
        | Contrast::Read { .. }
        | Contrast::Earlier { .. }
        | Contrast::Before { .. } => {}
    }
    Ok(())
}

/// Puts a write at the end of the text.
fn push_write(text: &mut String, write: Option<LastWrite>) -> Result<(), AllocError>
    ensures { OnOk result (string_bytes text.new ≡ string_bytes text.old ++ write_words write) }
{
    match write {
        None => text.push_str("not written")?,
        Some(write) => {
            push_value(text, Some(write.value))?;
            text.push_str(" in ")?;
            push_line(text, write.row)?;
        }
    }
    Ok(())
}

/// Puts a scheduling at the end of the text.
fn push_scheduling(text: &mut String, scheduling: Option<Scheduling>) -> Result<(), AllocError>
    ensures { OnOk result (string_bytes text.new ≡ string_bytes text.old ++ scheduling_words scheduling) }
{
    match scheduling {
        None => text.push_str("not scheduled")?,
        Some(scheduling) => {
            push_value(text, Some(scheduling.value))?;
            text.push_str(" in ")?;
            push_line(text, scheduling.row)?;
            text.push_str(", extra delay ")?;
            push_time(text, scheduling.delay)?;
        }
    }
    Ok(())
}

/// Puts a stop request at the end of the text.
fn push_request(text: &mut String, request: Option<u32>) -> Result<(), AllocError>
    ensures { OnOk result (string_bytes text.new ≡ string_bytes text.old ++ request_words request) }
{
    match request {
        None => text.push_str("not requested")?,
        Some(row) => {
            text.push_str("requested in ")?;
            push_line(text, row)?;
        }
    }
    Ok(())
}

/// Puts what the first run answered at the end of the text.
fn push_first(text: &mut String, contrast: Contrast) -> Result<(), AllocError>
    ensures { OnOk result (string_bytes text.new ≡ string_bytes text.old ++ first_words contrast) }
{
    match contrast {
        Contrast::Written { first, .. } => push_write(text, first),
        Contrast::Scheduled { first, .. } => push_scheduling(text, first),
        Contrast::Requested { first, .. } => push_request(text, first),
        Contrast::Starts { .. }
        | Contrast::Read { .. }
        | Contrast::Earlier { .. }
        | Contrast::Before { .. } => Ok(()),
    }
}

/// Puts what the second run answered at the end of the text.
pub(crate) fn push_second(text: &mut String, contrast: Contrast) -> Result<(), AllocError>
    ensures { OnOk result (string_bytes text.new ≡ string_bytes text.old ++ second_words contrast) }
{
    // The last column isn't padded, so it needs no text of its own.
    match contrast {
        Contrast::Written { second, .. } => push_write(text, second),
        Contrast::Scheduled { second, .. } => push_scheduling(text, second),
        Contrast::Requested { second, .. } => push_request(text, second),
        Contrast::Starts { .. }
        | Contrast::Read { .. }
        | Contrast::Earlier { .. }
        | Contrast::Before { .. } => Ok(()),
    }
}

/// The effect.
pub(crate) fn effect_cell(
    alloc: Global,
    program: &Program,
    contrast: Contrast,
) -> Result<String, AllocError>
    ensures { IfOk result (λ cell. string_bytes cell ≡ effect_words program.now contrast) }
{
    let mut cell = String::new(alloc);
    push_effect(&mut cell, program, contrast)?;
    Ok(cell)
}

/// What the first run answered.
pub(crate) fn first_cell(alloc: Global, contrast: Contrast) -> Result<String, AllocError>
    ensures { IfOk result (λ cell. string_bytes cell ≡ first_words contrast) }
{
    let mut cell = String::new(alloc);
    push_first(&mut cell, contrast)?;
    Ok(cell)
}
