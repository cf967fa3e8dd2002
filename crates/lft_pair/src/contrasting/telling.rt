//! The text of contrasts.

ghost use Rattle.std.specs.Prelude.{◌≡◌, ◌++◌, IfOk, OnOk, string_bytes};
ghost use Rattle.lft_pair.specs.Words.{instance_words};
ghost use Rattle.lft_pair.specs.Told.{two_starts_words, read_words, earlier_words, earlier_runs_words, contrast_words, heading_words, told_contrasts};

use crate::contrasting::contrasts::{Contrast, Contrasts};
use crate::contrasting::table::{TableWidths, push_row, widths_of};
use lft_ir::words::{
    push_line, push_name, push_number, push_padded, push_reaction, push_tag, push_value,
};
use lft_ir::{Name, Program, Value};
use lft_lists::item_at;
use lft_tag::Tag;
use std::alloc::{AllocError, Global};

/// Puts where a run starts at the end of the text.
fn push_starts(text: &mut String, first: u32, second: u32) -> Result<(), AllocError>
    ensures { OnOk result (string_bytes text.new ≡ string_bytes text.old ++ two_starts_words first second) }
{
    text.push_str("\n  It starts in ")?;
    push_line(text, first)?;
    text.push_str(" of the first trace and in ")?;
    push_line(text, second)?;
    text.push_str(" of the second.\n")?;
    Ok(())
}

/// Puts what a run read at the end of the text.
fn push_read(
    text: &mut String,
    program: &Program,
    name: Name,
    read: Option<Value>,
) -> Result<(), AllocError>
    ensures { OnOk result (string_bytes text.new ≡ string_bytes text.old ++ read_words program.now name read) }
{
    text.push_str("  In both it read ")?;
    push_name(text, program, name)?;
    text.push_str(": ")?;
    push_value(text, read)?;
    text.push_str("\n")?;
    Ok(())
}

/// Puts the name of an instance at the end of the text; nothing for a number that is of none.
fn push_instance(text: &mut String, program: &Program, number: u32) -> Result<(), AllocError>
    ensures { OnOk result (string_bytes text.new ≡ string_bytes text.old ++ instance_words program.now number) }
{
    if (number as usize) < program.instances() {
        text.push_str(program.name_of_instance(number))?;
    }
    Ok(())
}

/// Puts how many runs of the instance stand before a run at the end of the text.
fn push_earlier(
    text: &mut String,
    program: &Program,
    instance: u32,
    count: u32,
) -> Result<(), AllocError>
    ensures { OnOk result (string_bytes text.new ≡ string_bytes text.old ++ earlier_words program.now instance count) }
{
    text.push_str("  Earlier runs of ")?;
    push_instance(text, program, instance)?;
    text.push_str(", with equal inputs in both: ")?;
    push_number(text, u64::from(count))?;
    text.push_str("\n")?;
    Ok(())
}

/// Puts how many runs are at earlier tags at the end of the text.
fn push_before(text: &mut String, count: u32) -> Result<(), AllocError>
    ensures { OnOk result (string_bytes text.new ≡ string_bytes text.old ++ earlier_runs_words count) }
{
    text.push_str("  Runs at earlier tags, the same in both: ")?;
    push_number(text, u64::from(count))?;
    text.push_str("\n")?;
    Ok(())
}

/// Puts a contrast at the end of the text.
fn push_contrast(
    alloc: Global,
    text: &mut String,
    program: &Program,
    widths: TableWidths,
    contrast: Contrast,
) -> Result<(), AllocError>
    ensures { OnOk result (string_bytes text.new ≡ string_bytes text.old ++ contrast_words program.now widths.effect widths.first contrast) }
{
    match contrast {
        Contrast::Written { .. } | Contrast::Scheduled { .. } | Contrast::Requested { .. } => {
            push_row(alloc, text, program, widths, contrast)
        }
        Contrast::Starts { first, second, .. } => push_starts(text, first, second),
        Contrast::Read { name, read, .. } => push_read(text, program, name, read),
        Contrast::Earlier {
            instance,
            count,
            ..
        } => push_earlier(text, program, instance, count),
        Contrast::Before { count, .. } => push_before(text, count),
    }
}

/// Puts which run it is, and the head of the table, at the end of the text.
fn push_heading(
    text: &mut String,
    program: &Program,
    tag: Tag,
    reaction: u32,
    widths: TableWidths,
) -> Result<(), AllocError>
    ensures { OnOk result (string_bytes text.new ≡ string_bytes text.old ++ heading_words program.now tag reaction widths.effect widths.first) }
{
    push_reaction(text, program, reaction)?;
    text.push_str(" at ")?;
    push_tag(text, tag)?;
    text.push_str(" answers otherwise in the two traces.\n\n  ")?;
    push_padded(text, widths.effect, "effect")?;
    text.push_str("  ")?;
    push_padded(text, widths.first, "first")?;
    text.push_str("  second\n")?;
    Ok(())
}

/// The text of contrasts on the reaction's runs at the tag. Names that are of nothing are written as
/// nothing, so it asks for no contrasts that hold.
pub fn tell(
    alloc: Global,
    program: &Program,
    tag: Tag,
    reaction: u32,
    contrasts: &Contrasts,
) -> Result<String, AllocError>
    ensures { IfOk result (λ text. string_bytes text ≡ told_contrasts program.now tag reaction contrasts.now) }
{
    let contrasts = contrasts.as_slice();
    let widths = widths_of(alloc, program, contrasts)?;
    let mut text = String::new(alloc);
    push_heading(&mut text, program, tag, reaction, widths)?;
    for place in 0..contrasts.len() {
        push_contrast(alloc, &mut text, program, widths, item_at(contrasts, place))?;
    }
    Ok(text)
}
