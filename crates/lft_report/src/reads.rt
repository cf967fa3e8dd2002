//! The table of what a run read of its inputs, and what is present.

ghost use Rattle.std.specs.Prelude.{◌≡◌, ◌++◌, max, IfOk, OnOk, string_bytes};
ghost use Rattle.lft_ir.specs.Words.Words.{value_words, name_words};
ghost use Rattle.lft_report.specs.Reads.{read_so, reads_so as the_reads_so, widened, widths_of, input_line, read_line, read_lines, input_lines, others_words, inputs_table as the_table};

use lft_facts::Fact;
use lft_ir::words::{push_name, push_number, push_padded, push_value};
use lft_ir::{Name, Program, Value};
use lft_lists::item_at;
use std::alloc::{AllocError, Global};

/// How wide the columns are.
#[derive(Clone, Copy, Drop)]
struct ColumnWidths {
    name: usize,
    read: usize,
    present: usize,
}

/// The name as a text.
fn name_cell(alloc: Global, program: &Program, name: Name) -> Result<String, AllocError>
    ensures { IfOk result (λ text. string_bytes text ≡ name_words program.now name) }
{
    let mut text = String::new(alloc);
    push_name(&mut text, program, name)?;
    Ok(text)
}

/// The value, or that there is none, as a text.
fn value_cell(alloc: Global, value: Option<Value>) -> Result<String, AllocError>
    ensures { IfOk result (λ text. string_bytes text ≡ value_words value) }
{
    let mut text = String::new(alloc);
    push_value(&mut text, value)?;
    Ok(text)
}

/// Puts the fact behind the others, where it is on an input that was read as it is present, or where
/// `same` is false, otherwise.
fn push_so(alloc: Global, reads: &mut Vec<Fact>, fact: Fact, same: bool) -> Result<(), AllocError>
    ensures { OnOk result (reads.new.items ≡ reads.old.items ++ read_so same fact) }
{
    if let Fact::Reads { read, present, .. } = fact {
        let read = value_cell(alloc, read)?;
        let present = value_cell(alloc, present)?;
        let wanted = if read.as_str() == present.as_str() {
            same
        } else {
            !same
        };
        if wanted {
            reads.push(fact)?;
        }
    }
    Ok(())
}

/// The facts on inputs of which that is so.
fn reads_so(alloc: Global, facts: &[Fact], same: bool) -> Result<Vec<Fact>, AllocError>
    ensures { IfOk result (λ reads. reads.items ≡ the_reads_so same facts.now) }
{
    let mut reads = Vec::new(alloc);
    for place in 0..facts.len() {
        push_so(alloc, &mut reads, item_at(facts, place), same)?;
    }
    Ok(reads)
}

/// The widths with one more line.
fn widen(
    alloc: Global,
    program: &Program,
    widths: ColumnWidths,
    fact: Fact,
) -> Result<ColumnWidths, AllocError>
    ensures { IfOk result (λ w. w ≡ widened program.now widths fact) }
{
    match fact {
        Fact::Reads {
            name,
            read,
            present,
            ..
        } => {
            let name = name_cell(alloc, program, name)?;
            let read = value_cell(alloc, read)?;
            let present = value_cell(alloc, present)?;
            Ok(ColumnWidths {
                name: widths.name.max(name.len()),
                read: widths.read.max(read.len()),
                present: widths.present.max(present.len()),
            })
        }
        _ => Ok(widths),
    }
}

/// The columns as wide as their words.
fn widest(alloc: Global, program: &Program, facts: &[Fact]) -> Result<ColumnWidths, AllocError>
    ensures { IfOk result (λ w. w ≡ widths_of program.now facts.now) }
{
    // As wide as the words over the columns: `input`, `read`, `present`.
    let mut widths = ColumnWidths {
        name: 5,
        read: 4,
        present: 7,
    };
    for place in 0..facts.len() {
        widths = widen(alloc, program, widths, item_at(facts, place))?;
    }
    Ok(widths)
}

/// Puts a line of three cells at the end of the text.
fn push_line(
    text: &mut String,
    widths: ColumnWidths,
    name: &str,
    read: &str,
    last: &str,
) -> Result<(), AllocError>
    ensures { OnOk result (string_bytes text.new ≡ string_bytes text.old ++ input_line widths name.now read.now last.now) }
{
    text.push_str("  ")?;
    push_padded(text, widths.name, name)?;
    text.push_str("  ")?;
    push_padded(text, widths.read, read)?;
    text.push_str("  ")?;
    text.push_str(last)?;
    text.push_str("\n")?;
    Ok(())
}

/// Puts the line of a fact, if it tells of an input, at the end of the text.
fn push_read(
    alloc: Global,
    text: &mut String,
    program: &Program,
    widths: ColumnWidths,
    fact: Fact,
) -> Result<(), AllocError>
    ensures { OnOk result (string_bytes text.new ≡ string_bytes text.old ++ read_line program.now widths fact) }
{
    match fact {
        Fact::Reads {
            name,
            read,
            present,
            ..
        } => {
            let name = name_cell(alloc, program, name)?;
            let read = value_cell(alloc, read)?;
            let present = value_cell(alloc, present)?;
            push_line(text, widths, name.as_str(), read.as_str(), present.as_str())
        }
        _ => Ok(()),
    }
}

/// The lines of the inputs.
fn lines(
    alloc: Global,
    program: &Program,
    widths: ColumnWidths,
    facts: &[Fact],
) -> Result<String, AllocError>
    ensures { IfOk result (λ text. string_bytes text ≡ read_lines program.now widths facts.now) }
{
    let mut text = String::new(alloc);
    for place in 0..facts.len() {
        push_read(alloc, &mut text, program, widths, item_at(facts, place))?;
    }
    Ok(text)
}

/// Puts the table of the inputs of some facts, where there are some, at the end of the text.
fn push_lines(
    alloc: Global,
    text: &mut String,
    program: &Program,
    facts: &[Fact],
) -> Result<(), AllocError>
    ensures { OnOk result (string_bytes text.new ≡ string_bytes text.old ++ input_lines program.now facts.now) }
{
    let widths = widest(alloc, program, facts)?;
    let lines = lines(alloc, program, widths, facts)?;
    // Asked of the lines: facts of another kind give none, and then no heading stands alone.
    if !lines.is_empty() {
        push_line(text, widths, "input", "read", "present")?;
        text.push_str(lines.as_str())?;
    }
    Ok(())
}

/// Puts how many other inputs there are, where there are some, at the end of the text.
fn push_others(text: &mut String, count: usize) -> Result<(), AllocError>
    ensures { OnOk result (string_bytes text.new ≡ string_bytes text.old ++ others_words count) }
{
    if count != 0 {
        text.push_str("  Other inputs, read as they are: ")?;
        push_number(text, count as u64)?;
        text.push_str("\n")?;
    }
    Ok(())
}

/// The table of the inputs that were read otherwise than they are present, and how many others there
/// are.
pub(crate) fn table(alloc: Global, program: &Program, facts: &[Fact]) -> Result<String, AllocError>
    ensures { IfOk result (λ text. string_bytes text ≡ the_table program.now facts.now) }
{
    let differing = reads_so(alloc, facts, false)?;
    let equal = reads_so(alloc, facts, true)?;
    let mut text = String::new(alloc);
    push_lines(alloc, &mut text, program, differing.as_slice())?;
    push_others(&mut text, equal.len())?;
    Ok(text)
}
