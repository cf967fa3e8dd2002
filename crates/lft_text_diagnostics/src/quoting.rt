//! A place of a program's text for people: its line and column, and the line with a mark.

ghost use Rattle.std.specs.Prelude.{◌≡◌, ◌≤◌, ◌++◌, OnOk, length, min, string_bytes};
ghost use Rattle.lft_text_diagnostics.specs.Places.{IsPlace};
ghost use Rattle.lft_text_diagnostics.specs.Quotes.{blank_margin, blanks_below, marked_line, marks, program_place_words, quote, quoted, trimmed};

use crate::place::LineColumn;
use crate::words::{
    push_blank_margin, push_blanks_below, push_bytes, push_margin, push_marks, quoted_text,
};
use lft_ir::words::push_number;
use lft_tag::NoMemory;
use std::alloc::Global;

/// A line of more bytes isn't quoted.
pub(crate) const LONGEST_LINE: usize = 200;

/// Puts the line and the column behind the text.
pub fn push_place(out: &mut String, place: LineColumn) -> Result<(), NoMemory>
    ensures { OnOk result (string_bytes out.new ≡ string_bytes out.old ++ program_place_words place) }
{
    out.push_str("Program, line ")?;
    push_number(out, place.line as u64)?;
    out.push_str(", column ")?;
    push_number(out, place.column as u64)?;
    out.push_str(": ")?;
    Ok(())
}

/// A line without blanks at its end, such as the carriage return of CR LF.
fn trimmed(line: &[u8]) -> &[u8]
    ensures { result.now ≡ trimmed line.now }
{
    line.trim_ascii_end()
}

/// Puts a mark below a line of that number behind the text, at the bytes that follow those before, as
/// they are quoted.
fn push_below(
    alloc: Global,
    out: &mut String,
    number: usize,
    before: &[u8],
    marked: &[u8],
) -> Result<(), NoMemory>
    ensures { OnOk result (string_bytes out.new ≡ string_bytes out.old ++ (blank_margin number ++ blanks_below (quoted before.now) ++ marks (quoted marked.now))) }
{
    let before = quoted_text(alloc, before)?;
    let marked = quoted_text(alloc, marked)?;
    push_blank_margin(out, number)?;
    push_blanks_below(out, before.as_bytes())?;
    push_marks(out, marked.as_bytes())
}

/// Puts a line of that number behind the text, and below it a mark at the bytes that follow those before.
pub(crate) fn push_quote(
    alloc: Global,
    out: &mut String,
    number: usize,
    line: &[u8],
    before: &[u8],
    marked: &[u8],
) -> Result<(), NoMemory>
    ensures { OnOk result (string_bytes out.new ≡ string_bytes out.old ++ quote number line.now before.now marked.now) }
{
    push_margin(out, number)?;
    push_bytes(alloc, out, line)?;
    push_below(alloc, out, number, before, marked)?;
    out.push_str("\n")?;
    Ok(())
}

/// Puts the line of a place behind the text, and below it a mark at the bytes from there up to the end. A
/// long line isn't quoted.
pub fn push_line(
    alloc: Global,
    out: &mut String,
    text: &[u8],
    place: LineColumn,
    start: usize,
    end: usize,
) -> Result<(), NoMemory>
    requires place { IsPlace text.now start place }
    requires inside { (start ≤ end) × (end ≤ length text.now) }
    ensures { OnOk result (string_bytes out.new ≡ string_bytes out.old ++ marked_line text.now place start end) }
{
    if LONGEST_LINE < place.end - place.start {
        return Ok(());
    }
    // Code may go on over many lines. Only the first is quoted, and the mark ends with it.
    let last = end.min(place.end);
    push_quote(
        alloc,
        out,
        place.line,
        trimmed(&text[place.start..place.end]),
        &text[place.start..start],
        &text[start..last],
    )
}
