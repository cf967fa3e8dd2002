//! The text of quoted rows.

ghost use Rattle.std.specs.Prelude.{◌≡◌, ◌++◌, length, IfOk, OnOk, string_bytes};
ghost use Rattle.lft_ir.specs.Steps.Fits.{RowsFit};
ghost use Rattle.lft_report.specs.Quotes.Quoted.{line_number, quote_width as the_width_of, widened, widths_of, quote_line, quote_words, gap_words, lines, quoted_rows};

use crate::quotes::marks::{Quote, RowMark};
use crate::quotes::picking::pick;
use crate::quotes::rows::row_text;
use itoa::Buffer;
use lft_facts::Fact;
use lft_ir::Program;
use lft_ir::steps::Row;
use lft_ir::words::{push_blanks, push_fill, push_padded};
use lft_lists::item_at;
use std::alloc::{AllocError, Global};

/// How wide line numbers and rows are written.
#[derive(Clone, Copy, Drop)]
struct QuoteWidths {
    line: usize,
    row: usize,
}

/// The width that a row asks for: none where it is longer than 200 bytes.
fn width_of(text: &str) -> usize
    ensures { result ≡ the_width_of text.now }
{
    // All rows are padded to the widest. One long name would be paid for by each of them.
    if text.len() <= 200 { text.len() } else { 0 }
}

/// How many digits the line number of the row at the place has.
fn digits(place: u32) -> usize
    ensures { result ≡ length (line_number place) }
{
    let mut buffer = Buffer::new();
    // Line 1 has the header, and places count from 0.
    buffer.format(u64::from(place) + 2).len()
}

/// The widths with one more row.
fn widen(
    alloc: Global,
    program: &Program,
    rows: &[Row],
    widths: QuoteWidths,
    quote: Quote,
) -> Result<QuoteWidths, AllocError>
    requires { RowsFit program.now rows.now }
    ensures { IfOk result (λ w. w ≡ widened program.now rows.now widths quote) }
{
    let text = row_text(alloc, program, rows, quote.row)?;
    Ok(QuoteWidths {
        line: widths.line.max(digits(quote.row)),
        row: widths.row.max(width_of(text.as_str())),
    })
}

/// The greatest width of the line numbers, and of the rows.
fn greatest(
    alloc: Global,
    program: &Program,
    rows: &[Row],
    quotes: &[Quote],
) -> Result<QuoteWidths, AllocError>
    requires { RowsFit program.now rows.now }
    ensures { IfOk result (λ w. w ≡ widths_of program.now rows.now quotes.now) }
{
    let mut widths = QuoteWidths { line: 0, row: 0 };
    for place in 0..quotes.len() {
        widths = widen(alloc, program, rows, widths, item_at(quotes, place))?;
    }
    Ok(widths)
}

/// Puts the line of a quote at the end of the text.
fn push_line(
    text: &mut String,
    widths: QuoteWidths,
    number: &str,
    row: &str,
    mark: RowMark,
) -> Result<(), AllocError>
    ensures { OnOk result (string_bytes text.new ≡ string_bytes text.old ++ quote_line widths number.now row.now mark) }
{
    text.push_str("  ")?;
    push_fill(text, widths.line, number)?;
    text.push_str(number)?;
    text.push_str(" | ")?;
    push_padded(text, widths.row, row)?;
    text.push_str("  ")?;
    text.push_str(mark.words())?;
    text.push_str("\n")?;
    Ok(())
}

/// Puts the quote at the end of the text.
fn push_quote(
    alloc: Global,
    text: &mut String,
    program: &Program,
    rows: &[Row],
    widths: QuoteWidths,
    quote: Quote,
) -> Result<(), AllocError>
    requires { RowsFit program.now rows.now }
    ensures { OnOk result (string_bytes text.new ≡ string_bytes text.old ++ quote_words program.now rows.now widths quote) }
{
    let row = row_text(alloc, program, rows, quote.row)?;
    let mut buffer = Buffer::new();
    let number = buffer.format(u64::from(quote.row) + 2);
    push_line(text, widths, number, row.as_str(), quote.mark)?;
    Ok(())
}

/// Puts that rows are left out before the quote, if they are, at the end of the text.
fn push_gap(
    text: &mut String,
    widths: QuoteWidths,
    before: Option<Quote>,
    quote: Quote,
) -> Result<(), AllocError>
    ensures { OnOk result (string_bytes text.new ≡ string_bytes text.old ++ gap_words widths before quote) }
{
    if let Some(before) = before {
        // In 64 bits, since the greatest number of 32 bits has one behind it.
        if u64::from(before.row) + 1 < u64::from(quote.row) {
            push_blanks(text, widths.line)?;
            text.push_str("   ..\n")?;
        }
    }
    Ok(())
}

/// The lines of the quotes, one after another.
fn lines_of(
    alloc: Global,
    program: &Program,
    rows: &[Row],
    widths: QuoteWidths,
    quotes: &[Quote],
) -> Result<String, AllocError>
    requires { RowsFit program.now rows.now }
    ensures { IfOk result (λ text. string_bytes text ≡ lines program.now rows.now widths None quotes.now) }
{
    let mut text = String::new(alloc);
    let mut before = None;
    for place in 0..quotes.len() {
        let quote = item_at(quotes, place);
        push_gap(&mut text, widths, before, quote)?;
        push_quote(alloc, &mut text, program, rows, widths, quote)?;
        before = Some(quote);
    }
    Ok(text)
}

/// The rows that facts name, a line each, in order. It takes time for each two of them.
pub fn quote(
    alloc: Global,
    program: &Program,
    rows: &[Row],
    facts: &[Fact],
) -> Result<String, AllocError>
    requires { RowsFit program.now rows.now }
    ensures { IfOk result (λ text. string_bytes text ≡ quoted_rows program.now rows.now facts.now) }
{
    let quotes = pick(alloc, facts)?;
    let widths = greatest(alloc, program, rows, quotes.as_slice())?;
    lines_of(alloc, program, rows, widths, quotes.as_slice())
}
