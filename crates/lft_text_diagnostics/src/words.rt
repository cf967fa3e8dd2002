//! Pieces of the text that tells of a refusal.

ghost use Rattle.std.specs.Prelude.{◌≡◌, ◌++◌, IfOk, OnOk, flat_map, option_map, string_bytes};
ghost use Rattle.std.specs.Char.{encode_utf8, Escape.escape_unicode};
ghost use Rattle.lft_text_diagnostics.specs.Quotes.{blank_below, blank_margin, blanks_below, is_format as is_of_format, margin, marks, quoted, letter_shown, way_through_words};

use crate::place::{begins_letter, letters};
use itoa::Buffer;
use lft_ir::words::{push_blanks, push_number};
use lft_tag::NoMemory;
use std::alloc::Global;

/// Whether the letter isn't seen, or decides how others are seen: what stands between letters without a
/// width, what turns the direction of writing, what ends a line for some, the byte order mark, tags.
pub fn is_format(letter: char) -> bool
    ensures { result ≡ is_of_format letter }
{
    let code = letter as u32;
    (0x200b <= code && code <= 0x200f)
        || (0x2028 <= code && code <= 0x202e)
        || (0x2060 <= code && code <= 0x206f)
        || code == 0xfeff
        || 0xe0000 <= code
}

/// Puts the letter's escape behind the text, as `\u{202e}`.
fn push_escape(out: &mut String, letter: char) -> Result<(), NoMemory>
    ensures { OnOk result (string_bytes out.new ≡ string_bytes out.old ++ flat_map encode_utf8 (escape_unicode letter)) }
{
    for sign in letter.escape_unicode() {
        out.push(sign)?;
    }
    Ok(())
}

/// Puts a letter behind the text, or what stands for it where it isn't to reach a terminal.
fn push_letter(out: &mut String, letter: char) -> Result<(), NoMemory>
    ensures { OnOk result (string_bytes out.new ≡ string_bytes out.old ++ flat_map encode_utf8 (letter_shown letter)) }
{
    if is_format(letter) {
        push_escape(out, letter)?;
    } else if letter.is_control() && letter != '\t' {
        out.push('\u{fffd}')?;
    } else {
        out.push(letter)?;
    }
    Ok(())
}

/// Puts bytes of a text behind it. What is no UTF-8, and control characters but tabs, are replaced, and
/// format characters are escaped, so that a quoted text can't speak to a terminal, and looks as it is.
pub fn push_bytes(alloc: Global, out: &mut String, bytes: &[u8]) -> Result<(), NoMemory>
    ensures { OnOk result (string_bytes out.new ≡ string_bytes out.old ++ quoted bytes.now) }
{
    let words = String::from_utf8_lossy(alloc, bytes)?;
    for letter in words.chars() {
        push_letter(out, letter)?;
    }
    Ok(())
}

/// The bytes of a text as they are quoted.
pub fn quoted_text(alloc: Global, bytes: &[u8]) -> Result<String, NoMemory>
    ensures { IfOk result (λ text. string_bytes text ≡ quoted bytes.now) }
{
    let mut text = String::new(alloc);
    push_bytes(alloc, &mut text, bytes)?;
    Ok(text)
}

/// Puts what stands below a byte behind the text.
fn push_blank(out: &mut String, byte: u8) -> Result<(), NoMemory>
    ensures { OnOk result (string_bytes out.new ≡ string_bytes out.old ++ blank_below byte) }
{
    // A tab is as wide below as above, whatever a terminal makes of it.
    if byte == b'\t' {
        out.push_str("\t")?;
    } else if begins_letter(byte) {
        out.push_str(" ")?;
    }
    Ok(())
}

/// Puts a blank for each letter of the bytes behind the text, and a tab for a tab, so that what follows
/// stands below what follows the bytes.
pub fn push_blanks_below(out: &mut String, bytes: &[u8]) -> Result<(), NoMemory>
    ensures { OnOk result (string_bytes out.new ≡ string_bytes out.old ++ blanks_below bytes.now) }
{
    for place in 0..bytes.len() {
        push_blank(out, bytes[place])?;
    }
    Ok(())
}

/// Puts a mark for each letter of the bytes behind the text, and one at least.
pub fn push_marks(out: &mut String, bytes: &[u8]) -> Result<(), NoMemory>
    ensures { OnOk result (string_bytes out.new ≡ string_bytes out.old ++ marks bytes.now) }
{
    let count = letters(bytes).max(1);
    for _mark in 0..count {
        out.push_str("^")?;
    }
    Ok(())
}

/// Puts what stands before a quoted line behind the text: the number of the line.
pub fn push_margin(out: &mut String, line: usize) -> Result<(), NoMemory>
    ensures { OnOk result (string_bytes out.new ≡ string_bytes out.old ++ margin line) }
{
    out.push_str("\n  ")?;
    push_number(out, line as u64)?;
    out.push_str(" | ")?;
    Ok(())
}

/// Puts as many blanks behind the text as the margin of that line has letters.
pub fn push_blank_margin(out: &mut String, line: usize) -> Result<(), NoMemory>
    ensures { OnOk result (string_bytes out.new ≡ string_bytes out.old ++ blank_margin line) }
{
    // Five blanks: two stand before the number of a line, and ` | ` behind it.
    out.push_str("\n     ")?;
    let mut buffer = Buffer::new();
    push_blanks(out, buffer.format(line as u64).len())?;
    Ok(())
}

/// Puts a way out behind the text, where there is one.
pub fn push_way(out: &mut String, way: Option<&'static str>) -> Result<(), NoMemory>
    ensures { OnOk result (string_bytes out.new ≡ string_bytes out.old ++ way_through_words (option_map (λ w. w.now) way.entry)) }
{
    if let Some(words) = way {
        out.push_str("  ")?;
        out.push_str(words)?;
        out.push_str("\n")?;
    }
    Ok(())
}
