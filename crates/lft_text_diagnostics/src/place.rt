//! Places of a text, by line and column.

ghost use Rattle.std.specs.Prelude.{◌≡◌, ◌≤◌, length, count_by};
ghost use Rattle.lft_text_diagnostics.specs.Places.{is_feed, begins_letter, BeginsLine, EndsLineAt, IsPlace};

/// Where a byte of a text stands, for people.
#[derive(Clone, Copy)]
pub struct LineColumn {
    /// The number of its line, the first being 1.
    pub line: usize,
    /// How many letters stand before it in its line, and 1. A letter of several bytes counts once.
    pub column: usize,
    /// Where its line begins, in bytes from 0.
    pub start: usize,
    /// Where its line ends: at a line feed, or at the end of the text.
    pub end: usize,
}

/// How many line feeds stand in the bytes.
fn line_feeds(bytes: &[u8]) -> usize
    ensures { result ≡ count_by is_feed bytes.now }
{
    bytes.iter().filter(|byte| **byte == b'\n').count()
}

/// Whether a letter of UTF-8 begins with the byte.
pub fn begins_letter(byte: u8) -> bool
    ensures { result ≡ begins_letter byte }
{
    // In UTF-8 these are the bytes of a letter behind its first.
    !(128 <= byte && byte <= 191)
}

/// How many letters begin in the bytes.
pub(crate) fn letters(bytes: &[u8]) -> usize
    ensures { result ≡ count_by begins_letter bytes.now }
{
    bytes.iter().filter(|byte| begins_letter(**byte)).count()
}

/// Where the line of the byte begins.
fn line_start(text: &[u8], at: usize) -> usize
    requires { at ≤ length text.now }
    ensures { BeginsLine text.now result at }
{
    for before in (0..at).rev() {
        if text[before] == b'\n' {
            return before + 1;
        }
    }
    0
}

/// Where the line of the byte ends.
fn line_end(text: &[u8], at: usize) -> usize
    requires { at ≤ length text.now }
    ensures { EndsLineAt text.now at result }
{
    for end in at..text.len() {
        if text[end] == b'\n' {
            return end;
        }
    }
    text.len()
}

/// The place of a byte, or of the end of the text.
pub fn place_of(text: &[u8], at: usize) -> LineColumn
    requires { at ≤ length text.now }
    ensures { IsPlace text.now at result }
{
    // Counted from the start of the text: this is asked of few bytes, and of refused texts alone.
    let start = line_start(text, at);
    LineColumn {
        line: line_feeds(&text[..at]) + 1,
        column: letters(&text[start..at]) + 1,
        start,
        end: line_end(text, at),
    }
}
