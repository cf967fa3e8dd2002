//! Classes of bytes, what stands at a place, and where the bytes of a class end.

ghost use Rattle.std.specs.Prelude.{◌≡◌, ◌+◌, ◌<◌, ◌≤◌, [], ◌∷◌, ◌||◌, length, slice_range, true};
ghost use Rattle.lft_lists.specs.Bytes.{within, is_in_line, is_digit, is_letter, is_word};
ghost use Rattle.lft_syntax.specs.Lexes.{Run};
ghost use Rattle.lft_tree.specs.Identifiers.{IsIdentifier};
ghost use Rattle.lft_whole.specs.{Forms.{is_gap, is_hexadecimal}, Pieces.{sees, stands, run_end}};

use lft_syntax::{digits_end, is_digit, is_letter, line_end, word_end};

/// White space between tokens: space, tab, LF, FF and CR.
fn is_gap(byte: u8) -> bool
    ensures { result ≡ is_gap byte }
{
    // No semicolon, which is white space in core texts: here it may end a reaction without code.
    byte == b' ' || byte == b'\t' || byte == b'\r' || byte == b'\n' || byte == 12
}

/// A digit, or a letter from A to F.
fn is_hexadecimal(byte: u8) -> bool
    ensures { result ≡ is_hexadecimal byte }
{
    is_digit(byte) || b'A' <= byte && byte <= b'F' || b'a' <= byte && byte <= b'f'
}

/// A byte of ASCII that prints, but for the space.
pub fn is_printable(byte: u8) -> bool
    ensures { result ≡ within 33 126 byte }
{
    b'!' <= byte && byte <= b'~'
}

/// Tells whether this byte stands at a place.
pub fn stands(text: &[u8], at: usize, byte: u8) -> bool
    ensures is { result ≡ stands (byte ∷ []) text.now at }
    ensures inside { result ≡ true → at < length text.now }
{
    match text.get(at) {
        Some(found) => *found == byte,
        None => false,
    }
}

/// Tells whether one of these two bytes stands at a place.
pub fn one_stands(text: &[u8], at: usize, first: u8, second: u8) -> bool
    ensures is { result ≡ (stands (first ∷ []) text.now at || stands (second ∷ []) text.now at) }
    ensures inside { result ≡ true → at < length text.now }
{
    stands(text, at, first) || stands(text, at, second)
}

/// Tells whether these two bytes stand at a place.
pub fn pair_stands(text: &[u8], at: usize, first: u8, second: u8) -> bool
    ensures is { result ≡ stands (first ∷ second ∷ []) text.now at }
    ensures inside { result ≡ true → at + 1 < length text.now }
{
    stands(text, at, first) && stands(text, at + 1, second)
}

/// Tells whether this byte stands at a place and at the two behind it.
pub fn three_stand(text: &[u8], at: usize, byte: u8) -> bool
    ensures is { result ≡ stands (byte ∷ byte ∷ byte ∷ []) text.now at }
    ensures inside { result ≡ true → at + 2 < length text.now }
{
    stands(text, at, byte) && pair_stands(text, at + 1, byte, byte)
}

/// Tells whether a digit stands at a place.
pub fn digit_stands(text: &[u8], at: usize) -> bool
    ensures is { result ≡ sees is_digit text.now at }
    ensures inside { result ≡ true → at < length text.now }
{
    match text.get(at) {
        Some(found) => is_digit(*found),
        None => false,
    }
}

/// Tells whether a hexadecimal digit stands at a place.
pub fn hexadecimal_stands(text: &[u8], at: usize) -> bool
    ensures is { result ≡ sees is_hexadecimal text.now at }
    ensures inside { result ≡ true → at < length text.now }
{
    match text.get(at) {
        Some(found) => is_hexadecimal(*found),
        None => false,
    }
}

/// Tells whether a letter or an underscore stands at a place.
pub fn letter_stands(text: &[u8], at: usize) -> bool
    ensures is { result ≡ sees is_letter text.now at }
    ensures inside { result ≡ true → at < length text.now }
{
    match text.get(at) {
        Some(found) => is_letter(*found),
        None => false,
    }
}

/// Tells whether white space stands at a place.
pub fn gap_stands(text: &[u8], at: usize) -> bool
    ensures is { result ≡ sees is_gap text.now at }
    ensures inside { result ≡ true → at < length text.now }
{
    match text.get(at) {
        Some(found) => is_gap(*found),
        None => false,
    }
}

/// Where the hexadecimal digits end.
fn hexadecimal_end(text: &[u8], from: usize) -> usize
    requires { from ≤ length text.now }
    ensures { Run is_hexadecimal text.now from result }
{
    let mut at = from;
    'digits: while at < text.len() && is_hexadecimal(text[at]) {
        at += 1;
    }
    at
}

/// The same, as the grammar says it.
pub fn past_hexadecimal(text: &[u8], from: usize) -> usize
    requires { from ≤ length text.now }
    ensures is { result ≡ run_end is_hexadecimal text.now from }
    ensures within { (from ≤ result) × (result ≤ length text.now) }
{
    hexadecimal_end(text, from)
}

/// Where the digits end.
pub fn past_digits(text: &[u8], from: usize) -> usize
    requires { from ≤ length text.now }
    ensures is { result ≡ run_end is_digit text.now from }
    ensures within { (from ≤ result) × (result ≤ length text.now) }
    ensures some { sees is_digit text.now from ≡ true → from < result }
{
    digits_end(text, from)
}

/// The place of the next LF, or the end of the text.
pub fn past_line(text: &[u8], from: usize) -> usize
    requires { from ≤ length text.now }
    ensures is { result ≡ run_end is_in_line text.now from }
    ensures within { (from ≤ result) × (result ≤ length text.now) }
{
    line_end(text, from)
}

/// Where the letters, digits and underscores end.
pub fn past_word(text: &[u8], from: usize) -> usize
    requires { from < length text.now }
    ensures is { result ≡ run_end is_word text.now from }
    ensures within { result ≤ length text.now }
    ensures name { sees is_letter text.now from ≡ true → (from < result) × IsIdentifier (slice_range text.now from result) }
{
    word_end(text, from)
}
