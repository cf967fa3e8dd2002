//! Where a remark, a string, a character and code end.

ghost use Rattle.std.specs.Prelude.{◌≡◌, ◌+◌, ◌<◌, ◌≤◌, [], ◌∷◌, not, ◌&&◌, length, IfSome, IfOk, IfErr};
ghost use Rattle.lft_whole.specs.{Pieces.{past, past_string, past_in_line, past_character, code_next, past_code}, inner.Pieces.QuoteNothing};

use crate::classes::{pair_stands, stands, three_stand};

/// Just past the first three such bytes in a row from a place on.
pub fn past_three(text: &[u8], from: usize, byte: u8) -> Option<usize>
    ensures is { result ≡ past (byte ∷ byte ∷ byte ∷ []) text.now from }
    ensures within { IfSome result (λ end. (from < end) × (end ≤ length text.now)) }
{
    for at in from..text.len() {
        if three_stand(text, at, byte) {
            return Some(at + 3);
        }
    }
    None
}

/// Just past the first `*/` from a place on.
pub fn past_remark(text: &[u8], from: usize) -> Option<usize>
    ensures is { result ≡ past (42 ∷ 47 ∷ []) text.now from }
    ensures within { IfSome result (λ end. (from < end) × (end ≤ length text.now)) }
{
    for at in from..text.len() {
        if pair_stands(text, at, b'*', b'/') {
            return Some(at + 2);
        }
    }
    None
}

/// Tells whether what stands at a place isn't escaped.
fn is_free(is_escaped: bool, stands: bool) -> bool
    ensures { result ≡ (not is_escaped && stands) }
{
    !is_escaped && stands
}

/// Just past the quote that ends a string whose bytes go on from a place. A backslash escapes the byte after it.
pub fn past_string(text: &[u8], from: usize) -> Option<usize>
    ensures is { result ≡ past_string (34 ∷ []) text.now from }
    ensures within { IfSome result (λ end. (from < end) × (end ≤ length text.now)) }
{
    let mut is_escaped = false;
    for at in from..text.len() {
        let is_quote = stands(text, at, b'"');
        let is_backslash = stands(text, at, b'\\');
        if is_free(is_escaped, is_quote) {
            return Some(at + 1);
        }
        // Kept from byte to byte: a look at the byte before wouldn't tell whether that is escaped itself.
        is_escaped = is_free(is_escaped, is_backslash);
    }
    None
}

/// Just past the three quotes that end a string whose bytes go on from a place.
pub fn past_long_string(text: &[u8], from: usize) -> Option<usize>
    ensures is { result ≡ past_string (34 ∷ 34 ∷ 34 ∷ []) text.now from }
    ensures within { IfSome result (λ end. (from < end) × (end ≤ length text.now)) }
{
    let mut is_escaped = false;
    for at in from..text.len() {
        // A single quote ends nothing here, so the three are looked for as one.
        let are_quotes = three_stand(text, at, b'"');
        let is_backslash = stands(text, at, b'\\');
        if is_free(is_escaped, are_quotes) {
            return Some(at + 3);
        }
        is_escaped = is_free(is_escaped, is_backslash);
    }
    None
}

/// Just past the quote that ends a string or characters on the line, whose bytes go on from a place. Where
/// none does, the place where the line ends.
pub fn past_in_line(text: &[u8], from: usize, quote: u8) -> Result<usize, usize>
    requires { from ≤ length text.now }
    ensures is { result ≡ past_in_line quote text.now from }
    ensures ok { IfOk result (λ end. (from < end) × (end ≤ length text.now)) }
    ensures err { IfErr result (λ end. (from ≤ end) × (end ≤ length text.now)) }
{
    let mut is_escaped = false;
    for at in from..text.len() {
        let is_quote = stands(text, at, quote);
        let is_end = stands(text, at, b'\n');
        let is_backslash = stands(text, at, b'\\');
        if is_free(is_escaped, is_quote) {
            return Ok(at + 1);
        }
        // A backslash before the line's end joins the next line to this one.
        if is_free(is_escaped, is_end) {
            return Err(at);
        }
        is_escaped = is_free(is_escaped, is_backslash);
    }
    Err(text.len())
}

/// Just past the quote that ends a character of one byte, or of a backslash and a byte, whose quote is at a place.
fn past_character(text: &[u8], at: usize) -> Option<usize>
    requires { at < length text.now }
    ensures is { result ≡ past_character text.now at }
    ensures within { IfSome result (λ end. (at < end) × (end ≤ length text.now)) }
{
    if stands(text, at + 1, b'\\') {
        return if stands(text, at + 3, b'\'') {
            Some(at + 4)
        } else {
            None
        };
    }
    // An apostrophe in a remark begins no character. So one byte stands between two quotes, and no more.
    let is_closed = stands(text, at + 1, b'\'');
    let is_line_end = stands(text, at + 1, b'\n');
    if is_closed || is_line_end || !stands(text, at + 2, b'\'') {
        return None;
    }
    Some(at + 3)
}

/// Where code goes on behind what stands at a place. A quote before `quoteless` begins no string: a look from an
/// earlier one passed over it and found no end. Also answered is the place before which this holds from then on.
fn past_one(text: &[u8], at: usize, quoteless: usize) -> (usize, usize)
    requires inside { at < length text.now }
    requires nothing { QuoteNothing text.now at quoteless }
    ensures next { result.0 ≡ code_next text.now at }
    ensures within { (at < result.0) × (result.0 ≤ length text.now) }
    ensures nothing { QuoteNothing text.now (at + 1) result.1 }
{
    if stands(text, at, b'"') {
        // Without this a line of escaped quotes would be gone over once for each: the square of its length.
        if at < quoteless {
            return (at + 1, quoteless);
        }
        return match past_in_line(text, at + 1, b'"') {
            Ok(end) => (end, quoteless),
            Err(end) => (at + 1, end),
        };
    }
    if stands(text, at, b'\'') {
        if let Some(end) = past_character(text, at) {
            return (end, quoteless);
        }
    }
    (at + 1, quoteless)
}

/// Just past the first `=}` from a place on that stands in no string and no character. These end on their
/// line; where one doesn't, its quote means nothing.
pub fn past_code(text: &[u8], from: usize) -> Option<usize>
    ensures is { result ≡ past_code text.now from }
    ensures within { IfSome result (λ end. (from < end) × (end ≤ length text.now)) }
{
    let mut at = from;
    // Nothing is known yet: no quote stands before the first byte of the code.
    let mut quoteless = from;
    'code: while at < text.len() {
        if pair_stands(text, at, b'=', b'}') {
            return Some(at + 2);
        }
        (at, quoteless) = past_one(text, at, quoteless);
    }
    None
}
