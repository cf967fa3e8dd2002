//! One piece of the text: white space, a comment or a token.

ghost use Rattle.std.specs.Prelude.{◌≡◌, ℕ, ◌+◌, ◌<◌, ◌≤◌, ◌^◌, length, slice_index, IfOk, IfErr, IfSome, IfNone, Some, true};
ghost use Rattle.lft_lists.specs.Bytes.{is_in_line, is_word, is_digit};
ghost use Rattle.lft_syntax.specs.Lexes.{PastPair, Run, Quoted, value, Reads, IsFault, Piece, FaultAt};

use crate::fault::LexFault;
use crate::form::{Form, is_byte, is_digit, is_in_line, is_word};
use crate::token::TokenKind;

/// The kind of the piece that begins at a place, if it is a token, and where it ends.
pub fn piece(text: &[u8], at: usize) -> Result<(Option<TokenKind>, usize), LexFault>
    requires inside { at < length text.now }
    requires short { length text.now ≤ 1048576 }
    ensures piece { IfOk result (λ x. Piece text.now at x.0 x.1) }
    ensures fault { IfErr result (λ e. FaultAt text.now at e) }
{
    let byte = text[at];
    extent(text, at, byte, Form::of(byte, text.get(at + 1).copied()))
}

/// The kind of a piece of this form that begins at a place with this byte, and where it ends.
pub fn extent(
    text: &[u8],
    at: usize,
    byte: u8,
    form: Form,
) -> Result<(Option<TokenKind>, usize), LexFault>
    requires inside { at < length text.now }
    requires short { length text.now ≤ 1048576 }
    ensures reads { IfOk result (λ x. Reads text.now at byte form x.1 x.0) }
    ensures fault { IfErr result (λ e. IsFault text.now at form e) }
{
    match form {
        Form::Space => Ok((None, at + 1)),
        Form::LineComment => Ok((None, line_end(text, at))),
        // Looked for behind both bytes of the opening, so `/*/` isn't closed.
        Form::StarComment => match past_pair(text, at + 2, b'*', b'/') {
            Some(end) => Ok((None, end)),
            None => Err(LexFault::OpenComment),
        },
        Form::Code => match past_pair(text, at + 2, b'=', b'}') {
            Some(end) => Ok((Some(TokenKind::Code), end)),
            None => Err(LexFault::OpenCode),
        },
        // A string may have line ends in it, so nothing but its quote ends it.
        Form::Text => match quoted_end(text, at + 1) {
            Some(end) => Ok((Some(TokenKind::Text), end)),
            None => Err(LexFault::OpenString),
        },
        Form::Name => Ok((Some(TokenKind::Name), word_end(text, at))),
        Form::Digits => {
            // Letters behind digits begin a token of their own: `10ms` has the tokens of `10 ms`.
            let end = digits_end(text, at);
            match number(text, at, end) {
                Some(value) => Ok((Some(TokenKind::Number(value)), end)),
                None => Err(LexFault::NumberTooLarge(at)),
            }
        }
        Form::Arrow => Ok((Some(TokenKind::Arrow), at + 2)),
        Form::Symbol => Ok((Some(TokenKind::Symbol(byte)), at + 1)),
        Form::Unknown => Err(LexFault::BadChar(at)),
    }
}

/// The place of the next LF, or the end of the text.
pub fn line_end(text: &[u8], from: usize) -> usize
    requires { from ≤ length text.now }
    ensures { Run is_in_line text.now from result }
{
    let mut at = from;
    'line: while at < text.len() && is_in_line(text[at]) {
        at += 1;
    }
    at
}

/// Where the letters, digits and underscores end.
pub fn word_end(text: &[u8], from: usize) -> usize
    requires { from ≤ length text.now }
    ensures { Run is_word text.now from result }
{
    let mut at = from;
    'word: while at < text.len() && is_word(text[at]) {
        at += 1;
    }
    at
}

/// Where the digits end.
pub fn digits_end(text: &[u8], from: usize) -> usize
    requires { from ≤ length text.now }
    ensures { Run is_digit text.now from result }
{
    let mut at = from;
    'digits: while at < text.len() && is_digit(text[at]) {
        at += 1;
    }
    at
}

/// Just past the first two such bytes, if they stand anywhere from a place on.
pub fn past_pair(text: &[u8], from: usize, first: u8, second: u8) -> Option<usize>
    requires { length text.now ≤ 1048576 }
    ensures some { IfSome result (λ j. PastPair first second text.now from j) }
    ensures none { IfNone result ((j : ℕ) → PastPair first second text.now from j → ⊥) }
{
    for at in from..text.len() {
        if text[at] == first && is_byte(second, text.get(at + 1).copied()) {
            return Some(at + 2);
        }
    }
    None
}

/// Just past the quote that ends a string whose bytes go on from a place, if one does.
pub fn quoted_end(text: &[u8], from: usize) -> Option<usize>
    requires { from ≤ length text.now }
    ensures some { IfSome result (λ j. Quoted text.now from j) }
    ensures none { IfNone result ((j : ℕ) → Quoted text.now from j → ⊥) }
{
    let mut at = from;
    'quoted: while at < text.len() {
        let byte = text[at];
        if byte == b'"' {
            return Some(at + 1);
        }
        // The byte behind it is passed over with it, so an escaped quote ends nothing.
        if byte == b'\\' {
            if at + 1 == text.len() {
                return None;
            }
            at += 2;
        } else {
            at += 1;
        }
    }
    None
}

/// The number that the digits from a place up to another write, if it is below 2^64.
pub fn number(text: &[u8], from: usize, end: usize) -> Option<u64>
    requires order { from ≤ end }
    requires within { end ≤ length text.now }
    requires digits { (k : ℕ) → from ≤ k → k < end → is_digit (slice_index text.now k) ≡ true }
    ensures some { IfSome result (λ n. n ≡ value text.now from end) }
    ensures fits { IfSome result (λ n. value text.now from end < 2 ^ 64) }
    ensures none { IfNone result (2 ^ 64 ≤ value text.now from end) }
{
    let mut number: u64 = 0;
    for at in from..end {
        let digit = (text[at] - b'0') as u64;
        // Asked before the product, which could overflow.
        if number > (u64::MAX - digit) / 10 {
            return None;
        }
        number = number * 10 + digit;
    }
    Some(number)
}
