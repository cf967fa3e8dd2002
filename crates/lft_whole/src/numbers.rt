//! Numbers.

ghost use Rattle.std.specs.Prelude.{◌≡◌, ◌<◌, ◌≤◌, ◌+◌, length, true, slice_range, Some};
ghost use Rattle.lft_lists.specs.Bytes.{is_digit};
ghost use Rattle.lft_whole.specs.Pieces.{sees, sees_fraction, past_exponent, past_decimal, digit_value, number_of, begins_hexadecimal, whole_number, number_at};
ghost use Rattle.lft_whole.specs.inner.Tokens.{IsPiece};

use crate::classes::{
    digit_stands, hexadecimal_stands, one_stands, pair_stands, past_digits, past_hexadecimal,
    stands,
};
use lft_syntax::TokenKind;

/// Where an exponent ends whose `e` would stand at a place; that place where none does.
#[tactic(auto, unfolding(crate::specs::Pieces::past_exponent))]
fn exponent_end(text: &[u8], at: usize) -> usize
    requires { at ≤ length text.now }
    ensures is { result ≡ past_exponent text.now at }
    ensures within { (at ≤ result) × (result ≤ length text.now) }
{
    if !one_stands(text, at, b'e', b'E') {
        return at;
    }
    // Without a digit behind it the `e` is no part of the number: it begins a word.
    if digit_stands(text, at + 1) {
        return past_digits(text, at + 1);
    }
    if one_stands(text, at + 1, b'+', b'-') && digit_stands(text, at + 2) {
        return past_digits(text, at + 2);
    }
    at
}

/// Where a decimal number ends whose point stands at a place, with digits after it.
#[tactic(auto, unfolding(crate::specs::Pieces::past_decimal))]
pub fn decimal_end(text: &[u8], point: usize) -> usize
    requires { point < length text.now }
    ensures is { result ≡ past_decimal text.now point }
    ensures within { (point < result) × (result ≤ length text.now) }
{
    let end = exponent_end(text, past_digits(text, point + 1));
    // So C and C++ write a number of single precision.
    if one_stands(text, end, b'f', b'F') {
        end + 1
    } else {
        end
    }
}

/// The value of a hexadecimal digit.
fn hexadecimal(byte: u8) -> u64
    ensures is { result ≡ digit_value byte }
    ensures small { result < 16 }
{
    // No caller asks for a byte that isn't a digit.
    if b'0' <= byte && byte <= b'9' {
        (byte - b'0') as u64
    } else if b'a' <= byte && byte <= b'f' {
        (byte - b'a' + 10) as u64
    } else if b'A' <= byte && byte <= b'F' {
        (byte - b'A' + 10) as u64
    } else {
        0
    }
}

/// The number that these digits write to a base, or 2^64 - 1 where it is larger.
fn number(text: &[u8], from: usize, end: usize, base: u64) -> u64
    requires order { from ≤ end }
    requires within { end ≤ length text.now }
    requires base { (0 < base) × (base ≤ 16) }
    ensures { result ≡ number_of base (slice_range text.now from end) }
{
    let mut number: u64 = 0;
    for at in from..end {
        let digit = hexadecimal(text[at]);
        // Asked before the product, which could overflow. A number this long
        // isn't refused here: each use of one has a limit.
        if number > (u64::MAX - digit) / base {
            return u64::MAX;
        }
        number = number * base + digit;
    }
    number
}

/// Tells whether a hexadecimal number begins at a place.
fn begins_hexadecimal(text: &[u8], at: usize) -> bool
    ensures is { result ≡ begins_hexadecimal text.now at }
    ensures inside { result ≡ true → at + 2 < length text.now }
{
    (pair_stands(text, at, b'0', b'x') || pair_stands(text, at, b'0', b'X'))
        && hexadecimal_stands(text, at + 2)
}

/// The number without a point and an exponent that begins at a place, whose decimal digits end at another.
#[tactic(auto, unfolding(crate::specs::Pieces::whole_number))]
fn whole_number(text: &[u8], at: usize, end: usize) -> (TokenKind, usize)
    requires { (at < end) × (end ≤ length text.now) }
    ensures is { result ≡ whole_number text.now at end }
    ensures piece { IsPiece text.now at (Some result.0) result.1 }
{
    if begins_hexadecimal(text, at) {
        let last = past_hexadecimal(text, at + 2);
        return (TokenKind::Number(number(text, at + 2, last, 16)), last);
    }
    (TokenKind::Number(number(text, at, end, 10)), end)
}

/// Tells whether a point with a digit behind it stands at a place.
pub fn point_stands(text: &[u8], at: usize) -> bool
    ensures is { result ≡ sees_fraction text.now at }
    ensures inside { result ≡ true → at + 1 < length text.now }
{
    stands(text, at, b'.') && digit_stands(text, at + 1)
}

/// The number that begins with the digit at a place, and where it ends.
#[tactic(auto, unfolding(crate::specs::Pieces::number_at))]
pub fn number_piece(text: &[u8], at: usize) -> (TokenKind, usize)
    requires inside { at < length text.now }
    requires digit { sees is_digit text.now at ≡ true }
    ensures is { result ≡ number_at text.now at }
    ensures piece { IsPiece text.now at (Some result.0) result.1 }
{
    let end = past_digits(text, at);
    // A point without a digit behind it is a token of its own.
    if point_stands(text, end) {
        return (TokenKind::Decimal, decimal_end(text, end));
    }
    let exponent = exponent_end(text, end);
    if exponent > end {
        return (TokenKind::Decimal, exponent);
    }
    whole_number(text, at, end)
}
