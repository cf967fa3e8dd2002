//! One piece of the text: white space, a remark or a token.

ghost use Rattle.std.specs.Prelude.{◌<◌, ◌≤◌, ◌≡◌, ◌||◌, ◌-◌, ◌+◌, [], ◌∷◌, codes, length, is_some, IfSome};
ghost use Rattle.lft_whole.specs.{Pieces.{first, stands, symbol_at, characters_at, past_long_remark, quote_at, string_end, piece_at}, inner.Tokens.IsPiece};

use crate::classes::{
    digit_stands, gap_stands, is_printable, letter_stands, pair_stands, past_line, past_word,
    stands, three_stand,
};
use crate::numbers::{decimal_end, number_piece, point_stands};
use crate::quotes::{
    past_code, past_in_line, past_long_string, past_remark, past_string, past_three,
};
use lft_syntax::TokenKind;

/// A symbol, or nothing where the byte is none.
#[tactic(auto, unfolding(crate::specs::Pieces::symbol_at))]
fn symbol_piece(text: &[u8], at: usize) -> Option<(Option<TokenKind>, usize)>
    requires { at < length text.now }
    ensures is { result ≡ symbol_at text.now at }
    ensures piece { IfSome result (λ x. IsPiece text.now at x.0 x.1) }
{
    // Pairs first: `-` and `~` are symbols by themselves.
    if pair_stands(text, at, b'-', b'>') {
        return Some((Some(TokenKind::Arrow), at + 2));
    }
    if pair_stands(text, at, b'~', b'>') {
        return Some((Some(TokenKind::TildeArrow), at + 2));
    }
    let byte = text[at];
    if is_printable(byte) {
        Some((Some(TokenKind::Symbol(byte)), at + 1))
    } else {
        None
    }
}

/// Whether the quote of a character stands between two places.
fn has_quote(text: &[u8], from: usize, end: usize) -> bool
    requires { end ≤ length text.now }
    ensures { result ≡ is_some (first (stands (39 ∷ []) text.now) (end - from) from) }
{
    for at in from..end {
        if stands(text, at, b'\'') {
            return true;
        }
    }
    false
}

/// Characters in quotes on the line, or their quote alone. Where they aren't closed, an escaped quote behind it is
/// refused: so no line is looked at twice.
#[tactic(auto, unfolding(crate::specs::Pieces::characters_at))]
fn character_piece(text: &[u8], at: usize) -> Option<(Option<TokenKind>, usize)>
    requires { at < length text.now }
    ensures is { result ≡ characters_at text.now at }
    ensures piece { IfSome result (λ x. IsPiece text.now at x.0 x.1) }
{
    match past_in_line(text, at + 1, b'\'') {
        Ok(end) => Some((Some(TokenKind::Text), end)),
        Err(end) => {
            if has_quote(text, at + 1, end) {
                return None;
            }
            symbol_piece(text, at)
        }
    }
}

/// Just past the remark between `'''` that begins at a place, if one does and is closed.
fn past_long_remark(text: &[u8], at: usize) -> Option<usize>
    requires { at < length text.now }
    ensures is { result ≡ past_long_remark text.now at }
    ensures within { IfSome result (λ end. (at < end) × (end ≤ length text.now)) }
{
    if three_stand(text, at, b'\'') {
        past_three(text, at + 3, b'\'')
    } else {
        None
    }
}

/// What begins with the quote of a character: a remark between `'''`, or characters.
#[tactic(auto, unfolding(crate::specs::Pieces::quote_at))]
fn quote_piece(text: &[u8], at: usize) -> Option<(Option<TokenKind>, usize)>
    requires { at < length text.now }
    ensures is { result ≡ quote_at text.now at }
    ensures piece { IfSome result (λ x. IsPiece text.now at x.0 x.1) }
{
    match past_long_remark(text, at) {
        Some(end) => Some((None, end)),
        None => character_piece(text, at),
    }
}

/// Just past a string between quotes or between `"""`.
#[tactic(auto, unfolding(crate::specs::Pieces::string_end))]
fn string_end(text: &[u8], at: usize) -> Option<usize>
    requires { at < length text.now }
    ensures is { result ≡ string_end text.now at }
    ensures within { IfSome result (λ end. (at < end) × (end ≤ length text.now)) }
{
    // Three are asked for first: two alone are an empty string.
    if three_stand(text, at, b'"') {
        past_long_string(text, at + 3)
    } else {
        past_string(text, at + 1)
    }
}

/// Tells whether a remark up to the end of the line begins here.
fn is_line_remark(text: &[u8], at: usize) -> bool
    ensures { result ≡ (stands (codes "#") text.now at || stands (codes "//") text.now at) }
{
    stands(text, at, b'#') || pair_stands(text, at, b'/', b'/')
}

/// The kind of the piece that begins at a place, if it is a token, and where it ends. Nothing where it begins
/// nothing, or isn't closed.
#[tactic(auto, unfolding(crate::specs::Pieces::piece_at))]
pub fn piece(text: &[u8], at: usize) -> Option<(Option<TokenKind>, usize)>
    requires { at < length text.now }
    ensures is { result ≡ piece_at text.now at }
    ensures piece { IfSome result (λ x. IsPiece text.now at x.0 x.1) }
{
    if gap_stands(text, at) {
        return Some((None, at + 1));
    }
    if is_line_remark(text, at) {
        return Some((None, past_line(text, at + 1)));
    }
    if pair_stands(text, at, b'/', b'*') {
        return Some((None, past_remark(text, at + 2)?));
    }
    if pair_stands(text, at, b'{', b'=') {
        return Some((Some(TokenKind::Code), past_code(text, at + 2)?));
    }
    if stands(text, at, b'"') {
        return Some((Some(TokenKind::Text), string_end(text, at)?));
    }
    if stands(text, at, b'\'') {
        return quote_piece(text, at);
    }
    if letter_stands(text, at) {
        return Some((Some(TokenKind::Name), past_word(text, at)));
    }
    if digit_stands(text, at) {
        let (kind, end) = number_piece(text, at);
        return Some((Some(kind), end));
    }
    if point_stands(text, at) {
        return Some((Some(TokenKind::Decimal), decimal_end(text, at)));
    }
    // Last, since what begins a remark, code or a string is a printable byte too.
    symbol_piece(text, at)
}
