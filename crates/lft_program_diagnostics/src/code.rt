//! Whether some code of a program's text has some bytes.

ghost use Rattle.std.specs.Prelude.{◌≡◌, ◌↔◌, ◌+◌, ◌<◌, ◌≤◌, IfSome, IsSome, IsTrue, length, slice_range};
ghost use Rattle.lft_program_diagnostics.specs.inner.Codes.{HasCodeWith, IsCodeWith, StandsIn};

use lft_syntax::{Token, TokenKind};

/// The bytes of a token.
fn spelling(text: &[u8], token: Token) -> Option<&[u8]>
    ensures some { IfSome result (λ bytes. bytes.now ≡ slice_range text.now token.start token.end) }
    ensures inside { IsSome result ↔ ((token.start ≤ token.end) × (token.end ≤ length text.now)) }
{
    if token.start <= token.end && token.end <= text.len() {
        Some(&text[token.start..token.end])
    } else {
        None
    }
}

/// Whether the bytes stand in the text at the place.
fn stands_at(text: &[u8], bytes: &[u8], place: usize) -> bool
    requires { place < length text.now }
    ensures { IsTrue result ↔ (slice_range text.now place (place + length bytes.now) ≡ bytes.now) }
{
    // Asked of what is left, as a sum could pass the greatest number.
    if text.len() - place < bytes.len() {
        return false;
    }
    let there = &text[place..place + bytes.len()];
    there == bytes
}

/// Whether the bytes stand somewhere in the text.
fn holds(text: &[u8], bytes: &[u8]) -> bool
    ensures { IsTrue result ↔ StandsIn text.now bytes.now }
{
    // It is asked for one short word, so it costs as much as the text.
    for start in 0..text.len() {
        if stands_at(text, bytes, start) {
            return true;
        }
    }
    false
}

/// Whether the token is code with those bytes.
fn is_code_with(text: &[u8], token: Token, word: &[u8]) -> bool
    ensures { IsTrue result ↔ IsCodeWith text.now word.now token }
{
    match spelling(text, token) {
        Some(spelled) => token.kind == TokenKind::Code && holds(spelled, word),
        None => false,
    }
}

/// Whether some code among the tokens of the text has those bytes.
pub(crate) fn has_code_with(text: &[u8], tokens: &[Token], word: &[u8]) -> bool
    ensures { IsTrue result ↔ HasCodeWith text.now tokens.now word.now }
{
    for at in 0..tokens.len() {
        if is_code_with(text, tokens[at], word) {
            return true;
        }
    }
    false
}
