//! The tokens of a text.

ghost use Rattle.std.specs.Prelude.{◌≡◌, ◌<◌, ◌≤◌, ◌⊎◌, List, length, IfOk, IfErr, IfSome, IfNone, OnOk, Err};
ghost use Rattle.lft_syntax.specs.{declared.{token.Token.Token, fault.LexFault.TheVariants.TooLong}, Lexes.{Lexes, LexFails, IsRefusedAt}};

use crate::fault::LexFault;
use crate::piece::piece;
use crate::token::{Token, Tokens};
use std::alloc::Global;

/// The greatest length of a program text, in bytes.
// It bounds each place in a text, so no sum of places overflows.
pub const MAX_LENGTH: usize = 1_048_576;

/// The tokens of a program text. A text that is too long is refused as such, whatever stands in
/// it; any other by the fault that begins at its least byte.
pub fn lex(alloc: Global, text: &[u8]) -> Result<Tokens, LexFault>
    ensures tokens { IfOk result (λ v. Lexes text.now v × ((other : List Token) → Lexes text.now other → other ≡ v)) }
    ensures short { OnOk result (length text.now ≤ 1048576) }
    ensures too_long { 1048576 < length text.now → result ≡ Err TooLong }
    ensures fault { IfErr result (λ e. LexFails text.now e) }
{
    if text.len() > MAX_LENGTH {
        return Err(LexFault::TooLong);
    }
    let mut tokens = Vec::new(alloc);
    let mut at = 0;
    'pieces: while at < text.len() {
        let (kind, end) = piece(text, at)?;
        if let Some(kind) = kind {
            tokens.push(Token {
                kind,
                start: at,
                end,
            })?;
        }
        // A piece has one byte at least, so the text comes to its end.
        at = end;
    }
    Ok(Tokens::from_vec(tokens))
}

/// Where a text stops being tokens, if it does: the byte that begins none, the first digit of a number
/// that is too large, or the first of the bytes that open what isn't closed. A text of more than
/// `MAX_LENGTH` bytes is refused as a whole, and so nowhere.
pub fn refused_at(text: &[u8]) -> Option<usize>
    ensures some { IfSome result (IsRefusedAt text.now) }
    ensures none { IfNone result ((1048576 < length text.now) ⊎ ((tokens : List Token) × Lexes text.now tokens)) }
{
    if MAX_LENGTH < text.len() {
        return None;
    }
    // The pieces are cut once more: the faults of `lex` for what isn't closed carry no place.
    let mut at = 0;
    'pieces: while at < text.len() {
        match piece(text, at) {
            Ok((_, end)) => at = end,
            Err(_) => return Some(at),
        }
    }
    None
}
