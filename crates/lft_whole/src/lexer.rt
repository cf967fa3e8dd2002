//! The tokens of a text.

ghost use Rattle.std.specs.Prelude.{◌≡◌, ◌<◌, length, Some, None, IfOk, IfErr};
ghost use Rattle.lft_whole.specs.{Pieces.{piece_at, tokens_of}, inner.{Pieces.IsRefused, Tokens.{AreTokens, IsInText, IsPiece}}};
ghost use Rattle.lft_whole.specs.declared.fault.TextFault.TheVariants.{BadText};

use crate::fault::TextFault;
use crate::piece::piece;
use lft_syntax::{Token, TokenKind, Tokens};
use std::alloc::Global;

/// The kind of the piece that begins at a place, if it is a token, and where it ends.
fn next_piece(text: &[u8], at: usize) -> Result<(Option<TokenKind>, usize), TextFault>
    requires { at < length text.now }
    ensures ok { IfOk result (λ x. (piece_at text.now at ≡ Some x) × IsPiece text.now at x.0 x.1) }
    ensures err { IfErr result (λ e. (piece_at text.now at ≡ None) × (e ≡ BadText at)) }
{
    match piece(text, at) {
        Some(found) => Ok(found),
        None => Err(TextFault::BadText(at)),
    }
}

/// The tokens of a text. It is refused at the first byte that begins none.
pub fn lex(alloc: Global, text: &[u8]) -> Result<Tokens, TextFault>
    ensures read { IfOk result (λ tokens. tokens_of text.now ≡ Ok tokens) }
    ensures refused { IfErr result (IsRefused text.now) }
    ensures tokens { IfOk result (λ tokens. AreTokens text.now tokens) }
    ensures fault { IfErr result (IsInText text.now) }
{
    let mut tokens = Vec::new(alloc);
    let mut at = 0;
    'pieces: while at < text.len() {
        let (kind, end) = next_piece(text, at)?;
        if let Some(kind) = kind {
            tokens.push(Token {
                kind,
                start: at,
                end,
            })?;
        }
        at = end;
    }
    Ok(Tokens::from_vec(tokens))
}
