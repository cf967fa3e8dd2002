//! The tokens of a text, one at a time.

ghost use Rattle.std.specs.Prelude.{◌≡◌, ℕ, ◌≤◌, length, slice_get, slice_range, IsAscii, Some};
ghost use Rattle.lft_syntax.specs.{inner.Seen.seen_as, View.lexeme_of, declared.token.{Token.Token, TokenKind.TheVariants.Name}};

use crate::token::{Token, TokenKind};
use std::alloc::Global;

/// What is seen of a token.
#[derive(Clone, Copy)]
pub enum Seen<'a> {
    Code,
    Text,
    Letters(&'a [u8]),
    Number(u64),
    Decimal,
    Arrow,
    TildeArrow,
    Symbol(u8),
}

impl<'a> Seen<'a> {
    /// What is seen of a token of a text.
    pub fn of(text: &'a [u8], token: Token) -> Seen<'a>
        requires { (token.start ≤ token.end) × (token.end ≤ length text.now) }
        ensures { seen_as result ≡ lexeme_of text.now token }
    {
        match token.kind {
            TokenKind::Code => Seen::Code,
            TokenKind::Text => Seen::Text,
            TokenKind::Name => Seen::Letters(&text[token.start..token.end]),
            TokenKind::Number(n) => Seen::Number(n),
            TokenKind::Decimal => Seen::Decimal,
            TokenKind::Arrow => Seen::Arrow,
            TokenKind::TildeArrow => Seen::TildeArrow,
            TokenKind::Symbol(b) => Seen::Symbol(b),
        }
    }
}

/// A text with its tokens, which lie in it. Names are ASCII.
#[derive(Drop)]
pub struct Input<'a> {
    pub alloc: Global,
    pub text: &'a [u8],
    pub tokens: &'a [Token],
    ghost in_text: { (i : ℕ) (t : Token) → slice_get tokens.now i ≡ Some t → (t.start ≤ t.end) × (t.end ≤ length text.now) },
    ghost names: { (i : ℕ) (t : Token) → slice_get tokens.now i ≡ Some t → t.kind ≡ Name → IsAscii (slice_range text.now t.start t.end) },
}
