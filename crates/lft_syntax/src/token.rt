//! Tokens.

use std::marker::Model;

/// What a token is. A number and a symbol's byte are kept, the rest is read from the text. A core text has no
/// decimal numbers and no `~>`.
#[derive(Clone, Copy, Debug, PartialEq, Eq)]
pub enum TokenKind {
    /// From `{=` to `=}`.
    Code,
    /// A string; in a whole text also a character.
    Text,
    /// A word, reserved or not.
    Name,
    /// A whole number. In a whole text one from 2^64 on counts as 2^64 - 1.
    Number(u64),
    /// A number with a point or an exponent.
    Decimal,
    /// `->`
    Arrow,
    /// `~>`
    TildeArrow,
    Symbol(u8),
}

/// A token: the bytes of the text from `start` up to, without, `end`, counted from 0.
#[derive(Clone, Copy, Debug, PartialEq, Eq)]
pub struct Token {
    pub kind: TokenKind,
    pub start: usize,
    pub end: usize,
}

/// The tokens of a text in order.
#[derive(Debug, Drop)]
pub struct Tokens {
    items: Vec<Token>,
}

impl Model for Tokens {
    ghost use Rattle.std.specs.Prelude.{List};
    ghost use Rattle.lft_syntax.specs.declared.token.Token.{Token};

    ghost Value = { List Token };

    ghost view = { λ a. a.items.items };
}

impl Tokens {
    ghost use Rattle.std.specs.Prelude.{◌≡◌};

    /// The list of these tokens. It takes no memory.
    pub fn from_vec(items: Vec<Token>) -> Tokens
        ensures { result ≡ items.items }
    {
        Tokens { items }
    }

    /// The tokens in order.
    pub fn as_slice(&self) -> &[Token]
        ensures { result.now ≡ self.now }
    {
        self.items.as_slice()
    }
}
