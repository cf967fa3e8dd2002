//! The parser: a function for each production, from a place to a value and the place after it.

ghost use Rattle.std.specs.Prelude.{◌≡◌, ℕ, ◌<◌, ◌≤◌, ◌+◌, List, length, take, IfOk, Err, IsAscii, true, false};
ghost use Rattle.lft_tree.specs.{Identifiers.HasIdentifiers, Tree.FileTree, View.tree_view};
ghost use Rattle.lft_syntax.specs.{Lexes.Lexes, Lexeme.Lexeme, Grammar.{Spells, BeginsTree, CanFollow}, inner.Seen.{seen_as, letters_ascii}};
ghost use Rattle.lft_syntax.specs.{View.{lexemes, lexeme_from}, Placed.FileStands};
ghost use Rattle.lft_syntax.specs.declared.fault.SyntaxFault as SyntaxFault;

mod declarations;
mod file;
mod groups;
mod instances;
mod members;
mod names;
mod reactions;
mod reactors;
mod references;
mod times;
mod tokens;
mod types;
mod values;

use crate::fault::SyntaxFault;
use crate::input::{Input, Seen};
use crate::parse_error::ParseError;
use crate::token::{Token, TokenKind, Tokens};
use lft_tree::Ast;
pub use names::{is_reserved_word, text_of};
use std::alloc::{AllocError, Global};
pub use times::unit_named;

/// The tree of a program text, from the text and its tokens. Where they spell none, the fault has
/// the number of the first token, counted from 1, at which no tree can be spelled any more.
pub fn parse(alloc: Global, text: &[u8], tokens: &Tokens) -> Result<Ast, SyntaxFault>
    requires lexed { Lexes text.now tokens.now }
    ensures tree { IfOk result (λ t. Spells (tree_view t) (lexemes text.now tokens.now) × ((other : FileTree) → Spells other (lexemes text.now tokens.now) → other ≡ tree_view t)) }
    ensures places { IfOk result (λ t. FileStands (lexemes text.now tokens.now) t.target t.items.items) }
    ensures identifiers { IfOk result (λ t. HasIdentifiers (tree_view t)) }
    ensures unexpected { (k : ℕ) → result ≡ Err (SyntaxFault.Unexpected k) → (0 < k) × (k ≤ length tokens.now + 1) × ((others : List Lexeme) (tree : FileTree) → take k others ≡ take k (lexemes text.now tokens.now) → Spells tree others → ⊥) }
    ensures begun { (before : ℕ) → result ≡ Err (SyntaxFault.Unexpected (before + 1)) → BeginsTree (take before (lexemes text.now tokens.now)) }
{
    let input = Input {
        alloc,
        text,
        tokens: tokens.as_slice(),
    };
    match file::whole(&input) {
        Ok(content) => Ok(Ast {
            target: content.target,
            items: content.items,
        }),
        Err(ParseError::Memory) => Err(SyntaxFault::NoMemory),
        Err(ParseError::Unexpected(at)) => Err(SyntaxFault::Unexpected(at + 1)),
    }
}

/// The kind of a token, and its letters if it has some.
fn kind_and_letters<'a>(token: Seen<'a>) -> (TokenKind, &'a [u8])
    requires ascii { letters_ascii token }
    ensures same { lexeme_from result.0 result.1.now ≡ seen_as token.entry }
    ensures letters { IsAscii result.1.now }
{
    match token {
        Seen::Code => (TokenKind::Code, b""),
        Seen::Text => (TokenKind::Text, b""),
        Seen::Letters(letters) => (TokenKind::Name, letters),
        Seen::Number(number) => (TokenKind::Number(number), b""),
        Seen::Decimal => (TokenKind::Decimal, b""),
        Seen::Arrow => (TokenKind::Arrow, b""),
        Seen::TildeArrow => (TokenKind::TildeArrow, b""),
        Seen::Symbol(byte) => (TokenKind::Symbol(byte), b""),
    }
}

/// Whether a token can stand behind the first `count` tokens of a text, in place of the next.
pub fn can_stand(
    alloc: Global,
    text: &[u8],
    tokens: &Tokens,
    count: usize,
    token: Seen<'_>,
) -> Result<bool, AllocError>
    requires lexed { Lexes text.now tokens.now }
    requires count { count ≤ length tokens.now }
    requires ascii { letters_ascii token }
    ensures can { IfOk result (λ can. can ≡ true → CanFollow (take count (lexemes text.now tokens.now)) (seen_as token.entry)) }
    ensures cannot { IfOk result (λ can. can ≡ false → CanFollow (take count (lexemes text.now tokens.now)) (seen_as token.entry) → ⊥) }
{
    let (kind, letters) = kind_and_letters(token);
    // A token is a range of its text, so the letters of the tried one are put behind the text.
    let mut longer = Vec::from_slice(alloc, text)?;
    longer.extend_from_slice(letters)?;
    let mut tried = Vec::from_slice(alloc, &tokens.as_slice()[..count])?;
    tried.push(Token {
        kind,
        start: text.len(),
        end: longer.len(),
    })?;
    let input = Input {
        alloc,
        text: longer.as_slice(),
        tokens: tried.as_slice(),
    };
    match file::whole(&input) {
        Ok(_) => Ok(true),
        Err(ParseError::Memory) => Err(AllocError),
        // The tried token is the last. A refusal behind it says only that the text ends too soon.
        Err(ParseError::Unexpected(at)) => Ok(count < at),
    }
}
