//! What is left out of the language and stands in the text behind the place at which it is refused.

ghost use Rattle.std.specs.Prelude.{◌≡◌, ◌++◌, ℕ, List, OnOk, string_bytes};
ghost use Rattle.lft_text_diagnostics.specs.Candidates.{IsLeftOut};

use crate::before::Before;
use crate::place::place_of;
use crate::ways::of_word;
use crate::words::push_bytes;
use lft_ir::words::push_number;
use lft_syntax::{Token, TokenKind, Tokens};
use lft_tag::NoMemory;
use std::alloc::Global;

/// More words aren't listed.
const MOST_WORDS: usize = 10;

/// Whether a name like others stands behind what is spelled so.
fn leads_to_name(spelling: &[u8]) -> bool {
    matches!(
        spelling,
        b"input"
            | b"output"
            | b"timer"
            | b"action"
            | b"state"
            | b"new"
            | b"reactor"
            | b"reaction"
            | b"after"
            | b"target"
            | b"."
            | b","
            | b":"
            | b"="
            | b"("
    )
}

impl<'a> Before<'a> {
    /// The token behind the next one.
    fn second(&self) -> Option<Token> {
        let place = self.count.checked_add(1)?;
        self.tokens.as_slice().get(place).copied()
    }

    /// Whether the next token is a word that is left out. The words are no reserved ones: what is declared so
    /// is a name like others, and the tokens beside it tell.
    fn leads_to_word(&self) -> bool {
        let word = self.spelling(1);
        let is_name = leads_to_name(word) || of_word(word).is_some();
        if is_name || of_word(self.spelling(0)).is_none() {
            return false;
        }
        match self.second() {
            Some(token) => match token.kind {
                // Names that stand before a `(` follow one of the words above, as in `timer mode(`.
                TokenKind::Symbol(b'(') => true,
                TokenKind::Name | TokenKind::Text | TokenKind::Symbol(b'{') => {
                    // Behind an arrow it may end a connection, and the name behind it be the next member.
                    word != b"->".as_slice()
                }
                // As a handler, which stands between the reaction's code and its own.
                TokenKind::Code => match self.token(1) {
                    Some(token) => token.kind == TokenKind::Code,
                    None => false,
                },
                _ => false,
            },
            None => false,
        }
    }

    /// Whether the next token is a sign that begins what is left out.
    fn leads_to_sign(&self) -> bool {
        match self.spelling(0) {
            b"@" => self.second().is_some(),
            b"[" => matches!(self.spelling(1), b"input" | b"output" | b"new"),
            b"<" => self.is(2, "reactor"),
            b"~" => match self.second() {
                Some(token) => token.kind == TokenKind::Symbol(b'>'),
                None => false,
            },
            _ => false,
        }
    }
}

/// The tokens from a byte on with which something begins that is left out.
fn left_out(
    alloc: Global,
    text: &[u8],
    tokens: &Tokens,
    from: usize,
) -> Result<Vec<Token>, NoMemory> {
    let mut found = Vec::new(alloc);
    for count in 0..tokens.as_slice().len() {
        let before = Before {
            alloc,
            text,
            tokens,
            count,
        };
        let token = tokens.as_slice()[count];
        if token.start >= from && (before.leads_to_word() || before.leads_to_sign()) {
            found.push(token)?;
        }
    }
    Ok(found)
}

/// Puts the line, the column and the spelling of a token behind the text.
fn push_found(alloc: Global, out: &mut String, text: &[u8], token: Token) -> Result<(), NoMemory> {
    // No clause says here that the tokens are of this text.
    let place = place_of(text, token.start.min(text.len()));
    out.push_str("    line ")?;
    push_number(out, place.line as u64)?;
    out.push_str(", column ")?;
    push_number(out, place.column as u64)?;
    out.push_str(": `")?;
    push_bytes(alloc, out, text.get(token.start..token.end).unwrap_or(b""))?;
    out.push_str("`\n")?;
    Ok(())
}

/// A line for each token that was found, up to the greatest number of them.
fn lines(alloc: Global, text: &[u8], found: &[Token]) -> Result<String, NoMemory> {
    let mut out = String::new(alloc);
    for place in 0..found.len() {
        if place == MOST_WORDS {
            out.push_str("    and ")?;
            push_number(&mut out, (found.len() - MOST_WORDS) as u64)?;
            out.push_str(" more\n")?;
            return Ok(out);
        }
        push_found(alloc, &mut out, text, found[place])?;
    }
    Ok(out)
}

/// Puts what is left out from a byte of the text on behind the text, each with its line and column, and how
/// many more there are than are told.
pub(crate) fn push_left_out(
    alloc: Global,
    out: &mut String,
    text: &[u8],
    tokens: &Tokens,
    from: usize,
) -> Result<(), NoMemory>
    ensures { OnOk result ((more : List ℕ) × IsLeftOut more × (string_bytes out.new ≡ string_bytes out.old ++ more)) }
{
    let found = left_out(alloc, text, tokens, from)?;
    if found.is_empty() {
        return Ok(());
    }
    let lines = lines(alloc, text, &found)?;
    out.push_str("  Further on these are left out:\n")?;
    out.push_str(lines.as_str())?;
    Ok(())
}
