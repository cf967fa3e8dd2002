//! What is wrong where a program's text is refused.

ghost use Rattle.std.specs.Prelude.{◌≡◌, ◌≤◌, ◌++◌, OnOk, length, slice_range, string_bytes};
ghost use Rattle.lft_text_diagnostics.specs.{Quotes.spelled_bytes, Told.{fault_words, standing_words, token_words, why_words}};

use crate::refusal::{TextCause, TextRefusal};
use crate::words::push_bytes;
use lft_syntax::{LexFault, TokenKind};
use lft_tag::NoMemory;
use std::alloc::Global;

/// A token of more bytes isn't quoted.
const LONGEST_TOKEN: usize = 40;

/// What is said of a text that ends before its tree does.
pub const TOO_SOON: &str = "the text ends too soon.";

/// What a fault of tokens says of the place.
fn lex_words(fault: LexFault) -> &'static str
    ensures { result.now ≡ fault_words fault }
{
    match fault {
        LexFault::BadChar(_) => "no token begins so.",
        LexFault::OpenComment => "this comment is never closed.",
        LexFault::OpenCode => "this code is never closed.",
        LexFault::OpenString => "this string is never closed.",
        LexFault::NumberTooLarge(_) => "this number is too large.",
        LexFault::TooLong => "the text is too long.",
        LexFault::NoMemory => "memory was refused.",
    }
}

/// Puts the bytes of a token behind the text, if they aren't too many.
pub(crate) fn push_spelled(alloc: Global, out: &mut String, spelling: &[u8]) -> Result<(), NoMemory>
    ensures { OnOk result (string_bytes out.new ≡ string_bytes out.old ++ spelled_bytes spelling.now) }
{
    if spelling.len() > LONGEST_TOKEN {
        out.push_str("this")?;
        return Ok(());
    }
    out.push_str("`")?;
    push_bytes(alloc, out, spelling)?;
    out.push_str("`")?;
    Ok(())
}

/// Puts the token behind the text: its spelling, or what it is.
fn push_token(
    alloc: Global,
    out: &mut String,
    kind: TokenKind,
    spelling: &[u8],
) -> Result<(), NoMemory>
    ensures { OnOk result (string_bytes out.new ≡ string_bytes out.old ++ token_words kind spelling.now) }
{
    match kind {
        TokenKind::Code => {
            out.push_str("this code")?;
            Ok(())
        }
        TokenKind::Text => {
            out.push_str("this string")?;
            Ok(())
        }
        _ => push_spelled(alloc, out, spelling),
    }
}

/// Puts what is said of a token that can't stand where it is behind the text.
pub fn push_standing(
    alloc: Global,
    out: &mut String,
    kind: TokenKind,
    spelling: &[u8],
) -> Result<(), NoMemory>
    ensures { OnOk result (string_bytes out.new ≡ string_bytes out.old ++ standing_words kind spelling.now) }
{
    push_token(alloc, out, kind, spelling)?;
    out.push_str(" can't stand here.")?;
    Ok(())
}

/// Puts what is wrong behind the text.
pub(crate) fn push_sentence(
    alloc: Global,
    out: &mut String,
    text: &[u8],
    refusal: TextRefusal,
) -> Result<(), NoMemory>
    requires { (refusal.start ≤ refusal.end) × (refusal.end ≤ length text.now) }
    ensures { OnOk result (string_bytes out.new ≡ string_bytes out.old ++ why_words refusal.why (slice_range text.now refusal.start refusal.end)) }
{
    match refusal.why {
        TextCause::Lex(fault) => out.push_str(lex_words(fault))?,
        TextCause::End(_) => out.push_str(TOO_SOON)?,
        TextCause::Token(_, kind) => {
            push_standing(alloc, out, kind, &text[refusal.start..refusal.end])?;
        }
    }
    Ok(())
}
