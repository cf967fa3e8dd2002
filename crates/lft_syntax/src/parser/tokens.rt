//! Single tokens: what stands at a place, and the place after one that must stand there.

ghost use Rattle.std.specs.Prelude.{◌≡◌, ℕ, ◌<◌, ◌≤◌, ◌+◌, ◌-◌, ◌^◌, length, slice_get, Some, IfSome, IfOk};
ghost use Rattle.lft_syntax.specs.Lexeme.{Code, Text, Letters, Arrow, Symbol, is};
ghost use Rattle.lft_syntax.specs.inner.{View.{Gives, at_next}, Reading.{key_at, symbol_at, one_at, number_at}, Seen.{seen_there, letters_ascii}};
ghost use Rattle.lft_syntax.specs.inner.Parsing.{words};
ghost use Rattle.lft_syntax.specs.Lexeme as Lexeme;
ghost use Rattle.lft_syntax.specs.inner.Tests as Tests;

use crate::input::{Input, Seen};
use crate::parse_error::ParseError;

/// What stands at a place.
#[tactic(auto, unfolding(crate::specs::View::lexemes))]
pub fn peek<'a>(input: &Input<'a>, at: usize) -> Option<Seen<'a>>
    ensures inside { IfSome result (λ _. at < length (words input.now)) }
    ensures room { IfSome result (λ _. at < 2 ^ 64 - 1) }
    ensures is { seen_there result ≡ slice_get (words input.now) at }
    ensures ascii { IfSome result letters_ascii }
{
    let token = input.tokens.get(at)?;
    Some(Seen::of(input.text, *token))
}

pub fn key(input: &Input, at: usize, word: &[u8]) -> Result<usize, ParseError>
    ensures gives { Gives at_next result (key_at word.now (words input.now) at) }
    ensures next { IfOk result (λ j. j ≡ at + 1) }
{
    match peek(input, at) {
        Some(Seen::Letters(letters)) if word == letters => Ok(at + 1),
        _ => Err(ParseError::Unexpected(at)),
    }
}

pub fn symbol(input: &Input, at: usize, byte: u8) -> Result<usize, ParseError>
    ensures gives { Gives at_next result (symbol_at byte (words input.now) at) }
    ensures next { IfOk result (λ j. (j ≡ at + 1) × (j ≤ length (words input.now))) }
{
    match peek(input, at) {
        Some(Seen::Symbol(b)) if byte == b => Ok(at + 1),
        _ => Err(ParseError::Unexpected(at)),
    }
}

pub fn arrow(input: &Input, at: usize) -> Result<usize, ParseError>
    ensures gives { Gives at_next result (one_at Arrow (words input.now) at) }
    ensures next { IfOk result (λ j. (j ≡ at + 1) × (slice_get (words input.now) at ≡ Some Arrow)) }
{
    match peek(input, at) {
        Some(Seen::Arrow) => Ok(at + 1),
        _ => Err(ParseError::Unexpected(at)),
    }
}

pub fn code(input: &Input, at: usize) -> Result<usize, ParseError>
    ensures { Gives at_next result (one_at Code (words input.now) at) }
{
    match peek(input, at) {
        Some(Seen::Code) => Ok(at + 1),
        _ => Err(ParseError::Unexpected(at)),
    }
}

pub fn number(input: &Input, at: usize) -> Result<(u64, usize), ParseError>
    ensures gives { Gives (λ x. (x.0, x.1)) result (number_at (words input.now) at) }
    ensures next { IfOk result (λ x. x.1 ≡ at + 1) }
{
    match peek(input, at) {
        Some(Seen::Number(n)) => Ok((n, at + 1)),
        _ => Err(ParseError::Unexpected(at)),
    }
}

pub fn is_symbol(input: &Input, at: usize, byte: u8) -> bool
    ensures { result ≡ is (Symbol byte) (slice_get (words input.now) at) }
{
    match peek(input, at) {
        Some(Seen::Symbol(b)) => byte == b,
        _ => false,
    }
}

pub fn is_key(input: &Input, at: usize, word: &[u8]) -> bool
    ensures { result ≡ is (Letters word.now) (slice_get (words input.now) at) }
{
    match peek(input, at) {
        Some(Seen::Letters(letters)) => word == letters,
        _ => false,
    }
}

pub fn is_arrow(input: &Input, at: usize) -> bool
    ensures { result ≡ is Arrow (slice_get (words input.now) at) }
{
    matches!(peek(input, at), Some(Seen::Arrow))
}

pub fn is_code(input: &Input, at: usize) -> bool
    ensures { result ≡ is Code (slice_get (words input.now) at) }
{
    matches!(peek(input, at), Some(Seen::Code))
}

pub fn is_number(input: &Input, at: usize) -> bool
    ensures { result ≡ Tests.is_number (slice_get (words input.now) at) }
{
    matches!(peek(input, at), Some(Seen::Number(_)))
}

pub fn is_there(input: &Input, at: usize) -> bool
    ensures { result ≡ Lexeme.is_there (slice_get (words input.now) at) }
{
    peek(input, at).is_some()
}
