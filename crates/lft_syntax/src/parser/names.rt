//! Names and reserved words.

ghost use Rattle.std.specs.Prelude.{◌≡◌, ℕ, ◌<◌, ◌≤◌, ◌+◌, ◌-◌, ◌^◌, slice_get, IsAscii, IfOk, string_bytes};
ghost use Rattle.std.specs.Str.{bytes_eq};
ghost use Rattle.lft_syntax.specs.inner.{Tests.{is_word_of, input_keys, port_keys, action_keys, scope_keys, preamble_keys}, View.{Gives, at_next}};
ghost use Rattle.lft_syntax.specs.inner.{Reading.{name_at, ignoring_at}, Parsing.{words, outer_words, declaring_words, other_words}};
ghost use Rattle.lft_syntax.specs.{Lexeme.{is_one_of, is_reserved}, Placed.IsWord};
ghost use Rattle.lft_syntax.specs.Lexeme as Lexeme;

use crate::input::{Input, Seen};
use crate::parse_error::ParseError;
use crate::parser::tokens::peek;
use std::alloc::{AllocError, Global};

pub fn is_word(letters: &[u8], word: &[u8]) -> bool
    ensures { result ≡ bytes_eq word.now letters.now }
{
    word == letters
}

// the reserved words that begin what stands in no body
fn is_outer_word(letters: &[u8]) -> bool
    ensures { result ≡ is_one_of outer_words letters.now }
{
    is_word(letters, b"target")
        || is_word(letters, b"preamble")
        || is_word(letters, b"private")
        || is_word(letters, b"public")
        || is_word(letters, b"main")
        || is_word(letters, b"reactor")
}

// the reserved words of ports, timers and the origins of actions
fn is_declaring_word(letters: &[u8]) -> bool
    ensures { result ≡ is_one_of declaring_words letters.now }
{
    is_word(letters, b"mutable")
        || is_word(letters, b"input")
        || is_word(letters, b"output")
        || is_word(letters, b"timer")
        || is_word(letters, b"logical")
        || is_word(letters, b"physical")
}

// the other reserved words
fn is_other_word(letters: &[u8]) -> bool
    ensures { result ≡ is_one_of other_words letters.now }
{
    is_word(letters, b"action")
        || is_word(letters, b"state")
        || is_word(letters, b"reaction")
        || is_word(letters, b"startup")
        || is_word(letters, b"shutdown")
        || is_word(letters, b"new")
        || is_word(letters, b"after")
}

/// Whether the word is reserved in a core program.
pub fn is_reserved_word(letters: &[u8]) -> bool
    ensures { result ≡ is_reserved letters.now }
{
    if is_outer_word(letters) {
        return true;
    }
    if is_declaring_word(letters) {
        return true;
    }
    is_other_word(letters)
}

pub fn is_name(input: &Input, at: usize) -> bool
    ensures { result ≡ Lexeme.is_name (slice_get (words input.now) at) }
{
    match peek(input, at) {
        Some(Seen::Letters(letters)) => !is_reserved_word(letters),
        _ => false,
    }
}

/// The letters as text.
pub fn text_of(alloc: Global, letters: &[u8]) -> Result<String, AllocError>
    requires { IsAscii letters.now }
    ensures { IfOk result (λ text. string_bytes text ≡ letters.now) }
{
    // ASCII is UTF-8, so the other case doesn't come.
    let Ok(text) = str::from_utf8(letters) else {
        unreachable!();
    };
    String::from_str(alloc, text)
}

pub fn name(input: &Input, at: usize) -> Result<(String, usize), ParseError>
    ensures gives { Gives (λ x. (string_bytes x.0, x.1)) result (name_at (words input.now) at) }
    ensures stands { IfOk result (λ x. IsWord (words input.now) at (string_bytes x.0) × (x.1 ≡ at + 1)) }
{
    match peek(input, at) {
        Some(Seen::Letters(letters)) if !is_reserved_word(letters) => {
            Ok((text_of(input.alloc, letters)?, at + 1))
        }
        _ => Err(ParseError::Unexpected(at)),
    }
}

/// A name that means nothing.
pub fn skip_name(input: &Input, at: usize) -> Result<usize, ParseError>
    ensures gives { Gives at_next result (ignoring_at name_at (words input.now) at) }
    ensures next { IfOk result (λ j. j ≡ at + 1) }
{
    match peek(input, at) {
        Some(Seen::Letters(letters)) if !is_reserved_word(letters) => Ok(at + 1),
        _ => Err(ParseError::Unexpected(at)),
    }
}

/// Whether an input's declaration begins here.
pub fn is_input_key(input: &Input, at: usize) -> bool
    ensures { result ≡ is_word_of input_keys (slice_get (words input.now) at) }
{
    match peek(input, at) {
        Some(Seen::Letters(word)) => is_word(word, b"mutable") || is_word(word, b"input"),
        _ => false,
    }
}

/// Whether a port's declaration begins here.
pub fn is_port_key(input: &Input, at: usize) -> bool
    ensures { result ≡ is_word_of port_keys (slice_get (words input.now) at) }
{
    match peek(input, at) {
        Some(Seen::Letters(word)) => {
            is_word(word, b"mutable") || is_word(word, b"input") || is_word(word, b"output")
        }
        _ => false,
    }
}

/// Whether an action's declaration begins here.
pub fn is_action_key(input: &Input, at: usize) -> bool
    ensures { result ≡ is_word_of action_keys (slice_get (words input.now) at) }
{
    match peek(input, at) {
        Some(Seen::Letters(word)) => is_word(word, b"logical") || is_word(word, b"physical"),
        _ => false,
    }
}

/// Whether `private` or `public` stands here.
pub fn is_scope_key(input: &Input, at: usize) -> bool
    ensures { result ≡ is_word_of scope_keys (slice_get (words input.now) at) }
{
    match peek(input, at) {
        Some(Seen::Letters(word)) => is_word(word, b"private") || is_word(word, b"public"),
        _ => false,
    }
}

/// Whether a preamble begins here.
pub fn is_preamble_key(input: &Input, at: usize) -> bool
    ensures { result ≡ is_word_of preamble_keys (slice_get (words input.now) at) }
{
    match peek(input, at) {
        Some(Seen::Letters(word)) => {
            is_word(word, b"private") || is_word(word, b"public") || is_word(word, b"preamble")
        }
        _ => false,
    }
}
