//! The values of state variables, which are read and mean nothing.

ghost use Rattle.std.specs.Prelude.{◌≡◌, ℕ, slice_get};
ghost use Rattle.lft_syntax.specs.Lexeme.{Symbol, is, Text};
ghost use Rattle.lft_syntax.specs.inner.View.{Gives, at_next};
ghost use Rattle.lft_syntax.specs.inner.Reading.{second, symbol_at, one_at, number_at, ignoring_at, maybe, maybe_suffix, signed_at, suffix_at, quantity_at, dot_name_at, dot_names_at, path_at, value_at, is_initial, initial_at};
ghost use Rattle.lft_syntax.specs.inner.Parsing.{words};

use crate::input::{Input, Seen};
use crate::parse_error::ParseError;
use crate::parser::groups::{braces, brackets, parentheses};
use crate::parser::names::{is_name, skip_name};
use crate::parser::times::is_before_follower;
use crate::parser::tokens::{code, is_code, is_symbol, number, peek, symbol};

/// `+` or `-` and a number.
#[tactic(auto, unfolding(crate::specs::inner::Reading::signed_at))]
fn signed(input: &Input, at: usize) -> Result<usize, ParseError>
    ensures { Gives at_next result (signed_at (words input.now) at) }
{
    if is_symbol(input, at, b'+') {
        let at = symbol(input, at, b'+')?;
        let (_, at) = number(input, at)?;
        return Ok(at);
    }
    let at = symbol(input, at, b'-')?;
    let (_, at) = number(input, at)?;
    Ok(at)
}

/// The name after a number, and what is added to it or taken from it.
#[tactic(auto, unfolding(crate::specs::inner::Reading::suffix_at))]
fn suffix(input: &Input, at: usize) -> Result<usize, ParseError>
    ensures { Gives at_next result (suffix_at (words input.now) at) }
{
    let at = skip_name(input, at)?;
    if is_symbol(input, at, b'+') || is_symbol(input, at, b'-') {
        return signed(input, at);
    }
    Ok(at)
}

/// A suffix, which may be left out: a name that begins a member is none.
fn left_out_suffix(input: &Input, at: usize) -> Result<usize, ParseError>
    ensures { Gives at_next result (ignoring_at (maybe_suffix suffix_at) (words input.now) at) }
{
    if !is_name(input, at) {
        return Ok(at);
    }
    if is_before_follower(input, at) {
        return Ok(at);
    }
    suffix(input, at)
}

/// `.` and a number, which may be left out.
fn fraction(input: &Input, at: usize) -> Result<usize, ParseError>
    ensures { Gives at_next result (ignoring_at (maybe (is (Symbol 46)) (second (symbol_at 46) (ignoring_at number_at))) (words input.now) at) }
{
    // In a core text a decimal number is no token, but three.
    if !is_symbol(input, at, b'.') {
        return Ok(at);
    }
    let at = symbol(input, at, b'.')?;
    let (_, at) = number(input, at)?;
    Ok(at)
}

/// `-`, which may be left out.
fn sign(input: &Input, at: usize) -> Result<usize, ParseError>
    ensures { Gives at_next result (ignoring_at (maybe (is (Symbol 45)) (symbol_at 45)) (words input.now) at) }
{
    if !is_symbol(input, at, b'-') {
        return Ok(at);
    }
    symbol(input, at, b'-')
}

#[tactic(auto, unfolding(crate::specs::inner::Reading::quantity_at))]
fn quantity(input: &Input, at: usize) -> Result<usize, ParseError>
    ensures { Gives at_next result (quantity_at (words input.now) at) }
{
    let at = sign(input, at)?;
    let (_, at) = number(input, at)?;
    let at = fraction(input, at)?;
    left_out_suffix(input, at)
}

#[tactic(auto, unfolding(crate::specs::inner::Reading::dot_name_at))]
fn dot_name(input: &Input, at: usize) -> Result<usize, ParseError>
    ensures { Gives at_next result (dot_name_at (words input.now) at) }
{
    let at = symbol(input, at, b'.')?;
    skip_name(input, at)
}

fn dot_names(input: &Input, at: usize) -> Result<usize, ParseError>
    ensures { Gives at_next result (ignoring_at dot_names_at (words input.now) at) }
{
    let mut next = at;
    'list: while is_symbol(input, next, b'.') {
        next = dot_name(input, next)?;
    }
    Ok(next)
}

/// Names joined by dots.
#[tactic(auto, unfolding(crate::specs::inner::Reading::path_at))]
fn path(input: &Input, at: usize) -> Result<usize, ParseError>
    ensures { Gives at_next result (path_at (words input.now) at) }
{
    let at = skip_name(input, at)?;
    dot_names(input, at)
}

fn is_text(input: &Input, at: usize) -> bool
    ensures { result ≡ is Text (slice_get (words input.now) at) }
{
    matches!(peek(input, at), Some(Seen::Text))
}

fn text(input: &Input, at: usize) -> Result<usize, ParseError>
    ensures { Gives at_next result (one_at Text (words input.now) at) }
{
    match peek(input, at) {
        Some(Seen::Text) => Ok(at + 1),
        _ => Err(ParseError::Unexpected(at)),
    }
}

#[tactic(auto, unfolding(crate::specs::inner::Reading::value_at))]
fn value(input: &Input, at: usize) -> Result<usize, ParseError>
    ensures { Gives at_next result (value_at (words input.now) at) }
{
    if is_code(input, at) {
        return code(input, at);
    }
    if is_text(input, at) {
        return text(input, at);
    }
    if is_symbol(input, at, b'{') {
        return braces(input, at);
    }
    if is_symbol(input, at, b'[') {
        return brackets(input, at);
    }
    if is_symbol(input, at, b'(') {
        return parentheses(input, at);
    }
    if is_name(input, at) {
        return path(input, at);
    }
    // The last form: what begins no value is refused as a number that is missing.
    quantity(input, at)
}

/// A state variable's first value, which may be left out.
#[tactic(auto, unfolding(crate::specs::inner::Reading::initial_at))]
pub fn initial(input: &Input, at: usize) -> Result<usize, ParseError>
    ensures { Gives at_next result (ignoring_at (maybe is_initial initial_at) (words input.now) at) }
{
    if is_symbol(input, at, b'=') {
        let at = symbol(input, at, b'=')?;
        return value(input, at);
    }
    if is_symbol(input, at, b'(') {
        return parentheses(input, at);
    }
    if is_symbol(input, at, b'{') {
        return braces(input, at);
    }
    Ok(at)
}
