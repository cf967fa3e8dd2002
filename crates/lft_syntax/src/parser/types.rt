//! Types, which are read and mean nothing.

ghost use Rattle.std.specs.Prelude.{◌≡◌, ℕ, slice_get};
ghost use Rattle.lft_syntax.specs.inner.View.{Gives, at_next};
ghost use Rattle.lft_syntax.specs.inner.Reading.{ignoring_at, type_part_at, type_parts_at, stars_at, array_part_at, array_parts_at, type_at, typed_at};
ghost use Rattle.lft_syntax.specs.inner.Parsing.{words};
ghost use Rattle.lft_syntax.specs.inner.Reading as Reading;

use crate::input::Input;
use crate::parse_error::ParseError;
use crate::parser::names::skip_name;
use crate::parser::tokens::{code, is_code, is_number, is_symbol, number, symbol};

fn is_type_part(input: &Input, at: usize) -> bool
    ensures { result ≡ Reading.is_type_part (slice_get (words input.now) at) }
{
    is_symbol(input, at, b'.') || is_symbol(input, at, b':')
}

/// `.NAME` or `::NAME`.
#[tactic(auto, unfolding(crate::specs::inner::Reading::type_part_at))]
fn type_part(input: &Input, at: usize) -> Result<usize, ParseError>
    ensures { Gives at_next result (type_part_at (words input.now) at) }
{
    if is_symbol(input, at, b'.') {
        let at = symbol(input, at, b'.')?;
        return skip_name(input, at);
    }
    let at = symbol(input, at, b':')?;
    // Colons are tokens of one byte, so `::` is two of them.
    let at = symbol(input, at, b':')?;
    skip_name(input, at)
}

fn type_parts(input: &Input, at: usize) -> Result<usize, ParseError>
    ensures { Gives at_next result (ignoring_at type_parts_at (words input.now) at) }
{
    let mut next = at;
    'list: while is_type_part(input, next) {
        next = type_part(input, next)?;
    }
    Ok(next)
}

fn stars(input: &Input, at: usize) -> Result<usize, ParseError>
    ensures { Gives at_next result (ignoring_at stars_at (words input.now) at) }
{
    let mut next = at;
    'list: while is_symbol(input, next, b'*') {
        next = symbol(input, next, b'*')?;
    }
    Ok(next)
}

/// `[` and `]`, with or without a number.
#[tactic(auto, unfolding(crate::specs::inner::Reading::array_part_at))]
fn array_part(input: &Input, at: usize) -> Result<usize, ParseError>
    ensures { Gives at_next result (array_part_at (words input.now) at) }
{
    let at = symbol(input, at, b'[')?;
    if !is_number(input, at) {
        return symbol(input, at, b']');
    }
    let (_, at) = number(input, at)?;
    symbol(input, at, b']')
}

fn array_parts(input: &Input, at: usize) -> Result<usize, ParseError>
    ensures { Gives at_next result (ignoring_at array_parts_at (words input.now) at) }
{
    let mut next = at;
    'list: while is_symbol(input, next, b'[') {
        next = array_part(input, next)?;
    }
    Ok(next)
}

#[tactic(auto, unfolding(crate::specs::inner::Reading::type_at))]
fn skip_type(input: &Input, at: usize) -> Result<usize, ParseError>
    ensures { Gives at_next result (type_at (words input.now) at) }
{
    // Code stands for a type that these few forms don't write.
    if is_code(input, at) {
        return code(input, at);
    }
    let at = skip_name(input, at)?;
    let at = type_parts(input, at)?;
    let at = stars(input, at)?;
    array_parts(input, at)
}

/// `:` and a type, which may be left out.
#[tactic(auto, unfolding(crate::specs::inner::Reading::typed_at))]
pub fn typed(input: &Input, at: usize) -> Result<usize, ParseError>
    ensures { Gives at_next result (typed_at (words input.now) at) }
{
    if !is_symbol(input, at, b':') {
        return Ok(at);
    }
    let at = symbol(input, at, b':')?;
    skip_type(input, at)
}
