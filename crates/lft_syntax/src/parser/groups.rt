//! Groups: the tokens between brackets that balance.

ghost use Rattle.std.specs.Prelude.{◌≡◌, ℕ, suc, ◌<◌, ◌≤◌, ◌+◌, ◌-◌, ◌^◌, length, slice_get, Result, IfOk};
ghost use Rattle.lft_syntax.specs.Lexeme.{Symbol};
ghost use Rattle.lft_syntax.specs.inner.{View.{Gives, at_next}, Reading.{inside_step, inside_at, braces_at, brackets_at, parentheses_at}};
ghost use Rattle.lft_syntax.specs.inner.Parsing.{words, Steps, shallow};

use crate::input::{Input, Seen};
use crate::parse_error::ParseError;
use crate::parser::tokens::{peek, symbol};

/// How many brackets are open past the token here, besides the group's own, or none where it
/// closes the group.
fn step(
    input: &Input,
    at: usize,
    depth: usize,
    opening: u8,
    closing: u8,
) -> Result<Option<usize>, ParseError>
    requires { depth ≤ at }
    ensures steps { (rest : ℕ → Result (Unit {0} × ℕ) ℕ) → Steps at rest result (inside_step (Symbol opening) (Symbol closing) depth at rest (slice_get (words input.now) at)) }
    ensures inside { IfOk result (λ _. (at < length (words input.now)) × (at < 2 ^ 64 - 1)) }
    ensures shallow { IfOk result (shallow (at + 1)) }
{
    let Some(seen) = peek(input, at) else {
        return Err(ParseError::Unexpected(at));
    };
    let Seen::Symbol(byte) = seen else {
        return Ok(Some(depth));
    };
    if opening == byte {
        // Each open bracket is a token before this one, so the count can't overflow.
        return Ok(Some(depth + 1));
    }
    if closing != byte {
        return Ok(Some(depth));
    }
    if depth == 0 {
        Ok(None)
    } else {
        Ok(Some(depth - 1))
    }
}

/// The place past the bracket that closes the group whose tokens begin here.
fn inside(input: &Input, at: usize, opening: u8, closing: u8) -> Result<usize, ParseError>
    ensures { Gives at_next result (inside_at (Symbol opening) (Symbol closing) (suc (length (words input.now))) 0 (words input.now) at) }
{
    let mut depth = 0;
    let mut next = at;
    'group: loop {
        match step(input, next, depth, opening, closing)? {
            Some(still_open) => {
                depth = still_open;
                next += 1;
            }
            None => return Ok(next + 1),
        }
    }
}

#[tactic(auto, unfolding(crate::specs::inner::Reading::braces_at, crate::specs::inner::Reading::group_at))]
pub fn braces(input: &Input, at: usize) -> Result<usize, ParseError>
    ensures { Gives at_next result (braces_at (words input.now) at) }
{
    let at = symbol(input, at, b'{')?;
    inside(input, at, b'{', b'}')
}

#[tactic(auto, unfolding(crate::specs::inner::Reading::brackets_at, crate::specs::inner::Reading::group_at))]
pub fn brackets(input: &Input, at: usize) -> Result<usize, ParseError>
    ensures { Gives at_next result (brackets_at (words input.now) at) }
{
    let at = symbol(input, at, b'[')?;
    inside(input, at, b'[', b']')
}

#[tactic(auto, unfolding(crate::specs::inner::Reading::parentheses_at, crate::specs::inner::Reading::group_at))]
pub fn parentheses(input: &Input, at: usize) -> Result<usize, ParseError>
    ensures { Gives at_next result (parentheses_at (words input.now) at) }
{
    let at = symbol(input, at, b'(')?;
    inside(input, at, b'(', b')')
}
