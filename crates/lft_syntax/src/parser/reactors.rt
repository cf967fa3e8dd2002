//! Reactors and their parameters.

ghost use Rattle.std.specs.Prelude.{◌≡◌, ℕ, ◌+◌, [], ◌∷◌, codes, map, option_map, string_bytes, slice_get, IfOk, if◌then◌else◌};
ghost use Rattle.lft_syntax.specs.{Lexeme.{Symbol, is}, Grammar.{or_empty, reactor_of, main_of}};
ghost use Rattle.lft_syntax.specs.inner.View.{Gives};
ghost use Rattle.lft_syntax.specs.inner.Reading.{after_comma, repeated, with_front, listed_at, apply, both, second, key_at, maybe, name_at, body_at, default_at, param_at, params_at, reactor_at};
ghost use Rattle.lft_syntax.specs.inner.{Parsing.words, Placed.{Takes, TakeRow, MainNameStands, place_or}};
ghost use Rattle.lft_syntax.specs.Placed.{StandInRow, ParameterStands, ParametersStand, ReactorStands, parameter_tokens, row_tokens, past_parameters, unit_tokens};
ghost use Rattle.lft_tree.specs.View.{parameter_view, reactor_view};
ghost use Rattle.lft_syntax.specs.Lexeme as Lexeme;

use crate::input::Input;
use crate::parse_error::ParseError;
use crate::parser::members::body;
use crate::parser::names::{is_name, name};
use crate::parser::times::time;
use crate::parser::tokens::{is_key, is_symbol, key, symbol};
use lft_tree::{Parameter, Reactor, Time};

/// A parameter's default, after `=` or in parentheses.
#[tactic(auto, unfolding(crate::specs::inner::Reading::default_at))]
fn default(input: &Input, at: usize) -> Result<(Time, usize), ParseError>
    ensures gives { Gives (λ x. (x.0, x.1)) result (default_at (words input.now) at) }
    ensures next { IfOk result (λ x. x.1 ≡ at + (if is (Symbol 61) (slice_get (words input.now) at) then unit_tokens x.0.unit + 1 else unit_tokens x.0.unit + 2)) }
{
    if is_symbol(input, at, b'=') {
        let behind = symbol(input, at, b'=')?;
        // Other than in most times no name may stand here: a default isn't another parameter.
        return time(input, behind);
    }
    let first = symbol(input, at, b'(')?;
    let (value, closing) = time(input, first)?;
    let end = symbol(input, closing, b')')?;
    Ok((value, end))
}

#[tactic(auto, unfolding(crate::specs::inner::Reading::param_at))]
fn parameter(input: &Input, at: usize) -> Result<(Parameter, usize), ParseError>
    ensures gives { Gives (λ x. (parameter_view x.0, x.1)) result (param_at (words input.now) at) }
    ensures stands { IfOk result (λ x. Takes (ParameterStands (words input.now)) (parameter_tokens (words input.now)) at x.0 x.1) }
{
    let (name, colon) = name(input, at)?;
    let word = symbol(input, colon, b':')?;
    let equals = key(input, word, b"time")?;
    let (default, end) = default(input, equals)?;
    Ok((Parameter { name, default, at }, end))
}

fn next_parameter(input: &Input, at: usize) -> Result<(Parameter, usize), ParseError>
    ensures gives { Gives (λ x. (parameter_view x.0, x.1)) result (after_comma param_at (words input.now) at) }
    ensures stands { IfOk result (λ x. Takes (ParameterStands (words input.now)) (parameter_tokens (words input.now)) (at + 1) x.0 x.1) }
{
    let at = symbol(input, at, b',')?;
    parameter(input, at)
}

fn more_parameters(
    input: &Input,
    at: usize,
    first: Parameter,
) -> Result<(Vec<Parameter>, usize), ParseError>
    requires { Takes (ParameterStands (words input.now)) (parameter_tokens (words input.now)) first.at first at }
    ensures gives { Gives (λ x. (map parameter_view x.0.items, x.1)) result (with_front (parameter_view first ∷ []) (repeated (is (Symbol 44)) (after_comma param_at) (words input.now) at)) }
    ensures stand { IfOk result (λ x. TakeRow (ParameterStands (words input.now)) (parameter_tokens (words input.now)) first.at x.0.items x.1) }
{
    let mut parameters = Vec::new(input.alloc);
    parameters.push(first)?;
    let mut next = at;
    'list: while is_symbol(input, next, b',') {
        let (parameter, after) = next_parameter(input, next)?;
        parameters.push(parameter)?;
        next = after;
    }
    Ok((parameters, next))
}

fn some_parameters(input: &Input, at: usize) -> Result<(Vec<Parameter>, usize), ParseError>
    ensures gives { Gives (λ x. (map parameter_view x.0.items, x.1)) result (listed_at param_at (words input.now) at) }
    ensures stand { IfOk result (λ x. TakeRow (ParameterStands (words input.now)) (parameter_tokens (words input.now)) at x.0.items x.1) }
{
    let (first, at) = parameter(input, at)?;
    more_parameters(input, at, first)
}

/// A reactor's parameters in their parentheses.
#[tactic(auto, unfolding(crate::specs::inner::Reading::params_at))]
fn parameters(input: &Input, at: usize) -> Result<(Vec<Parameter>, usize), ParseError>
    ensures gives { Gives (λ x. (map parameter_view x.0.items, x.1)) result (params_at (words input.now) at) }
    ensures stand { IfOk result (λ x. StandInRow (ParameterStands (words input.now)) (parameter_tokens (words input.now)) (at + 1) x.0.items × (x.1 ≡ at + row_tokens (parameter_tokens (words input.now)) x.0.items + 2)) }
{
    let first = symbol(input, at, b'(')?;
    if is_symbol(input, first, b')') {
        let behind = symbol(input, first, b')')?;
        return Ok((Vec::new(input.alloc), behind));
    }
    let (parameters, closing) = some_parameters(input, first)?;
    let end = symbol(input, closing, b')')?;
    Ok((parameters, end))
}

/// A reactor's parameters, which may be left out with their parentheses.
fn left_out_parameters(input: &Input, at: usize) -> Result<(Vec<Parameter>, usize), ParseError>
    ensures gives { Gives (λ x. (map parameter_view x.0.items, x.1)) result (apply or_empty (maybe (is (Symbol 40)) params_at) (words input.now) at) }
    ensures stand { IfOk result (λ x. ParametersStand (words input.now) at x.0.items × (x.1 ≡ past_parameters (words input.now) at x.0.items)) }
{
    if !is_symbol(input, at, b'(') {
        return Ok((Vec::new(input.alloc), at));
    }
    parameters(input, at)
}

/// The main reactor's name, which may be left out.
fn main_name(input: &Input, at: usize) -> Result<(Option<String>, usize), ParseError>
    ensures gives { Gives (λ x. (option_map string_bytes x.0, x.1)) result (maybe Lexeme.is_name name_at (words input.now) at) }
    ensures stands { IfOk result (λ x. MainNameStands (words input.now) at (option_map string_bytes x.0) x.1) }
{
    if !is_name(input, at) {
        return Ok((None, at));
    }
    let (name, at) = name(input, at)?;
    Ok((Some(name), at))
}

/// The place of the main reactor: that of its name, or without one of the word `main`.
fn main_place(name: &Option<String>, name_at: usize, main_at: usize) -> usize
    ensures { result ≡ place_or (option_map string_bytes name.now) name_at main_at }
{
    if name.is_some() { name_at } else { main_at }
}

fn plain_reactor(input: &Input, at: usize) -> Result<(Reactor, usize), ParseError>
    ensures gives { Gives (λ x. (reactor_view x.0, x.1)) result (apply reactor_of (both (both (second (key_at (codes "reactor")) name_at) (maybe (is (Symbol 40)) params_at)) body_at) (words input.now) at) }
    ensures stands { IfOk result (λ x. ReactorStands (words input.now) at x.1 x.0) }
{
    let at = key(input, at, b"reactor")?;
    let (name, opening) = name(input, at)?;
    let (parameters, brace) = left_out_parameters(input, opening)?;
    let (members, end) = body(input, brace)?;
    Ok((
        Reactor {
            is_main: false,
            name: Some(name),
            parameters,
            members,
            at,
        },
        end,
    ))
}

fn main_reactor(input: &Input, at: usize) -> Result<(Reactor, usize), ParseError>
    ensures gives { Gives (λ x. (reactor_view x.0, x.1)) result (apply main_of (both (both (second (second (key_at (codes "main")) (key_at (codes "reactor"))) (maybe Lexeme.is_name name_at)) (maybe (is (Symbol 40)) params_at)) body_at) (words input.now) at) }
    ensures stands { IfOk result (λ x. ReactorStands (words input.now) at x.1 x.0) }
{
    let word = key(input, at, b"main")?;
    let name_at = key(input, word, b"reactor")?;
    let (name, opening) = main_name(input, name_at)?;
    let (parameters, brace) = left_out_parameters(input, opening)?;
    let (members, end) = body(input, brace)?;
    let place = main_place(&name, name_at, at);
    Ok((
        Reactor {
            is_main: true,
            name,
            parameters,
            members,
            at: place,
        },
        end,
    ))
}

#[tactic(auto, unfolding(crate::specs::inner::Reading::reactor_at))]
pub fn reactor(input: &Input, at: usize) -> Result<(Reactor, usize), ParseError>
    ensures gives { Gives (λ x. (reactor_view x.0, x.1)) result (reactor_at (words input.now) at) }
    ensures stands { IfOk result (λ x. ReactorStands (words input.now) at x.1 x.0) }
{
    if is_key(input, at, b"reactor") {
        plain_reactor(input, at)
    } else {
        // What begins neither kind is read as a main reactor, which refuses it at its first token.
        main_reactor(input, at)
    }
}
