//! Ports, timers, actions, state variables and preambles.

ghost use Rattle.std.specs.Prelude.{◌≡◌, ℕ, ◌+◌, codes, option_map, slice_get, Some, IfOk, IfSome, if◌then◌else◌};
ghost use Rattle.lft_syntax.specs.Lexeme.{Letters, Symbol, is};
ghost use Rattle.lft_syntax.specs.inner.{Tests.{is_word_of, scope_keys}, View.{Gives, at_next}};
ghost use Rattle.lft_syntax.specs.inner.Reading.{key_at, ignoring_at, apply, maybe, input_at, output_at, port_at, period_at, times_at, timer_at, min_delay_at, origin_at, action_at, state_at, scope_at, preamble_at};
ghost use Rattle.lft_syntax.specs.inner.Parsing.{words};
ghost use Rattle.lft_syntax.specs.{Grammar.flat, Placed.{PortStands, TimerStands, ActionStands, TimeStands, TimesStand}};
ghost use Rattle.lft_tree.specs.View.{time_view, port_view, timer_view, action_view, range_view};

use crate::input::Input;
use crate::parse_error::ParseError;
use crate::parser::names::{is_input_key, is_scope_key, name, skip_name};
use crate::parser::times::time_expression;
use crate::parser::tokens::{code, is_key, is_symbol, key, symbol};
use crate::parser::types::typed;
use crate::parser::values::initial;
use lft_tree::{Action, Port, TimeExpression, Timer, TokenRange};

/// The word `mutable`, which may be left out.
fn mutable(input: &Input, at: usize) -> Result<usize, ParseError>
    ensures gives { Gives at_next result (ignoring_at (maybe (is (Letters (codes "mutable"))) (key_at (codes "mutable"))) (words input.now) at) }
    ensures next { IfOk result (λ j. j ≡ (if is (Letters (codes "mutable")) (slice_get (words input.now) at) then at + 1 else at)) }
{
    if !is_key(input, at, b"mutable") {
        return Ok(at);
    }
    key(input, at, b"mutable")
}

#[tactic(auto, unfolding(crate::specs::inner::Reading::input_at))]
fn input_port(input: &Input, at: usize) -> Result<(Port, usize), ParseError>
    ensures gives { Gives (λ x. (port_view x.0, x.1)) result (input_at (words input.now) at) }
    ensures stands { IfOk result (λ x. PortStands (words input.now) at x.0) }
{
    let word = mutable(input, at)?;
    let at = key(input, word, b"input")?;
    let (name, colon) = name(input, at)?;
    let end = typed(input, colon)?;
    Ok((
        Port {
            name,
            is_input: true,
            at,
        },
        end,
    ))
}

#[tactic(auto, unfolding(crate::specs::inner::Reading::output_at))]
fn output_port(input: &Input, at: usize) -> Result<(Port, usize), ParseError>
    ensures gives { Gives (λ x. (port_view x.0, x.1)) result (output_at (words input.now) at) }
    ensures stands { IfOk result (λ x. PortStands (words input.now) at x.0) }
{
    let at = key(input, at, b"output")?;
    let (name, colon) = name(input, at)?;
    let end = typed(input, colon)?;
    Ok((
        Port {
            name,
            is_input: false,
            at,
        },
        end,
    ))
}

#[tactic(auto, unfolding(crate::specs::inner::Reading::port_at))]
pub fn port(input: &Input, at: usize) -> Result<(Port, usize), ParseError>
    ensures gives { Gives (λ x. (port_view x.0, x.1)) result (port_at (words input.now) at) }
    ensures stands { IfOk result (λ x. PortStands (words input.now) at x.0) }
{
    if is_input_key(input, at) {
        input_port(input, at)
    } else {
        // What begins no input is read as an output, so a wrong first word is refused by that.
        output_port(input, at)
    }
}

/// `,` and a timer's period, which may be left out.
#[tactic(auto, unfolding(crate::specs::inner::Reading::period_at))]
fn period(input: &Input, at: usize) -> Result<(Option<TimeExpression>, usize), ParseError>
    ensures gives { Gives (λ x. (option_map time_view x.0, x.1)) result (period_at (words input.now) at) }
    ensures stands { IfOk result (λ x. IfSome x.0 (TimeStands (at + 1))) }
{
    if !is_symbol(input, at, b',') {
        return Ok((None, at));
    }
    let first = symbol(input, at, b',')?;
    let (period, end) = time_expression(input, first)?;
    Ok((Some(period), end))
}

/// A timer's offset and period in their parentheses.
#[tactic(auto, unfolding(crate::specs::inner::Reading::times_at))]
fn times(
    input: &Input,
    at: usize,
) -> Result<(Option<(TimeExpression, Option<TimeExpression>)>, usize), ParseError>
    ensures gives { Gives (λ x. (option_map (λ t. (time_view t.0, option_map time_view t.1)) x.0, x.1)) result (times_at (words input.now) at) }
    ensures stand { IfOk result (λ x. IfSome x.0 (λ t. TimesStand (at + 1) (Some t.0) t.1)) }
{
    let first = symbol(input, at, b'(')?;
    if is_symbol(input, first, b')') {
        let behind = symbol(input, first, b')')?;
        return Ok((None, behind));
    }
    let (offset, comma) = time_expression(input, first)?;
    let (period, closing) = period(input, comma)?;
    let end = symbol(input, closing, b')')?;
    Ok((Some((offset, period)), end))
}

#[tactic(auto, unfolding(crate::specs::inner::Reading::timer_at))]
pub fn timer(input: &Input, at: usize) -> Result<(Timer, usize), ParseError>
    ensures gives { Gives (λ x. (timer_view x.0, x.1)) result (timer_at (words input.now) at) }
    ensures stands { IfOk result (λ x. TimerStands (words input.now) at x.0) }
{
    let at = key(input, at, b"timer")?;
    let (name, opening) = name(input, at)?;
    if !is_symbol(input, opening, b'(') {
        return Ok((
            Timer {
                name,
                offset: None,
                period: None,
                at,
            },
            opening,
        ));
    }
    let (times, end) = times(input, opening)?;
    match times {
        None => Ok((
            Timer {
                name,
                offset: None,
                period: None,
                at,
            },
            end,
        )),
        Some((offset, period)) => Ok((
            Timer {
                name,
                offset: Some(offset),
                period,
                at,
            },
            end,
        )),
    }
}

/// Whether an action is physical.
#[tactic(auto, unfolding(crate::specs::inner::Reading::origin_at))]
fn origin(input: &Input, at: usize) -> Result<(bool, usize), ParseError>
    ensures gives { Gives (λ x. (x.0, x.1)) result (origin_at (words input.now) at) }
    ensures next { IfOk result (λ x. x.1 ≡ at + 1) }
{
    if is_key(input, at, b"logical") {
        let at = key(input, at, b"logical")?;
        return Ok((false, at));
    }
    // Neither word is a refusal at this token, whichever of the two is asked for last.
    let at = key(input, at, b"physical")?;
    Ok((true, at))
}

/// An action's minimum delay in its parentheses.
#[tactic(auto, unfolding(crate::specs::inner::Reading::min_delay_at))]
fn min_delay(input: &Input, at: usize) -> Result<(Option<TimeExpression>, usize), ParseError>
    ensures gives { Gives (λ x. (option_map time_view x.0, x.1)) result (min_delay_at (words input.now) at) }
    ensures stands { IfOk result (λ x. IfSome x.0 (TimeStands (at + 1))) }
{
    let first = symbol(input, at, b'(')?;
    if is_symbol(input, first, b')') {
        let behind = symbol(input, first, b')')?;
        return Ok((None, behind));
    }
    let (delay, closing) = time_expression(input, first)?;
    let end = symbol(input, closing, b')')?;
    Ok((Some(delay), end))
}

/// An action's minimum delay, which may be left out with its parentheses.
fn left_out_min_delay(
    input: &Input,
    at: usize,
) -> Result<(Option<TimeExpression>, usize), ParseError>
    ensures gives { Gives (λ x. (option_map time_view x.0, x.1)) result (apply flat (maybe (is (Symbol 40)) min_delay_at) (words input.now) at) }
    ensures stands { IfOk result (λ x. IfSome x.0 (TimeStands (at + 1))) }
{
    if !is_symbol(input, at, b'(') {
        return Ok((None, at));
    }
    min_delay(input, at)
}

#[tactic(auto, unfolding(crate::specs::inner::Reading::action_at))]
pub fn action(input: &Input, at: usize) -> Result<(Action, usize), ParseError>
    ensures gives { Gives (λ x. (action_view x.0, x.1)) result (action_at (words input.now) at) }
    ensures stands { IfOk result (λ x. ActionStands (words input.now) at x.0) }
{
    let (is_physical, word) = origin(input, at)?;
    let at = key(input, word, b"action")?;
    let (name, opening) = name(input, at)?;
    let (min_delay, colon) = left_out_min_delay(input, opening)?;
    let end = typed(input, colon)?;
    Ok((
        Action {
            name,
            is_physical,
            min_delay,
            at,
        },
        end,
    ))
}

/// A state variable.
#[tactic(auto, unfolding(crate::specs::inner::Reading::state_at))]
pub fn state(input: &Input, at: usize) -> Result<(TokenRange, usize), ParseError>
    ensures { Gives (λ x. (range_view x.0, x.1)) result (state_at (words input.now) at) }
{
    // Which tokens it has is all that is kept: no rule asks for the value of a state.
    let start = at;
    let at = key(input, at, b"state")?;
    let at = skip_name(input, at)?;
    let at = typed(input, at)?;
    let end = initial(input, at)?;
    Ok((TokenRange { start, end }, end))
}

/// `private` or `public`, which may be left out.
#[tactic(auto, unfolding(crate::specs::inner::Reading::scope_at))]
fn scope(input: &Input, at: usize) -> Result<usize, ParseError>
    ensures { Gives at_next result (ignoring_at (maybe (is_word_of scope_keys) scope_at) (words input.now) at) }
{
    if !is_scope_key(input, at) {
        return Ok(at);
    }
    if is_key(input, at, b"private") {
        return key(input, at, b"private");
    }
    key(input, at, b"public")
}

#[tactic(auto, unfolding(crate::specs::inner::Reading::preamble_at))]
pub fn preamble(input: &Input, at: usize) -> Result<(TokenRange, usize), ParseError>
    ensures gives { Gives (λ x. (range_view x.0, x.1)) result (preamble_at (words input.now) at) }
    ensures stands { IfOk result (λ x. range_view x.0 ≡ (at, x.1)) }
{
    let start = at;
    let at = scope(input, at)?;
    let at = key(input, at, b"preamble")?;
    let end = code(input, at)?;
    Ok((TokenRange { start, end }, end))
}
