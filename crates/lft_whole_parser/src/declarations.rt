//! Ports, timers, actions, and what is declared and has no part in the tree.

ghost use Rattle.std.specs.Prelude.{◌≡◌, ◌<◌, true, IfOk, IfErr};
ghost use Rattle.lft_whole.specs.inner.Parts.{Parsing.{count, Within, Further, Refuses, source}, View.{Gives, at_next}};
ghost use Rattle.lft_whole.specs.Parts.View.{port_view, timer_view, action_view};
ghost use Rattle.lft_whole_parser.specs.Grammar as Grammar;

use lft_whole::parts::groups::group;
use lft_whole::parts::lexed::LexedText;
use lft_whole::parts::names::{name, skip_name};
use lft_whole::parts::tokens::{code, is_key, key, past_key};
use lft_whole::parts::types::typed;
use lft_whole::parts::values::{initial, two_values};
use lft_whole::parts::widths::width;
use lft_whole::{Action, Port, Timer, TreeFault};

/// `input` or `output`: whether it is `input`.
#[tactic(auto, unfolding(crate::specs::Grammar::direction))]
fn direction(input: &LexedText, at: usize) -> Result<(bool, usize), TreeFault>
    requires { Within input.now at }
    ensures gives { Gives (λ x. (x.0, x.1)) result (Grammar.direction (source input.now) at) }
    ensures ok { IfOk result (λ x. Further input.now at x.1) }
    ensures err { IfErr result (Refuses input.now) }
{
    if is_key(input, at, b"input") {
        return Ok((true, at + 1));
    }
    let end = key(input, at, b"output")?;
    Ok((false, end))
}

#[tactic(auto, unfolding(crate::specs::Grammar::port))]
pub fn port(input: &LexedText, at: usize) -> Result<(Port, usize), TreeFault>
    requires { Within input.now at }
    ensures gives { Gives (λ x. (port_view x.0, x.1)) result (Grammar.port (source input.now) at) }
    ensures ok { IfOk result (λ x. Further input.now at x.1) }
    ensures err { IfErr result (Refuses input.now) }
{
    let first = past_key(input, at, b"mutable");
    let (is_input, bracket) = direction(input, first)?;
    let (width, word) = width(input, bracket)?;
    let (name, colon) = name(input, word)?;
    // No type of a value decides when the port is present, so its answer is dropped.
    let (_, end) = typed(input, colon)?;
    Ok((
        Port {
            name,
            is_input,
            width,
        },
        end,
    ))
}

#[tactic(auto, unfolding(crate::specs::Grammar::timer))]
pub fn timer(input: &LexedText, at: usize) -> Result<(Timer, usize), TreeFault>
    requires { Within input.now at }
    ensures gives { Gives (λ x. (timer_view x.0, x.1)) result (Grammar.timer (source input.now) at) }
    ensures ok { IfOk result (λ x. Further input.now at x.1) }
    ensures err { IfErr result (Refuses input.now) }
{
    let word = key(input, at, b"timer")?;
    let (name, opening) = name(input, word)?;
    let (offset, period, end) = two_values(input, opening)?;
    Ok((
        Timer {
            name,
            offset,
            period,
        },
        end,
    ))
}

/// `logical` or `physical`: whether it is `physical`.
#[tactic(auto, unfolding(crate::specs::Grammar::origin))]
fn origin(input: &LexedText, at: usize) -> Result<(bool, usize), TreeFault>
    requires { Within input.now at }
    ensures gives { Gives (λ x. (x.0, x.1)) result (Grammar.origin (source input.now) at) }
    ensures ok { IfOk result (λ x. Further input.now at x.1) }
    ensures err { IfErr result (Refuses input.now) }
{
    if is_key(input, at, b"physical") {
        return Ok((true, at + 1));
    }
    let end = key(input, at, b"logical")?;
    Ok((false, end))
}

#[tactic(auto, unfolding(crate::specs::Grammar::action))]
pub fn action(input: &LexedText, at: usize) -> Result<(Action, usize), TreeFault>
    requires { Within input.now at }
    ensures gives { Gives (λ x. (action_view x.0, x.1)) result (Grammar.action (source input.now) at) }
    ensures ok { IfOk result (λ x. Further input.now at x.1) }
    ensures err { IfErr result (Refuses input.now) }
{
    let (is_physical, word) = origin(input, at)?;
    let behind = key(input, word, b"action")?;
    let (name, opening) = name(input, behind)?;
    let (min_delay, spacing, colon) = two_values(input, opening)?;
    let (_, end) = typed(input, colon)?;
    Ok((
        Action {
            name,
            is_physical,
            min_delay,
            spacing,
        },
        end,
    ))
}

/// Whether the word here says how far a preamble is seen.
fn is_scope(input: &LexedText, at: usize) -> bool
    ensures is { result ≡ Grammar.on_scope (source input.now) at }
    ensures inside { result ≡ true → at < count input.now }
{
    is_key(input, at, b"private") || is_key(input, at, b"public")
}

/// Whether a preamble begins here.
pub fn is_preamble(input: &LexedText, at: usize) -> bool
    ensures is { result ≡ Grammar.on_preamble (source input.now) at }
    ensures inside { result ≡ true → at < count input.now }
{
    is_scope(input, at) || is_key(input, at, b"preamble")
}

#[tactic(auto, unfolding(crate::specs::Grammar::preamble))]
pub fn preamble(input: &LexedText, at: usize) -> Result<usize, TreeFault>
    requires { Within input.now at }
    ensures gives { Gives at_next result (Grammar.preamble (source input.now) at) }
    ensures ok { IfOk result (Further input.now at) }
    ensures err { IfErr result (Refuses input.now) }
{
    let word = if is_scope(input, at) { at + 1 } else { at };
    let body = key(input, word, b"preamble")?;
    code(input, body)
}

/// A state variable, also one with `reset`.
#[tactic(auto, unfolding(crate::specs::Grammar::state))]
pub fn state(input: &LexedText, at: usize) -> Result<usize, TreeFault>
    requires { Within input.now at }
    ensures gives { Gives at_next result (Grammar.state (source input.now) at) }
    ensures ok { IfOk result (Further input.now at) }
    ensures err { IfErr result (Refuses input.now) }
{
    let word = past_key(input, at, b"reset");
    let first = key(input, word, b"state")?;
    let colon = skip_name(input, first)?;
    let (_, behind) = typed(input, colon)?;
    let (_, end) = initial(input, behind)?;
    Ok(end)
}

/// A method, also one with `const`.
#[tactic(auto, unfolding(crate::specs::Grammar::method))]
pub fn method(input: &LexedText, at: usize) -> Result<usize, TreeFault>
    requires { Within input.now at }
    ensures gives { Gives at_next result (Grammar.method (source input.now) at) }
    ensures ok { IfOk result (Further input.now at) }
    ensures err { IfErr result (Refuses input.now) }
{
    // It is code that reactions share, which touches states alone. So nothing of it is kept.
    let word = past_key(input, at, b"const");
    let first = key(input, word, b"method")?;
    let opening = skip_name(input, first)?;
    let colon = group(input, opening, b'(', b')')?;
    let (_, body) = typed(input, colon)?;
    code(input, body)
}
