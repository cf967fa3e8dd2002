//! The bytes of a text at which a part of its tree stands, by the token that the part has.

ghost use Rattle.std.specs.Prelude.{◌≡◌, ◌+◌};
ghost use Rattle.lft_syntax.specs.Placed.{token_of};
ghost use Rattle.lft_program_diagnostics.specs.Spans.{last_of_head, last_of_name, last_of_time, span};

use lft_syntax::Token;
use lft_tree::{Reactor, Reference, TimeExpression};

/// Bytes of a text, from the start up to the end.
#[derive(Clone, Copy)]
pub struct Span {
    pub start: usize,
    pub end: usize,
}

/// The bytes from the token with that number up to the end of the one so many behind it.
fn spot_up_to(tokens: &[Token], at: usize, behind: usize) -> Option<Span>
    ensures { result ≡ span tokens.now at (at + behind) }
{
    let first = tokens.get(at)?;
    let end = at.checked_add(behind)?;
    let last = tokens.get(end)?;
    Some(Span {
        start: first.start,
        end: last.end,
    })
}

/// The bytes of a token. None where the text has fewer.
pub(crate) fn token_spot(tokens: &[Token], at: usize) -> Option<Span>
    ensures { result ≡ span tokens.now at at }
{
    spot_up_to(tokens, at, 0)
}

/// The bytes of a name, with those of its port.
pub(crate) fn name_spot(tokens: &[Token], name: &Reference) -> Option<Span>
    ensures { result ≡ span tokens.now name.now.at (last_of_name name.now) }
{
    match &name.port {
        // The point and the port's name are tokens of their own.
        Some(_) => spot_up_to(tokens, name.at, 2),
        None => token_spot(tokens, name.at),
    }
}

/// The bytes of a time, with those of its unit.
pub(crate) fn time_spot(tokens: &[Token], time: &TimeExpression) -> Option<Span>
    ensures { result ≡ span tokens.now (token_of time.now) (last_of_time time.now) }
{
    match time {
        TimeExpression::Written { time, at } => match time.unit {
            // A unit is a token of its own, also where it touches the number.
            Some(_) => spot_up_to(tokens, *at, 1),
            None => token_spot(tokens, *at),
        },
        TimeExpression::Parameter { at, .. } => token_spot(tokens, *at),
    }
}

/// The bytes of a reactor's name, or of `main reactor` where it has none.
pub(crate) fn reactor_spot(tokens: &[Token], reactor: &Reactor) -> Option<Span>
    ensures { result ≡ span tokens.now reactor.now.at (last_of_head reactor.now) }
{
    match &reactor.name {
        Some(_) => token_spot(tokens, reactor.at),
        None => spot_up_to(tokens, reactor.at, 1),
    }
}
