//! Connections.

ghost use Rattle.std.specs.Prelude.{◌≡◌, ◌<◌, true, IfOk, IfErr, map, option_map, Ok};
ghost use Rattle.lft_whole.specs.inner.Parts.{Parsing.{count, Within, Further, NotBefore, Refuses, source}, View.Gives};
ghost use Rattle.lft_whole.specs.Parts.View.{reference_view, expression_view, connection_view};
ghost use Rattle.lft_whole_parser.specs.Grammar as Grammar;

use lft_whole::parts::lexed::LexedText;
use lft_whole::parts::references::{is_interleaved, references};
use lft_whole::parts::tokens::{
    is_arrow, is_key, is_symbol, is_tilde_arrow, is_word, past_any, symbol,
};
use lft_whole::parts::values::expression;
use lft_whole::{Connection, Expression, Reference, TreeFault};

/// Whether what stands here goes on with a connection that begins before it.
fn goes_on(input: &LexedText, at: usize) -> bool
    ensures is { result ≡ Grammar.on_rest (source input.now) at }
    ensures inside { result ≡ true → at < count input.now }
{
    is_symbol(input, at, b'.')
        || is_symbol(input, at, b',')
        || is_arrow(input, at)
        || is_tilde_arrow(input, at)
}

/// Whether a connection begins here.
pub fn is_connection(input: &LexedText, at: usize) -> bool
    ensures is { result ≡ Grammar.on_connection (source input.now) at }
    ensures inside { result ≡ true → at < count input.now }
{
    is_symbol(input, at, b'(')
        || is_word(input, at) && goes_on(input, at + 1)
        // Behind this word stands a `(`, which goes on with no other name.
        || is_interleaved(input, at)
}

/// The left side, and whether it is taken over and over.
#[tactic(auto, unfolding(crate::specs::Grammar::left_side))]
fn left_side(input: &LexedText, at: usize) -> Result<(Vec<Reference>, bool, usize), TreeFault>
    requires { Within input.now at }
    ensures gives { Gives (λ x. ((map reference_view x.0.items, x.1), x.2)) result (Grammar.left_side (source input.now) at) }
    ensures ok { IfOk result (λ x. Further input.now at x.2) }
    ensures err { IfErr result (Refuses input.now) }
{
    if !is_symbol(input, at, b'(') {
        let (sources, end) = references(input, at)?;
        return Ok((sources, false, end));
    }
    let (sources, closing) = references(input, at + 1)?;
    let end = symbol(input, closing, b')')?;
    if is_symbol(input, end, b'+') {
        Ok((sources, true, end + 1))
    } else {
        // Without `+` the parentheses mean nothing.
        Ok((sources, false, end))
    }
}

/// An arrow: whether it is `~>`.
#[tactic(auto, unfolding(crate::specs::Grammar::arrow))]
fn arrow(input: &LexedText, at: usize) -> Result<(bool, usize), TreeFault>
    requires { Within input.now at }
    ensures gives { Gives (λ x. (x.0, x.1)) result (Grammar.arrow (source input.now) at) }
    ensures ok { IfOk result (λ x. Further input.now at x.1) }
    ensures err { IfErr result (Refuses input.now) }
{
    // Read here, and refused where it is lowered: a reactor that no program uses may have one.
    if is_tilde_arrow(input, at) {
        return Ok((true, at + 1));
    }
    if is_arrow(input, at) {
        Ok((false, at + 1))
    } else {
        Err(TreeFault::Unexpected(at))
    }
}

/// The delay behind `after`, which may be left out.
#[tactic(auto, unfolding(crate::specs::Grammar::delay))]
fn delay(input: &LexedText, at: usize) -> Result<(Option<Expression>, usize), TreeFault>
    requires { Within input.now at }
    ensures gives { Gives (λ x. (option_map expression_view x.0, x.1)) result (Grammar.delay (source input.now) at) }
    ensures ok { IfOk result (λ x. NotBefore input.now at x.1) }
    ensures err { IfErr result (Refuses input.now) }
{
    if !is_key(input, at, b"after") {
        return Ok((None, at));
    }
    let (value, end) = expression(input, at + 1)?;
    Ok((Some(value), end))
}

/// The place behind `serializer` and its name, which may be left out.
#[tactic(auto, unfolding(crate::specs::Grammar::serializer))]
fn past_serializer(input: &LexedText, at: usize) -> usize
    requires { Within input.now at }
    ensures gives { Grammar.serializer (source input.now) at ≡ Ok (tt, result) }
    ensures inside { NotBefore input.now at result }
{
    // How values are sent changes no tag.
    if is_key(input, at, b"serializer") {
        past_any(input, at + 1)
    } else {
        at
    }
}

#[tactic(auto, unfolding(crate::specs::Grammar::connection))]
pub fn connection(input: &LexedText, at: usize) -> Result<(Connection, usize), TreeFault>
    requires { Within input.now at }
    ensures gives { Gives (λ x. (connection_view x.0, x.1)) result (Grammar.connection (source input.now) at) }
    ensures ok { IfOk result (λ x. Further input.now at x.1) }
    ensures err { IfErr result (Refuses input.now) }
{
    let (sources, is_broadcast, arrow_at) = left_side(input, at)?;
    let (is_physical, first) = arrow(input, arrow_at)?;
    let (destinations, behind) = references(input, first)?;
    let (delay, end) = delay(input, behind)?;
    Ok((
        Connection {
            sources,
            is_broadcast,
            is_physical,
            destinations,
            delay,
            at,
            arrow: arrow_at,
        },
        past_serializer(input, end),
    ))
}
