//! Contained instances.

ghost use Rattle.std.specs.Prelude.{◌≡◌, ◌<◌, true, IfOk, IfErr, map, Ok};
ghost use Rattle.lft_whole.specs.inner.Parts.{Parsing.{count, Within, Further, NotBefore, Refuses, source}, View.Gives};
ghost use Rattle.lft_whole.specs.Parts.{Language.listed, View.{assignment_view, instance_view}};
ghost use Rattle.lft_whole_parser.specs.Grammar as Grammar;

use lft_whole::parts::groups::past_group;
use lft_whole::parts::lexed::LexedText;
use lft_whole::parts::names::name;
use lft_whole::parts::tokens::{is_key, is_symbol, is_there, key, past_any, past_item, symbol};
use lft_whole::parts::values::initial;
use lft_whole::parts::widths::width;
use lft_whole::{Assignment, Instance, TreeFault};

#[tactic(auto, unfolding(crate::specs::Grammar::assignment))]
fn assignment(input: &LexedText, at: usize) -> Result<(Assignment, usize), TreeFault>
    requires { Within input.now at }
    ensures gives { Gives (λ x. (assignment_view x.0, x.1)) result (Grammar.assignment (source input.now) at) }
    ensures ok { IfOk result (λ x. Further input.now at x.1) }
    ensures err { IfErr result (Refuses input.now) }
{
    let (name, behind) = name(input, at)?;
    let (value, end) = initial(input, behind)?;
    match value {
        Some(value) => Ok((Assignment { name, value }, end)),
        // Elsewhere a value may be left out. Here a name alone would give nothing.
        None => Err(TreeFault::Unexpected(behind)),
    }
}

/// An assignment, with the comma behind it.
fn listed_assignment(input: &LexedText, at: usize) -> Result<(Assignment, usize), TreeFault>
    requires { Within input.now at }
    ensures gives { Gives (λ x. (assignment_view x.0, x.1)) result (listed 41 Grammar.assignment (source input.now) at) }
    ensures ok { IfOk result (λ x. Further input.now at x.1) }
    ensures err { IfErr result (Refuses input.now) }
{
    let (assignment, end) = assignment(input, at)?;
    let next = past_item(input, end, b')')?;
    Ok((assignment, next))
}

/// Assignments in parentheses, of which the first stands here, and the place behind them.
fn assignments(input: &LexedText, at: usize) -> Result<(Vec<Assignment>, usize), TreeFault>
    requires { Within input.now at }
    ensures gives { Gives (λ x. (map assignment_view x.0.items, x.1)) result (Grammar.assignments (source input.now) at) }
    ensures ok { IfOk result (λ x. Further input.now at x.1) }
    ensures err { IfErr result (Refuses input.now) }
{
    let mut given = Vec::new(input.alloc);
    let mut next = at;
    'list: while !is_symbol(input, next, b')') {
        let (assignment, end) = listed_assignment(input, next)?;
        given.push(assignment)?;
        next = end;
    }
    Ok((given, next + 1))
}

/// Whether the token here touches the one before it.
fn is_joined(input: &LexedText, at: usize) -> bool
    requires { 0 < at }
    ensures is { result ≡ Grammar.on_joined (source input.now) at }
    ensures inside { result ≡ true → at < count input.now }
{
    match (input.tokens.get(at - 1), input.tokens.get(at)) {
        // By their bytes, since a gap between tokens is no token.
        (Some(before), Some(token)) => before.end == token.start,
        _ => false,
    }
}

/// Whether a host's name goes on here.
fn is_of_host(input: &LexedText, at: usize) -> bool
    requires { 0 < at }
    ensures is { result ≡ Grammar.on_host (source input.now) at }
    ensures inside { result ≡ true → at < count input.now }
{
    // A host, as `user@10.0.0.1:22`, is many tokens here. The brace or semicolon behind it may touch it.
    is_joined(input, at) && !is_symbol(input, at, b'{') && !is_symbol(input, at, b';')
}

/// The place behind the rest of a host.
fn past_rest(input: &LexedText, at: usize) -> usize
    requires within { Within input.now at }
    requires behind { 0 < at }
    ensures gives { Grammar.host_rest (source input.now) at ≡ Ok (tt, result) }
    ensures inside { NotBefore input.now at result }
{
    let mut next = at;
    'host: while is_of_host(input, next) {
        next += 1;
    }
    next
}

/// The place behind `at HOST`, which may be left out. A host is tokens without a gap.
#[tactic(auto, unfolding(crate::specs::Grammar::host))]
pub fn past_host(input: &LexedText, at: usize) -> usize
    requires { Within input.now at }
    ensures gives { Grammar.host (source input.now) at ≡ Ok (tt, result) }
    ensures inside { NotBefore input.now at result }
{
    if !is_key(input, at, b"at") {
        return at;
    }
    // The first token of the host stands apart from the word `at`, so it isn't asked whether it touches that.
    let rest = past_any(input, at + 1);
    past_rest(input, rest)
}

/// An instance, whose attributes have been read.
#[tactic(auto, unfolding(crate::specs::Grammar::instance))]
pub fn instance(
    input: &LexedText,
    at: usize,
    is_enclave: bool,
) -> Result<(Instance, usize), TreeFault>
    requires { Within input.now at }
    ensures gives { Gives (λ x. (instance_view x.0, x.1)) result (Grammar.instance is_enclave (source input.now) at) }
    ensures ok { IfOk result (λ x. Further input.now at x.1) }
    ensures err { IfErr result (Refuses input.now) }
{
    let (own, equals) = name(input, at)?;
    let word = symbol(input, equals, b'=')?;
    let bracket = key(input, word, b"new")?;
    let (width, class) = width(input, bracket)?;
    let (reactor, behind) = name(input, class)?;
    // The arguments of its type say nothing of what it contains.
    let opening = past_group(input, behind, b'<', b'>')?;
    let first = symbol(input, opening, b'(')?;
    let (given, end) = assignments(input, first)?;
    Ok((
        Instance {
            name: own,
            width,
            reactor,
            given,
            is_enclave,
        },
        past_host(input, end),
    ))
}
