//! Reactors.

ghost use Rattle.std.specs.Prelude.{◌≡◌, ◌<◌, true, IfOk, IfErr, Ok, ◌||◌, map, option_map};
ghost use Rattle.lft_whole.specs.inner.Parts.{Parsing.{count, Within, Further, NotBefore, Refuses, source}, View.Gives};
ghost use Rattle.lft_whole.specs.Parts.{Language.listed, View.{expression_view, parameter_view, name_view, reactor_view}};
ghost use Rattle.lft_whole_parser.specs.Grammar as Grammar;
ghost use Rattle.lft_whole.specs.Parts.Language as Language;

use crate::instances::past_host;
use crate::members::{attributes, body};
use lft_whole::parts::groups::past_group;
use lft_whole::parts::lexed::LexedText;
use lft_whole::parts::names::name;
use lft_whole::parts::tokens::{is_key, is_symbol, is_word, key, past_item};
use lft_whole::parts::types::typed;
use lft_whole::parts::values::initial;
use lft_whole::{Expression, Name, Parameter, Reactor, TreeFault, WrittenValue};

/// Whether a value writes a time.
fn has_time(value: &Option<Expression>) -> bool
    ensures { result ≡ Grammar.has_time (option_map expression_view value.now) }
{
    let Some(expression) = value else {
        return false;
    };
    match &expression.value {
        WrittenValue::Number { unit: Some(_), .. } => true,
        // 0 is a time without a unit too. Of any other use of the parameter nothing is decided by this.
        WrittenValue::Number { count: 0, .. } => true,
        _ => false,
    }
}

/// Whether a parameter is a time: by its type, or without a type by its default.
fn is_time(type_is_time: Option<bool>, default: &Option<Expression>) -> bool
    ensures { result ≡ Grammar.is_time type_is_time (option_map expression_view default.now) }
{
    match type_is_time {
        Some(is_time) => is_time,
        None => has_time(default),
    }
}

#[tactic(auto, unfolding(crate::specs::Grammar::parameter))]
fn parameter(input: &LexedText, at: usize) -> Result<(Parameter, usize), TreeFault>
    requires { Within input.now at }
    ensures gives { Gives (λ x. (parameter_view x.0, x.1)) result (Grammar.parameter (source input.now) at) }
    ensures ok { IfOk result (λ x. Further input.now at x.1) }
    ensures err { IfErr result (Refuses input.now) }
{
    let (_, first) = attributes(input, at)?;
    let (name, colon) = name(input, first)?;
    let (type_is_time, behind) = typed(input, colon)?;
    let (default, end) = initial(input, behind)?;
    let is_time = is_time(type_is_time, &default);
    Ok((
        Parameter {
            name,
            is_time,
            default,
        },
        end,
    ))
}

/// A parameter, with the comma behind it.
fn listed_parameter(input: &LexedText, at: usize) -> Result<(Parameter, usize), TreeFault>
    requires { Within input.now at }
    ensures gives { Gives (λ x. (parameter_view x.0, x.1)) result (listed 41 Grammar.parameter (source input.now) at) }
    ensures ok { IfOk result (λ x. Further input.now at x.1) }
    ensures err { IfErr result (Refuses input.now) }
{
    let (parameter, end) = parameter(input, at)?;
    let next = past_item(input, end, b')')?;
    Ok((parameter, next))
}

/// Parameters in parentheses, of which the first stands here, and the place behind them.
fn parameter_list(input: &LexedText, at: usize) -> Result<(Vec<Parameter>, usize), TreeFault>
    requires { Within input.now at }
    ensures gives { Gives (λ x. (map parameter_view x.0.items, x.1)) result (Grammar.parameter_list (source input.now) at) }
    ensures ok { IfOk result (λ x. Further input.now at x.1) }
    ensures err { IfErr result (Refuses input.now) }
{
    let mut parameters = Vec::new(input.alloc);
    let mut next = at;
    'list: while !is_symbol(input, next, b')') {
        let (parameter, end) = listed_parameter(input, next)?;
        parameters.push(parameter)?;
        next = end;
    }
    Ok((parameters, next + 1))
}

/// Parameters in parentheses, which may be left out.
#[tactic(auto, unfolding(crate::specs::Grammar::parameters))]
fn parameters(input: &LexedText, at: usize) -> Result<(Vec<Parameter>, usize), TreeFault>
    requires { Within input.now at }
    ensures gives { Gives (λ x. (map parameter_view x.0.items, x.1)) result (Grammar.parameters (source input.now) at) }
    ensures ok { IfOk result (λ x. NotBefore input.now at x.1) }
    ensures err { IfErr result (Refuses input.now) }
{
    if !is_symbol(input, at, b'(') {
        return Ok((Vec::new(input.alloc), at));
    }
    parameter_list(input, at + 1)
}

/// A base, with the arguments of its type.
#[tactic(auto, unfolding(crate::specs::Grammar::base))]
fn base(input: &LexedText, at: usize) -> Result<(Name, usize), TreeFault>
    requires { Within input.now at }
    ensures gives { Gives (λ x. (name_view x.0, x.1)) result (Grammar.base (source input.now) at) }
    ensures ok { IfOk result (λ x. Further input.now at x.1) }
    ensures err { IfErr result (Refuses input.now) }
{
    let (name, behind) = name(input, at)?;
    let end = past_group(input, behind, b'<', b'>')?;
    Ok((name, end))
}

/// Bases with commas between them, one at least.
#[tactic(auto, unfolding(crate::specs::Grammar::base_list))]
fn base_list(input: &LexedText, at: usize) -> Result<(Vec<Name>, usize), TreeFault>
    requires { Within input.now at }
    ensures gives { Gives (λ x. (map name_view x.0.items, x.1)) result (Grammar.base_list (source input.now) at) }
    ensures ok { IfOk result (λ x. Further input.now at x.1) }
    ensures err { IfErr result (Refuses input.now) }
{
    let mut bases = Vec::new(input.alloc);
    let (first, behind) = base(input, at)?;
    bases.push(first)?;
    let mut next = behind;
    'list: while is_symbol(input, next, b',') {
        let (base, end) = base(input, next + 1)?;
        bases.push(base)?;
        next = end;
    }
    Ok((bases, next))
}

/// What a reactor extends, which may be left out.
#[tactic(auto, unfolding(crate::specs::Grammar::bases))]
fn bases(input: &LexedText, at: usize) -> Result<(Vec<Name>, usize), TreeFault>
    requires { Within input.now at }
    ensures gives { Gives (λ x. (map name_view x.0.items, x.1)) result (Grammar.bases (source input.now) at) }
    ensures ok { IfOk result (λ x. NotBefore input.now at x.1) }
    ensures err { IfErr result (Refuses input.now) }
{
    if is_key(input, at, b"extends") {
        return base_list(input, at + 1);
    }
    Ok((Vec::new(input.alloc), at))
}

/// Whether a word stands here that stands before `reactor`.
fn is_before_reactor(input: &LexedText, at: usize) -> bool
    ensures is { result ≡ Grammar.on_kind (source input.now) at }
    ensures inside { result ≡ true → at < count input.now }
{
    is_key(input, at, b"main") || is_key(input, at, b"federated") || is_key(input, at, b"realtime")
}

/// Whether a reactor begins here.
pub fn is_reactor(input: &LexedText, at: usize) -> bool
    ensures is { result ≡ Grammar.on_reactor (source input.now) at }
    ensures inside { result ≡ true → at < count input.now }
{
    is_before_reactor(input, at) || is_key(input, at, b"reactor")
}

/// What is said before `reactor`.
#[derive(Drop)]
struct ReactorKind {
    is_main: bool,
    is_federated: bool,
}

/// Whether this word stands here, or is known to stand before.
fn is_known(input: &LexedText, at: usize, word: &[u8], known: bool) -> bool
    ensures { result ≡ (Language.word word.now (source input.now) at || known) }
{
    is_key(input, at, word) || known
}

/// Whether `main`, and whether `federated` is among the words before `reactor`, which may be left out.
fn kind_words(input: &LexedText, at: usize) -> (bool, bool, usize)
    requires { Within input.now at }
    ensures gives { Grammar.kind_words (source input.now) at ≡ Ok ((result.0, result.1), result.2) }
    ensures inside { NotBefore input.now at result.2 }
{
    // Both are asked of each word, since they may stand in any order.
    let mut is_main = false;
    let mut is_federated = false;
    let mut next = at;
    'words: while is_before_reactor(input, next) {
        is_main = is_known(input, next, b"main", is_main);
        is_federated = is_known(input, next, b"federated", is_federated);
        next += 1;
    }
    (is_main, is_federated, next)
}

/// The words before `reactor`, which may be left out. A federated reactor is a main one.
#[tactic(auto, unfolding(crate::specs::Grammar::kind))]
fn kind_here(input: &LexedText, at: usize) -> (ReactorKind, usize)
    requires { Within input.now at }
    ensures gives { Grammar.kind (source input.now) at ≡ Ok ((result.0.is_main, result.0.is_federated), result.1) }
    ensures inside { NotBefore input.now at result.1 }
{
    let (is_main, is_federated, end) = kind_words(input, at);
    (
        ReactorKind {
            is_main: is_main || is_federated,
            is_federated,
        },
        end,
    )
}

/// A reactor's name, which may be left out.
#[tactic(auto, unfolding(crate::specs::Grammar::reactor_name))]
fn own_name(input: &LexedText, at: usize) -> Result<(Option<Name>, usize), TreeFault>
    requires { Within input.now at }
    ensures gives { Gives (λ x. (option_map name_view x.0, x.1)) result (Grammar.reactor_name (source input.now) at) }
    ensures ok { IfOk result (λ x. NotBefore input.now at x.1) }
    ensures err { IfErr result (Refuses input.now) }
{
    // A main reactor may have no name. Then one of these words may stand in its place.
    let is_name = is_word(input, at) && !is_key(input, at, b"at") && !is_key(input, at, b"extends");
    if !is_name {
        return Ok((None, at));
    }
    let (name, end) = name(input, at)?;
    Ok((Some(name), end))
}

#[tactic(auto, unfolding(crate::specs::Grammar::reactor))]
pub fn reactor(input: &LexedText, at: usize) -> Result<(Reactor, usize), TreeFault>
    requires { Within input.now at }
    ensures gives { Gives (λ x. (reactor_view x.0, x.1)) result (Grammar.reactor (source input.now) at) }
    ensures ok { IfOk result (λ x. Further input.now at x.1) }
    ensures err { IfErr result (Refuses input.now) }
{
    let (kind, word) = kind_here(input, at);
    let own = key(input, word, b"reactor")?;
    let (name, behind) = own_name(input, own)?;
    let opening = past_group(input, behind, b'<', b'>')?;
    let (parameters, host) = parameters(input, opening)?;
    let (bases, brace) = bases(input, past_host(input, host))?;
    let (members, end) = body(input, brace)?;
    Ok((
        Reactor {
            is_main: kind.is_main,
            is_federated: kind.is_federated,
            name,
            parameters,
            bases,
            members,
            at,
        },
        end,
    ))
}
