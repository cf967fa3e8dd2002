//! The members of a reactor.

ghost use Rattle.std.specs.Prelude.{◌≡◌, ◌<◌, true, IfOk, IfErr, map, option_map};
ghost use Rattle.lft_whole.specs.{inner.Parts.{Parsing.{count, Within, Further, NotBefore, Refuses, source}, View.{Gives, at_next}}, Parts.View.member_view};
ghost use Rattle.lft_whole_parser.specs.Grammar as Grammar;

use crate::connections::{connection, is_connection};
use crate::declarations::{action, is_preamble, method, port, preamble, state, timer};
use crate::instances::instance;
use crate::reactions::{reaction, watchdog};
use lft_whole::parts::groups::{group, past_group};
use lft_whole::parts::lexed::LexedText;
use lft_whole::parts::names::skip_name;
use lft_whole::parts::tokens::{is_key, is_symbol, is_word, key, past_key, symbol, word};
use lft_whole::{Foreign, Member, TreeFault};

/// An attribute: whether it is `@enclave`.
#[tactic(auto, unfolding(crate::specs::Grammar::attribute))]
fn attribute(input: &LexedText, at: usize) -> Result<(bool, usize), TreeFault>
    requires { Within input.now at }
    ensures gives { Gives (λ x. (x.0, x.1)) result (Grammar.attribute (source input.now) at) }
    ensures ok { IfOk result (λ x. Further input.now at x.1) }
    ensures err { IfErr result (Refuses input.now) }
{
    let name_at = symbol(input, at, b'@')?;
    // Of all attributes this one alone is told of: an enclave goes on by tags of its own.
    let is_enclave = is_key(input, name_at, b"enclave");
    let behind = word(input, name_at)?;
    let end = past_group(input, behind, b'(', b')')?;
    Ok((is_enclave, end))
}

/// One more attribute: whether `@enclave` is known now.
#[tactic(auto, unfolding(crate::specs::Grammar::next_attribute))]
fn next_attribute(
    input: &LexedText,
    at: usize,
    is_enclave: bool,
) -> Result<(bool, usize), TreeFault>
    requires { Within input.now at }
    ensures gives { Gives (λ x. (x.0, x.1)) result (Grammar.next_attribute is_enclave (source input.now) at) }
    ensures ok { IfOk result (λ x. Further input.now at x.1) }
    ensures err { IfErr result (Refuses input.now) }
{
    let (here, end) = attribute(input, at)?;
    Ok((here || is_enclave, end))
}

/// The place behind attributes, and whether `@enclave` is among them.
pub fn attributes(input: &LexedText, at: usize) -> Result<(bool, usize), TreeFault>
    requires { Within input.now at }
    ensures gives { Gives (λ x. (x.0, x.1)) result (Grammar.attributes (source input.now) at) }
    ensures ok { IfOk result (λ x. NotBefore input.now at x.1) }
    ensures err { IfErr result (Refuses input.now) }
{
    let mut is_enclave = false;
    let mut next = at;
    'attributes: while is_symbol(input, next, b'@') {
        let (known, end) = next_attribute(input, next, is_enclave)?;
        is_enclave = known;
        next = end;
    }
    Ok((is_enclave, next))
}

/// Whether a mode begins here.
fn is_mode(input: &LexedText, at: usize) -> bool
    ensures is { result ≡ Grammar.on_modes (source input.now) at }
    ensures inside { result ≡ true → at < count input.now }
{
    is_key(input, at, b"initial") || is_key(input, at, b"mode")
}

/// Whether a port begins here.
fn is_port(input: &LexedText, at: usize) -> bool
    ensures is { result ≡ Grammar.on_port (source input.now) at }
    ensures inside { result ≡ true → at < count input.now }
{
    is_key(input, at, b"mutable") || is_key(input, at, b"input") || is_key(input, at, b"output")
}

/// Whether an action begins here, with its origin or wrongly without.
fn is_action(input: &LexedText, at: usize) -> bool
    ensures is { result ≡ Grammar.on_action (source input.now) at }
    ensures inside { result ≡ true → at < count input.now }
{
    is_key(input, at, b"logical") || is_key(input, at, b"physical") || is_key(input, at, b"action")
}

/// The place behind a mode.
#[tactic(auto, unfolding(crate::specs::Grammar::mode))]
fn mode(input: &LexedText, at: usize) -> Result<usize, TreeFault>
    requires { Within input.now at }
    ensures gives { Gives at_next result (Grammar.mode (source input.now) at) }
    ensures ok { IfOk result (Further input.now at) }
    ensures err { IfErr result (Refuses input.now) }
{
    let word = past_key(input, at, b"initial");
    let own = key(input, word, b"mode")?;
    let opening = if is_symbol(input, own, b'{') {
        own
    } else {
        skip_name(input, own)?
    };
    // What stands in it isn't read: no reactor with a mode is lowered.
    group(input, opening, b'{', b'}')
}

/// What no core program has in its place.
#[tactic(auto, unfolding(crate::specs::Grammar::foreign))]
fn foreign(input: &LexedText, at: usize) -> Result<(Member, usize), TreeFault>
    requires { Within input.now at }
    ensures gives { Gives (λ x. (member_view x.0, x.1)) result (Grammar.foreign (source input.now) at) }
    ensures ok { IfOk result (λ x. Further input.now at x.1) }
    ensures err { IfErr result (Refuses input.now) }
{
    // They are read, and refused only in a reactor that the program uses.
    if is_key(input, at, b"mutation") {
        let (_, end) = reaction(input, at, b"mutation")?;
        let what = Foreign::Mutation;
        return Ok((Member::Foreign { what, at }, end));
    }
    if is_key(input, at, b"watchdog") {
        let end = watchdog(input, at)?;
        let what = Foreign::Watchdog;
        return Ok((Member::Foreign { what, at }, end));
    }
    let what = Foreign::Mode;
    if is_mode(input, at) {
        let end = mode(input, at)?;
        return Ok((Member::Foreign { what, at }, end));
    }
    Err(TreeFault::Unexpected(at))
}

/// A port, timer, action or reaction, or what no core program has in its place.
#[tactic(auto, unfolding(crate::specs::Grammar::declared))]
fn declared(input: &LexedText, at: usize) -> Result<(Member, usize), TreeFault>
    requires { Within input.now at }
    ensures gives { Gives (λ x. (member_view x.0, x.1)) result (Grammar.declared (source input.now) at) }
    ensures ok { IfOk result (λ x. Further input.now at x.1) }
    ensures err { IfErr result (Refuses input.now) }
{
    if is_port(input, at) {
        let (port, end) = port(input, at)?;
        return Ok((Member::Port(port), end));
    }
    if is_key(input, at, b"timer") {
        let (timer, end) = timer(input, at)?;
        return Ok((Member::Timer(timer), end));
    }
    if is_action(input, at) {
        let (action, end) = action(input, at)?;
        return Ok((Member::Action(action), end));
    }
    if is_key(input, at, b"reaction") {
        let (reaction, end) = reaction(input, at, b"reaction")?;
        return Ok((Member::Reaction(reaction), end));
    }
    foreign(input, at)
}

/// Whether an instance begins here.
fn is_instance(input: &LexedText, at: usize) -> bool
    ensures is { result ≡ Grammar.on_instance (source input.now) at }
    ensures inside { result ≡ true → at < count input.now }
{
    is_word(input, at) && is_symbol(input, at + 1, b'=')
}

/// A member that has a part in the tree. An instance and a connection begin with a word of any kind.
#[tactic(auto, unfolding(crate::specs::Grammar::kept))]
fn kept(input: &LexedText, at: usize, is_enclave: bool) -> Result<(Member, usize), TreeFault>
    requires { Within input.now at }
    ensures gives { Gives (λ x. (member_view x.0, x.1)) result (Grammar.kept is_enclave (source input.now) at) }
    ensures ok { IfOk result (λ x. Further input.now at x.1) }
    ensures err { IfErr result (Refuses input.now) }
{
    // Before all words that begin a declaration: some of them aren't reserved, as `mode`, and may name an
    // instance.
    if is_instance(input, at) {
        let (instance, end) = instance(input, at, is_enclave)?;
        return Ok((Member::Instance(instance), end));
    }
    if is_connection(input, at) {
        let (connection, end) = connection(input, at)?;
        return Ok((Member::Connection(connection), end));
    }
    declared(input, at)
}

/// Whether a state begins here.
fn is_state(input: &LexedText, at: usize) -> bool
    ensures is { result ≡ Grammar.on_state (source input.now) at }
    ensures inside { result ≡ true → at < count input.now }
{
    is_key(input, at, b"reset") || is_key(input, at, b"state")
}

/// Whether a method begins here.
fn is_method(input: &LexedText, at: usize) -> bool
    ensures is { result ≡ Grammar.on_method (source input.now) at }
    ensures inside { result ≡ true → at < count input.now }
{
    is_key(input, at, b"const") || is_key(input, at, b"method")
}

/// Whether a preamble, state or method begins here, and no instance or connection.
fn is_skipped(input: &LexedText, at: usize) -> bool
    ensures is { result ≡ Grammar.on_skipped (source input.now) at }
    ensures inside { result ≡ true → at < count input.now }
{
    let is_code = is_preamble(input, at) || is_state(input, at) || is_method(input, at);
    // `reset`, `const` and `method` aren't reserved: an instance or a port may be called so.
    is_code && !(is_connection(input, at) || is_instance(input, at))
}

/// The place behind a preamble, state or method.
#[tactic(auto, unfolding(crate::specs::Grammar::skipped))]
fn skipped(input: &LexedText, at: usize) -> Result<usize, TreeFault>
    requires { Within input.now at }
    ensures gives { Gives at_next result (Grammar.skipped (source input.now) at) }
    ensures ok { IfOk result (Further input.now at) }
    ensures err { IfErr result (Refuses input.now) }
{
    if is_preamble(input, at) {
        return preamble(input, at);
    }
    if is_state(input, at) {
        return state(input, at);
    }
    method(input, at)
}

/// A member with its attributes, if it has a part in the tree.
#[tactic(auto, unfolding(crate::specs::Grammar::member))]
fn member(input: &LexedText, at: usize) -> Result<(Option<Member>, usize), TreeFault>
    requires { Within input.now at }
    ensures gives { Gives (λ x. (option_map member_view x.0, x.1)) result (Grammar.member (source input.now) at) }
    ensures ok { IfOk result (λ x. Further input.now at x.1) }
    ensures err { IfErr result (Refuses input.now) }
{
    let (is_enclave, first) = attributes(input, at)?;
    if is_skipped(input, first) {
        let end = skipped(input, first)?;
        return Ok((None, end));
    }
    let (member, end) = kept(input, first, is_enclave)?;
    Ok((Some(member), end))
}

/// Reads a member, or a semicolon, behind other members.
#[tactic(auto, unfolding(crate::specs::Grammar::next_member))]
fn next_member(input: &LexedText, at: usize, members: &mut Vec<Member>) -> Result<usize, TreeFault>
    requires { Within input.now at }
    ensures gives { Gives (λ next. (map member_view members.new.items, next)) result (Grammar.next_member (map member_view members.old.items) (source input.now) at) }
    ensures ok { IfOk result (Further input.now at) }
    ensures err { IfErr result (Refuses input.now) }
{
    if is_symbol(input, at, b';') {
        return Ok(at + 1);
    }
    let (found, end) = member(input, at)?;
    let Some(member) = found else {
        return Ok(end);
    };
    members.push(member)?;
    Ok(end)
}

/// Members, and the brace behind them. Semicolons may stand between them.
fn members(input: &LexedText, at: usize) -> Result<(Vec<Member>, usize), TreeFault>
    requires { Within input.now at }
    ensures gives { Gives (λ x. (map member_view x.0.items, x.1)) result (Grammar.members (source input.now) at) }
    ensures ok { IfOk result (λ x. Further input.now at x.1) }
    ensures err { IfErr result (Refuses input.now) }
{
    let mut members = Vec::new(input.alloc);
    let mut next = at;
    // Where the tokens end no brace stands: there `next_member` refuses, so this ends.
    'members: while !is_symbol(input, next, b'}') {
        next = next_member(input, next, &mut members)?;
    }
    Ok((members, next + 1))
}

/// The members of a reactor in their braces.
#[tactic(auto, unfolding(crate::specs::Grammar::body))]
pub fn body(input: &LexedText, at: usize) -> Result<(Vec<Member>, usize), TreeFault>
    requires { Within input.now at }
    ensures gives { Gives (λ x. (map member_view x.0.items, x.1)) result (Grammar.body (source input.now) at) }
    ensures ok { IfOk result (λ x. Further input.now at x.1) }
    ensures err { IfErr result (Refuses input.now) }
{
    let first = symbol(input, at, b'{')?;
    members(input, first)
}
