//! The members of a reactor.

ghost use Rattle.std.specs.Prelude.{◌≡◌, ℕ, ◌+◌, ◌≤◌, length, slice_get, IfOk};
ghost use Rattle.lft_syntax.specs.Lexeme.{Symbol, is};
ghost use Rattle.lft_syntax.specs.inner.{View.Gives, Reading.{member_at, members_at, body_at, choice_next, apply, instance_at, connection_at}, Parsing.words};
ghost use Rattle.lft_syntax.specs.{Language.many, Placed.{MemberStands, BodyStands}};
ghost use Rattle.lft_tree.specs.{View.{member_view, member_views}, Tree.{InstanceMember, ConnectionMember}};
ghost use Rattle.lft_syntax.specs.Placed as Placed;

use crate::input::Input;
use crate::parse_error::ParseError;
use crate::parser::declarations::{action, port, preamble, state, timer};
use crate::parser::instances::{connection, instance};
use crate::parser::names::{is_action_key, is_port_key, is_preamble_key};
use crate::parser::reactions::reaction;
use crate::parser::tokens::{is_key, is_symbol, peek, symbol};
use lft_tree::Member;

/// Whether this symbol stands at the place after this one.
fn is_before_symbol(input: &Input, at: usize, byte: u8) -> bool
    ensures { result ≡ is (Symbol byte) (slice_get (words input.now) (at + 1)) }
{
    // Asked for first: only where a token stands here is the place after it known to fit a number.
    match peek(input, at) {
        Some(_) => is_symbol(input, at + 1, byte),
        None => false,
    }
}

/// A member that begins with a name.
fn named_member(input: &Input, at: usize) -> Result<(Member, usize), ParseError>
    ensures gives { Gives (λ x. (member_view x.0, x.1)) result (choice_next (is (Symbol 61)) (apply InstanceMember instance_at) (apply ConnectionMember connection_at) (words input.now) at) }
    ensures stands { IfOk result (λ x. MemberStands (words input.now) at x.0) }
{
    // Instances and connections both begin with a name, and no other symbol tells them apart.
    if is_before_symbol(input, at, b'=') {
        let (instance, at) = instance(input, at)?;
        return Ok((Member::Instance(instance), at));
    }
    let (connection, at) = connection(input, at)?;
    Ok((Member::Connection(connection), at))
}

#[tactic(auto, unfolding(crate::specs::inner::Reading::member_at))]
pub fn member(input: &Input, at: usize) -> Result<(Member, usize), ParseError>
    ensures gives { Gives (λ x. (member_view x.0, x.1)) result (member_at (words input.now) at) }
    ensures stands { IfOk result (λ x. MemberStands (words input.now) at x.0) }
{
    if is_port_key(input, at) {
        let (port, at) = port(input, at)?;
        return Ok((Member::Port(port), at));
    }
    if is_key(input, at, b"timer") {
        let (timer, at) = timer(input, at)?;
        return Ok((Member::Timer(timer), at));
    }
    if is_action_key(input, at) {
        let (action, at) = action(input, at)?;
        return Ok((Member::Action(action), at));
    }
    if is_key(input, at, b"state") {
        let (tokens, at) = state(input, at)?;
        return Ok((Member::State(tokens), at));
    }
    if is_preamble_key(input, at) {
        let (tokens, at) = preamble(input, at)?;
        return Ok((Member::Preamble(tokens), at));
    }
    if is_key(input, at, b"reaction") {
        let (reaction, at) = reaction(input, at)?;
        return Ok((Member::Reaction(reaction), at));
    }
    named_member(input, at)
}

fn members(input: &Input, at: usize) -> Result<(Vec<Member>, usize), ParseError>
    requires { at ≤ length (words input.now) }
    ensures gives { Gives (λ x. (member_views x.0.items, x.1)) result (members_at (words input.now) at) }
    ensures stand { IfOk result (λ x. many Placed.member (words input.now) at x.1 x.0.items) }
{
    let mut members = Vec::new(input.alloc);
    let mut next = at;
    // Not up to the end of the tokens: there `member` refuses, and says that the text ends too soon.
    'list: while !is_symbol(input, next, b'}') {
        let (member, after) = member(input, next)?;
        members.push(member)?;
        next = after;
    }
    Ok((members, next))
}

#[tactic(auto, unfolding(crate::specs::inner::Reading::body_at))]
pub fn body(input: &Input, at: usize) -> Result<(Vec<Member>, usize), ParseError>
    ensures gives { Gives (λ x. (member_views x.0.items, x.1)) result (body_at (words input.now) at) }
    ensures stand { IfOk result (λ x. BodyStands (words input.now) at x.1 x.0.items) }
{
    let first = symbol(input, at, b'{')?;
    let (members, end) = members(input, first)?;
    let behind = symbol(input, end, b'}')?;
    Ok((members, behind))
}
