//! Contained instances and connections.

ghost use Rattle.std.specs.Prelude.{◌≡◌, ℕ, ◌+◌, [], ◌∷◌, map, option_map, slice_get, IfOk, IfSome, if◌then◌else◌};
ghost use Rattle.lft_syntax.specs.Lexeme.{Symbol, is};
ghost use Rattle.lft_syntax.specs.inner.View.{Gives};
ghost use Rattle.lft_syntax.specs.inner.Reading.{after_comma, repeated, with_front, listed_at, given_value_at, assign_at, assigns_at, instance_at, after_at, connection_at};
ghost use Rattle.lft_syntax.specs.inner.{Parsing.words, Placed.{Takes, TakeRow}};
ghost use Rattle.lft_syntax.specs.Placed.{TimeStands, AssignmentsStand, AssignmentStands, InstanceStands, ConnectionStands, assignment_tokens, time_tokens};
ghost use Rattle.lft_tree.specs.View.{time_view, assignment_view, instance_view, connection_view};

use crate::input::Input;
use crate::parse_error::ParseError;
use crate::parser::names::name;
use crate::parser::references::references;
use crate::parser::times::{delay_expression, time_expression};
use crate::parser::tokens::{arrow, is_key, is_symbol, key, symbol};
use lft_tree::{Assignment, Connection, Instance, TimeExpression};

/// The value of a parameter, after `=` or in parentheses.
#[tactic(auto, unfolding(crate::specs::inner::Reading::given_value_at))]
fn given_value(input: &Input, at: usize) -> Result<(TimeExpression, usize), ParseError>
    ensures gives { Gives (λ x. (time_view x.0, x.1)) result (given_value_at (words input.now) at) }
    ensures stands { IfOk result (λ x. TimeStands (at + 1) x.0 × (x.1 ≡ at + (if is (Symbol 61) (slice_get (words input.now) at) then time_tokens x.0 + 1 else time_tokens x.0 + 2))) }
{
    if is_symbol(input, at, b'=') {
        let behind = symbol(input, at, b'=')?;
        return time_expression(input, behind);
    }
    let first = symbol(input, at, b'(')?;
    let (value, closing) = time_expression(input, first)?;
    let end = symbol(input, closing, b')')?;
    Ok((value, end))
}

#[tactic(auto, unfolding(crate::specs::inner::Reading::assign_at))]
fn assignment(input: &Input, at: usize) -> Result<(Assignment, usize), ParseError>
    ensures gives { Gives (λ x. (assignment_view x.0, x.1)) result (assign_at (words input.now) at) }
    ensures stands { IfOk result (λ x. Takes (AssignmentStands (words input.now)) (assignment_tokens (words input.now)) at x.0 x.1) }
{
    let (name, equals) = name(input, at)?;
    let (value, end) = given_value(input, equals)?;
    Ok((Assignment { name, value, at }, end))
}

fn next_assignment(input: &Input, at: usize) -> Result<(Assignment, usize), ParseError>
    ensures gives { Gives (λ x. (assignment_view x.0, x.1)) result (after_comma assign_at (words input.now) at) }
    ensures stands { IfOk result (λ x. Takes (AssignmentStands (words input.now)) (assignment_tokens (words input.now)) (at + 1) x.0 x.1) }
{
    let at = symbol(input, at, b',')?;
    assignment(input, at)
}

fn more_assignments(
    input: &Input,
    at: usize,
    first: Assignment,
) -> Result<(Vec<Assignment>, usize), ParseError>
    requires { Takes (AssignmentStands (words input.now)) (assignment_tokens (words input.now)) first.at first at }
    ensures gives { Gives (λ x. (map assignment_view x.0.items, x.1)) result (with_front (assignment_view first ∷ []) (repeated (is (Symbol 44)) (after_comma assign_at) (words input.now) at)) }
    ensures stand { IfOk result (λ x. TakeRow (AssignmentStands (words input.now)) (assignment_tokens (words input.now)) first.at x.0.items x.1) }
{
    let mut assignments = Vec::new(input.alloc);
    assignments.push(first)?;
    let mut next = at;
    'list: while is_symbol(input, next, b',') {
        let (assignment, after) = next_assignment(input, next)?;
        assignments.push(assignment)?;
        next = after;
    }
    Ok((assignments, next))
}

fn some_assignments(input: &Input, at: usize) -> Result<(Vec<Assignment>, usize), ParseError>
    ensures gives { Gives (λ x. (map assignment_view x.0.items, x.1)) result (listed_at assign_at (words input.now) at) }
    ensures stand { IfOk result (λ x. TakeRow (AssignmentStands (words input.now)) (assignment_tokens (words input.now)) at x.0.items x.1) }
{
    let (first, at) = assignment(input, at)?;
    more_assignments(input, at, first)
}

/// What `new` gives to parameters, in its parentheses.
#[tactic(auto, unfolding(crate::specs::inner::Reading::assigns_at))]
fn assignments(input: &Input, at: usize) -> Result<(Vec<Assignment>, usize), ParseError>
    ensures gives { Gives (λ x. (map assignment_view x.0.items, x.1)) result (assigns_at (words input.now) at) }
    ensures stand { IfOk result (λ x. AssignmentsStand (words input.now) (at + 1) x.0.items) }
{
    let first = symbol(input, at, b'(')?;
    if is_symbol(input, first, b')') {
        let behind = symbol(input, first, b')')?;
        return Ok((Vec::new(input.alloc), behind));
    }
    let (given, closing) = some_assignments(input, first)?;
    let end = symbol(input, closing, b')')?;
    Ok((given, end))
}

#[tactic(auto, unfolding(crate::specs::inner::Reading::instance_at))]
pub fn instance(input: &Input, at: usize) -> Result<(Instance, usize), ParseError>
    ensures gives { Gives (λ x. (instance_view x.0, x.1)) result (instance_at (words input.now) at) }
    ensures stands { IfOk result (λ x. InstanceStands (words input.now) at x.0) }
{
    let (own, equals) = name(input, at)?;
    let word = symbol(input, equals, b'=')?;
    let reactor_at = key(input, word, b"new")?;
    // The place of this name is kept too: there it is told that no reactor has it.
    let (reactor, opening) = name(input, reactor_at)?;
    let (given, end) = assignments(input, opening)?;
    Ok((
        Instance {
            name: own,
            reactor,
            given,
            at,
            reactor_at,
        },
        end,
    ))
}

/// `after` and a connection's delay, which may be left out.
#[tactic(auto, unfolding(crate::specs::inner::Reading::after_at))]
fn after(input: &Input, at: usize) -> Result<(Option<TimeExpression>, usize), ParseError>
    ensures gives { Gives (λ x. (option_map time_view x.0, x.1)) result (after_at (words input.now) at) }
    ensures stands { IfOk result (λ x. IfSome x.0 (TimeStands (at + 1))) }
{
    if !is_key(input, at, b"after") {
        return Ok((None, at));
    }
    let first = key(input, at, b"after")?;
    let (delay, end) = delay_expression(input, first)?;
    Ok((Some(delay), end))
}

#[tactic(auto, unfolding(crate::specs::inner::Reading::connection_at))]
pub fn connection(input: &Input, at: usize) -> Result<(Connection, usize), ParseError>
    ensures gives { Gives (λ x. (connection_view x.0, x.1)) result (connection_at (words input.now) at) }
    ensures stands { IfOk result (λ x. ConnectionStands (words input.now) at x.0) }
{
    let (sources, arrow_at) = references(input, at)?;
    // Its place is kept for what is said of the connection as a whole.
    let first = arrow(input, arrow_at)?;
    let (destinations, behind) = references(input, first)?;
    let (delay, end) = after(input, behind)?;
    Ok((
        Connection {
            sources,
            destinations,
            delay,
            arrow: arrow_at,
        },
        end,
    ))
}
