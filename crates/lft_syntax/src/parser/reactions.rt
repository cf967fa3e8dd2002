//! Reactions.

ghost use Rattle.std.specs.Prelude.{◌≡◌, ℕ, ◌+◌, [], ◌∷◌, map, IfOk};
ghost use Rattle.lft_syntax.specs.Lexeme.{Symbol, is};
ghost use Rattle.lft_syntax.specs.inner.View.{Gives, at_next};
ghost use Rattle.lft_syntax.specs.inner.Reading.{after_comma, repeated, with_front, listed_at, maybe, ignoring_at, name_at, trigger_at, triggers_at, reaction_at};
ghost use Rattle.lft_syntax.specs.inner.{Parsing.words, Placed.{Takes, TakeRow}};
ghost use Rattle.lft_syntax.specs.Placed.{TriggersStand, TriggerStands, ReactionStands, past_name, row_tokens, trigger_tokens};
ghost use Rattle.lft_tree.specs.View.{trigger_view, reaction_view};
ghost use Rattle.lft_syntax.specs.Lexeme as Lexeme;

use crate::input::Input;
use crate::parse_error::ParseError;
use crate::parser::names::{is_name, skip_name};
use crate::parser::references::{effects, reference, uses};
use crate::parser::tokens::{code, is_key, is_symbol, key, symbol};
use lft_tree::{Reaction, Trigger};

#[tactic(auto, unfolding(crate::specs::inner::Reading::trigger_at))]
fn trigger(input: &Input, at: usize) -> Result<(Trigger, usize), ParseError>
    ensures gives { Gives (λ x. (trigger_view x.0, x.1)) result (trigger_at (words input.now) at) }
    ensures stands { IfOk result (λ x. Takes (TriggerStands (words input.now)) trigger_tokens at x.0 x.1) }
{
    // Both words are reserved, so no reference of that name is lost by asking for them first.
    if is_key(input, at, b"startup") {
        let at = key(input, at, b"startup")?;
        return Ok((Trigger::Startup, at));
    }
    if is_key(input, at, b"shutdown") {
        let at = key(input, at, b"shutdown")?;
        return Ok((Trigger::Shutdown, at));
    }
    let (reference, at) = reference(input, at)?;
    Ok((Trigger::Reference(reference), at))
}

fn next_trigger(input: &Input, at: usize) -> Result<(Trigger, usize), ParseError>
    ensures gives { Gives (λ x. (trigger_view x.0, x.1)) result (after_comma trigger_at (words input.now) at) }
    ensures stands { IfOk result (λ x. Takes (TriggerStands (words input.now)) trigger_tokens (at + 1) x.0 x.1) }
{
    let at = symbol(input, at, b',')?;
    trigger(input, at)
}

fn more_triggers(
    input: &Input,
    at: usize,
    first: Trigger,
) -> Result<(Vec<Trigger>, usize), ParseError>
    ensures gives { Gives (λ x. (map trigger_view x.0.items, x.1)) result (with_front (trigger_view first ∷ []) (repeated (is (Symbol 44)) (after_comma trigger_at) (words input.now) at)) }
    ensures stand { (start : ℕ) → Takes (TriggerStands (words input.now)) trigger_tokens start first at → IfOk result (λ x. TakeRow (TriggerStands (words input.now)) trigger_tokens start x.0.items x.1) }
{
    let mut triggers = Vec::new(input.alloc);
    triggers.push(first)?;
    let mut next = at;
    'list: while is_symbol(input, next, b',') {
        let (trigger, after) = next_trigger(input, next)?;
        triggers.push(trigger)?;
        next = after;
    }
    Ok((triggers, next))
}

fn some_triggers(input: &Input, at: usize) -> Result<(Vec<Trigger>, usize), ParseError>
    ensures gives { Gives (λ x. (map trigger_view x.0.items, x.1)) result (listed_at trigger_at (words input.now) at) }
    ensures stand { IfOk result (λ x. TakeRow (TriggerStands (words input.now)) trigger_tokens at x.0.items x.1) }
{
    let (first, comma) = trigger(input, at)?;
    more_triggers(input, comma, first)
}

/// The triggers in their parentheses.
#[tactic(auto, unfolding(crate::specs::inner::Reading::triggers_at))]
fn triggers(input: &Input, at: usize) -> Result<(Vec<Trigger>, usize), ParseError>
    ensures gives { Gives (λ x. (map trigger_view x.0.items, x.1)) result (triggers_at (words input.now) at) }
    ensures stand { IfOk result (λ x. TriggersStand (words input.now) (at + 1) x.0.items × (x.1 ≡ at + row_tokens trigger_tokens x.0.items + 2)) }
{
    let first = symbol(input, at, b'(')?;
    if is_symbol(input, first, b')') {
        let behind = symbol(input, first, b')')?;
        return Ok((Vec::new(input.alloc), behind));
    }
    let (triggers, closing) = some_triggers(input, first)?;
    let end = symbol(input, closing, b')')?;
    Ok((triggers, end))
}

/// A reaction's own name, which may be left out.
fn own_name(input: &Input, at: usize) -> Result<usize, ParseError>
    ensures gives { Gives at_next result (ignoring_at (maybe Lexeme.is_name name_at) (words input.now) at) }
    ensures next { IfOk result (λ j. j ≡ past_name (words input.now) at) }
{
    if !is_name(input, at) {
        return Ok(at);
    }
    skip_name(input, at)
}

#[tactic(auto, unfolding(crate::specs::inner::Reading::reaction_at))]
pub fn reaction(input: &Input, at: usize) -> Result<(Reaction, usize), ParseError>
    ensures gives { Gives (λ x. (reaction_view x.0, x.1)) result (reaction_at (words input.now) at) }
    ensures stands { IfOk result (λ x. ReactionStands (words input.now) at x.0) }
{
    let own = key(input, at, b"reaction")?;
    // A reaction is known by its number in its reactor, so its own name isn't kept.
    let opening = own_name(input, own)?;
    let (triggers, behind) = triggers(input, opening)?;
    let (uses, arrow) = uses(input, behind)?;
    let (effects, body) = effects(input, arrow)?;
    let end = code(input, body)?;
    Ok((
        Reaction {
            triggers,
            uses,
            effects,
            at,
        },
        end,
    ))
}
