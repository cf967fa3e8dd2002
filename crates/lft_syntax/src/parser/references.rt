//! References: a name, or a port of a contained instance.

ghost use Rattle.std.specs.Prelude.{◌≡◌, ℕ, ◌+◌, [], ◌∷◌, IfOk};
ghost use Rattle.lft_syntax.specs.{Lexeme.{Symbol, is}, Grammar.or_empty};
ghost use Rattle.lft_syntax.specs.inner.{View.Gives, Reading.{apply, after_comma, repeated, with_front, ref_at, refs_at, uses_at, effects_at}, Parsing.words};
ghost use Rattle.lft_syntax.specs.inner.Placed.{Takes, TakeRow};
ghost use Rattle.lft_syntax.specs.Placed.{ReferenceStands, EffectsStand, reference_tokens};
ghost use Rattle.lft_tree.specs.View.{ref_view, ref_views};

use crate::input::Input;
use crate::parse_error::ParseError;
use crate::parser::names::{is_name, name};
use crate::parser::tokens::{arrow, is_arrow, is_symbol, symbol};
use lft_tree::Reference;

#[tactic(auto, unfolding(crate::specs::inner::Reading::ref_at))]
pub fn reference(input: &Input, at: usize) -> Result<(Reference, usize), ParseError>
    ensures gives { Gives (λ x. (ref_view x.0, x.1)) result (ref_at (words input.now) at) }
    ensures stands { IfOk result (λ x. Takes (ReferenceStands (words input.now)) reference_tokens at x.0 x.1) }
{
    let (head, point) = name(input, at)?;
    if !is_symbol(input, point, b'.') {
        return Ok((
            Reference {
                head,
                port: None,
                at,
            },
            point,
        ));
    }
    let second = symbol(input, point, b'.')?;
    let (port, end) = name(input, second)?;
    Ok((
        Reference {
            head,
            port: Some(port),
            at,
        },
        end,
    ))
}

fn next_reference(input: &Input, at: usize) -> Result<(Reference, usize), ParseError>
    ensures gives { Gives (λ x. (ref_view x.0, x.1)) result (after_comma ref_at (words input.now) at) }
    ensures stands { IfOk result (λ x. Takes (ReferenceStands (words input.now)) reference_tokens (at + 1) x.0 x.1) }
{
    let at = symbol(input, at, b',')?;
    reference(input, at)
}

fn more_references(
    input: &Input,
    at: usize,
    first: Reference,
) -> Result<(Vec<Reference>, usize), ParseError>
    requires { Takes (ReferenceStands (words input.now)) reference_tokens first.at first at }
    ensures gives { Gives (λ x. (ref_views x.0.items, x.1)) result (with_front (ref_view first ∷ []) (repeated (is (Symbol 44)) (after_comma ref_at) (words input.now) at)) }
    ensures stand { IfOk result (λ x. TakeRow (ReferenceStands (words input.now)) reference_tokens first.at x.0.items x.1) }
{
    let mut references = Vec::new(input.alloc);
    references.push(first)?;
    let mut next = at;
    'list: while is_symbol(input, next, b',') {
        let (reference, after) = next_reference(input, next)?;
        references.push(reference)?;
        next = after;
    }
    Ok((references, next))
}

#[tactic(auto, unfolding(crate::specs::inner::Reading::refs_at))]
pub fn references(input: &Input, at: usize) -> Result<(Vec<Reference>, usize), ParseError>
    ensures gives { Gives (λ x. (ref_views x.0.items, x.1)) result (refs_at (words input.now) at) }
    ensures stand { IfOk result (λ x. TakeRow (ReferenceStands (words input.now)) reference_tokens at x.0.items x.1) }
{
    let (first, at) = reference(input, at)?;
    more_references(input, at, first)
}

/// A reaction's uses, which may be left out.
#[tactic(auto, unfolding(crate::specs::inner::Reading::uses_at))]
pub fn uses(input: &Input, at: usize) -> Result<(Vec<Reference>, usize), ParseError>
    ensures gives { Gives (λ x. (ref_views x.0.items, x.1)) result (apply or_empty uses_at (words input.now) at) }
    ensures stand { IfOk result (λ x. TakeRow (ReferenceStands (words input.now)) reference_tokens at x.0.items x.1) }
{
    if !is_name(input, at) {
        return Ok((Vec::new(input.alloc), at));
    }
    references(input, at)
}

/// A reaction's effects, which may be left out.
#[tactic(auto, unfolding(crate::specs::inner::Reading::effects_at))]
pub fn effects(input: &Input, at: usize) -> Result<(Vec<Reference>, usize), ParseError>
    ensures gives { Gives (λ x. (ref_views x.0.items, x.1)) result (apply or_empty effects_at (words input.now) at) }
    ensures stand { IfOk result (λ x. EffectsStand (words input.now) at x.0.items) }
{
    if !is_arrow(input, at) {
        return Ok((Vec::new(input.alloc), at));
    }
    let at = arrow(input, at)?;
    references(input, at)
}
