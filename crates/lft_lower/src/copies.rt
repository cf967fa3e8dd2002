//! Copies of parts of a core tree.

ghost use Rattle.std.specs.Prelude.{◌≡◌, IfOk, flat_map, map, option_map};
ghost use Rattle.lft_tree.specs.ItemView.{assignment_view, ref_view, time_view};
ghost use Rattle.lft_lower.specs.inner.Standing.{given_tokens, time_token, time_tokens};

use lft_tree::{Assignment, Reference, TimeExpression};
use std::alloc::{AllocError, Global};

/// A copy of a time.
fn copied(time: &TimeExpression) -> Result<TimeExpression, AllocError>
    ensures copy { IfOk result (λ copy. time_view copy ≡ time_view time.now) }
    ensures at { IfOk result (λ copy. time_token copy ≡ time_token time.now) }
{
    match time {
        TimeExpression::Written { time, at } => Ok(TimeExpression::Written {
            time: *time,
            at: *at,
        }),
        TimeExpression::Parameter { name, at } => Ok(TimeExpression::Parameter {
            name: name.clone()?,
            at: *at,
        }),
    }
}

/// A copy of a time, if there is one.
pub(crate) fn copied_time(
    time: &Option<TimeExpression>,
) -> Result<Option<TimeExpression>, AllocError>
    ensures copy { IfOk result (λ copy. option_map time_view copy ≡ option_map time_view time.now) }
    ensures at { IfOk result (λ copy. time_tokens copy ≡ time_tokens time.now) }
{
    match time {
        Some(time) => Ok(Some(copied(time)?)),
        None => Ok(None),
    }
}

/// A copy of a reference.
pub(crate) fn copied_reference(reference: &Reference) -> Result<Reference, AllocError>
    ensures copy { IfOk result (λ copy. ref_view copy ≡ ref_view reference.now) }
    ensures at { IfOk result (λ copy. copy.at ≡ reference.now.at) }
{
    Ok(Reference {
        head: reference.head.clone()?,
        port: match &reference.port {
            Some(port) => Some(port.clone()?),
            None => None,
        },
        at: reference.at,
    })
}

/// A copy of what a parameter is given.
fn copied_assignment(assignment: &Assignment) -> Result<Assignment, AllocError>
    ensures copy { IfOk result (λ copy. assignment_view copy ≡ assignment_view assignment.now) }
    ensures at { IfOk result (λ copy. given_tokens copy ≡ given_tokens assignment.now) }
{
    Ok(Assignment {
        name: assignment.name.clone()?,
        value: copied(&assignment.value)?,
        at: assignment.at,
    })
}

/// Copies of what an instance gives.
pub(crate) fn copied_given(
    alloc: Global,
    given: &[Assignment],
) -> Result<Vec<Assignment>, AllocError>
    ensures copy { IfOk result (λ copies. map assignment_view copies.items ≡ map assignment_view given.now) }
    ensures at { IfOk result (λ copies. flat_map given_tokens copies.items ≡ flat_map given_tokens given.now) }
{
    let mut list = Vec::new(alloc);
    for place in 0..given.len() {
        list.push(copied_assignment(&given[place])?)?;
    }
    Ok(list)
}
