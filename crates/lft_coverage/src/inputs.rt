//! The inputs of reactions that were never present together, for people.

ghost use Rattle.std.specs.Prelude.{◌<◌, length};

use lft_counts::{Cover, ReadInput};
use lft_ir::words::push_padded;
use lft_ir::{Name, Program};
use lft_lists::item_at;
use std::alloc::{AllocError, Global};

/// A name without that of its instance.
fn own_name(program: &Program, name: Name) -> &str {
    let whole = match name {
        Name::Port(number) => {
            if (number as usize) < program.ports() {
                program.name_of_port(number)
            } else {
                ""
            }
        }
        Name::Action(number) => {
            if (number as usize) < program.actions() {
                program.name_of_action(number)
            } else {
                ""
            }
        }
    };
    match whole.rsplit_once('.') {
        Some((_, own)) => own,
        None => whole,
    }
}

/// Whether the inputs at two places were present, and never both. Of two that were, the later one has the
/// bit of the earlier one.
fn are_apart(inputs: &[ReadInput], one: usize, other: usize) -> bool
    requires one { one < length inputs.now }
    requires other { other < length inputs.now }
{
    let (first, second) = (item_at(inputs, one).with, item_at(inputs, other).with);
    // A run may read its inputs in any order, so either may have the bit.
    let is_with = (first >> (other % 64)) % 2 == 1 || (second >> (one % 64)) % 2 == 1;
    first != 0 && second != 0 && !is_with
}

/// Puts the inputs of a reaction that were present, and never together, at the end of a text, in a line.
fn tell_apart(
    text: &mut String,
    program: &Program,
    reaction: u32,
    inputs: &[ReadInput],
) -> Result<(), AllocError>
    requires { reaction < length program.now.reactions }
{
    let mut is_first = true;
    // At most 2,016 pairs: of a reaction with more than 64 inputs nothing is kept.
    for one in 0..inputs.len() {
        for other in one + 1..inputs.len() {
            if !are_apart(inputs, one, other) {
                continue;
            }
            if is_first {
                text.push_str("  ")?;
                push_padded(text, 12, program.name_of_reaction(reaction))?;
            } else {
                text.push_str(", ")?;
            }
            is_first = false;
            text.push_str(own_name(program, item_at(inputs, one).name))?;
            text.push_str(" with ")?;
            text.push_str(own_name(program, item_at(inputs, other).name))?;
        }
    }
    if !is_first {
        text.push_str("\n")?;
    }
    Ok(())
}

/// Tells the inputs of each reaction that were present, and never together.
pub(crate) fn tell_inputs(
    text: &mut String,
    alloc: Global,
    program: &Program,
    cover: &Cover,
) -> Result<(), AllocError> {
    let mut told = String::new(alloc);
    for number in 0..program.reactions().min(cover.inputs.len()) {
        let inputs = cover.inputs[number].all.as_slice();
        tell_apart(&mut told, program, number as u32, inputs)?;
    }
    if told.is_empty() {
        return Ok(());
    }
    text.push_str("Inputs that were never present together:\n")?;
    text.push_str(told.as_str())?;
    Ok(())
}
