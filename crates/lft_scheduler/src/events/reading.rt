//! What a reaction reads at a tag, from the queue.

ghost use Rattle.std.specs.Prelude.{◌≡◌, ◌<◌, ◌++◌, length, map, IfOk, OnOk};
ghost use Rattle.lft_queue.specs.Pending.{value_of};
ghost use Rattle.lft_model.specs.Runs.{inputs_of};

use lft_ir::{Name, Value};
use lft_model::{Plan, Reads};
use lft_queue::Queue;
use lft_tag::{NoMemory, Tag};
use std::alloc::Global;

// Puts what the queue has at the tag for each name behind the values.
fn push_values(
    values: &mut Vec<Option<Value>>,
    queue: &Queue,
    tag: Tag,
    names: &[Name],
) -> Result<(), NoMemory>
    ensures { OnOk result (values.new.items ≡ values.old.items ++ map (λ n. value_of tag n queue.now) names.now) }
{
    for place in 0..names.len() {
        values.push(queue.get(tag, names[place]))?;
    }
    Ok(())
}

/// The values that the queue has at the tag for the inputs of the reaction, triggers before uses.
pub(crate) fn read_inputs(
    alloc: Global,
    queue: &Queue,
    plan: &Plan,
    tag: Tag,
    reaction: u32,
) -> Result<Reads, NoMemory>
    requires { reaction < length plan.now.program.reactions }
    ensures { IfOk result (λ reads. reads ≡ map (λ n. value_of tag n queue.now) (inputs_of plan.now.program reaction)) }
{
    let reaction = plan.program().reaction(reaction);
    let mut values = Vec::new(alloc);
    push_values(&mut values, queue, tag, reaction.triggers.names())?;
    push_values(&mut values, queue, tag, reaction.uses.as_slice())?;
    Ok(Reads::from_vec(values))
}
