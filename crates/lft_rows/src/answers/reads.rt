//! What a run read, by its steps.

ghost use Rattle.std.specs.Prelude.{◌≡◌, IfOk};
ghost use Rattle.lft_ir.specs.{Parts.inputs, Naming.named};
ghost use Rattle.lft_rows.specs.inner.Answers.Answers.{reads_of};

use crate::answers::readings::readings_of;
use lft_ir::steps::Step;
use lft_ir::{Name, Reaction, Trigger};
use lft_model::Reads;
use lft_tag::NoMemory;
use std::alloc::Global;

/// The port or action that the trigger names, if it names one.
fn input_of(trigger: Trigger) -> Option<Name>
    ensures { result ≡ named trigger }
{
    match trigger {
        Trigger::On(name) => Some(name),
        Trigger::Startup | Trigger::Shutdown | Trigger::Timer(_) => None,
    }
}

/// What the steps read of the inputs of the reaction, triggers before uses.
pub(crate) fn reads_of_steps(
    alloc: Global,
    reaction: &Reaction,
    steps: &[Step],
) -> Result<Reads, NoMemory>
    ensures { IfOk result (λ reads. reads ≡ reads_of (inputs reaction.now) steps.now) }
{
    let readings = readings_of(alloc, steps)?;
    let mut reads = Vec::new(alloc);
    let triggers = reaction.triggers.as_slice();
    for place in 0..triggers.len() {
        if let Some(name) = input_of(triggers[place]) {
            reads.push(readings.get(name))?;
        }
    }
    let uses = reaction.uses.as_slice();
    for place in 0..uses.len() {
        reads.push(readings.get(uses[place]))?;
    }
    Ok(Reads::from_vec(reads))
}
