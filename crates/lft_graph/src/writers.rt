//! The last declared writer of each port.

ghost use Rattle.std.specs.Prelude.{◌≡◌, ℕ, ◌<◌, ◌⊎◌, length, slice_get, Some, IfOk, Contains};
ghost use Rattle.lft_ir.specs.declared.parts.Name.TheVariants.{Port};
ghost use Rattle.lft_graph.specs.inner.Walks.{KnowsWriters};

use lft_ir::{Name, Program};
use lft_lists::item_at;
use lft_tag::NoMemory;
use std::alloc::Global;

// the reaction is kept for each port among its effects
fn note_effects(effects: &[Name], reaction: u32, writers: &mut [Option<u32>])
    requires { (p : ℕ) → Contains effects.now (Port p) → p < length writers.old }
    ensures noted { (p : ℕ) → Contains effects.now (Port p) → slice_get writers.new p ≡ Some (Some reaction) }
    ensures others { (p : ℕ) → (slice_get writers.new p ≡ slice_get writers.old p) ⊎ (Contains effects.now (Port p) × (slice_get writers.new p ≡ Some (Some reaction))) }
{
    'effects: for place in 0..effects.len() {
        if let Name::Port(port) = item_at(effects, place) {
            writers[port as usize] = Some(reaction);
        }
    }
}

/// For each port the last declared reaction that has it as an effect.
pub(crate) fn last_writers(alloc: Global, program: &Program) -> Result<Vec<Option<u32>>, NoMemory>
    ensures { IfOk result (λ w. KnowsWriters program.now (length program.now.reactions) w.items) }
{
    let mut writers = vec![in alloc; None; program.ports()]?;
    'reactions: for number in 0..program.reactions() {
        let reaction = program.reaction(number as u32);
        note_effects(reaction.effects.as_slice(), number as u32, &mut writers);
    }
    Ok(writers)
}
