//! Copies of reactions.

ghost use Rattle.std.specs.Prelude.{◌≡◌, ◌<◌, IfOk};

use crate::parts::Reaction;
use lft_tag::NoMemory;
use std::alloc::Global;

fn copy_reaction(alloc: Global, reaction: &Reaction) -> Result<Reaction, NoMemory>
    ensures { IfOk result (λ copy. copy ≡ reaction.now) }
{
    let triggers = reaction.triggers.copy(alloc)?;
    let uses = reaction.uses.copy(alloc)?;
    let effects = reaction.effects.copy(alloc)?;
    Ok(Reaction {
        instance: reaction.instance,
        place: reaction.place,
        triggers,
        uses,
        effects,
    })
}

/// The same reactions.
pub fn copy_reactions(alloc: Global, reactions: &[Reaction]) -> Result<Vec<Reaction>, NoMemory>
    ensures { IfOk result (λ copies. copies.items ≡ reactions.now) }
{
    let mut copies = Vec::new(alloc);
    for number in 0..reactions.len() {
        copies.push(copy_reaction(alloc, &reactions[number])?)?;
    }
    Ok(copies)
}
