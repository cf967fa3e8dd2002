//! What a reaction reads at a tag.

ghost use Rattle.std.specs.Prelude.{◌≡◌, ◌<◌, List, Option, length, IfOk};
ghost use Rattle.lft_ir.specs.declared.parts.Value.{Value as Carried};
ghost use Rattle.lft_model.specs.Presence.{Collision, Inputs};

use crate::presence::events::Presence;
use lft_ir::Trigger;
use lft_model::Reads;
use lft_tag::{NoMemory, Tag};
use std::alloc::Global;

impl<'a> Presence<'a> {
    /// What the reaction reads at the tag, where no port and no action has two causes: each of its
    /// inputs in order, triggers before uses.
    pub fn inputs(&self, alloc: Global, tag: Tag, reaction: u32) -> Result<Reads, NoMemory>
        requires reaction { reaction < length self.now.plan.program.reactions }
        requires no_clash { Collision self.now.plan self.now.rows tag → ⊥ }
        ensures inputs { IfOk result (Inputs self.now.plan self.now.rows tag reaction) }
        ensures only { IfOk result (λ reads. (other : List (Option Carried)) → Inputs self.now.plan self.now.rows tag reaction other → other ≡ reads) }
    {
        let program = self.program();
        let reaction = program.reaction(reaction);
        let mut reads = Vec::new(alloc);
        let triggers = reaction.triggers.as_slice();
        for place in 0..triggers.len() {
            if let Trigger::On(name) = triggers[place] {
                reads.push(self.value_at(tag, name))?;
            }
        }
        let uses = reaction.uses.as_slice();
        for place in 0..uses.len() {
            reads.push(self.value_at(tag, uses[place]))?;
        }
        Ok(Reads::from_vec(reads))
    }
}
