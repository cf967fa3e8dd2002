//! What is due at a tag.

ghost use Rattle.std.specs.Prelude.{IfOk};
ghost use Rattle.lft_rows.specs.Presence.Traces.{AreDue};

use crate::presence::events::Presence;
use lft_tag::{NoMemory, Tag};
use std::alloc::Global;

impl<'a> Presence<'a> {
    /// The reactions that are triggered at the tag, ascending. The tag may lie past the stop. Each
    /// reaction is asked.
    pub fn due(&self, alloc: Global, tag: Tag) -> Result<Vec<u32>, NoMemory>
        ensures { IfOk result (λ due. AreDue self.now tag due.items) }
    {
        let mut due = Vec::new(alloc);
        for reaction in 0..self.reactions() as u32 {
            if self.triggered(tag, reaction) {
                due.push(reaction)?;
            }
        }
        Ok(due)
    }
}
