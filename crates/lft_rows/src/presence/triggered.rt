//! Which triggers are present at a tag, and which reactions are triggered there.

ghost use Rattle.std.specs.Prelude.{◌<◌, length, IsTrue, ◌↔◌};
ghost use Rattle.lft_ir.specs.Sound.{IsTriggerOf};
ghost use Rattle.lft_model.specs.Presence.{Occurs, Triggered};

use crate::presence::events::Presence;
use lft_ir::Trigger;
use lft_lists::item_at;
use lft_model::fires;
use lft_tag::Tag;

impl<'a> Presence<'a> {
    /// Whether the trigger is present at the tag.
    fn occurs(&self, tag: Tag, trigger: Trigger) -> bool
        requires { IsTriggerOf self.now.plan.program trigger }
        ensures { IsTrue result ↔ Occurs self.now.plan self.now.rows tag trigger }
    {
        let program = self.program();
        match trigger {
            Trigger::Startup => tag.is_same(Tag { time: 0, micro: 0 }),
            Trigger::Shutdown => tag.is_same(self.stop()),
            Trigger::Timer(number) => fires(program.timer(number), tag),
            Trigger::On(name) => self.value_at(tag, name).is_some(),
        }
    }

    /// Whether the reaction is triggered at the tag.
    pub fn triggered(&self, tag: Tag, reaction: u32) -> bool
        requires { reaction < length self.now.plan.program.reactions }
        ensures { IsTrue result ↔ Triggered self.now.plan self.now.rows tag reaction }
    {
        let program = self.program();
        let triggers = program.reaction(reaction).triggers.as_slice();
        for place in 0..triggers.len() {
            if self.occurs(tag, item_at(triggers, place)) {
                return true;
            }
        }
        false
    }
}
