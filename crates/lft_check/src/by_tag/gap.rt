//! The first tag without any run at which a reaction is triggered.

ghost use Rattle.lft_model.specs.Accepted.{AreTags};
ghost use Rattle.lft_check.specs.ByTag.Slices.{IsGap};

use crate::by_tag::missing::{first_of, lacked};
use crate::by_tag::sliced::Sliced;
use lft_tag::Tag;

impl<'a> Sliced<'a> {
    /// The least tag up to the stop without any run at which a reaction is triggered, and the least
    /// such reaction, where these are the tags with a run. It takes no memory.
    pub fn gap(&self, tags: &[Tag]) -> Option<(Tag, u32)>
        requires { AreTags self.now.rows tags.now }
        ensures { IsGap self.now result }
    {
        // Asked for what sliced rows keep: their plan is sound, and they are of its program.
        self.keeps();
        let presence = self.presence();
        let low = Tag { time: 0, micro: 0 };
        let mut first = None;
        for reaction in 0..presence.reactions() as u32 {
            let triggers = presence.program().reaction(reaction).triggers.as_slice();
            // No run is of interest here, so nothing is marked.
            let vacant = lacked(presence, reaction, low, triggers, tags, &mut []);
            first = first_of(first, vacant, reaction);
        }
        first
    }
}
