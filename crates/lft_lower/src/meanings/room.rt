//! How much may be made still.

ghost use Rattle.std.specs.Prelude.{◌≡◌, ◌+◌, ◌≤◌, IfErr, OnErr, OnOk};
ghost use Rattle.lft_whole.specs.declared.sources.{stop.NoProgram.TheVariants.Refused, why.Why.TheVariants.TooMuch};

use lft_classes::Work;
use lft_whole::sources::{NoProgram, Why};

/// How many bytes the names of a core tree have at most, with one more for each.
const MOST: usize = 1 << 26;

/// How many of these are left.
#[derive(Clone, Copy)]
pub struct Room {
    left: usize,
}

impl Room {
    /// Nothing is made yet.
    pub fn new() -> Room
        ensures { result ≡ record { left = MOST } }
    {
        Room { left: MOST }
    }

    /// Counts a name of so many bytes.
    pub fn spend(&mut self, bytes: usize, work: &Work) -> Result<(), NoProgram>
        ensures ok { OnOk result (self.old.left ≡ self.new.left + (bytes + 1)) }
        ensures few { OnErr result (self.old.left ≤ bytes) }
        ensures why { IfErr result (λ stop. stop ≡ Refused (record { why = TooMuch; place = work.now.main })) }
    {
        // One more than the bytes is taken, and that sum could overflow.
        if self.left <= bytes {
            return Err(work.refused(Why::TooMuch));
        }
        self.left -= bytes + 1;
        Ok(())
    }
}
