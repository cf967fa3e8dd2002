//! What is told of a table.

ghost use Rattle.std.specs.Prelude.{◌≡◌};
ghost use Rattle.lft_log.specs.declared.told.Final.TheVariants.{Soon};

use lft_monitor::{BrokenRule, Ending, Reach, StillOpen};
use lft_tag::NoMemory;
use std::alloc::Global;

/// What is told before the end of a table. Nothing is judged behind it.
#[derive(Clone, Copy, PartialEq, Eq, Debug, Drop)]
pub enum Told {
    Broken(BrokenRule),
    /// The rows that are judged break no rule. Of the next ones, up to the line, too much is to be kept or
    /// looked at, or memory is refused.
    Odd(Reach, u64),
    /// No rule is broken up to the first tag with rows at or past the one that was asked for.
    Reached(Reach),
}

/// What is told of a table of which no more comes.
#[derive(Clone, Copy, PartialEq, Eq, Debug, Drop)]
pub enum Final {
    Soon(Told),
    AtEnd(Ending),
}

/// What is told where no more comes, and the runs that have no end there.
#[derive(Drop)]
pub struct Ended {
    pub told: Final,
    /// They count only at the end. What is told before it says nothing of them.
    pub still_open: Result<Vec<StillOpen>, NoMemory>,
}

impl Ended {
    /// What is told before the end, where more may come.
    pub fn soon(alloc: Global, told: Told) -> Ended
        ensures { result.told ≡ Soon told }
    {
        Ended {
            told: Final::Soon(told),
            still_open: Ok(Vec::new(alloc)),
        }
    }
}
