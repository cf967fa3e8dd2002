//! Limits on how many things a program has.

ghost use Rattle.std.specs.Prelude.{◌≡◌, IfOk};
ghost use Rattle.lft_resolve.specs.{inner.Expansion.Contents.contained, Expansion.Paths.{Exists, IsMoreThan}};
ghost use Rattle.lft_program.specs.inner.Limits.{IsFull, limit_of};

use lft_resolve::expansion::{Contents, count_instances};
use lft_tag::{MAX_INSTANCES, MAX_REACTIONS, MAX_THINGS, NoMemory};
use std::alloc::Global;

/// What a program may have only so many of. Connections are single ones.
#[derive(Clone, Copy, PartialEq, Eq, Drop)]
pub enum LimitedKind {
    Instances,
    Reactions,
    Ports,
    Connections,
    Actions,
    Timers,
}

/// A limit that is passed.
#[derive(Clone, Copy, PartialEq, Eq, Drop)]
pub struct Excess {
    pub kind: LimitedKind,
    /// How many there are at least.
    pub count: u64,
    /// Whether there are more than that. Counting ends at a million instances.
    pub is_more: bool,
}

impl LimitedKind {
    /// How many of the kind a program may have.
    pub fn limit(self) -> u32
        ensures { result ≡ limit_of self }
    {
        match self {
            LimitedKind::Instances => MAX_INSTANCES as u32,
            LimitedKind::Reactions => MAX_REACTIONS,
            LimitedKind::Ports => MAX_THINGS,
            LimitedKind::Connections => MAX_THINGS,
            LimitedKind::Actions => MAX_THINGS,
            LimitedKind::Timers => MAX_THINGS,
        }
    }
}

/// The excess of a program that has more instances than there may be.
pub(crate) fn excess_of_instances(
    alloc: Global,
    contents: &[Contents],
    main: u32,
) -> Result<Excess, NoMemory>
    requires { IsMoreThan (Exists (contained contents.now) main) 10000 }
    ensures { IfOk result (IsFull contents.now main) }
{
    let (count, is_more) = count_instances(alloc, contents, main)?;
    // The walk was ended by the limit, so there is one more at least. No clause of the count says so.
    let least = u64::from(LimitedKind::Instances.limit()) + 1;
    Ok(Excess {
        kind: LimitedKind::Instances,
        count: least.max(count as u64),
        is_more,
    })
}
