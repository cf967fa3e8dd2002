//! A run starts or ends at the tag of the turn.

ghost use Rattle.std.specs.Prelude.{◌≡◌, Some, length, slice_get, slice_set};
ghost use Rattle.lft_scheduler.specs.declared.turn.phase.Phase.TheVariants.{Waiting, Open, Idle};

use crate::turn::{Phase, Turn};

/// The run of the reaction starts, where it waits.
// The agenda's clauses say what they need of the reaction only for the rows that it is of, so there is
// no condition here that it is one of the turn's, and waits: the two tests stand in for it.
pub(crate) fn start(turn: &mut Turn, reaction: u32)
    ensures graph { turn.new.graph ≡ turn.old.graph }
    ensures count { length turn.new.phases ≡ length turn.old.phases }
    ensures opens { slice_get turn.old.phases reaction ≡ Some Waiting → turn.new.phases ≡ slice_set turn.old.phases reaction Open }
{
    if reaction as usize >= turn.reactions() {
        return;
    }
    if let Phase::Waiting = turn.phase(reaction) {
        turn.start(reaction);
    }
}

/// The run of the reaction has ended, where it was open.
// Tested for the same reason.
pub(crate) fn finish(turn: &mut Turn, reaction: u32)
    ensures graph { turn.new.graph ≡ turn.old.graph }
    ensures count { length turn.new.phases ≡ length turn.old.phases }
    ensures ends { slice_get turn.old.phases reaction ≡ Some Open → turn.new.phases ≡ slice_set turn.old.phases reaction Idle }
{
    if reaction as usize >= turn.reactions() {
        return;
    }
    if let Phase::Open = turn.phase(reaction) {
        turn.finish(reaction);
    }
}
