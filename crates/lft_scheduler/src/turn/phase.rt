//! How far a reaction is at a tag.

ghost use Rattle.std.specs.Prelude.{◌≡◌};
ghost use Rattle.lft_scheduler.specs.inner.Phases.{pending};

/// How far a reaction is at a tag: it wasn't triggered or its run has ended, it is triggered and
/// its run hasn't started, or its run has started and hasn't ended.
#[derive(Clone, Copy, Drop)]
pub(crate) enum Phase {
    Idle,
    Waiting,
    Open,
}

// whether it is triggered and its run hasn't ended
pub(crate) fn is_pending(phase: Phase) -> bool
    ensures { result ≡ pending phase }
{
    match phase {
        Phase::Idle => false,
        Phase::Waiting => true,
        Phase::Open => true,
    }
}
