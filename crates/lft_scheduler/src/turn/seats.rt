//! What is kept for each reaction.

ghost use Rattle.std.specs.Prelude.{◌≡◌, ◌<◌, length, slice_get, Some};
ghost use Rattle.lft_scheduler.specs.inner.Seats.{busy, free};

use crate::turn::phase::{Phase, is_pending};

/// How far a reaction is, how many of its short list count as busy, and whether it counts as busy
/// with the reactions in whose short list it is.
#[derive(Clone, Copy, Drop)]
pub(crate) struct Seat {
    pub(crate) phase: Phase,
    pub(crate) waits: u32,
    pub(crate) counted: bool,
}

// whether the reaction is pending or one of its short list is busy
pub(crate) fn is_busy(seat: Seat) -> bool
    ensures { result ≡ busy seat }
{
    is_pending(seat.phase) || seat.waits > 0
}

// whether the reaction is triggered, and neither started nor held up
pub(crate) fn is_free(seat: Seat) -> bool
    ensures { result ≡ free seat }
{
    matches!(seat.phase, Phase::Waiting) && seat.waits == 0
}

// what is kept for a reaction
pub(crate) fn seat_at(seats: &[Seat], reaction: u32) -> Seat
    requires { reaction < length seats.now }
    ensures { slice_get seats.now reaction ≡ Some result }
{
    seats[reaction as usize]
}
