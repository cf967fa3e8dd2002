//! From one change to rest again: what became busy, or no longer busy, tells those that it holds
//! up, and so on.

ghost use Rattle.std.specs.Prelude.{◌≡◌, ◌≢◌, ℕ, List, [], true, false, ◌+◌, ◌<◌, ◌≤◌, length, slice_get, slice_set, Some};
ghost use Rattle.lft_scheduler.specs.declared.turn.seats.Seat.{Seat};
ghost use Rattle.lft_scheduler.specs.inner.Seats.{busy, IsAtRest, IsPushed, IsMoving, AreFreeSeats, AreOnce, KeepsPhases, phases_of, uncounted};
ghost use Rattle.lft_graph.specs.inner.Walks.{AreInside};

use crate::turn::frees::mark;
use crate::turn::phase::{Phase, is_pending};
use crate::turn::seats::{Seat, is_busy, seat_at};
use lft_graph::Set;
use lft_lists::item_at;
use lft_queue::coming::NumberLists;

/// Writes what is kept for a reaction. Where it became busy, or no longer busy, it goes on the
/// stack.
pub(crate) fn write(
    seats: &mut [Seat],
    frees: &mut Set,
    stack: &mut [u32],
    top: usize,
    reaction: u32,
    seat: Seat,
) -> usize
    requires known { reaction < length seats.old }
    requires frees { AreFreeSeats seats.old frees.old }
    requires room { (s : Seat) → slice_get seats.old reaction ≡ Some s → busy seat ≢ busy s → top < length stack.old }
    ensures seats { seats.new ≡ slice_set seats.old reaction seat }
    ensures frees { AreFreeSeats seats.new frees.new }
    ensures pushed { (s : Seat) → slice_get seats.old reaction ≡ Some s → IsPushed (busy s) (busy seat) stack.old top reaction stack.new result }
{
    let was = seat_at(seats, reaction);
    seats[reaction as usize] = seat;
    mark(frees, reaction, was, seat);
    if is_busy(seat) == is_busy(was) {
        return top;
    }
    stack[top] = reaction;
    top + 1
}

// one more waits for the reaction, or one less
fn told(seat: Seat, up: bool) -> Seat
    requires fits { up ≡ true → seat.waits < 4294967295 }
    requires some { up ≡ false → 0 < seat.waits }
    ensures phase { result.phase ≡ seat.phase }
    ensures counted { result.counted ≡ seat.counted }
    ensures more { up ≡ true → result.waits ≡ seat.waits + 1 }
    ensures less { up ≡ false → result.waits + 1 ≡ seat.waits }
{
    let waits = if up { seat.waits + 1 } else { seat.waits - 1 };
    Seat { waits, ..seat }
}

// a reaction that became busy, or no longer busy, tells those in whose short list it is
fn tell(
    after: &NumberLists,
    reaction: u32,
    seats: &mut [Seat],
    frees: &mut Set,
    stack: &mut [u32],
    top: usize,
    up: bool,
) -> usize
    requires known { reaction < length after.now }
    requires inside { AreInside after.now }
    requires once { AreOnce after.now }
    requires few { length after.now ≤ 10000 }
    requires frees { AreFreeSeats seats.old frees.old }
    requires moving { (list : List ℕ) → slice_get after.now reaction ≡ Some list → IsMoving up after.now seats.old stack.old top list }
    ensures frees { AreFreeSeats seats.new frees.new }
    ensures moving { IsMoving up after.now seats.new stack.new result [] }
    ensures as_many { uncounted up seats.new ≡ uncounted up seats.old }
    ensures phases { KeepsPhases seats.old seats.new }
{
    let list = after.of(reaction);
    let mut left = top;
    'members: for place in 0..list.len() {
        let member = item_at(list, place);
        let seat = told(seat_at(seats, member), up);
        left = write(seats, frees, stack, left, member, seat);
    }
    left
}

/// Takes the reactions off the stack one after another, and with them those that they put there,
/// until all are at rest. Each is taken once.
pub(crate) fn settle(
    after: &NumberLists,
    seats: &mut [Seat],
    frees: &mut Set,
    stack: &mut [u32],
    top: usize,
    up: bool,
)
    requires inside { AreInside after.now }
    requires once { AreOnce after.now }
    requires few { length after.now ≤ 10000 }
    requires frees { AreFreeSeats seats.old frees.old }
    requires moving { IsMoving up after.now seats.old stack.old top [] }
    ensures frees { AreFreeSeats seats.new frees.new }
    ensures rest { IsAtRest after.now seats.new }
    ensures phases { KeepsPhases seats.old seats.new }
{
    let mut left = top;
    'walk: while left > 0 {
        left -= 1;
        let reaction = item_at(stack, left);
        let seat = seat_at(seats, reaction);
        seats[reaction as usize] = Seat {
            counted: up,
            ..seat
        };
        left = tell(after, reaction, seats, frees, stack, left, up);
    }
}

/// Writes the phase of a reaction, and tells on what became busy, or no longer busy, by it.
pub(crate) fn change(
    after: &NumberLists,
    seats: &mut [Seat],
    frees: &mut Set,
    stack: &mut [u32],
    reaction: u32,
    phase: Phase,
)
    requires inside { AreInside after.now }
    requires once { AreOnce after.now }
    requires few { length after.now ≤ 10000 }
    requires known { reaction < length seats.old }
    requires room { length stack.old ≡ length after.now }
    requires frees { AreFreeSeats seats.old frees.old }
    requires rest { IsAtRest after.now seats.old }
    ensures frees { AreFreeSeats seats.new frees.new }
    ensures rest { IsAtRest after.now seats.new }
    ensures phases { phases_of seats.new ≡ slice_set (phases_of seats.old) reaction phase }
{
    let up = is_pending(phase);
    let seat = seat_at(seats, reaction);
    let changed = Seat { phase, ..seat };
    let top = write(seats, frees, stack, 0, reaction, changed);
    settle(after, seats, frees, stack, top, up);
}
