//! The reactions that may start, as a set.

ghost use Rattle.std.specs.Prelude.{◌≡◌, ◌≢◌, ◌↔◌, ℕ, ◌*◌, ◌<◌, ◌≤◌, length, Some, None, IsTrue};
ghost use Rattle.lft_graph.specs.Sets.{Has};
ghost use Rattle.lft_scheduler.specs.inner.Seats.{free};

use crate::turn::seats::{Seat, is_free};
use lft_graph::Set;

/// Puts a reaction in or takes it out, where it may start now and couldn't before, or the other way
/// round.
pub(crate) fn mark(frees: &mut Set, reaction: u32, was: Seat, seat: Seat)
    requires known { reaction < 64 * length frees.old }
    requires was { IsTrue (free was) ↔ Has frees.old reaction }
    ensures room { length frees.new ≡ length frees.old }
    ensures here { IsTrue (free seat) ↔ Has frees.new reaction }
    ensures others { (r : ℕ) → r ≢ reaction → Has frees.new r ↔ Has frees.old r }
{
    if is_free(seat) != is_free(was) {
        frees.toggle(reaction);
    }
}

/// The least number in the set, of those below a bound. Where none of 64 numbers is in it, they are
/// passed by at once.
pub(crate) fn least_below(set: &Set, bound: usize) -> Option<u32>
    requires few { bound ≤ 10000 }
    requires room { bound ≤ 64 * length set.now }
    ensures found { (x : ℕ) → result ≡ Some x → (x < bound) × Has set.now x }
    ensures least { (x y : ℕ) → result ≡ Some x → Has set.now y → x ≤ y }
    ensures none { (y : ℕ) → result ≡ None → y < bound → ¬ Has set.now y }
{
    let mut word = 0;
    'words: while word < bound / 64 && set.has_none(word) {
        word += 1;
    }
    'numbers: for number in word * 64..bound {
        if set.has(number as u32) {
            return Some(number as u32);
        }
    }
    None
}
