#![tactic(auto)]
//! Tags, their order, where a delay takes them, and the delays of a chain of connections folded
//! into one shift. Nothing here takes memory.

ghost use Rattle.std.specs.Prelude.{◌≡◌, ◌↔◌, ℕ, List, ◌+◌, ◌≤◌, IsTrue, MatchOption};

mod limits;

pub use limits::{
    MAX_INSTANCES, MAX_MICRO, MAX_REACTIONS, MAX_ROWS, MAX_RUNS, MAX_STEPS, MAX_THINGS, MAX_TIME,
};
use std::alloc::{AllocError, AllocFailed};

/// A growth of memory was refused.
#[derive(Clone, Copy, PartialEq, Eq, Debug)]
pub struct NoMemory;

impl From<AllocError> for NoMemory {
    fn from(_error: AllocError) -> NoMemory {
        NoMemory
    }
}

impl<T: Drop> From<AllocFailed<T>> for NoMemory {
    fn from(_error: AllocFailed<T>) -> NoMemory {
        NoMemory
    }
}

/// A logical moment: elapsed time in nanoseconds, then the microstep. Tags are ordered by time
/// and then by microstep; the first is (0, 0).
#[derive(Clone, Copy, PartialEq, Eq, PartialOrd, Ord, Debug, Drop)]
pub struct Tag {
    pub time: u64,
    pub micro: u32,
}

/// Where a connection into a port begins: the port there, and the delay of the connection in
/// nanoseconds, if it has one.
#[derive(Clone, Copy, PartialEq, Eq, Debug, Drop)]
pub struct Source {
    pub port: u32,
    pub delay: Option<u64>,
}

/// The delays of a chain of connections, folded: nanoseconds to add, and microsteps after them.
/// Made by `none` and `then` alone, so it keeps its limits.
#[derive(Clone, Copy, PartialEq, Eq, Debug, Drop)]
pub struct Shift {
    pub time: u64,
    pub steps: u32,
    ghost in_time: { time ≤ 1000000000000000000 },
    ghost in_steps: { steps ≤ 100000 },
}

impl Shift {
    ghost use Rattle.lft_tag.specs.Shifts.{HasRoom, join, none};

    /// No delay at all.
    pub const fn none() -> Shift
        ensures { (result.time, result.steps) ≡ none }
    {
        Shift { time: 0, steps: 0 }
    }

    /// One more delay at the end of the chain; None where the sum passes a limit.
    pub fn then(self, delay: u64) -> Option<Shift>
        ensures { MatchOption result (¬ HasRoom (join (self.time, self.steps) delay)) (λ s. HasRoom (join (self.time, self.steps) delay) × ((s.time, s.steps) ≡ join (self.time, self.steps) delay)) }
    {
        // Not a sum: 5 ms and then 0 lead to microstep 1, and 0 and then 5 ms to microstep 0.
        if delay == 0 {
            if self.steps >= MAX_STEPS {
                None
            } else {
                Some(Shift {
                    time: self.time,
                    steps: self.steps + 1,
                })
            }
        } else if delay > MAX_TIME || self.time > MAX_TIME - delay {
            None
        } else {
            Some(Shift {
                time: self.time + delay,
                steps: 0,
            })
        }
    }
}

impl Tag {
    ghost use Rattle.std.specs.Prelude.{SomeIff};
    ghost use Rattle.lft_tag.specs.{Tags.{Before, IsRecorded, after, after_all}, Shifts.{join_all, none, shifted}};

    /// The recorded tag of this time and microstep; None exactly past a limit of recorded tags.
    pub fn new(time: u64, micro: u32) -> Option<Tag>
        ensures { SomeIff result (IsRecorded (record { time = time; micro = micro })) (record { time = time; micro = micro }) }
    {
        if time > MAX_TIME || micro > MAX_MICRO {
            None
        } else {
            Some(Tag { time, micro })
        }
    }

    /// Whether the two are one tag.
    pub fn is_same(self, other: Tag) -> bool
        ensures { IsTrue result ↔ (self ≡ other) }
    {
        self.time == other.time && self.micro == other.micro
    }

    /// Whether this tag is earlier.
    pub fn is_before(self, other: Tag) -> bool
        ensures { IsTrue result ↔ Before self other }
    {
        self.time < other.time || (self.time == other.time && self.micro < other.micro)
    }

    /// Where the delays that the shift folds take this tag, one after another.
    pub fn plus(self, shift: Shift) -> Tag
        requires { IsRecorded self }
        ensures folded { result ≡ shifted self (shift.time, shift.steps) }
        ensures chain { (delays : List ℕ) → join_all none delays ≡ (shift.time, shift.steps) → result ≡ after_all self delays }
    {
        if shift.time == 0 {
            Tag {
                time: self.time,
                micro: self.micro + shift.steps,
            }
        } else {
            Tag {
                time: self.time + shift.time,
                micro: shift.steps,
            }
        }
    }

    /// The tag of an event that is scheduled at this tag, with both delays in nanoseconds.
    pub fn after(self, min_delay: u64, extra: u64) -> Tag
        requires recorded { IsRecorded self }
        requires min { min_delay ≤ 1000000000000000000 }
        requires more { extra ≤ 1000000000000000000 }
        ensures { result ≡ after self (min_delay + extra) }
    {
        let delay = min_delay + extra;
        if delay == 0 {
            Tag {
                time: self.time,
                micro: self.micro + 1,
            }
        } else {
            Tag {
                time: self.time + delay,
                micro: 0,
            }
        }
    }
}
