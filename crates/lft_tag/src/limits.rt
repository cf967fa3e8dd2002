//! The limits of tags, programs, traces and recordings.

// Clauses say these figures. A proof fails where one of them says another one.

/// The greatest time of a recorded tag and the greatest delay, in nanoseconds.
pub const MAX_TIME: u64 = 1_000_000_000_000_000_000;
/// The greatest microstep of a recorded tag.
pub const MAX_MICRO: u32 = 1_000_000_000;
/// The greatest number of microsteps that a shift adds.
pub const MAX_STEPS: u32 = 100_000;

/// The greatest number of instances of a program, with the main one.
pub const MAX_INSTANCES: usize = 10_000;
/// The greatest number of reactions of a program.
pub const MAX_REACTIONS: u32 = 10_000;
/// The greatest number of ports of a program, of single connections, of actions, and of timers.
pub const MAX_THINGS: u32 = 100_000;

/// The greatest number of rows of a trace, of external events, and of cards.
pub const MAX_ROWS: usize = 4_000_000;
/// The greatest number of runs of a recording.
pub const MAX_RUNS: u32 = 1_000_000;
