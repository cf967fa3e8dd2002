#![tactic(auto)]
//! Races: runs that start although one that precedes them at their tag hasn't ended. Where runs start and end,
//! and which row another one contradicts, is found here too.
//!
//! - `hints`: guesses at what is behind a breach.

mod across;
mod before;
mod finding;
pub mod hints;
mod noting;
mod ordering;
mod runs;
mod slicing;
mod unfinished;

pub use across::{is_open_across, open_across};
pub use before::{race_before, rows_before};
pub use ordering::{first_read, first_start, greater_row, is_end_at, is_open_since, open_start};
pub use runs::{is_start_at, runs_at, start_of};
pub use unfinished::unfinished_at;
