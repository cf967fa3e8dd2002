#![tactic(auto)]
//! What an accepted trace exercised, as text: one fact a line, or for people.
//!
//! - `driver`: the command `cover`, from texts or a plan to a verdict and that text.
//!
//! The clauses speak of each byte of the list. Of the text for people they speak of the line of sums alone.

pub mod driver;
mod inputs;
mod least;
mod listing;
mod pairs;
mod putting;
mod sums;
mod telling;

pub use listing::write_facts;
pub use telling::push_told;
