//! Guesses at what is behind a breach: each rests on a condition that holds of the plan and the rows.

mod guessing;
mod hint;
mod rows;

pub use guessing::hint_of;
pub use hint::{Hint, tell_hint};
