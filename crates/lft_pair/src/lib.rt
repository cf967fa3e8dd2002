#![tactic(auto)]
//! The comparison of two legal traces of one plan.

mod answers;
mod comparison;
mod contrasting;
mod difference;
mod pairing;
mod starts;

pub use comparison::Pair;
pub use contrasting::{Contrast, Contrasts, LastWrite, Scheduling, contrast, find, tell};
pub use pairing::pair;
