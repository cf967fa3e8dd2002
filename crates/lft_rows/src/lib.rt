#![tactic(auto)]
//! What the rows of a trace say, before they are put in order by tag. Here the rules 1 to 5, which rows break
//! one by one.
//!
//! - `presence`: the causes of events, and what they make present, trigger and collide at a tag.
//! - `answers`: what a run read and answered.

pub mod answers;
mod declared;
mod effects;
mod laws;
mod marks;
mod open;
mod parts;
mod pass;
pub mod presence;
mod reads;
mod seats;
mod slices;

pub use laws::law_pass;
pub use marks::Marks;
pub use parts::first_breach_shared;
pub use pass::{Pass, first_breach};
pub use slices::Slice;
