#![tactic(auto)]
//! The follower: what is sure of a trace before all of its rows are there.
//!
//! What is sure of some rows stays sure when more come, and at the end it is the whole (`law_sure`,
//! `law_timely`). No clause says that a breach is told as early as it is sure, or that rows are told to be odd,
//! or not to be judged, only where a bound or memory is in the way.

mod follower;
mod found;
mod gone;
mod judged;
mod kept;
mod last;
mod laws;
mod monitor;
mod open;
mod past;
mod reach;

pub use follower::{Follower, Progress, Receipt};
pub use found::BrokenRule;
pub use judged::{Closing, Ending, Unjudged};
pub use laws::{law_sure, law_timely};
pub use open::StillOpen;
pub use reach::Reach;
