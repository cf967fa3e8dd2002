#![tactic(auto)]
//! What a trace means: plans, breaches, the one-worker machine and the laws about them. The slow forms and two
//! of the laws are for who asks or reads: no command calls them.
//!
//! The recorder rests on lemmas about a recording so far (`SoFar`), a file of `proofs` each:
//!
//! - `Empty`: no rows are one.
//! - `Begun`: it stays one if a ready reaction begins a run.
//! - `Committed`: and if an open run ends with steps that its effects allow, and no collision follows.
//! - `Answered`: the answer of each run is one that its effects may have.
//! - `Recording`: an open run stays ready, and reads what the ended runs give it.
//! - `Added`: what has to be shown of added rows alone.
//! - `Quiet`: if only ended runs have answered, the rows trigger and show what these do.
//! - `Finished`: it is legal if all runs have ended and nothing is pending.

mod breach;
pub mod laws;
mod plan;
mod reads;
mod slow;
mod stop;
mod timers;
mod workers;

pub use breach::Breach;
pub use plan::Plan;
pub use reads::Reads;
pub use slow::{clash_slow, inputs_slow, present_slow, triggered_slow};
pub use stop::trace_stop;
pub use timers::fires;
pub use workers::is_workers;
