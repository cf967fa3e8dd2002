#![tactic(auto)]
//! Logs: trace tables that come in pieces, with external inputs among their rows, judged while they come.
//!
//! - `follow`: the command `follow`, from a reader to lines.
//! - `explain`: what explains the breach of a log.
//!
//! What is told is so of the log's first rows, for the plan that its external inputs make. No clause says that
//! it is told as early as it is sure.

mod asked;
pub mod explain;
mod fault;
pub mod follow;
mod front;
mod laws;
mod lines;
mod log;
mod rows;
mod telling;
mod told;

pub use fault::LogFault;
pub use laws::law_log;
pub use log::Log;
pub use rows::{FirstRows, rows_of_log};
pub use told::{Ended, Final, Told};
