//! What is told of a log, with what explains it.
//!
//! Nothing stands behind the line where the breach isn't the first of the rows that are there, and no clause
//! says that it is. Of how far a log is read one thing is said: the row of a breach that is explained is read.
//! The answer may always say that memory was refused.

mod cut;
mod explaining;
mod first;
mod listed;
mod reasons;

pub use explaining::{Explained, Unexplained, explain_log_plan};
