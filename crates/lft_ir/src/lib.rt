#![tactic(auto)]
//! What a text becomes, as data: the flat program with its numbered instances, ports, actions, timers and
//! reactions.
//!
//! - `steps`: rows of a trace, and external inputs.
//! - `words`: how times, tags, values, names and rows are written for people.

mod copies;
mod found;
mod lists;
mod names;
mod parts;
mod program;
mod same;
pub mod steps;
mod texts;
pub mod words;

pub use found::Found;
pub use lft_tag::Source;
pub use lists::{Names, Triggers};
pub use names::{NameTable, Starts};
pub use parts::{Action, Name, Port, Reaction, Timer, Trigger, Value};
pub use program::Program;
pub use texts::Texts;
