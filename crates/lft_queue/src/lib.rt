#![tactic(auto)]
//! Pending events by tag.
//!
//! - `coming`: the events that are still to come, and what rows cause at later tags.

pub mod coming;
mod keys;
mod names;
mod queue;
mod reading;

pub use names::NamesAt;
pub use queue::{Queue, QueueFault};
pub use reading::read_ports;
