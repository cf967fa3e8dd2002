#![tactic(auto)]
//! From texts to a plan, or to the first fault with its line; and how texts are read and lines are written.
//!
//! - `files`: files by their paths: their bytes, the plan under what one has, or why they can't be read or written.

mod fault;
pub mod files;
mod input;
mod layers;
mod output;
mod status;
mod words;

pub use fault::{Detail, Fault, Part};
pub use input::{SizedReader, read_input};
pub use layers::{Unplanned, graph_of, load, plan_from, plan_of, read_program};
pub use output::write_text;
pub use status::finish;
pub use words::{push_field, push_names};
