#![tactic(auto)]
//! From the files of a whole program to its flat program, or to what is told of a refused one.
//!
//! No clause says when a file can't be read, or that anything is said of notes.

mod could;
mod hints;
mod names;
mod pages;
mod program;
mod reading;
mod told;

pub use program::{Whole, whole_program};
pub use told::Unlowered;
