//! What references of a setting become in the core, the names of reactors there, what is said of a program, and
//! how much text may be made.
//!
//! No clause says which notes are said of a program, or which name a setting gets.

pub mod naming;
pub mod notes;
pub mod places;
pub mod room;
