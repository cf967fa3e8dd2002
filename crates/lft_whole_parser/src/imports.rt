//! The files of a program, each read once.
//!
//! The caller reads the files: no clause says what stands in one. Any text may be given for a path.

mod asked;
mod paths;
mod reading;
mod sources;
mod spots;

pub use sources::Sources;
