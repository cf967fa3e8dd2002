//! The small parts of which members of a whole text are made: a function for each, from the place of its first
//! token to the part and the place behind it.

pub mod groups;
pub mod lexed;
pub mod names;
pub mod references;
pub mod tokens;
pub mod types;
pub mod values;
pub mod widths;
