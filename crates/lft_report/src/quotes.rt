//! The rows that facts name, quoted with their lines and what each of them is to the facts.

mod marks;
mod picking;
mod quoting;
mod rows;

pub use marks::{Quote, RowMark};
pub use quoting::quote;
