#![tactic(auto)]
//! Why a text is refused, for people. Here why a program's text has no tree: the line with a mark, what could
//! stand there, and what to write in place of what is left out of the language.
//!
//! - `tables`: why a table is refused.
//! - `words`, `headers`, `candidates`: for who tells of other texts.
//!
//! The clauses speak of the place, of what is wrong there, and of what is listed as what could stand there.
//! Which way out is told and what else is listed is free: cases try it.

mod before;
mod candidate;
pub mod candidates;
mod diagnostic;
pub mod headers;
mod left_out;
mod place;
mod program_text;
mod quoting;
mod refusal;
mod sentence;
pub mod tables;
mod ways;
pub mod words;

pub use candidate::Candidate;
pub use diagnostic::Diagnostic;
pub use place::{LineColumn, begins_letter, place_of};
pub use program_text::{tell_no_tokens, tell_no_tree, way_at};
pub use quoting::{push_line, push_place};
pub use sentence::{TOO_SOON, push_standing};
