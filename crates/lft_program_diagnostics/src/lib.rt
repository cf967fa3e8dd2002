#![tactic(auto)]
//! Why a program that has a tree is refused, for people: what shows the cause, where in the text it stands, and
//! what to write. Of reactions that precede themselves the loop is told.
//!
//! The text may be that of several files, one behind another: a `Page` is one of them, and a `Span` some bytes of it
//! or of another text.
//!
//! The clauses speak of the first cause that holds, and of the place that shows it where a single place does.
//! That is so of all causes but 5, 10, 14 and 15. Which names a sentence has is free: cases try it.

mod candidates;
mod code;
mod findings;
mod loops;
mod near;
mod pages;
mod reason;
mod reasons;
mod recursion;
mod refused;
mod sentence;
mod singles;
mod spans;
mod spots;
mod tell;
mod unknown;
mod ways;
mod whole;
mod words;

pub use loops::tell_loop;
pub use near::{nearest, push_link, push_question};
pub use pages::{Page, push_marked};
pub use sentence::Sentence;
pub use spans::Span;
pub use tell::{tell_refusal, tell_refusal_in};
pub use unknown::way_of_code;
