#![tactic(auto)]
//! The checker: the verdict on a trace, with the rules 6 to 10 tag by tag.
//!
//! - `by_tag`: the rows by tag, with what they cause.
//!
//! What `judge` promises (`IsExact`) has no word on the number of workers. So any two numbers give the same
//! verdict.

pub mod by_tag;
mod examine;
mod fault;
mod from;
mod judging;
mod ranks;
mod shares;
mod verdict;
mod watch;

pub use fault::{CheckFault, FromFault};
pub use from::first_from;
pub use judging::{judge, judge_alone};
pub use verdict::Verdict;
pub use watch::{NoWatch, Watch};
