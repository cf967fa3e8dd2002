#![tactic(auto)]
//! Flattening: from the tree of a program's text to the flat program, or to the first cause of refusal.
//!
//! A program comes exactly if no cause holds, and it is the only flat program of the tree. Of several causes the
//! first in the order of `causes` is answered. What is told with one is true; where several things show the
//! cause, it may be any of them.

mod assembly;
mod flattening;
mod laying;
mod naming;
mod nesting;
mod own_names;
mod refusal;
mod spots;
mod tree_lists;
mod tree_names;

pub use flattening::{flatten, flattened};
pub use lft_ir::{
    Action, Found, Name, Names, Port, Program, Reaction, Source, Timer, Trigger, Triggers, Value,
};
pub use lft_resolve::ProgramFault;
pub use nesting::{Excess, LimitedKind, Way};
pub use refusal::Refusal;
