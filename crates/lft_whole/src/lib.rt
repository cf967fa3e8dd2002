#![tactic(auto)]
//! Texts of the whole language: their tokens, and the tree of what coordination needs.
//!
//! - `parts`: the small parts of which members are made, each read by a function.
//! - `sources`: the files of a program as they are read, and why there is no core program of them.

mod classes;
mod fault;
mod lexer;
mod numbers;
pub mod parts;
mod piece;
mod quotes;
pub mod sources;
mod tree;

pub use fault::{TextFault, TreeFault};
pub use lexer::lex;
pub use lft_syntax::{Token, TokenKind, Tokens};
pub use lft_tree::{Time, TimeUnit};
pub use tree::{
    Action, Assignment, Connection, Count, Effect, Expression, File, Foreign, Import, ImportedName,
    Instance, Member, Name, Parameter, Port, Reaction, Reactor, Reference, Term, Timeout, Timer,
    Trigger, Width, WrittenValue,
};
