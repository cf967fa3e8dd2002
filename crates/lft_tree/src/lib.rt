#![tactic(auto)]
//! The tree of a core text, as data.

mod ast;
mod tree;

pub use ast::Ast;
pub use tree::{
    Action, Assignment, Connection, Instance, Item, Member, Parameter, Port, Reaction, Reactor,
    Reference, Time, TimeExpression, TimeUnit, Timer, TokenRange, Trigger,
};
