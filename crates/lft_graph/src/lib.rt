#![tactic(auto)]
//! Which reactions precede which at a tag: short lists and levels, or a causality loop. How many pairs have
//! no order.

mod ancestors;
mod before;
mod fault;
mod graph;
mod levels;
mod lists;
mod loops;
mod members;
mod order;
mod sets;
mod unordered;
mod writers;

pub use ancestors::Ancestors;
pub use fault::GraphFault;
pub use graph::Graph;
pub use lists::Loop;
pub use sets::Set;
pub use unordered::unordered_pairs;
