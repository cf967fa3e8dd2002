#![tactic(auto)]
//! The core tree of a whole program, and the notes on it.
//!
//! - `meanings`: what references of a setting become in the core, the names of reactors there, and how much text
//!   may be made.
//!
//! Of some parts the clauses say why they are refused: references, times, connections, spacings. Why a program
//! is refused no clause of `lower` says, nor that each name is counted. That an instance gives no parameter a
//! value twice is promised by `lft_classes`.

mod connections;
mod copies;
mod instances;
mod maker;
mod making;
pub mod meanings;
mod reactions;
mod reactors;
mod times;

pub use making::{Lowering, lower};
