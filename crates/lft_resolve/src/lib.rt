#![tactic(auto)]
//! What the names in the reactors of a file stand for. It has the definitions of instances and of the causes of
//! refusal too.
//!
//! - `by_number`: tables of what each reactor declares, by the reactors' numbers.
//! - `expansion`: the instances of a main reactor, over these numbers alone.

pub mod by_number;
mod causes;
pub mod expansion;
mod fault;
pub mod file;
pub mod hashing;
pub mod index;
pub mod kinds;
pub mod members;
pub mod names;
pub mod own;
mod scopes;
pub mod times;

pub use causes::{FIRST_CAUSES, LATER_CAUSES, ProgramFault};
pub use fault::ReactorFault;
pub use scopes::Scopes;
