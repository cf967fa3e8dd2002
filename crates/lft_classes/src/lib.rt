#![tactic(auto)]
//! Reactors of several files with all that they inherit, and which of their parameters decide widths or are
//! times.
//!
//! A refusal of a mode, a mutation or a watchdog says which of them it is. No clause says why else there are no
//! shapes.

mod chains;
mod deciding;
mod making;
mod nesting;
mod scopes;
mod shapes;
mod walk;
mod weights;
mod work;

pub use nesting::Nesting;
pub use scopes::Class;
pub use shapes::{
    Child, GivenValue, Inherited, InheritedParameter, OwnThing, Shape, foreign, why_of,
};
pub use work::Work;
