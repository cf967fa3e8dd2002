//! The instances of a tree, and what they declare and connect, by number.

mod counts;
mod limits;
mod linking;
mod nest;
mod tables;
mod things;

pub use limits::{Excess, LimitedKind};
pub use linking::Way;
pub(crate) use linking::{Linked, links};
pub use nest::{Nest, NestFault, Numbering};
pub use tables::Tables;
