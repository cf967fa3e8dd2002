#![tactic(auto)]
//! How often something holds in a trace, counted row by row: runs, writes, orders that are met, runs that are
//! open together.
//!
//! No row of the trace may break one of the rules 1 to 5. The judge says so of the rows that it has gone over,
//! so both go over them together.

mod cover;
mod inputs;
mod many;
mod orders;
mod overlaps;
mod tally;
mod workers;

pub use cover::{Counting, Cover};
pub use inputs::{ReadInput, ReadInputs};
pub use many::how_many;
pub use orders::{Last, Order, Orders};
pub use overlaps::Overlaps;
pub use tally::Tally;
pub use workers::Workers;
