//! Tables read in batches, and by several workers.

mod batch;
mod batches;
mod externals;
pub(crate) mod headers;
mod rows;
mod shared;

pub use batch::{read_batch, read_lines};
pub use externals::read_externals_shared;
pub use headers::below_header;
pub use rows::{next_rows, trace_lines, trace_records};
pub use shared::read_trace_shared;
