//! Rows of a trace and external inputs, as values. `fits` serves who records.

mod externals;
mod fits;
mod order;
mod row;
mod same;
mod steps;

pub use externals::{Event, Externals};
pub use row::{Row, Rows, Step};
pub use steps::{is_end, is_start, is_stop, row_at};
