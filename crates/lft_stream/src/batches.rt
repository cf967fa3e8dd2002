//! Trace tables and rows, accepted a batch at a time.

mod cut;
mod progress;
mod reader;
mod rows;
mod shared;

pub use cut::{CutBatch, cut_batch};
pub use reader::accepts_reader;
pub use rows::{accepts_rows, rows_together};
pub use shared::accepts_reader_shared;
