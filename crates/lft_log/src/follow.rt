//! Logs that are followed while they are written: from a reader to printed lines.
//!
//! No clause says how many lines `every` makes: there may be none. Of a line that is no row and no external
//! input the name of the fault is free. A body that always says that memory is refused, or that the reader
//! failed, meets each contract.

mod follow;
mod kept;
mod line;

pub use crate::{Ended, Final, Told};
pub use follow::{Following, drain, follow_plan, read_until, status_of_log};
pub use kept::Kept;
