//! The rows of a trace by tag, with what they cause: what the judge asks.

mod absences;
mod fault;
mod gap;
mod inputs;
mod lists;
mod missing;
mod sharing;
mod sliced;
mod slices;
mod slicing;
mod started;
mod stops;
mod walk;

pub use fault::CutFault;
pub use sharing::slice_rows_shared;
pub use sliced::Sliced;
pub use slicing::slice_rows;
pub use walk::Walk;
