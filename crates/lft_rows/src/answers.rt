//! What a run read and answered, from the rows between its start row and its end row.

mod answers;
mod outcomes;
mod readings;
mod reads;
mod runs;
mod steps;

pub use answers::requests_stop;
pub use outcomes::{Answer, Outcome, Schedulings};
pub use runs::{answer_of_run, reads_of_run};
pub use steps::read_steps;
