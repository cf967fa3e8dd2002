//! What a body answers.

use lft_ir::steps::Step;
use lft_lists::List;

/// Write, schedule and stop steps in order.
pub type Steps = List<Step>;

/// The answer of a body: the state word that it leaves, and its steps.
#[derive(Debug, Drop)]
pub struct Done {
    pub state: i64,
    pub steps: Steps,
}
