//! Why rows can't be cut.

use lft_model::Breach;

/// Why rows can't be cut.
#[derive(Clone, Copy, PartialEq, Eq, Debug, Drop)]
pub enum CutFault {
    /// The first row that breaks one of the rules 1 to 5, and the least of these that it breaks.
    Broken(Breach),
    /// A growth of memory was refused.
    NoMemory,
}
