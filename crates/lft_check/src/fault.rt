//! Faults of the checker.

/// Why a trace gets no verdict.
#[derive(Clone, Copy, PartialEq, Eq, Debug, Drop)]
pub enum CheckFault {
    /// There are not 1 to 64 workers.
    BadWorkers,
    /// A growth was refused.
    NoMemory,
}

/// Why the first breach from a tag on isn't found.
#[derive(Clone, Copy, PartialEq, Eq, Debug, Drop)]
pub enum FromFault {
    /// A row breaks one of the rules 1 to 5.
    RowBroken,
    /// Two events meet before the tag.
    EarlyCollision,
    /// A growth was refused.
    Refused,
}
