//! What may start next.

use lft_tag::Tag;

/// What a recording so far allows.
#[derive(Clone, Copy, Drop)]
pub enum NextRun {
    /// The least reaction that may start, at the least unfinished tag.
    Ready(Tag, u32),
    /// Something is left to run, and nothing may start before an open run has ended.
    Blocked,
    /// Nothing is left to run up to the stop.
    Nothing,
}
