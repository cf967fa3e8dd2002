//! A broken rule.

use lft_tag::Tag;

/// A rule that a trace breaks, and where. The row is a line of the table, the header being line 1,
/// for the rules 1 to 5, and 0 for the others. The reaction is None for rule 6 alone.
#[derive(Clone, Copy, PartialEq, Eq, Debug, Drop)]
pub struct Breach {
    pub rule: u8,
    pub tag: Tag,
    pub reaction: Option<u32>,
    pub row: u32,
}
