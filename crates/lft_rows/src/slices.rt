//! Rows that stand side by side at one tag.

use lft_tag::Tag;

/// The rows at one tag: those from the first place up to, without, the end, counted from 0.
#[derive(Clone, Copy, PartialEq, Eq, Debug, Drop)]
pub struct Slice {
    pub tag: Tag,
    pub first: usize,
    pub end: usize,
}
