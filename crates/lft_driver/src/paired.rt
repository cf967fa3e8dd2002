//! What is said of two traces of one program.

use lft_model::Breach;
use lft_tag::Tag;

/// What two traces of one program and its external inputs show beside one another.
#[derive(Clone, Copy, PartialEq, Eq, Debug, Drop)]
pub enum Paired {
    /// The first trace breaks a rule.
    First(Breach),
    /// The first is accepted, and the second breaks a rule.
    Second(Breach),
    /// Both are accepted and have the same runs, with so many runs at so many different tags.
    Same { runs: u32, tags: u32 },
    /// Both are accepted; the reaction met the same history and the same inputs at the tag in both,
    /// and answered otherwise. By tag, level and reaction number it is the first difference.
    Differ { tag: Tag, reaction: u32 },
}
