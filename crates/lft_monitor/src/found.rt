//! A rule that is broken.

ghost use Rattle.std.specs.Prelude.{◌≡◌, ◌+◌, ◌<◌, ◌≤◌, ◌^◌, length, Some, slice_get};
ghost use Rattle.lft_ir.specs.declared.steps.row.Row.{Row as TheRow};
ghost use Rattle.lft_monitor.specs.Follows.{breach_of};

use lft_ir::steps::{Row, row_at};
use lft_model::Breach;
use lft_tag::Tag;

/// A rule that is broken, told as soon as it is sure.
#[derive(Clone, Copy, PartialEq, Eq, Debug, Drop)]
pub struct BrokenRule {
    pub rule: u8,
    pub tag: Tag,
    /// None for rule 6.
    pub reaction: Option<u32>,
    /// The row's line of the table, for the rules 1 to 5. The first row stands in line 2. It is 0 for the
    /// other rules.
    pub line: u64,
}

/// The rule that the row at the place breaks, where so many rows stand before these.
pub(crate) fn found_at(rows: &[Row], place: usize, before: u64, rule: u8) -> BrokenRule
    requires place { place < length rows.now }
    requires few { before ≤ 2 ^ 62 + 4000000 }
    requires short { length rows.now ≤ 4000000 }
    ensures rule { result.rule ≡ rule }
    ensures line { result.line ≡ before + place + 2 }
    ensures tag { (row : TheRow) → slice_get rows.now place ≡ Some row → result.tag ≡ row.tag }
    ensures reaction { (row : TheRow) → slice_get rows.now place ≡ Some row → result.reaction ≡ Some row.reaction }
{
    let row = row_at(rows, place);
    BrokenRule {
        rule,
        tag: row.tag,
        reaction: Some(row.reaction),
        line: before + place as u64 + 2,
    }
}

/// The breach of rows that are few enough for a table.
pub(crate) fn found_of(breach: Breach) -> BrokenRule
    ensures { breach_of result ≡ breach }
{
    BrokenRule {
        rule: breach.rule,
        tag: breach.tag,
        reaction: breach.reaction,
        line: breach.row as u64,
    }
}

/// The same of rows behind so many others.
pub(crate) fn found_behind(breach: Breach, before: u64) -> BrokenRule
    requires few { before ≤ 2 ^ 62 + 4000000 }
    ensures { breach_of result ≡ record breach { row = before + breach.row } }
{
    BrokenRule {
        line: before + breach.row as u64,
        ..found_of(breach)
    }
}
