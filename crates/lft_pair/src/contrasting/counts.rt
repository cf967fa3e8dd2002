//! How many runs of a trace stand before another one.

ghost use Rattle.std.specs.Prelude.{◌≡◌, ◌↔◌, ◌≤◌, IsTrue, length};
ghost use Rattle.lft_model.specs.Recorded.{instance_of as the_instance_of};
ghost use Rattle.lft_pair.specs.Counts.{Counts, StartsBefore, StartsEarlier};

use lft_ir::Program;
use lft_ir::steps::{Row, is_start, row_at};
use lft_tag::Tag;

/// The instance of the reaction; 0 for a number that is of no reaction.
pub(crate) fn instance_of(program: &Program, reaction: u32) -> u32
    ensures { result ≡ the_instance_of program.now reaction }
{
    if (reaction as usize) < program.reactions() {
        program.reaction(reaction).instance
    } else {
        0
    }
}

/// Whether the row starts a run before the tag.
fn starts_before(row: Row, tag: Tag) -> bool
    ensures { IsTrue result ↔ StartsBefore tag row }
{
    is_start(&row.step) && row.tag.is_before(tag)
}

/// How many runs stand before the tag.
pub(crate) fn count_before(rows: &[Row], tag: Tag) -> u32
    requires few { length rows.now ≤ 4000000 }
    ensures { Counts (StartsBefore tag) rows.now result }
{
    let mut count = 0;
    // To the last row, so that no clause has to say that tags rise.
    for place in 0..rows.len() {
        if starts_before(row_at(rows, place), tag) {
            count += 1;
        }
    }
    count
}

/// Whether the row starts a run of the reaction's instance, before its run at the tag.
fn starts_earlier(program: &Program, row: Row, tag: Tag, reaction: u32) -> bool
    ensures { IsTrue result ↔ StartsEarlier program.now tag reaction row }
{
    if !is_start(&row.step)
        || instance_of(program, row.reaction) != instance_of(program, reaction)
    {
        return false;
    }
    // At one tag the reactions of an instance run in the order of their numbers, which is that of the text.
    row.tag.is_before(tag) || (row.tag.is_same(tag) && row.reaction < reaction)
}

/// How many runs of the reaction's instance stand before its run at the tag.
pub(crate) fn count_earlier(program: &Program, rows: &[Row], tag: Tag, reaction: u32) -> u32
    requires few { length rows.now ≤ 4000000 }
    ensures { Counts (StartsEarlier program.now tag reaction) rows.now result }
{
    let mut count = 0;
    for place in 0..rows.len() {
        if starts_earlier(program, row_at(rows, place), tag, reaction) {
            count += 1;
        }
    }
    count
}
