//! How many members of a list aren't 0.

ghost use Rattle.std.specs.Prelude.{length};
ghost use Rattle.lft_counts.specs.Counts.{IsOver};
ghost use Rattle.lft_graph.specs.Counts.{Count};

use lft_lists::item_at;

/// How many of the counts aren't 0.
pub fn how_many(counts: &[u64]) -> usize
    ensures { Count (IsOver counts.now) (length counts.now) result }
{
    let mut many = 0;
    for place in 0..counts.len() {
        if item_at(counts, place) != 0 {
            many += 1;
        }
    }
    many
}
