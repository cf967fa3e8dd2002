//! The short lists turned round.

ghost use Rattle.std.specs.Prelude.{◌≡◌, ℕ, [], ◌<◌, length, slice_get, Some, IfOk, OnOk};
ghost use Rattle.lft_scheduler.specs.inner.{Turns.HasProgram, Seats.{IsMirror, IsNoted}};

use lft_graph::Graph;
use lft_lists::item_at;
use lft_queue::coming::NumberLists;
use lft_tag::NoMemory;
use std::alloc::Global;

// adds a reaction to the lists of those in its short list
fn note(mine: &[u32], reaction: u32, after: &mut NumberLists) -> Result<(), NoMemory>
    requires inside { (i a : ℕ) → slice_get mine.now i ≡ Some a → a < length after.old }
    ensures { OnOk result (IsNoted reaction mine.now [] after.old after.new) }
{
    'members: for place in 0..mine.len() {
        let member = item_at(mine, place);
        after.push(member, reaction)?;
    }
    Ok(())
}

/// For each reaction those in whose short list it is.
pub(crate) fn mirror(alloc: Global, graph: &Graph, count: usize) -> Result<NumberLists, NoMemory>
    requires program { HasProgram graph.now }
    requires count { count ≡ length graph.now.before }
    ensures { IfOk result (IsMirror graph.now.before) }
{
    let mut after = NumberLists::empty(alloc, count)?;
    'reactions: for reaction in 0..count {
        let mine = graph.before(reaction as u32);
        note(mine, reaction as u32, &mut after)?;
    }
    Ok(after)
}
