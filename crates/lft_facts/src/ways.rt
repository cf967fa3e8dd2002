//! From which reactions a way leads to one.

ghost use Rattle.std.specs.Prelude.{◌≡◌, ◌↔◌, ◌<◌, Some, length, slice_get, IsTrue, IfOk};
ghost use Rattle.lft_graph.specs.Graph.{IsGraphOf};
ghost use Rattle.lft_ir.specs.Parts.{Parts};
ghost use Rattle.lft_facts.specs.inner.Ways.{AreWays, AreSteps, IsMarked, IsMarking, AreThere, LeadsOn};

use lft_graph::Graph;
use lft_lists::item_at;
use lft_tag::NoMemory;
use std::alloc::Global;

/// What stands at the place, counted from 0.
pub(crate) fn next_at(next: &[Option<u32>], place: u32) -> Option<u32>
    requires { place < length next.now }
    ensures { slice_get next.now place ≡ Some result }
{
    next[place as usize]
}

/// Whether a number stands at the place.
pub(crate) fn is_marked(next: &[Option<u32>], place: u32) -> bool
    requires { place < length next.now }
    ensures { IsTrue result ↔ IsMarked next.now place }
{
    match next_at(next, place) {
        Some(_) => true,
        None => false,
    }
}

/// Whether the reaction is the last one or has one that comes next.
fn leads_on(next: &[Option<u32>], last: u32, reaction: u32) -> bool
    requires { reaction < length next.now }
    ensures { IsTrue result ↔ LeadsOn last next.now reaction }
{
    reaction == last || is_marked(next, reaction)
}

/// Writes the number at the places that the list has and where none stands yet.
fn mark(next: &mut [Option<u32>], list: &[u32], number: u32)
    requires { AreThere (length next.old) list.now }
    ensures { IsMarking list.now number next.old next.new }
{
    for place in 0..list.len() {
        let at = item_at(list, place);
        match next_at(next, at) {
            None => next[at as usize] = Some(number),
            // Kept: the last reaction marks first, so what is just before it leads there in one step.
            Some(_) => {}
        }
    }
}

/// For each reaction that precedes the last one a reaction that comes next on a way there.
pub(crate) fn ways(
    alloc: Global,
    graph: &Graph,
    reactions: usize,
    last: u32,
) -> Result<Vec<Option<u32>>, NoMemory>
    requires graph { (program : Parts) × IsGraphOf program graph.now }
    requires reactions { reactions ≡ length graph.now.before }
    requires last { last < length graph.now.before }
    ensures { IfOk result (λ next. AreWays graph.now last next.items) }
{
    // By level, from the last one down, so that one pass is enough.
    let order = graph.by_level();
    let mut next = vec![in alloc; None; reactions]?;
    let mut left = order.len();
    while left > 0 {
        left -= 1;
        let reaction = item_at(order, left);
        if leads_on(next.as_slice(), last, reaction) {
            mark(next.as_mut_slice(), graph.before(reaction), reaction);
        }
    }
    Ok(next)
}

/// For each reaction that is just before the last one, that one.
pub(crate) fn steps(
    alloc: Global,
    graph: &Graph,
    reactions: usize,
    last: u32,
) -> Result<Vec<Option<u32>>, NoMemory>
    requires graph { (program : Parts) × IsGraphOf program graph.now }
    requires reactions { reactions ≡ length graph.now.before }
    requires last { last < length graph.now.before }
    ensures { IfOk result (λ near. AreSteps graph.now last near.items) }
{
    let mut near = vec![in alloc; None; reactions]?;
    mark(near.as_mut_slice(), graph.before(last), last);
    Ok(near)
}
