//! A loop, of a circle in which each leads to one that precedes it.

ghost use Rattle.std.specs.Prelude.{◌≡◌, ℕ, ◌<◌, ◌≤◌, ◌^◌, length, slice_get, Some, IfOk};
ghost use Rattle.lft_graph.specs.inner.Walks.{turned, IsTurned};

use crate::lists::Loop;
use lft_lists::item_at;
use lft_tag::NoMemory;
use std::alloc::Global;

// the place of the least number
fn least_place(circle: &[usize]) -> usize
    requires { 0 < length circle.now }
    ensures within { result < length circle.now }
    ensures least { (i a b : ℕ) → slice_get circle.now i ≡ Some a → slice_get circle.now result ≡ Some b → b ≤ a }
{
    let mut least = 0;
    'places: for place in 0..circle.len() {
        if item_at(circle, place) < item_at(circle, least) {
            least = place;
        }
    }
    least
}

// the place at a step of a turn that goes down from a place to 0, and then from the end
fn turned_place(place: usize, total: usize, step: usize) -> usize
    requires within { place < total }
    requires step { step < total }
    ensures value { result ≡ turned place total step }
    ensures below { result < total }
{
    if step <= place {
        place - step
    } else {
        total - (step - place)
    }
}

/// The circle backwards, the least number first.
pub(crate) fn turned_back(alloc: Global, circle: &[usize]) -> Result<Loop, NoMemory>
    requires some { 0 < length circle.now }
    requires small { (i a : ℕ) → slice_get circle.now i ≡ Some a → a < 2 ^ 32 }
    ensures { IfOk result (λ loop. IsTurned circle.now loop) }
{
    let place = least_place(circle);
    let mut items = Vec::new(alloc);
    'steps: for step in 0..circle.len() {
        let next = turned_place(place, circle.len(), step);
        items.push(item_at(circle, next) as u32)?;
    }
    Ok(Loop::from_vec(items))
}
