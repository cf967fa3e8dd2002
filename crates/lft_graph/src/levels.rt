//! Levels in an order in which each reaction stands behind those in its short list, or a loop.

ghost use Rattle.std.specs.Prelude.{◌≡◌, ℕ, List, ◌<◌, ◌≤◌, length, slice_get, Some, Err, IfOk};
ghost use Rattle.lft_graph.specs.{Graph.AreLevels, Loops.IsLoopOf, inner.Walks.{AreInside, IsStep, IsLevelOf, members_in}};
ghost use Rattle.lft_lists.specs.inner.Walking.{IsOrder, Leads};

use crate::fault::GraphFault;
use crate::loops::turned_back;
use crate::members::Members;
use lft_lists::{Walked, Ways, item_at, walk_all};
use lft_tag::NoMemory;
use std::alloc::Global;

/// The short lists, by reaction.
#[derive(Drop)]
struct BeforeLists<'a> {
    before: &'a [Members],
}

// the list of a reaction
fn list_at(before: &[Members], reaction: usize) -> &[u32]
    requires { reaction < length before.now }
    ensures { result.now ≡ members_in before.now reaction }
{
    before[reaction].as_slice()
}

impl Ways for BeforeLists<'_> {
    ghost use Rattle.lft_graph.specs.inner.Walks.{members_in};

    ghost ways = { λ lists reaction. members_in lists.before.now reaction };

    fn way(&self, number: usize, place: usize) -> Option<usize> {
        if number >= self.before.len() {
            return None;
        }
        let list = list_at(self.before, number);
        if place < list.len() {
            Some(list[place] as usize)
        } else {
            None
        }
    }
}

// 0, or one more than the greatest level of the members
fn level_of(list: &[u32], levels: &[u32]) -> u32
    requires small { (i a : ℕ) → slice_get list.now i ≡ Some a → (k : ℕ) × (slice_get levels.now a ≡ Some k) × (k < 10000) }
    ensures { IsLevelOf levels.now list.now (length list.now) result }
{
    let mut level = 0;
    'members: for place in 0..list.len() {
        let below = item_at(levels, item_at(list, place) as usize);
        if below >= level {
            level = below + 1;
        }
    }
    level
}

// the level of each reaction, in an order in which each stands behind those in its list
fn levels_along(alloc: Global, before: &[Members], order: &[usize]) -> Result<Vec<u32>, NoMemory>
    requires inside { AreInside before.now }
    requires few { length before.now ≤ 10000 }
    requires order { IsOrder (Leads (members_in before.now)) (length before.now) order.now }
    ensures { IfOk result (λ v. AreLevels before.now v.items) }
{
    let mut levels = vec![in alloc; 0; before.len()]?;
    'order: for place in 0..order.len() {
        let reaction = item_at(order, place);
        levels[reaction] = level_of(list_at(before, reaction), &levels);
    }
    Ok(levels)
}

/// The level of each reaction, or a loop.
pub(crate) fn levels(alloc: Global, before: &[Members]) -> Result<Vec<u32>, GraphFault>
    requires inside { AreInside before.now }
    requires few { length before.now ≤ 10000 }
    ensures levels { IfOk result (λ v. AreLevels before.now v.items) }
    ensures cycle { (l : List ℕ) → result ≡ Err (GraphFault.CausalityLoop l) → IsLoopOf (IsStep before.now) l }
{
    match walk_all(alloc, &BeforeLists { before }, before.len())? {
        Walked::Order(order) => Ok(levels_along(alloc, before, &order)?),
        Walked::Circle(circle) => { Err(GraphFault::CausalityLoop(turned_back(alloc, &circle)?)) }
    }
}
