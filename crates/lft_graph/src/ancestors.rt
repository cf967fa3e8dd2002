//! What precedes each reaction.

ghost use Rattle.std.specs.Prelude.{◌≡◌, ◌<◌, ◌≤◌, ◌+◌, ◌/◌, ℕ, [], length, replicate, Some, IfOk, slice_get};
ghost use Rattle.lft_graph.specs.{Graph.IsGraphOf, inner.Sets.{AreAncestors, HaveRoom, HasAll, IsUnion}};

use crate::graph::Graph;
use crate::sets::Set;
use lft_ir::Program;
use lft_lists::item_at;
use lft_tag::NoMemory;
use std::alloc::Global;
use std::marker::Model;

/// For each reaction the set of those that precede it.
// Whether runs that overlap keep the order of precedence is asked at each tag, and a way from one
// reaction to another may lead over all others. So the ways are gone through once, before the tags.
// That takes a bit for each two reactions, 12.5 MB at most.
#[derive(Drop)]
pub struct Ancestors {
    sets: Vec<Set>,
}

impl Model for Ancestors {
    ghost use Rattle.std.specs.Prelude.{List, ℕ};

    ghost Value = { List (List ℕ) };

    ghost view = { λ ancestors. ancestors.sets.items };
}

/// So many sets without a reaction.
fn empty_sets(alloc: Global, count: usize) -> Result<Vec<Set>, NoMemory>
    ensures { IfOk result (λ sets. sets.items ≡ replicate count []) }
{
    let mut sets = Vec::with_capacity(alloc, count)?;
    for _ in 0..count {
        sets.push(Set::empty(alloc))?;
    }
    Ok(sets)
}

/// The members of a short list and what precedes them.
fn union_of(alloc: Global, list: &[u32], sets: &[Set]) -> Result<Set, NoMemory>
    requires list { HasAll list.now sets.now }
    requires room { HaveRoom (length sets.now) sets.now }
    ensures room { IfOk result (λ set. length set ≤ length sets.now / 64 + 1) }
    ensures members { IfOk result (IsUnion list.now (length list.now) sets.now) }
{
    if list.is_empty() {
        return Ok(Set::empty(alloc));
    }
    let mut union = Set::with_room(alloc, sets.len())?;
    for place in 0..list.len() {
        let member = item_at(list, place);
        union.insert(member);
        union.add_all(&sets[member as usize]);
    }
    Ok(union)
}

impl Ancestors {
    /// What precedes each reaction of the program whose graph this is.
    pub fn new(alloc: Global, program: &Program, graph: &Graph) -> Result<Ancestors, NoMemory>
        requires { IsGraphOf program.now graph.now }
        ensures { IfOk result (AreAncestors program.now) }
    {
        let order = graph.by_level();
        let mut sets = empty_sets(alloc, program.reactions())?;
        for place in 0..order.len() {
            let reaction = item_at(order, place);
            let union = union_of(alloc, graph.before(reaction), sets.as_slice())?;
            sets[reaction as usize] = union;
        }
        Ok(Ancestors { sets })
    }

    /// What precedes the reaction.
    pub fn of(&self, reaction: u32) -> &Set
        requires { reaction < length self.now }
        ensures { slice_get self.now reaction ≡ Some result.now }
    {
        &self.sets[reaction as usize]
    }
}
