//! The numbers of what instances declare.

ghost use Rattle.std.specs.Prelude.{◌≡◌, ℕ, ◌<◌, ◌≤◌, List, length, IfOk, IfSome, IfNone, MatchOption, min};
ghost use Rattle.lft_resolve.specs.inner.Expansion.{Contents.IsWalk, Listing.AreThingsListed};
ghost use Rattle.lft_resolve.specs.inner.Expansion.Numbers.{AreFirstNumbers, HasMoreThings, count_of_things, things};
ghost use Rattle.lft_resolve.specs.declared.expansion.walk.Contents.{Contents};

use crate::expansion::walk::Instance;
use lft_lists::item_at;
use lft_tag::NoMemory;
use std::alloc::Global;

/// What an instance declares, as a port, a timer, an action or a reaction: the number of the
/// instance, and the place among those of its reactor, counted from 0.
#[derive(Clone, Copy, PartialEq, Eq, Drop)]
pub struct Thing {
    pub instance: u32,
    pub place: u32,
}

// how many things a reactor declares
fn count_at(counts: &[u32], reactor: u32) -> u32
    ensures { result ≡ count_of_things counts.now reactor }
{
    counts.get(reactor as usize).copied().unwrap_or(0)
}

/// How many things of one kind the instances have, or the greatest number where that is less. The counts
/// are those of `first_numbers`.
pub fn count_things(counts: &[u32], instances: &[Instance]) -> usize
    ensures { result ≡ min (things counts.now instances.now) usize.MAX }
{
    let mut total: usize = 0;
    'instances: for number in 0..instances.len() {
        total = total.saturating_add(count_at(counts, item_at(instances, number).reactor) as usize);
    }
    total
}

/// The number of each instance's first thing of one kind, or None where the instances have more
/// things than the limit. The counts say how many things each reactor declares, by its number; a
/// number past their end stands for a reactor without things. Things are numbered from 0 by
/// instance, and then by their place in the reactor.
pub fn first_numbers(
    alloc: Global,
    instances: &[Instance],
    counts: &[u32],
    limit: u32,
) -> Result<Option<Vec<u32>>, NoMemory>
    ensures numbers { IfOk result (λ o. IfSome o (λ v. AreFirstNumbers counts.now instances.now v.items)) }
    ensures within { IfOk result (λ o. IfSome o (λ _. things counts.now instances.now ≤ limit)) }
    ensures passed { IfOk result (λ o. IfNone o (limit < things counts.now instances.now)) }
    // of a walk's instances, the limit is passed exactly where it is in the tree
    ensures tree { IfOk result (λ o.
        (table : List Contents) → (main : ℕ) → IsWalk table main instances.now
        → MatchOption o (HasMoreThings table main counts.now limit)
        (λ _. HasMoreThings table main counts.now limit → ⊥)) }
{
    let mut firsts = Vec::new(alloc);
    let mut total = 0;
    'instances: for number in 0..instances.len() {
        let count = count_at(counts, item_at(instances, number).reactor);
        if count > limit - total {
            return Ok(None);
        }
        firsts.push(total)?;
        total += count;
    }
    Ok(Some(firsts))
}

/// The instance that declares each thing of one kind, and its place there, by the thing's number.
/// The counts are those of `first_numbers`.
pub fn list_things(
    alloc: Global,
    instances: &[Instance],
    counts: &[u32],
) -> Result<Vec<Thing>, NoMemory>
    requires { length instances.now ≤ 10000 }
    ensures { IfOk result (λ v. AreThingsListed counts.now instances.now v.items) }
{
    let mut all = Vec::new(alloc);
    'instances: for number in 0..instances.len() {
        let reactor = item_at(instances, number).reactor;
        'things: for place in 0..count_at(counts, reactor) {
            all.push(Thing {
                instance: number as u32,
                place,
            })?;
        }
    }
    Ok(all)
}
