//! The tags of a trace, shared out among workers.

ghost use Rattle.std.specs.Prelude.{◌≡◌, ℕ, ◌<◌, ◌≤◌, length, Some, Err, IfOk, IfErr, OnOk, slice_get};
ghost use Rattle.lft_rows.specs.Presence.Clashes.{IsClash};
ghost use Rattle.lft_check.specs.inner.{ByTag.Slices.AreSlices, Verdicts.{LeastOf, BreachIn}, Shares.{share_start, IsLeastOfShare, AreShares, IsFound, AreOk}};
ghost use Rattle.lft_graph.specs.inner.Sets.{AreAncestors};

use crate::by_tag::Sliced;
use crate::judging::{first_in, lesser};
use crate::watch::Watch;
use lft_graph::Ancestors;
use lft_lists::item_at;
use lft_model::Breach;
use lft_rows::Slice;
use lft_tag::{NoMemory, Tag};
use std::alloc::Global;
use std::thread;
use std::thread::Threads;

/// Where the share of a worker begins. That of a worker past the last begins where the tags end.
fn share_begins(tags: usize, workers: usize, worker: usize) -> usize
    requires { (0 < workers) × (workers ≤ 64) × (worker ≤ workers) × (tags ≤ 4000000) }
    ensures value { result ≡ share_start tags workers worker }
    ensures within { result ≤ tags }
{
    // The product comes first, so that shares differ by one tag at most. Its factors are small.
    worker * tags / workers
}

/// The first breach of the rules 8 to 10 in the share of a worker, before the first collision.
fn examine_share<W: Watch>(
    alloc: Global,
    sliced: &Sliced,
    ancestors: &Ancestors,
    watch: &W,
    slices: &[Slice],
    bound: Option<Tag>,
    worker: usize,
    workers: usize,
) -> Result<Option<Breach>, NoMemory>
    requires ancestors { AreAncestors sliced.now.plan.program ancestors.now }
    requires slices { AreSlices sliced.now.rows slices.now }
    requires bound { IsClash sliced.now bound }
    requires workers { (worker < workers) × (workers ≤ 64) }
    ensures { IfOk result (IsLeastOfShare sliced.now slices.now bound workers worker) }
{
    // Asked for what sliced rows keep: they have no more slices than rows.
    sliced.keeps();
    let low = share_begins(slices.len(), workers, worker);
    let high = share_begins(slices.len(), workers, worker + 1);
    first_in(alloc, sliced, ancestors, watch, slices, bound, low, high)
}

/// What each of several workers found, each in a thread of its own.
fn examine_shares<W: Watch, R: Threads + Sync>(
    rt: &R,
    alloc: Global,
    sliced: &Sliced,
    ancestors: &Ancestors,
    watch: &W,
    slices: &[Slice],
    bound: Option<Tag>,
    workers: usize,
) -> Result<Vec<Result<Option<Breach>, NoMemory>>, NoMemory>
    requires ancestors { AreAncestors sliced.now.plan.program ancestors.now }
    requires slices { AreSlices sliced.now.rows slices.now }
    requires bound { IsClash sliced.now bound }
    requires workers { (1 < workers) × (workers ≤ 64) }
    ensures { IfOk result (λ found. AreShares sliced.now slices.now bound workers found.items) }
{
    // Where no thread can be started it calls for one share after another, so no fault tells of threads: number 2 of
    // part `check` is free. Of a scoped thread's result, whose type has a lifetime, the prover would learn nothing.
    let Ok(found) = thread::map_indices(
        rt,
        alloc,
        workers,
        &|worker: usize| -> Result<Option<Breach>, NoMemory>
            requires { AreAncestors sliced.now.plan.program ancestors.now × AreSlices sliced.now.rows slices.now × IsClash sliced.now bound × (worker < workers) × (workers ≤ 64) }
            ensures { IfOk result (IsLeastOfShare sliced.entry.now slices.entry.now bound workers worker) }
        {
            examine_share(
                alloc, sliced, ancestors, watch, slices, bound, worker, workers,
            )
        },
    ) else {
        return Err(NoMemory);
    };
    Ok(found)
}

/// The least of the breaches that workers found, of those that are.
fn least_found(found: &[Result<Option<Breach>, NoMemory>]) -> Result<Option<Breach>, NoMemory>
    ensures least { IfOk result (LeastOf (IsFound found.now (length found.now))) }
    ensures all { OnOk result (AreOk found.now (length found.now)) }
    ensures memory { IfErr result (λ _. (k : ℕ) × (x : _) × (slice_get found.now k ≡ Some (Err x))) }
{
    let mut least = None;
    for place in 0..found.len() {
        match item_at(found, place) {
            Ok(breach) => least = lesser(least, breach),
            Err(_) => return Err(NoMemory),
        }
    }
    Ok(least)
}

/// The first breach of the rules 8 to 10 before the first collision, by several workers.
pub(crate) fn examine_shared<W: Watch, R: Threads + Sync>(
    rt: &R,
    alloc: Global,
    sliced: &Sliced,
    ancestors: &Ancestors,
    watch: &W,
    slices: &[Slice],
    bound: Option<Tag>,
    workers: usize,
) -> Result<Option<Breach>, NoMemory>
    requires ancestors { AreAncestors sliced.now.plan.program ancestors.now }
    requires slices { AreSlices sliced.now.rows slices.now }
    requires bound { IsClash sliced.now bound }
    requires workers { (1 < workers) × (workers ≤ 64) }
    ensures { IfOk result (LeastOf (BreachIn sliced.now slices.now bound 0 (length slices.now))) }
{
    // The least breach of all shares depends on no order of threads.
    let found = examine_shares(rt, alloc, sliced, ancestors, watch, slices, bound, workers)?;
    let least = least_found(found.as_slice())?;
    Ok(least)
}
