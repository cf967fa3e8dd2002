//! Where the chain of connections into each port begins, and its delays folded.

ghost use Rattle.std.specs.Prelude.{◌≡◌, ℕ, List, ◌<◌, ◌≤◌, ◌++◌, length, option_to_list, IfOk, IfErr, IfSome};
ghost use Rattle.lft_lists.specs.inner.Walking.{IsOrder, Leads};
ghost use Rattle.lft_resolve.specs.inner.Expansion.Sources.{AreInside, AreReached, IsFolded, IsReached, IsSourceReached, LeadsBackwards, ports_before};

use lft_lists::{Walked, Ways, item_at, walk_all};
use lft_tag::{NoMemory, Shift, Source};
use std::alloc::Global;

/// The port where a chain begins, and the chain's delays folded; None where they sum to more than
/// 10^18 nanoseconds.
#[derive(Clone, Copy, PartialEq, Eq, Drop)]
pub struct Reached {
    pub origin: u32,
    pub shift: Option<Shift>,
}

/// The source of each port.
#[derive(Drop)]
struct SourceList<'a> {
    sources: &'a [Option<Source>],
}

impl Ways for SourceList<'_> {
    ghost use Rattle.lft_resolve.specs.inner.Expansion.Sources.{ports_before};

    ghost ways = { λ list port. ports_before list.sources.now port };

    fn way(&self, number: usize, place: usize) -> Option<usize> {
        if place > 0 || number >= self.sources.len() {
            return None;
        }
        match self.sources[number] {
            Some(source) => Some(source.port as usize),
            None => None,
        }
    }
}

// one more delay at the end of a chain
fn extended(shift: Option<Shift>, delay: Option<u64>) -> Option<Shift>
    requires { IfSome shift (λ s. s.steps < 100000) }
    ensures { (delays : List ℕ) → IsFolded delays shift → IsFolded (delays ++ option_to_list delay) result }
{
    match shift {
        Some(shift) => match delay {
            Some(delay) => shift.then(delay),
            None => Some(shift),
        },
        None => None,
    }
}

// where the chain into a port begins, by where the one into its source does
fn reached_at(sources: &[Option<Source>], all: &[Reached], port: usize) -> Reached
    requires known { port < length sources.now }
    requires few { length sources.now ≤ 100000 }
    requires source { IsSourceReached sources.now all.now port }
    ensures { IsReached sources.now port result }
{
    match item_at(sources, port) {
        None => Reached {
            origin: port as u32,
            shift: Some(Shift::none()),
        },
        Some(source) => {
            let before = item_at(all, source.port as usize);
            Reached {
                origin: before.origin,
                shift: extended(before.shift, source.delay),
            }
        }
    }
}

// where the chain into each port begins, along an order in which each stands behind its source
fn reached_along(
    alloc: Global,
    sources: &[Option<Source>],
    order: &[usize],
) -> Result<Vec<Reached>, NoMemory>
    requires inside { AreInside sources.now }
    requires few { length sources.now ≤ 100000 }
    requires order { IsOrder (Leads (ports_before sources.now)) (length sources.now) order.now }
    ensures { IfOk result (λ v. AreReached sources.now v.items) }
{
    let unknown = Reached {
        origin: 0,
        shift: None,
    };
    let mut all = vec![in alloc; unknown; sources.len()]?;
    'order: for place in 0..order.len() {
        let port = item_at(order, place);
        all[port] = reached_at(sources, &all, port);
    }
    Ok(all)
}

/// The origin and the folded delays of each port, in order, or a port to which its chain comes back.
/// Each port is followed once, so this takes time in the number of ports.
pub fn find_origins(
    alloc: Global,
    sources: &[Option<Source>],
) -> Result<Result<Vec<Reached>, usize>, NoMemory>
    requires inside { AreInside sources.now }
    requires few { length sources.now ≤ 100000 }
    ensures reached { IfOk result (λ found. IfOk found (λ v. AreReached sources.now v.items)) }
    ensures ends { IfOk result (λ found. IfOk found (λ _. (p : ℕ) → ¬ LeadsBackwards sources.now p p)) }
    ensures cycle { IfOk result (λ found. IfErr found (λ p. LeadsBackwards sources.now p p)) }
{
    match walk_all(alloc, &SourceList { sources }, sources.len())? {
        Walked::Order(order) => Ok(Ok(reached_along(alloc, sources, &order)?)),
        Walked::Circle(circle) => Ok(Err(item_at(&circle, circle.len() - 1))),
    }
}
