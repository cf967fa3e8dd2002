//! How many things of one kind each reactor declares.

ghost use Rattle.std.specs.Prelude.{◌≡◌, IfOk, length, map};

use lft_resolve::by_number::{Declarations, Reactions};
use lft_resolve::expansion::Connections;
use lft_tag::NoMemory;
use std::alloc::Global;

// a length as a count; longer lists aren't to be had in memory
fn counted(length: usize) -> Result<u32, NoMemory>
    ensures { IfOk result (λ n. n ≡ length) }
{
    u32::try_from(length).map_err(|_| NoMemory)
}

/// How many ports each reactor declares.
pub(crate) fn port_counts(alloc: Global, table: &[Declarations]) -> Result<Vec<u32>, NoMemory>
    ensures { IfOk result (λ v. v.items ≡ map (λ x. length x.inputs.items) table.now) }
{
    let mut counts = Vec::new(alloc);
    for reactor in table {
        counts.push(counted(reactor.inputs.len())?)?;
    }
    Ok(counts)
}

/// How many timers each reactor declares.
pub(crate) fn timer_counts(alloc: Global, table: &[Declarations]) -> Result<Vec<u32>, NoMemory>
    ensures { IfOk result (λ v. v.items ≡ map (λ x. length x.timers.items) table.now) }
{
    let mut counts = Vec::new(alloc);
    for reactor in table {
        counts.push(counted(reactor.timers.len())?)?;
    }
    Ok(counts)
}

/// How many actions each reactor declares.
pub(crate) fn action_counts(alloc: Global, table: &[Declarations]) -> Result<Vec<u32>, NoMemory>
    ensures { IfOk result (λ v. v.items ≡ map (λ x. length x.actions.items) table.now) }
{
    let mut counts = Vec::new(alloc);
    for reactor in table {
        counts.push(counted(reactor.actions.len())?)?;
    }
    Ok(counts)
}

/// How many reactions each reactor declares.
pub(crate) fn reaction_counts(alloc: Global, table: &[Reactions]) -> Result<Vec<u32>, NoMemory>
    ensures { IfOk result (λ v. v.items ≡ map (λ x. length x.reactions.items) table.now) }
{
    let mut counts = Vec::new(alloc);
    for reactor in table {
        counts.push(counted(reactor.reactions.len())?)?;
    }
    Ok(counts)
}

/// How many single connections each reactor has.
pub(crate) fn join_counts(alloc: Global, table: &[Connections]) -> Result<Vec<u32>, NoMemory>
    ensures { IfOk result (λ v. v.items ≡ map (λ x. length x.joins.items) table.now) }
{
    let mut counts = Vec::new(alloc);
    for reactor in table {
        counts.push(counted(reactor.joins.len())?)?;
    }
    Ok(counts)
}
