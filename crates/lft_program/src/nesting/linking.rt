//! The source and the origin of each port.

ghost use Rattle.std.specs.Prelude.{◌≡◌, ◌≢◌, ℕ, ◌<◌, None, IfSome, IfOk, IfErr, OnOk, length};
ghost use Rattle.lft_tree.specs.View.{tree_view};
ghost use Rattle.lft_resolve.specs.{inner.Expansion.{Sources.AreInside, Ways.{HaveSites, IsWayBack}}, Causes.{IsFirst, NoneHolds}};
ghost use Rattle.lft_program.specs.inner.{Linking.{AreLinked, IsLinked, IsTooLong}, Links.{AreLinks, last_causes}, Nests.IsNest, Refusals.{Tells, cause_of}};
ghost use Rattle.lft_program.specs.inner.Tables.{AreTables, IsLawful};
ghost use Rattle.lft_program.specs.declared.refusal.Refusal.TheVariants as refusals;

use crate::nesting::nest::Nest;
use crate::nesting::tables::Tables;
use crate::refusal::Refusal;
use lft_resolve::Scopes;
use lft_resolve::expansion::{
    Instance, PortSources, Reached, Site, find_origins, find_sources, way_back,
};
use lft_tag::{NoMemory, Shift, Source};
use lft_tree::Ast;
use lft_validate::check_times;
use std::alloc::Global;

/// How a port is reached: the port before it with the delay of the connection from it in
/// nanoseconds, the origin of its chain of connections, and the delays of that chain.
#[derive(Clone, Copy, PartialEq, Eq, Drop)]
pub(crate) struct Linked {
    pub source: Option<Source>,
    pub origin: u32,
    pub shift: Shift,
}

/// Single connections of instances against their direction: each begins where the next one ends.
#[derive(Drop)]
pub struct Way {
    /// The instances of the program in pre-order, of which the main one is the first.
    pub instances: Vec<Instance>,
    /// Where each of the connections stands.
    pub joins: Vec<Site>,
}

// how a port is reached, or None where the delays of its chain sum to too much
fn link_at(sources: &[Option<Source>], reached: &[Reached], port: usize) -> Option<Linked>
    requires known { port < length sources.now }
    requires as_long { length reached.now ≡ length sources.now }
    ensures linked { IfSome result (λ l. IsLinked sources.now reached.now port l) }
    ensures long { result ≡ None → IsTooLong reached.now port }
{
    let end = reached[port];
    match end.shift {
        Some(shift) => Some(Linked {
            source: sources[port],
            origin: end.origin,
            shift,
        }),
        None => None,
    }
}

// how each port is reached, by the ports' sources and the ends of their chains, or a port where the delays
// of the chain sum to too much
fn link_all(
    alloc: Global,
    sources: &[Option<Source>],
    reached: &[Reached],
) -> Result<Result<Vec<Linked>, usize>, NoMemory>
    requires { length reached.now ≡ length sources.now }
    ensures linked { IfOk result (λ found. IfOk found (λ v. AreLinked sources.now reached.now v.items)) }
    ensures long { IfOk result (λ found. IfErr found (IsTooLong reached.now)) }
{
    let mut links = Vec::new(alloc);
    'ports: for port in 0..sources.len() {
        match link_at(sources, reached, port) {
            Some(link) => links.push(link)?,
            None => return Ok(Err(port)),
        }
    }
    Ok(Ok(links))
}

// the port before this one, if the delays into it sum to too much
fn long_before(sources: &[Option<Source>], reached: &[Reached], port: usize) -> Option<usize>
    requires inside { AreInside sources.now }
    requires as_long { length reached.now ≡ length sources.now }
    requires known { port < length sources.now }
    ensures { IfSome result (IsTooLong reached.now) }
{
    let before = sources[port]?.port as usize;
    match reached[before].shift {
        Some(_) => None,
        None => Some(before),
    }
}

// where the delays of the chain into this port first sum to too much
fn first_long(sources: &[Option<Source>], reached: &[Reached], port: usize) -> usize
    requires inside { AreInside sources.now }
    requires as_long { length reached.now ≡ length sources.now }
    requires long { IsTooLong reached.now port }
    ensures { IsTooLong reached.now result }
{
    let mut at = port;
    // Cycles were refused before, so no way back has more steps than there are ports.
    'back: for _ in 0..sources.len() {
        match long_before(sources, reached, at) {
            Some(before) => at = before,
            None => return at,
        }
    }
    at
}

// the connections on the way back from a port
fn way_to(alloc: Global, nest: &Nest, found: &PortSources, port: usize) -> Result<Way, NoMemory>
    requires inside { AreInside found.now.sources.items }
    requires known { port < length found.now.sources.items }
    requires sites { HaveSites found.now.sources.items found.now.sites.items }
    ensures instances { IfOk result (λ w. w.instances.items ≡ nest.now.instances.items) }
    ensures back { IfOk result (λ w. IsWayBack found.now.sources.items found.now.sites.items port w.joins.items) }
{
    // A copy, as the refusal is told when the nest is gone.
    let mut instances = Vec::new(alloc);
    instances.extend_from_slice(&nest.instances)?;
    Ok(Way {
        instances,
        joins: way_back(alloc, found, port)?,
    })
}

/// How each port is reached, by the port's number. The file is that of the tables and the nest. A
/// cycle comes before a time that is too long.
pub(crate) fn links<'a>(
    alloc: Global,
    ast: &'a Ast,
    scopes: &Scopes,
    tables: &Tables,
    nest: &Nest,
) -> Result<Vec<Linked>, Refusal<'a>>
    requires tree { scopes.now ≡ tree_view ast.now }
    requires tables { AreTables scopes.now tables.now }
    requires lawful { IsLawful scopes.now }
    requires nest { IsNest scopes.now tables.now nest.now }
    ensures links { IfOk result (λ v. (n : IsNest scopes.now tables.now nest.now) → AreLinks scopes.now n.located v.items) }
    ensures none { OnOk result (NoneHolds (last_causes scopes.now)) }
    ensures first { IfErr result (λ f. f ≢ refusals.NoMemory → IsFirst (last_causes scopes.now) (cause_of f)) }
    ensures tells { IfErr result (Tells ast.now) }
{
    let found = find_sources(
        alloc,
        &tables.connections,
        &nest.ports.counts,
        &nest.instances,
        &nest.ports.firsts,
        &nest.children,
        &nest.values,
    )?;
    let reached = match find_origins(alloc, &found.sources)? {
        Ok(reached) => reached,
        Err(port) => {
            let way = way_to(alloc, nest, &found, port)?;
            return Err(Refusal::ConnectionCycle(way));
        }
    };
    if let Some(witness) = check_times(alloc, ast, scopes)? {
        return Err(Refusal::Shown(witness));
    }
    match link_all(alloc, &found.sources, &reached)? {
        Ok(links) => Ok(links),
        Err(port) => {
            let first = first_long(&found.sources, &reached, port);
            let way = way_to(alloc, nest, &found, first)?;
            Err(Refusal::LongChain(way))
        }
    }
}
