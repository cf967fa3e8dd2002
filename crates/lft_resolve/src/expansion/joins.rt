//! Which connection leads into each port.

ghost use Rattle.std.specs.Prelude.{◌≡◌, ℕ, ◌≤◌, [], Some, length, slice_get, unwrap_or, option_map, IfOk};
ghost use Rattle.lft_resolve.specs.inner.Expansion.Joins.{AreSites, AreSources, JoinPorts, LeadApart, joins_of, port_at, port_of};
ghost use Rattle.lft_resolve.specs.inner.Expansion.{Numbers.{AreFirstNumbers, things}, Sources.AreInside, Values.clock_in};

use crate::expansion::nesting::Children;
use crate::expansion::numbering::count_things;
use crate::expansion::settings::{Clock, Values};
use crate::expansion::walk::Instance;
use lft_lists::item_at;
use lft_tag::{NoMemory, Source};
use std::alloc::Global;

/// An end of a connection in a reactor: a port of its own by its place, or the port at a place of
/// the instance at a place.
#[derive(Clone, Copy, PartialEq, Eq, Drop)]
pub enum End {
    Own(u32),
    Inner { instance: usize, port: u32 },
}

/// What a connection of a reactor joins. A delay is read in the instance that has the connection.
#[derive(Clone, Copy, PartialEq, Eq, Drop)]
pub struct Join {
    pub from: End,
    pub to: End,
    pub delay: Option<Clock>,
}

/// What a reactor joins, each port to one other.
#[derive(Drop)]
pub struct Connections {
    pub joins: Vec<Join>,
}

/// A join of an instance: the number of the instance, and the place of the join among those of its reactor.
#[derive(Clone, Copy, PartialEq, Eq, Drop)]
pub struct Site {
    pub number: u32,
    pub place: usize,
}

/// The source of each port, in order, and the join that leads from there into it. Where a port has no source,
/// its site means nothing.
#[derive(Drop)]
pub struct PortSources {
    pub sources: Vec<Option<Source>>,
    pub sites: Vec<Site>,
}

// the number of the port at this place of an instance
fn port_at(firsts: &[u32], instance: u32, port: u32) -> u32
    requires { (p : ℕ) × (port_at firsts.now instance port ≡ Some p) × (p ≤ 100000) }
    ensures { port_at firsts.now instance port ≡ Some result }
{
    firsts[instance as usize] + port
}

// the number of the port that an end is in an instance
pub(crate) fn port_of(firsts: &[u32], children: &Children, instance: u32, end: End) -> u32
    requires { (p : ℕ) × (port_of firsts.now children.now instance end ≡ Some p) × (p ≤ 100000) }
    ensures { port_of firsts.now children.now instance end ≡ Some result }
{
    match end {
        End::Own(port) => port_at(firsts, instance, port),
        End::Inner {
            instance: place,
            port,
        } => match children.child(instance, place) {
            Some(inner) => port_at(firsts, inner, port),
            None => unreachable!(),
        },
    }
}

// what a delay is in an instance
fn delay_in(values: &Values, instance: u32, delay: Option<Clock>) -> Option<u64>
    ensures { result ≡ option_map (clock_in (unwrap_or (slice_get values.now instance) [])) delay }
{
    match delay {
        Some(clock) => Some(values.read(instance, clock)),
        None => None,
    }
}

// what a reactor joins
pub(crate) fn joins_of(table: &[Connections], reactor: u32) -> &[Join]
    ensures { result.now ≡ joins_of table.now reactor }
{
    match table.get(reactor as usize) {
        Some(connections) => &connections.joins,
        None => &[],
    }
}

/// The source of each port, with the delay of the connection from it in nanoseconds. The
/// table has what each reactor joins, by number; a number past its end stands for a reactor without
/// connections. The counts say how many ports each reactor declares, and the other lists are those
/// of the same instances: the numbers of their first ports, their children and their values.
pub fn find_sources(
    alloc: Global,
    table: &[Connections],
    counts: &[u32],
    instances: &[Instance],
    firsts: &[u32],
    children: &Children,
    values: &Values,
) -> Result<PortSources, NoMemory>
    requires few_instances { length instances.now ≤ 10000 }
    requires few_ports { things counts.now instances.now ≤ 100000 }
    requires numbered { AreFirstNumbers counts.now instances.now firsts.now }
    requires ports { JoinPorts counts.now table.now instances.now children.now }
    requires apart { LeadApart table.now instances.now firsts.now children.now }
    ensures sources { IfOk result (λ v. AreSources counts.now table.now instances.now firsts.now children.now values.now v.sources.items) }
    ensures sites { IfOk result (λ v. AreSites table.now instances.now firsts.now children.now values.now v.sources.items v.sites.items) }
    ensures inside { IfOk result (λ v. AreInside v.sources.items) }
{
    let ports = count_things(counts, instances);
    let mut sources = vec![in alloc; None; ports]?;
    let no_site = Site {
        number: 0,
        place: 0,
    };
    let mut sites = vec![in alloc; no_site; ports]?;
    'instances: for number in 0..instances.len() {
        let instance = number as u32;
        let joins = joins_of(table, item_at(instances, number).reactor);
        'joins: for place in 0..joins.len() {
            let join = item_at(joins, place);
            let port = port_of(firsts, children, instance, join.from);
            let to = port_of(firsts, children, instance, join.to);
            let delay = delay_in(values, instance, join.delay);
            sources[to as usize] = Some(Source { port, delay });
            sites[to as usize] = Site {
                number: instance,
                place,
            };
        }
    }
    Ok(PortSources { sources, sites })
}
