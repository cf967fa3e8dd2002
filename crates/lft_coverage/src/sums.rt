//! The sums of what was exercised.

ghost use Rattle.std.specs.Prelude.{◌≡◌, ◌<◌, ◌↔◌, ℕ, List, IfOk, IsTrue, length};
ghost use Rattle.lft_ir.specs.declared.steps.row.Row.{Row as TheRow};
ghost use Rattle.lft_graph.specs.{Counts.{Count, CountPairs}, Graph.IsGraphOf, Precedence.HaveOrder};
ghost use Rattle.lft_counts.specs.{Counts.IsOver, Orders.{IsApart, Stands}, Overlaps.Overlap};
ghost use Rattle.lft_coverage.specs.{inner.Facts.HasSets, Pairs.AreOpenTogether, Sums.{IsFed, IsReached, origin_of}};

use crate::pairs::met_pairs;
use lft_counts::{Cover, how_many};
use lft_graph::{Graph, unordered_pairs};
use lft_ir::Program;
use lft_lists::item_at;
use lft_tag::NoMemory;
use std::alloc::Global;

/// Of how many things so many have something.
#[derive(Clone, Copy, Drop)]
pub(crate) struct Share {
    pub count: u64,
    pub of: u64,
}

/// The sums of a cover.
#[derive(Clone, Copy, Drop)]
pub(crate) struct Sums {
    /// Reactions that ran.
    pub ran: Share,
    /// Ports that a connection feeds, and whose origin was written.
    pub fed: Share,
    /// Origins of such ports that were written.
    pub writers: Share,
    /// Orders of which both reactions ran at one tag.
    pub met: Share,
    /// Orders of which both ran at one tag on two workers.
    pub apart: Share,
    /// Pairs without an order that ran at the same time.
    pub together: Share,
}

/// Whether a count of a list isn't 0.
fn has_some(counts: &[u64], number: usize) -> bool
    ensures { IsTrue result ↔ IsOver counts.now number }
{
    number < counts.len() && item_at(counts, number) != 0
}

/// The origin of a port.
fn origin_of(program: &Program, port: u32) -> u32
    requires { port < length program.now.ports }
    ensures { result ≡ origin_of program.now port }
{
    program.port(port).origin
}

/// Whether a connection feeds the port.
fn is_fed(program: &Program, port: u32) -> bool
    requires { port < length program.now.ports }
    ensures { IsTrue result ↔ IsFed program.now port }
{
    origin_of(program, port) != port
}

/// Whether a connection feeds the port, and its origin was written.
fn is_reached(program: &Program, writes: &[u64], port: u32) -> bool
    requires { port < length program.now.ports }
    ensures { IsTrue result ↔ IsReached program.now writes.now port }
{
    is_fed(program, port) && has_some(writes, origin_of(program, port) as usize)
}

/// The ports that a connection feeds.
fn fed_ports(program: &Program) -> usize
    ensures { Count (IsFed program.now) (length program.now.ports) result }
{
    let mut many = 0;
    for number in 0..program.ports() {
        if is_fed(program, number as u32) {
            many += 1;
        }
    }
    many
}

/// The ports that a connection feeds, and whose origin was written.
fn reached_ports(program: &Program, writes: &[u64]) -> usize
    ensures { Count (IsReached program.now writes.now) (length program.now.ports) result }
{
    let mut many = 0;
    for number in 0..program.ports() {
        if is_reached(program, writes, number as u32) {
            many += 1;
        }
    }
    many
}

/// Marks the origins of the ports that a connection feeds.
fn mark_writers(program: &Program, is_writer: &mut Vec<bool>) {
    for number in 0..program.ports() {
        let origin = origin_of(program, number as u32) as usize;
        if origin != number && origin < is_writer.len() {
            is_writer[origin] = true;
        }
    }
}

/// Of the ports that are marked those that were written.
fn written_ports(writes: &[u64], is_writer: &Vec<bool>) -> Share {
    let mut writers = Share { count: 0, of: 0 };
    for number in 0..is_writer.len() {
        if item_at(is_writer.as_slice(), number) {
            writers.of = writers.of.saturating_add(1);
            if has_some(writes, number) {
                writers.count = writers.count.saturating_add(1);
            }
        }
    }
    writers
}

impl Sums {
    /// The sums of a cover of the program with this graph.
    pub(crate) fn of(
        alloc: Global,
        program: &Program,
        graph: &Graph,
        cover: &Cover,
    ) -> Result<Sums, NoMemory>
        requires sets { HasSets program.now cover.now.overlaps }
        requires graph { IsGraphOf program.now graph.now }
        ensures reactions { IfOk result (λ sums. sums.ran.of ≡ length program.now.reactions) }
        ensures ran { IfOk result (λ sums. Count (IsOver cover.now.counting.runs) (length cover.now.counting.runs) sums.ran.count) }
        ensures fed { IfOk result (λ sums. Count (IsReached program.now cover.now.counting.writes) (length program.now.ports) sums.fed.count) }
        ensures ports { IfOk result (λ sums. Count (IsFed program.now) (length program.now.ports) sums.fed.of) }
        ensures orders { IfOk result (λ sums. sums.apart.of ≡ length cover.now.orders.all.items) }
        ensures apart { IfOk result (λ sums. (t : List TheRow) (n i : ℕ) → Stands t n i cover.now.orders → Count (IsApart t i cover.now.orders.all.items) (length cover.now.orders.all.items) sums.apart.count) }
        ensures together { IfOk result (λ sums. (t : List TheRow) (i : ℕ) → Overlap t (length program.now.reactions) i cover.now.overlaps → CountPairs (AreOpenTogether t i) (length program.now.reactions) sums.together.count) }
        ensures unordered { IfOk result (λ sums. CountPairs (λ a b. HaveOrder program.now a b → ⊥) (length program.now.reactions) sums.together.of) }
    {
        let runs = cover.counting.runs.as_slice();
        let writes = cover.counting.writes.as_slice();
        let orders = cover.orders.as_slice().len() as u64;
        let unordered = unordered_pairs(alloc, program, graph)? as u64;
        let mut is_writer = vec![in alloc; false; program.ports()]?;
        mark_writers(program, &mut is_writer);
        Ok(Sums {
            ran: Share {
                count: how_many(runs) as u64,
                of: program.reactions() as u64,
            },
            fed: Share {
                count: reached_ports(program, writes) as u64,
                of: fed_ports(program) as u64,
            },
            writers: written_ports(writes, &is_writer),
            met: Share {
                count: cover.orders.held() as u64,
                of: orders,
            },
            apart: Share {
                count: cover.orders.apart() as u64,
                of: orders,
            },
            together: Share {
                count: met_pairs(program, &cover.overlaps) as u64,
                of: unordered,
            },
        })
    }
}
