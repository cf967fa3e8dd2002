//! What was exercised, one fact a line.

ghost use Rattle.std.specs.Prelude.{◌≡◌, ◌++◌, ◌<◌, drop, flat_map, length, take};
ghost use Rattle.std.specs.List.{enumerate_from};
ghost use Rattle.lft_coverage.specs.inner.{Facts.{HasSets, HasCounts}, Taking.{Took, TookMore}};
ghost use Rattle.lft_coverage.specs.Facts.{fact_lines, has, order_line, pair_lines, pair_words, run_line, width_line, worker_line, write_line};
ghost use Rattle.lft_counts.specs.{Overlaps.met_by, Workers.by_number};

use crate::putting::{put, put_end, put_number, put_reaction};
use lft_counts::{Cover, Order, Overlaps};
use lft_ir::Program;
use lft_lists::item_at;
use std::io::Write;

/// Writes the line of a reaction.
fn put_run<W: Write>(out: &mut W, whole: bool, program: &Program, reaction: u32, runs: u64) -> bool
    ensures { TookMore (W.contents out.old) whole (W.contents out.new) result (run_line program.now (reaction, runs)) }
{
    let whole = put(out, whole, "reaction ");
    let whole = put_reaction(out, whole, program, reaction);
    let whole = put(out, whole, " runs=");
    let whole = put_number(out, whole, runs);
    put(out, whole, "\n")
}

/// Writes the line of a port, where no connection feeds it.
fn put_write<W: Write>(out: &mut W, whole: bool, program: &Program, port: u32, writes: u64) -> bool
    requires { port < length program.now.ports }
    ensures { TookMore (W.contents out.old) whole (W.contents out.new) result (write_line program.now (port, writes)) }
{
    // Rows that write name the origin, so a fed port has no writes of its own.
    if program.port(port).origin == port {
        let whole = put(out, whole, "port ");
        let whole = put(out, whole, program.name_of_port(port));
        let whole = put(out, whole, " writes=");
        let whole = put_number(out, whole, writes);
        return put(out, whole, "\n");
    }
    whole
}

/// Writes the line of an order.
fn put_order<W: Write>(out: &mut W, whole: bool, program: &Program, order: Order) -> bool
    ensures { TookMore (W.contents out.old) whole (W.contents out.new) result (order_line program.now order) }
{
    let whole = put(out, whole, "order ");
    let whole = put_reaction(out, whole, program, order.first);
    let whole = put(out, whole, " ");
    let whole = put_reaction(out, whole, program, order.then);
    let whole = put(out, whole, " both=");
    let whole = put_number(out, whole, order.both);
    let whole = put(out, whole, " apart=");
    let whole = put_number(out, whole, order.apart);
    put(out, whole, "\n")
}

/// Writes the line of a number of open runs, where there are such starts.
fn put_width<W: Write>(out: &mut W, whole: bool, width: u64, starts: u64) -> bool
    ensures { TookMore (W.contents out.old) whole (W.contents out.new) result (width_line (width, starts)) }
{
    if starts != 0 {
        let whole = put(out, whole, "open ");
        let whole = put_number(out, whole, width);
        let whole = put(out, whole, " starts=");
        let whole = put_number(out, whole, starts);
        return put(out, whole, "\n");
    }
    whole
}

/// Writes the line of a worker.
fn put_worker<W: Write>(out: &mut W, whole: bool, worker: u32, runs: u64) -> bool
    ensures { TookMore (W.contents out.old) whole (W.contents out.new) result (worker_line (worker, runs)) }
{
    let whole = put(out, whole, "worker ");
    let whole = put_number(out, whole, u64::from(worker));
    let whole = put(out, whole, " runs=");
    let whole = put_number(out, whole, runs);
    put(out, whole, "\n")
}

/// Writes the line of two reactions that met: the first had an open run when a run of the second started.
fn put_pair<W: Write>(
    out: &mut W,
    whole: bool,
    program: &Program,
    met: bool,
    first: u32,
    then: u32,
) -> bool
    ensures { TookMore (W.contents out.old) whole (W.contents out.new) result (pair_words program.now met first then) }
{
    if met {
        let whole = put(out, whole, "pair ");
        let whole = put_reaction(out, whole, program, first);
        let whole = put(out, whole, " ");
        let whole = put_reaction(out, whole, program, then);
        return put(out, whole, "\n");
    }
    whole
}

/// Writes the lines of all reactions.
fn put_runs<W: Write>(out: &mut W, whole: bool, program: &Program, counts: &[u64]) -> bool
    requires { length counts.now ≡ length program.now.reactions }
    ensures { TookMore (W.contents out.old) whole (W.contents out.new) result (flat_map (run_line program.now) (enumerate_from 0 counts.now)) }
{
    let mut whole = whole;
    for number in 0..program.reactions() {
        whole = put_run(out, whole, program, number as u32, item_at(counts, number));
    }
    whole
}

/// Writes the lines of all ports that no connection feeds.
fn put_writes<W: Write>(out: &mut W, whole: bool, program: &Program, counts: &[u64]) -> bool
    requires { length counts.now ≡ length program.now.ports }
    ensures { TookMore (W.contents out.old) whole (W.contents out.new) result (flat_map (write_line program.now) (enumerate_from 0 counts.now)) }
{
    let mut whole = whole;
    for number in 0..program.ports() {
        whole = put_write(out, whole, program, number as u32, item_at(counts, number));
    }
    whole
}

/// Writes the lines of orders.
fn put_orders<W: Write>(out: &mut W, whole: bool, program: &Program, orders: &[Order]) -> bool
    ensures { TookMore (W.contents out.old) whole (W.contents out.new) result (flat_map (order_line program.now) orders.now) }
{
    let mut whole = whole;
    for place in 0..orders.len() {
        whole = put_order(out, whole, program, item_at(orders, place));
    }
    whole
}

/// Writes the lines of all numbers of open runs.
fn put_widths<W: Write>(out: &mut W, whole: bool, widths: &[u64]) -> bool
    ensures { TookMore (W.contents out.old) whole (W.contents out.new) result (flat_map width_line (enumerate_from 0 widths.now)) }
{
    let mut whole = whole;
    for width in 0..widths.len() {
        whole = put_width(out, whole, width as u64, item_at(widths, width));
    }
    whole
}

/// Writes the lines of workers.
fn put_workers<W: Write>(out: &mut W, whole: bool, workers: &[(u32, u64)]) -> bool
    ensures { TookMore (W.contents out.old) whole (W.contents out.new) result (flat_map worker_line workers.now) }
{
    let mut whole = whole;
    for place in 0..workers.len() {
        let (worker, runs) = item_at(workers, place);
        whole = put_worker(out, whole, worker, runs);
    }
    whole
}

/// Writes the lines of 64 reactions, from a number on: of those that had an open run when a run of this one
/// started.
fn put_met_from<W: Write>(
    out: &mut W,
    whole: bool,
    program: &Program,
    overlaps: &Overlaps,
    then: u32,
    from: usize,
) -> bool
    requires sets { HasSets program.now overlaps.now }
    requires reaction { then < length program.now.reactions }
    ensures { TookMore (W.contents out.old) whole (W.contents out.new) result (flat_map (λ d. pair_words program.now (has (met_by overlaps.now then) d.0) d.0 then) (take 64 (enumerate_from from (drop from program.now.reactions)))) }
{
    let mut whole = whole;
    for number in from..program.reactions().min(from.saturating_add(64)) {
        let met = overlaps.has_met(then, number as u32);
        whole = put_pair(out, whole, program, met, number as u32, then);
    }
    whole
}

/// Writes the lines of all reactions that had an open run when a run of this one started. Reactions that had
/// none are passed 64 at a time.
fn put_met<W: Write>(
    out: &mut W,
    whole: bool,
    program: &Program,
    overlaps: &Overlaps,
    then: u32,
) -> bool
    requires sets { HasSets program.now overlaps.now }
    requires reaction { then < length program.now.reactions }
    ensures { TookMore (W.contents out.old) whole (W.contents out.new) result (pair_lines program.now overlaps.now then) }
{
    let mut whole = whole;
    for word in 0..program.reactions() / 64 + 1 {
        if !overlaps.has_none(then, word) {
            whole = put_met_from(out, whole, program, overlaps, then, word * 64);
        }
    }
    whole
}

/// Writes the lines of all pairs of reactions that met.
fn put_pairs<W: Write>(out: &mut W, whole: bool, program: &Program, overlaps: &Overlaps) -> bool
    requires { HasSets program.now overlaps.now }
    ensures { TookMore (W.contents out.old) whole (W.contents out.new) result (flat_map (λ d. pair_lines program.now overlaps.now d.0) (enumerate_from 0 program.now.reactions)) }
{
    let mut whole = whole;
    for number in 0..program.reactions() {
        whole = put_met(out, whole, program, overlaps, number as u32);
    }
    whole
}

/// Writes a text, and behind it what was exercised, one fact a line, each as it is made. Whether the writer
/// took all. The workers are those of the cover.
pub fn write_facts<W: Write>(
    out: &mut W,
    text: &str,
    program: &Program,
    cover: &Cover,
    workers: &[(u32, u64)],
) -> bool
    requires counts { HasCounts program.now cover.now }
    requires workers { workers.now ≡ by_number cover.now.counting.workers }
    ensures { Took (W.contents out.old) (W.contents out.new) result (text.now ++ fact_lines program.now cover.now) }
{
    let runs = cover.counting.runs.as_slice();
    let writes = cover.counting.writes.as_slice();
    let orders = cover.orders.as_slice();
    let widths = cover.overlaps.widths();
    let whole = put(out, true, text);
    let whole = put_runs(out, whole, program, runs);
    let whole = put_writes(out, whole, program, writes);
    let whole = put_orders(out, whole, program, orders);
    let whole = put_pairs(out, whole, program, &cover.overlaps);
    let whole = put_widths(out, whole, widths);
    let whole = put_workers(out, whole, workers);
    put_end(out, whole)
}
