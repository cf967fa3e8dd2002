//! What was exercised, for people.

ghost use Rattle.std.specs.Prelude.{◌≡◌, ◌++◌, ℕ, List, OnOk, decimal, string_bytes};
ghost use Rattle.lft_graph.specs.Graph.{IsGraphOf};
ghost use Rattle.lft_coverage.specs.{inner.Facts.HasCounts, Sums.{TellsSums, share_words, sum_line}};

use crate::inputs::tell_inputs;
use crate::least::tell_least;
use crate::sums::{Share, Sums};
use lft_counts::{Cover, Workers};
use lft_graph::Graph;
use lft_ir::Program;
use lft_ir::words::{push_fill, push_number, push_port, push_reaction};
use lft_lists::item_at;
use lft_tag::NoMemory;
use std::alloc::{AllocError, Global};

/// So many members of one line are written at most, of workers and of open runs.
const MOST: usize = 16;

/// Puts a word and a number at the end of a text.
pub(crate) fn push_count(text: &mut String, word: &str, number: u64) -> Result<(), AllocError>
    ensures { OnOk result (string_bytes text.new ≡ string_bytes text.old ++ (word.now ++ decimal number)) }
{
    text.push_str(word)?;
    push_number(text, number)?;
    Ok(())
}

/// Puts a word, a count and the whole that it is of at the end of a text.
fn push_share(text: &mut String, word: &str, share: Share, between: &str) -> Result<(), AllocError>
    ensures { OnOk result (string_bytes text.new ≡ string_bytes text.old ++ share_words word.now share.count between.now share.of) }
{
    push_count(text, word, share.count)?;
    push_count(text, between, share.of)?;
    Ok(())
}

/// Puts the line of the sums at the end of a text.
fn push_sums(text: &mut String, sums: Sums) -> Result<(), AllocError>
    ensures { OnOk result (string_bytes text.new ≡ string_bytes text.old ++ sum_line sums.ran.count sums.ran.of sums.fed.count sums.fed.of sums.apart.count sums.apart.of sums.together.count sums.together.of) }
{
    push_share(text, "reactions=", sums.ran, "/")?;
    push_share(text, " ports=", sums.fed, "/")?;
    push_share(text, " orders=", sums.apart, "/")?;
    push_share(text, " pairs=", sums.together, "/")?;
    text.push_str("\n")?;
    Ok(())
}

/// The reactions that never ran, and those that did least often.
fn tell_reactions(
    text: &mut String,
    program: &Program,
    cover: &Cover,
    ran: Share,
    runs: u64,
    tags: u64,
) -> Result<(), AllocError> {
    push_share(text, "\nReactions that ran: ", ran, " of ")?;
    push_count(text, ", in ", runs)?;
    push_count(text, " runs at ", tags)?;
    text.push_str(" tags.\n")?;
    let counts = cover.counting.runs.as_slice();
    for number in 0..program.reactions().min(counts.len()) {
        if item_at(counts, number) == 0 {
            text.push_str("  ")?;
            push_reaction(text, program, number as u32)?;
            text.push_str("  never\n")?;
        }
    }
    tell_least(text, program, counts)
}

/// The fed ports, and the ports that were never written.
fn tell_ports(
    text: &mut String,
    program: &Program,
    cover: &Cover,
    sums: Sums,
) -> Result<(), AllocError> {
    push_share(text, "Fed ports that got an event: ", sums.fed, " of ")?;
    push_share(text, ", from ", sums.writers, " of ")?;
    text.push_str(" writers.\n")?;
    let writes = cover.counting.writes.as_slice();
    for number in 0..program.ports().min(writes.len()) {
        let is_origin = program.port(number as u32).origin as usize == number;
        if is_origin && item_at(writes, number) == 0 {
            text.push_str("  ")?;
            push_port(text, program, number as u32)?;
            text.push_str("  never written\n")?;
        }
    }
    Ok(())
}

/// Puts a number at the end of a text, behind the blanks that it lacks to six columns.
fn push_right(text: &mut String, alloc: Global, number: u64) -> Result<(), AllocError> {
    let mut digits = String::new(alloc);
    push_number(&mut digits, number)?;
    push_fill(text, 6, digits.as_str())?;
    text.push_str(digits.as_str())?;
    Ok(())
}

/// The orders.
fn tell_orders(text: &mut String, alloc: Global, sums: Sums) -> Result<(), AllocError> {
    push_count(
        text,
        "Orders, `X before Y` of `lftrace show`: ",
        sums.met.of,
    )?;
    text.push_str("\n")?;
    push_right(text, alloc, sums.apart.count)?;
    text.push_str(
        "  X and Y ran at one tag, on two workers at least once: the scheduler alone kept their order\n",
    )?;
    // An order that was met on two workers was met, so no difference saturates.
    push_right(text, alloc, sums.met.count.saturating_sub(sums.apart.count))?;
    text.push_str("  X and Y ran at one tag, always on one worker: a race could not have shown\n")?;
    push_right(text, alloc, sums.met.of.saturating_sub(sums.met.count))?;
    text.push_str("  X and Y never ran at one tag\n")?;
    push_count(text, "Pairs without an order: ", sums.together.of)?;
    push_count(text, ". ", sums.together.count)?;
    text.push_str(" ran at the same time.\n")?;
    Ok(())
}

/// The workers, with how many runs each.
fn tell_workers(text: &mut String, alloc: Global, workers: &Workers) -> Result<(), NoMemory> {
    let all = workers.list(alloc)?;
    text.push_str("Workers:")?;
    for place in 0..all.len() {
        if place >= MOST {
            text.push_str(", and more")?;
            break;
        }
        let (worker, runs) = item_at(all.as_slice(), place);
        let word = if place == 0 { " " } else { ", " };
        push_count(text, word, u64::from(worker))?;
        push_count(text, " had ", runs)?;
        text.push_str(" runs")?;
    }
    text.push_str("\n")?;
    Ok(())
}

/// How many runs were open at starts.
fn tell_widths(text: &mut String, widths: &[u64]) -> Result<(), AllocError> {
    text.push_str("  open runs at a start:")?;
    let mut told = 0usize;
    for width in 0..widths.len() {
        let starts = item_at(widths, width);
        if starts == 0 {
            continue;
        }
        if told >= MOST {
            text.push_str(", and more")?;
            break;
        }
        push_count(text, if told == 0 { " " } else { ", " }, starts)?;
        push_count(text, " x ", width as u64)?;
        told += 1;
    }
    text.push_str("\n")?;
    Ok(())
}

/// What stands behind the line of the sums.
fn details(
    alloc: Global,
    program: &Program,
    cover: &Cover,
    sums: Sums,
    runs: u64,
    tags: u64,
) -> Result<String, NoMemory> {
    let mut text = String::new(alloc);
    tell_reactions(&mut text, program, cover, sums.ran, runs, tags)?;
    tell_ports(&mut text, program, cover, sums)?;
    tell_orders(&mut text, alloc, sums)?;
    tell_inputs(&mut text, alloc, program, cover)?;
    if sums.ran.count != 0 {
        tell_workers(&mut text, alloc, &cover.counting.workers)?;
        tell_widths(&mut text, cover.overlaps.widths())?;
    }
    Ok(text)
}

/// Puts what was exercised at the end of a text, for people: a line of sums, and behind it details. `runs`
/// and `tags` are those of the verdict.
pub fn push_told(
    text: &mut String,
    alloc: Global,
    program: &Program,
    graph: &Graph,
    cover: &Cover,
    runs: u64,
    tags: u64,
) -> Result<(), NoMemory>
    requires counts { HasCounts program.now cover.now }
    requires graph { IsGraphOf program.now graph.now }
    ensures { OnOk result ((told : List ℕ) × (string_bytes text.new ≡ string_bytes text.old ++ told) × TellsSums program.now cover.now told) }
{
    let sums = Sums::of(alloc, program, graph, cover)?;
    let more = details(alloc, program, cover, sums, runs, tags)?;
    push_sums(text, sums)?;
    text.push_str(more.as_str())?;
    Ok(())
}
