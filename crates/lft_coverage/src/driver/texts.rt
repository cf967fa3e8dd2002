//! The verdict on a trace table, and what an accepted trace exercised, written.

ghost use Rattle.std.specs.Prelude.{◌≡◌, ◌≢◌, ◌++◌, ℕ, true, List, IfErr, IfOk, OnOk, string_bytes};
ghost use Rattle.std.specs.Io.KnownBytes.{Keeps};
ghost use Rattle.lft_ir.specs.declared.steps.row.Row.{Row as TheRow};
ghost use Rattle.lft_tables.specs.Records.{records_of};
ghost use Rattle.lft_trace.specs.Traces.{Table};
ghost use Rattle.lft_model.specs.Workers.{IsWorkers};
ghost use Rattle.lft_coverage.specs.{inner.{Facts.HasCounts, Driver.Covered.{IsCoverText, IsCovered}}, Facts.fact_lines, Sums.TellsSums};
ghost use Rattle.lft_coverage.specs.Driver.Covered.{CoverRefusalUnder, IsJudgedCoverUnder};
ghost use Rattle.lft_load.specs.Refusals.{is_of_text};
ghost use Rattle.lft_driver.specs.{inner.Explained.WriteRefusal, Explained.Writes};
ghost use Rattle.lft_load.specs.declared.fault.Part.TheVariants as part;

use crate::driver::covered::{Covered, cover_table};
use crate::{push_told, write_facts};
use lft_check::Verdict;
use lft_counts::Cover;
use lft_driver::verdict_line;
use lft_load::{Fault, Part, write_text};
use lft_model::Plan;
use lft_model::laws::law_one_worker;
use lft_tag::NoMemory;
use std::alloc::Global;
use std::io::Write;
use std::thread::Threads;

/// A line, and behind it for people what an accepted trace exercised.
fn told_text(
    alloc: Global,
    plan: &Plan,
    cover: &Cover,
    runs: u32,
    tags: u32,
    line: String,
) -> Result<String, NoMemory>
    requires { HasCounts plan.now.program cover.now }
    ensures { IfOk result (λ text. (told : List ℕ) × (string_bytes text ≡ string_bytes line ++ told) × TellsSums plan.now.program cover.now told) }
{
    let mut text = line;
    let (runs, tags) = (u64::from(runs), u64::from(tags));
    push_told(
        &mut text,
        alloc,
        plan.program(),
        plan.graph(),
        cover,
        runs,
        tags,
    )?;
    Ok(text)
}

/// Writes a line, and behind it for people what an accepted trace exercised. Nothing is written before all
/// of the text is there.
fn write_told<W: Write>(
    alloc: Global,
    plan: &Plan,
    cover: &Cover,
    runs: u32,
    tags: u32,
    line: String,
    out: &mut W,
) -> Result<(), Fault>
    requires { HasCounts plan.now.program cover.now }
    ensures written { OnOk result (Writes (λ text. (told : List ℕ) × (text ≡ string_bytes line ++ told) × TellsSums plan.now.program cover.now told) (W.contents out.old) (W.contents out.new)) }
    ensures refused { IfErr result (WriteRefusal (λ text. (told : List ℕ) × (text ≡ string_bytes line ++ told) × TellsSums plan.now.program cover.now told) (W.contents out.old) (W.contents out.new)) }
{
    match told_text(alloc, plan, cover, runs, tags, line) {
        Ok(text) => write_text(text.as_bytes(), out),
        Err(_) => Err(Fault::no_memory()),
    }
}

/// Writes a line, and behind it each fact of what an accepted trace exercised as it is made. Behind the
/// line no memory is asked for.
fn write_listed<W: Write>(
    alloc: Global,
    plan: &Plan,
    cover: &Cover,
    line: &str,
    out: &mut W,
) -> Result<(), Fault>
    requires { HasCounts plan.now.program cover.now }
    ensures written { OnOk result (Writes (λ text. text ≡ line.now ++ fact_lines plan.now.program cover.now) (W.contents out.old) (W.contents out.new)) }
    ensures refused { IfErr result (WriteRefusal (λ text. text ≡ line.now ++ fact_lines plan.now.program cover.now) (W.contents out.old) (W.contents out.new)) }
{
    let workers = match cover.counting.workers.list(alloc) {
        Ok(workers) => workers,
        Err(_) => return Err(Fault::no_memory()),
    };
    if write_facts(out, line, plan.program(), cover, workers.as_slice()) {
        Ok(())
    } else {
        Err(Fault::plain(Part::Write, 1, "Failed"))
    }
}

/// Writes the line of a verdict, and behind it what an accepted trace exercised: with `list` one fact a line,
/// else for people. Behind the line of a broken rule stands nothing.
fn write_covered<W: Write>(
    alloc: Global,
    plan: &Plan,
    covered: &Covered,
    list: bool,
    out: &mut W,
) -> Result<(), Fault>
    requires { (rows : List TheRow) × IsCovered plan.now rows covered.now }
    ensures written { OnOk result (Writes (IsCoverText list plan.now covered.now) (W.contents out.old) (W.contents out.new)) }
    ensures refused { IfErr result (WriteRefusal (IsCoverText list plan.now covered.now) (W.contents out.old) (W.contents out.new)) }
{
    let line = match verdict_line(alloc, plan.program(), covered.verdict()) {
        Ok(line) => line,
        Err(_) => return Err(Fault::no_memory()),
    };
    match covered {
        Covered::Accepted { runs, tags, cover } => {
            if list {
                return write_listed(alloc, plan, cover, line.as_str(), out);
            }
            write_told(alloc, plan, cover, *runs, *tags, line, out)
        }
        Covered::Broken(_) => write_text(line.as_bytes(), out),
    }
}

/// Judges a trace table of a plan by so many workers, and writes the verdict's line. Behind the line of an
/// accepted trace it writes what that exercised: with `list` one fact a line, each as it is made, else for
/// people. Behind the line of a broken rule stands nothing. A table that is accepted from its text is gone
/// over by one worker.
pub fn cover_plan<W: Write, R: Threads + Sync>(
    rt: &R,
    alloc: Global,
    plan: &Plan,
    trace: &[u8],
    workers: u32,
    list: bool,
    out: &mut W,
) -> Result<Verdict, Fault>
    ensures judged { IfOk result (IsJudgedCoverUnder list plan.now trace.now (W.contents out.old) (W.contents out.new)) }
    ensures workers { OnOk result (IsWorkers workers) }
    ensures refused { IfErr result (CoverRefusalUnder list plan.now trace.now workers (W.contents out.old) (W.contents out.new)) }
    ensures none { IfErr result (λ f. is_of_text f.part f.number ≡ true → (rows : List TheRow) → Table plan.now.program (records_of trace.now) rows → ⊥) }
    ensures kept { IfErr result (λ f. f.part ≢ part.Write → Keeps (W.contents out.old) (W.contents out.new)) }
{
    // Called for its clause: of an accepted trace it says that the runs are an execution.
    law_one_worker(plan);
    let covered = match cover_table(rt, alloc, plan, trace, workers) {
        Ok(covered) => covered,
        Err(fault) => return Err(fault),
    };
    match write_covered(alloc, plan, &covered, list, out) {
        Ok(()) => Ok(covered.verdict()),
        Err(fault) => Err(fault),
    }
}
