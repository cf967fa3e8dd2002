//! Two traces of one program beside one another, from texts.

ghost use Rattle.std.specs.Prelude.{◌≡◌, ◌≢◌, ◌⊎◌, true, OnOk, IfOk, IfErr, List};
ghost use Rattle.std.specs.Io.KnownBytes.{Appends, Keeps};
ghost use Rattle.lft_ir.specs.{Steps.Fits.RowsFit, declared.steps.row.Row.Row};
ghost use Rattle.lft_model.specs.{Plans.PlanParts, Workers.IsWorkers, Accepted.IsAccepted};
ghost use Rattle.lft_driver.specs.{Lines.line_of_pair, Meaning.IsNoTrace};
ghost use Rattle.lft_driver.specs.Pairs.{AreAccepted, HaveTables, IsExecution, IsPaired, IsPairedUnder, IsPairing, MeanBoth};
ghost use Rattle.lft_driver.specs.{PairRefusals.{PairRefusal, PairRefusalUnder, PairingRefusal, TracesRefusal}, Refusals.{CheckRefusal, IsRefusedGrowth}};
ghost use Rattle.lft_load.specs.{Refusals.is_of_text, Written.AppendsFront};
ghost use Rattle.lft_load.specs.declared.fault.Part.TheVariants as part;

use crate::judge::{read_table, verdict_of};
use crate::line::paired_line;
use crate::paired::Paired;
use lft_check::Verdict;
use lft_ir::Program;
use lft_ir::steps::Rows;
use lft_load::{Fault, load, write_text};
use lft_model::Plan;
use lft_pair::{Pair, pair as compare_rows};
use std::alloc::Global;
use std::io::Write;
use std::thread::Threads;

/// The rows of two trace tables.
#[derive(Drop)]
pub(crate) struct Both {
    pub first: Rows,
    pub second: Rows,
}

/// The rows of two trace tables of a plan. Both are read before either is judged.
pub(crate) fn read_both<R: Threads + Sync>(
    rt: &R,
    alloc: Global,
    plan: &Plan,
    first: &[u8],
    second: &[u8],
    workers: u32,
) -> Result<Both, Fault>
    ensures have_tables { IfOk result (λ both. HaveTables plan.now.program first.now second.now both.first both.second) }
    ensures first_fits { IfOk result (λ both. RowsFit plan.now.program both.first) }
    ensures second_fits { IfOk result (λ both. RowsFit plan.now.program both.second) }
    ensures refused { IfErr result (TracesRefusal plan.now.program first.now second.now) }
    ensures none { IfErr result (λ f. is_of_text f.part f.number ≡ true → IsNoTrace plan.now.program first.now ⊎ IsNoTrace plan.now.program second.now) }
{
    let rows = match read_table(rt, alloc, plan, first, workers) {
        Ok(rows) => rows,
        Err(fault) => return Err(fault),
    };
    // Read before the first is judged: a fault of a table comes before any verdict.
    match read_table(rt, alloc, plan, second, workers) {
        Ok(others) => Ok(Both {
            first: rows,
            second: others,
        }),
        Err(fault) => Err(fault),
    }
}

/// What two accepted traces show beside one another.
fn compare(
    alloc: Global,
    plan: &Plan,
    first: &Rows,
    second: &Rows,
    runs: u32,
    tags: u32,
) -> Result<Paired, Fault>
    requires first_fits { RowsFit plan.now.program first.now }
    requires second_fits { RowsFit plan.now.program second.now }
    requires accepted { AreAccepted plan.now first.now second.now }
    requires counted { IsAccepted plan.now first.now runs tags }
    ensures right { IfOk result (IsPairing plan.now first.now second.now) }
    ensures growth { IfErr result IsRefusedGrowth }
{
    let pair = match compare_rows(alloc, plan, first, second) {
        Ok(pair) => pair,
        Err(_) => return Err(Fault::no_memory()),
    };
    match pair {
        // The counts are of the first trace. The second has the same runs, so they are its own too.
        Pair::Same => Ok(Paired::Same { runs, tags }),
        Pair::Differ { tag, reaction } => Ok(Paired::Differ { tag, reaction }),
    }
}

/// Judges the second trace beside an accepted first one, and then compares the two.
fn judge_second<R: Threads + Sync>(
    rt: &R,
    alloc: Global,
    plan: &Plan,
    first: &Rows,
    second: &Rows,
    workers: u32,
    runs: u32,
    tags: u32,
) -> Result<Paired, Fault>
    requires first_fits { RowsFit plan.now.program first.now }
    requires second_fits { RowsFit plan.now.program second.now }
    requires execution { IsExecution plan.now first.now }
    requires counted { IsAccepted plan.now first.now runs tags }
    ensures right { IfOk result (IsPairing plan.now first.now second.now) }
    ensures workers { OnOk result (IsWorkers workers) }
    ensures fault { IfErr result (CheckRefusal workers) }
{
    let verdict = match verdict_of(rt, alloc, plan, second, workers) {
        Ok(verdict) => verdict,
        Err(fault) => return Err(fault),
    };
    match verdict {
        Verdict::Accepted { .. } => compare(alloc, plan, first, second, runs, tags),
        Verdict::Broken(breach) => Ok(Paired::Second(breach)),
    }
}

/// Judges the first trace, then the second, and then compares the two.
pub(crate) fn judge_both<R: Threads + Sync>(
    rt: &R,
    alloc: Global,
    plan: &Plan,
    first: &Rows,
    second: &Rows,
    workers: u32,
) -> Result<Paired, Fault>
    requires first_fits { RowsFit plan.now.program first.now }
    requires second_fits { RowsFit plan.now.program second.now }
    ensures right { IfOk result (IsPairing plan.now first.now second.now) }
    ensures workers { OnOk result (IsWorkers workers) }
    ensures fault { IfErr result (CheckRefusal workers) }
{
    // To its end before the second is begun: where both break a rule, the first is told.
    let verdict = match verdict_of(rt, alloc, plan, first, workers) {
        Ok(verdict) => verdict,
        Err(fault) => return Err(fault),
    };
    match verdict {
        Verdict::Accepted { runs, tags } => {
            judge_second(rt, alloc, plan, first, second, workers, runs, tags)
        }
        Verdict::Broken(breach) => Ok(Paired::First(breach)),
    }
}

/// Writes the line of what two traces show.
pub(crate) fn report<W: Write>(
    alloc: Global,
    program: &Program,
    paired: Paired,
    out: &mut W,
) -> Result<(), Fault>
    ensures written { OnOk result (Appends (W.contents out.old) (W.contents out.new) (line_of_pair program.now paired)) }
    ensures front { IfErr result (λ f. IsRefusedGrowth f ⊎ (f.part ≡ part.Write) × (f.number ≡ 1) × AppendsFront (W.contents out.old) (W.contents out.new) (line_of_pair program.now paired)) }
    ensures kept { IfErr result (λ f. f.part ≢ part.Write → Keeps (W.contents out.old) (W.contents out.new)) }
{
    match paired_line(alloc, program, paired) {
        Ok(line) => write_text(line.as_bytes(), out),
        Err(_) => Err(Fault::no_memory()),
    }
}

/// Judges and compares rows, and writes the line.
fn pair_rows<W: Write, R: Threads + Sync>(
    rt: &R,
    alloc: Global,
    plan: &Plan,
    first: &Rows,
    second: &Rows,
    workers: u32,
    out: &mut W,
) -> Result<Paired, Fault>
    requires first_fits { RowsFit plan.now.program first.now }
    requires second_fits { RowsFit plan.now.program second.now }
    ensures right { IfOk result (IsPairing plan.now first.now second.now) }
    ensures workers { OnOk result (IsWorkers workers) }
    ensures written { IfOk result (λ said. Appends (W.contents out.old) (W.contents out.new) (line_of_pair plan.now.program said)) }
    ensures refused { IfErr result (PairingRefusal plan.now first.now second.now workers (W.contents out.old) (W.contents out.new)) }
    ensures kept { IfErr result (λ f. f.part ≢ part.Write → Keeps (W.contents out.old) (W.contents out.new)) }
{
    let paired = match judge_both(rt, alloc, plan, first, second, workers) {
        Ok(paired) => paired,
        Err(fault) => return Err(fault),
    };
    match report(alloc, plan.program(), paired, out) {
        Ok(()) => Ok(paired),
        Err(fault) => Err(fault),
    }
}

/// Judges two trace tables of a plan by so many workers, compares them, and writes the line of what is
/// said, as `pair_texts` does.
pub fn pair_plan<W: Write, R: Threads + Sync>(
    rt: &R,
    alloc: Global,
    plan: &Plan,
    first: &[u8],
    second: &[u8],
    workers: u32,
    out: &mut W,
) -> Result<Paired, Fault>
    ensures paired { IfOk result (IsPairedUnder plan.now first.now second.now (W.contents out.old) (W.contents out.new)) }
    ensures workers { OnOk result (IsWorkers workers) }
    ensures refused { IfErr result (PairRefusalUnder plan.now first.now second.now workers (W.contents out.old) (W.contents out.new)) }
    ensures none { IfErr result (λ f. is_of_text f.part f.number ≡ true → IsNoTrace plan.now.program first.now ⊎ IsNoTrace plan.now.program second.now) }
    ensures kept { IfErr result (λ f. f.part ≢ part.Write → Keeps (W.contents out.old) (W.contents out.new)) }
{
    match read_both(rt, alloc, plan, first, second, workers) {
        Ok(both) => pair_rows(rt, alloc, plan, &both.first, &both.second, workers, out),
        Err(fault) => Err(fault),
    }
}

/// Judges two traces of a program under the same external inputs, from their texts, compares them
/// where both are accepted, and writes the line of what is said. Each table is read and each trace
/// judged by so many workers; the comparison has one. Both tables are read before either is judged;
/// the first is judged before the second. The fault is that of the first layer that refuses, in the
/// order lex, syntax, program, externals, graph, trace (the first table, then the second), check,
/// write. A growth that is refused to the comparison is `memory` 1 `NoMemory`.
pub fn pair_texts<W: Write, R: Threads + Sync>(
    rt: &R,
    alloc: Global,
    program: &[u8],
    externals: &[u8],
    first: &[u8],
    second: &[u8],
    workers: u32,
    out: &mut W,
) -> Result<Paired, Fault>
    ensures paired { IfOk result (IsPaired program.now externals.now first.now second.now (W.contents out.old) (W.contents out.new)) }
    ensures workers { OnOk result (IsWorkers workers) }
    ensures refused { IfErr result (PairRefusal program.now externals.now first.now second.now workers (W.contents out.old) (W.contents out.new)) }
    ensures none { IfErr result (λ f. is_of_text f.part f.number ≡ true → (plan : PlanParts) (rows others : List Row) → MeanBoth program.now externals.now first.now second.now plan rows others → ⊥) }
    ensures kept { IfErr result (λ f. f.part ≢ part.Write → Keeps (W.contents out.old) (W.contents out.new)) }
{
    match load(alloc, program, externals) {
        Ok(plan) => pair_plan(rt, alloc, &plan, first, second, workers, out),
        Err(fault) => Err(fault),
    }
}
