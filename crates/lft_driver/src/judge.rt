//! The verdict on three texts.

ghost use Rattle.std.specs.Prelude.{◌≡◌, ◌≢◌, ◌⊎◌, ℕ, true, OnOk, IfOk, IfErr, IfSome, List};
ghost use Rattle.std.specs.Io.KnownBytes.{Appends, Keeps};
ghost use Rattle.lft_ir.specs.{Steps.Fits.RowsFit, declared.steps.row.Row.Row};
ghost use Rattle.lft_model.specs.{Plans.PlanParts, Workers.IsWorkers};
ghost use Rattle.lft_check.specs.Verdicts.{IsVerdict};
ghost use Rattle.lft_driver.specs.{Lines.line_of, inner.Accepting.{IsRight, IsUnjudgedText}, Meaning.{HasTable, IsNoTrace, Mean}};
ghost use Rattle.lft_driver.specs.Judged.{AcceptedRuns, IsJudged, IsJudgedUnder};
ghost use Rattle.lft_driver.specs.Refusals.{CheckRefusal, IsRefusedGrowth, JudgeRefusal, JudgeRefusalUnder, TraceRefusal};
ghost use Rattle.lft_load.specs.{Refusals.is_of_text, Written.AppendsFront};
ghost use Rattle.lft_load.specs.declared.fault.Part.TheVariants as part;

use crate::accepting::{accepted, accepted_by, accepted_text};
use crate::line::verdict_line;
use lft_check::{CheckFault, NoWatch, Verdict, judge};
use lft_ir::Program;
use lft_ir::steps::Rows;
use lft_load::{Fault, Part, load, write_text};
use lft_model::laws::law_one_worker;
use lft_model::{Plan, is_workers};
use lft_stream::batches::accepts_reader_shared;
use lft_trace::read_trace_shared;
use std::alloc::Global;
use std::io::Write;
use std::thread::Threads;

/// Texts of fewer bytes are gone through by one worker: of them a thread costs more than it brings.
const SHORT: usize = 1 << 20;

/// The rows of a trace table of a plan, read by so many workers.
pub(crate) fn read_table<R: Threads + Sync>(
    rt: &R,
    alloc: Global,
    plan: &Plan,
    trace: &[u8],
    workers: u32,
) -> Result<Rows, Fault>
    ensures table { IfOk result (HasTable plan.now.program trace.now) }
    ensures fit { IfOk result (RowsFit plan.now.program) }
    ensures refused { IfErr result (TraceRefusal plan.now.program trace.now) }
    ensures none { IfErr result (λ f. is_of_text f.part f.number ≡ true → IsNoTrace plan.now.program trace.now) }
{
    match read_trace_shared(rt, alloc, plan.program(), trace, workers) {
        Ok(rows) => Ok(rows),
        Err(fault) => Err(Fault::trace(fault)),
    }
}

/// The verdict of the checker on rows by so many workers, whose number is tested first.
fn checked<R: Threads + Sync>(
    rt: &R,
    alloc: Global,
    plan: &Plan,
    rows: &Rows,
    workers: u32,
) -> Result<Verdict, Fault>
    requires fit { RowsFit plan.now.program rows.now }
    ensures verdict { IfOk result (IsVerdict plan.now rows.now) }
    ensures one_worker { IfOk result (AcceptedRuns plan.now rows.now) }
    ensures workers { OnOk result (IsWorkers workers) }
    ensures fault { IfErr result (CheckRefusal workers) }
{
    // Called for its clause: of an accepted trace it says that the runs are an execution.
    law_one_worker(plan);
    match judge(rt, alloc, plan, rows, workers, &NoWatch) {
        Ok(verdict) => Ok(verdict),
        Err(CheckFault::BadWorkers) => Err(Fault::plain(Part::Check, 1, "BadWorkers")),
        Err(CheckFault::NoMemory) => Err(Fault::plain(Part::Check, 3, "NoMemory")),
    }
}

/// The verdict on rows by so many workers, 1 to 64. The fault is that of the checker.
pub fn verdict_of<R: Threads + Sync>(
    rt: &R,
    alloc: Global,
    plan: &Plan,
    rows: &Rows,
    workers: u32,
) -> Result<Verdict, Fault>
    requires fit { RowsFit plan.now.program rows.now }
    ensures verdict { IfOk result (IsVerdict plan.now rows.now) }
    ensures one_worker { IfOk result (AcceptedRuns plan.now rows.now) }
    ensures workers { OnOk result (IsWorkers workers) }
    ensures fault { IfErr result (CheckRefusal workers) }
{
    law_one_worker(plan);
    // Several workers share the checker's work, and a short look has one.
    if workers == 1 {
        if let Some(verdict) = accepted(alloc, plan, rows) {
            return Ok(verdict);
        }
    }
    checked(rt, alloc, plan, rows, workers)
}

/// Writes the line of a verdict.
pub(crate) fn report<W: Write>(
    alloc: Global,
    program: &Program,
    verdict: Verdict,
    out: &mut W,
) -> Result<(), Fault>
    ensures written { OnOk result (Appends (W.contents out.old) (W.contents out.new) (line_of program.now verdict)) }
    ensures front { IfErr result (λ f. IsRefusedGrowth f ⊎ (f.part ≡ part.Write) × (f.number ≡ 1) × AppendsFront (W.contents out.old) (W.contents out.new) (line_of program.now verdict)) }
    ensures kept { IfErr result (λ f. f.part ≢ part.Write → Keeps (W.contents out.old) (W.contents out.new)) }
{
    // The line is whole before any of it is written, so want of memory cuts none.
    match verdict_line(alloc, program, verdict) {
        Ok(line) => write_text(line.as_bytes(), out),
        Err(_) => Err(Fault::no_memory()),
    }
}

/// Writes the line of a verdict on a trace table, or of one that accepts, and gives the verdict.
pub(crate) fn tell<W: Write>(
    alloc: Global,
    plan: &Plan,
    verdict: Verdict,
    out: &mut W,
) -> Result<Verdict, Fault>
    ensures same { IfOk result (λ told. told ≡ verdict) }
    ensures judged { (trace : List ℕ) → IsRight plan.now trace verdict → IfOk result (IsJudgedUnder plan.now trace (W.contents out.old) (W.contents out.new)) }
    ensures fault { IfErr result (λ f. IsRefusedGrowth f ⊎ (f.part ≡ part.Write) × (f.number ≡ 1)) }
    ensures refused { (trace : List ℕ) (workers : ℕ) → IsRight plan.now trace verdict → IsWorkers workers → IfErr result (JudgeRefusalUnder plan.now trace workers (W.contents out.old) (W.contents out.new)) }
    ensures none { IfErr result (λ f. is_of_text f.part f.number ≡ true → ⊥) }
    ensures kept { IfErr result (λ f. f.part ≢ part.Write → Keeps (W.contents out.old) (W.contents out.new)) }
{
    // Called for its clause: of an accepted trace it says that the runs are an execution.
    law_one_worker(plan);
    match report(alloc, plan.program(), verdict, out) {
        Ok(()) => Ok(verdict),
        Err(fault) => Err(fault),
    }
}

/// The verdict on a trace table that is accepted from its text, by a lawful number of workers. None says
/// nothing of it.
fn accepts<R: Threads + Sync>(
    rt: &R,
    alloc: Global,
    plan: &Plan,
    trace: &[u8],
    workers: u32,
) -> Option<Verdict>
    ensures right { IfSome result (IsRight plan.now trace.now) }
    ensures workers { IfSome result (λ verdict. IsWorkers workers) }
{
    // A number out of range is a fault of the checker, and those of the table come before it.
    if !is_workers(workers) {
        return None;
    }
    if trace.len() < SHORT {
        return accepted_text(alloc, plan, trace);
    }
    match accepts_reader_shared(rt, alloc, plan, trace, workers) {
        Ok(Some(counts)) => Some(accepted_by(counts)),
        _ => None,
    }
}

/// The verdict of the checker on a trace table of a plan by so many workers.
fn checked_table<R: Threads + Sync>(
    rt: &R,
    alloc: Global,
    plan: &Plan,
    trace: &[u8],
    workers: u32,
) -> Result<Verdict, Fault>
    ensures right { IfOk result (IsRight plan.now trace.now) }
    ensures workers { OnOk result (IsWorkers workers) }
    ensures refused { IfErr result (IsUnjudgedText plan.now trace.now workers) }
    ensures none { IfErr result (λ f. is_of_text f.part f.number ≡ true → IsNoTrace plan.now.program trace.now) }
{
    match read_table(rt, alloc, plan, trace, workers) {
        Ok(rows) => checked(rt, alloc, plan, &rows, workers),
        Err(fault) => Err(fault),
    }
}

/// What `judge_plan` does, by the checker alone: of a trace table that `judge_reader` doesn't accept.
pub fn check_plan<W: Write, R: Threads + Sync>(
    rt: &R,
    alloc: Global,
    plan: &Plan,
    trace: &[u8],
    workers: u32,
    out: &mut W,
) -> Result<Verdict, Fault>
    ensures judged { IfOk result (IsJudgedUnder plan.now trace.now (W.contents out.old) (W.contents out.new)) }
    ensures workers { OnOk result (IsWorkers workers) }
    ensures refused { IfErr result (JudgeRefusalUnder plan.now trace.now workers (W.contents out.old) (W.contents out.new)) }
    ensures none { IfErr result (λ f. is_of_text f.part f.number ≡ true → IsNoTrace plan.now.program trace.now) }
    ensures kept { IfErr result (λ f. f.part ≢ part.Write → Keeps (W.contents out.old) (W.contents out.new)) }
{
    match checked_table(rt, alloc, plan, trace, workers) {
        Ok(verdict) => tell(alloc, plan, verdict, out),
        Err(fault) => Err(fault),
    }
}

/// Judges a trace table of a plan by so many workers, and writes the verdict's line, as `judge_texts`
/// does. Of a table that is accepted from its text no list of rows is made.
pub fn judge_plan<W: Write, R: Threads + Sync>(
    rt: &R,
    alloc: Global,
    plan: &Plan,
    trace: &[u8],
    workers: u32,
    out: &mut W,
) -> Result<Verdict, Fault>
    ensures judged { IfOk result (IsJudgedUnder plan.now trace.now (W.contents out.old) (W.contents out.new)) }
    ensures workers { OnOk result (IsWorkers workers) }
    ensures refused { IfErr result (JudgeRefusalUnder plan.now trace.now workers (W.contents out.old) (W.contents out.new)) }
    ensures none { IfErr result (λ f. is_of_text f.part f.number ≡ true → IsNoTrace plan.now.program trace.now) }
    ensures kept { IfErr result (λ f. f.part ≢ part.Write → Keeps (W.contents out.old) (W.contents out.new)) }
{
    match accepts(rt, alloc, plan, trace, workers) {
        Some(verdict) => tell(alloc, plan, verdict, out),
        None => check_plan(rt, alloc, plan, trace, workers, out),
    }
}

/// Judges the trace of a program under external inputs, from their texts, by so many workers, and
/// writes the verdict's line. The fault is that of the first layer that refuses, in the order lex,
/// syntax, program, externals, graph, trace, check, write. The number of workers, 1 to 64, is tested
/// by the checker.
pub fn judge_texts<W: Write, R: Threads + Sync>(
    rt: &R,
    alloc: Global,
    program: &[u8],
    externals: &[u8],
    trace: &[u8],
    workers: u32,
    out: &mut W,
) -> Result<Verdict, Fault>
    ensures judged { IfOk result (IsJudged program.now externals.now trace.now (W.contents out.old) (W.contents out.new)) }
    ensures workers { OnOk result (IsWorkers workers) }
    ensures refused { IfErr result (JudgeRefusal program.now externals.now trace.now workers (W.contents out.old) (W.contents out.new)) }
    ensures none { IfErr result (λ f. is_of_text f.part f.number ≡ true → (plan : PlanParts) (rows : List Row) → Mean program.now externals.now trace.now plan rows → ⊥) }
    ensures kept { IfErr result (λ f. f.part ≢ part.Write → Keeps (W.contents out.old) (W.contents out.new)) }
{
    match load(alloc, program, externals) {
        Ok(plan) => judge_plan(rt, alloc, &plan, trace, workers, out),
        Err(fault) => Err(fault),
    }
}
