//! The verdict on a trace table, and what it exercises where it is accepted.

ghost use Rattle.std.specs.Prelude.{◌≡◌, IfOk, IfErr, OnOk, List, length};
ghost use Rattle.lft_ir.specs.{Parts.Parts, Steps.Fits.RowsFit, declared.steps.row.Row.Row as TheRow};
ghost use Rattle.lft_model.specs.Workers.{IsWorkers};
ghost use Rattle.lft_counts.specs.{inner.Counts.KeepsRows, Cover.CoversRows};
ghost use Rattle.lft_driver.specs.Refusals.{CheckRefusal};
ghost use Rattle.lft_coverage.specs.inner.Driver.Covered.{IsCovered, IsCoveredTable, IsUncovered, verdict_in};

use crate::driver::front::covers_text;
use lft_check::{CheckFault, NoWatch, Verdict, judge};
use lft_counts::Cover;
use lft_ir::steps::Rows;
use lft_load::{Fault, Part};
use lft_model::{Breach, Plan, is_workers};
use lft_tag::NoMemory;
use lft_trace::read_trace_shared;
use std::alloc::Global;
use std::thread::Threads;

/// A verdict, with what the trace exercises where it is accepted.
#[derive(Drop)]
pub(crate) enum Covered {
    Accepted { runs: u32, tags: u32, cover: Cover },
    Broken(Breach),
}

impl Covered {
    /// The verdict alone.
    pub(crate) fn verdict(&self) -> Verdict
        ensures { result ≡ verdict_in self.now }
    {
        match self {
            Covered::Accepted { runs, tags, .. } => Verdict::Accepted {
                runs: *runs,
                tags: *tags,
            },
            Covered::Broken(breach) => Verdict::Broken(*breach),
        }
    }
}

/// What rows exercise.
fn count_rows(alloc: Global, plan: &Plan, rows: &Rows) -> Result<Cover, NoMemory>
    ghost of: { Parts × List TheRow }
    requires program { of.0 ≡ plan.now.program }
    requires trace { of.1 ≡ rows.now }
    requires fit { RowsFit plan.now.program rows.now }
    requires ruled { KeepsRows rows.now }
    ensures { IfOk result (CoversRows plan.now.program rows.now (length rows.now)) }
{
    let mut cover = Cover::new(alloc, plan.program(), plan.graph())?;
    cover.add(rows.as_slice())?;
    Ok(cover)
}

/// The verdict of the checker on rows by so many workers, and what they exercise.
fn cover_rows<R: Threads + Sync>(
    rt: &R,
    alloc: Global,
    plan: &Plan,
    rows: &Rows,
    workers: u32,
) -> Result<Covered, Fault>
    requires fit { RowsFit plan.now.program rows.now }
    ensures covered { IfOk result (IsCovered plan.now rows.now) }
    ensures workers { OnOk result (IsWorkers workers) }
    ensures refused { IfErr result (CheckRefusal workers) }
{
    match judge(rt, alloc, plan, rows, workers, &NoWatch) {
        Ok(Verdict::Broken(breach)) => Ok(Covered::Broken(breach)),
        Ok(Verdict::Accepted { runs, tags }) => match count_rows(alloc, plan, rows) {
            Ok(cover) => Ok(Covered::Accepted { runs, tags, cover }),
            Err(_) => Err(Fault::no_memory()),
        },
        Err(CheckFault::BadWorkers) => Err(Fault::plain(Part::Check, 1, "BadWorkers")),
        Err(CheckFault::NoMemory) => Err(Fault::plain(Part::Check, 3, "NoMemory")),
    }
}

/// The verdict on a trace table of a plan by so many workers, and what it exercises. A table that is accepted
/// from its text is gone over once, and no list of its rows is made. Any other is read and judged by the
/// checker.
pub(crate) fn cover_table<R: Threads + Sync>(
    rt: &R,
    alloc: Global,
    plan: &Plan,
    trace: &[u8],
    workers: u32,
) -> Result<Covered, Fault>
    ensures covered { IfOk result (IsCoveredTable plan.now trace.now) }
    ensures workers { OnOk result (IsWorkers workers) }
    ensures refused { IfErr result (IsUncovered plan.now trace.now workers) }
{
    let program = plan.program();
    // A number out of range is a fault of the checker, and those of the table come before it.
    if is_workers(workers) {
        if let Some((counts, cover)) = covers_text(alloc, plan, trace) {
            return Ok(Covered::Accepted {
                runs: counts.runs,
                tags: counts.tags,
                cover,
            });
        }
    }
    match read_trace_shared(rt, alloc, program, trace, workers) {
        Ok(rows) => cover_rows(rt, alloc, plan, &rows, workers),
        Err(fault) => Err(Fault::trace(fault)),
    }
}
