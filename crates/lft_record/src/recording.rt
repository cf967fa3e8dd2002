//! Recordings that are written as they end.

ghost use Rattle.std.specs.Prelude.{◌≡◌, OnOk, IfErr, length};
ghost use Rattle.lft_ir.specs.Steps.Fits.{RowsFit};
ghost use Rattle.lft_record.specs.{Recordings.{IsPlanRecorded, RecordRefusal, Writes}, inner.Recordings.TableRefusal};

use crate::fault::stop_fault;
use lft_ir::steps::Rows;
use lft_load::{Fault, write_text};
use lft_model::Plan;
use lft_pool::{Bodies, Code, Law, record_run};
use lft_trace::write_trace;
use std::alloc::Global;
use std::io::Write;
use std::sync::Wait;
use std::thread::Threads;

/// Records the plan with so many workers, at most so many runs, and writes the trace table. Where the
/// recording stops, the table of its rows so far is written, and then the fault is part `pool` with
/// the number of the reason. Where that table or the fault's words can't be made for want of memory,
/// the fault is `memory` 1 and nothing is written. Where the writer fails its fault is told, and not
/// why the recording stopped.
pub fn record_to<L: Law + Send, C: Code + Drop + Send, R: Threads + Wait + Sync, W: Write>(
    rt: &R,
    alloc: Global,
    plan: Plan,
    bodies: Bodies<L, C>,
    workers: u32,
    max_runs: u32,
    out: &mut W,
) -> Result<(), Fault>
    requires { length bodies ≡ length plan.program.reactions }
    ensures recorded { OnOk result (IsPlanRecorded L.holds plan workers max_runs (W.contents out.old) (W.contents out.new)) }
    ensures refused { IfErr result (RecordRefusal L.holds plan workers max_runs (W.contents out.old) (W.contents out.new)) }
{
    match record_run(rt, alloc, plan, bodies, workers, max_runs) {
        Ok(recorded) => write_rows(alloc, &recorded.plan, &recorded.rows, out),
        Err(stopped) => {
            // Made first: where memory for its words is refused, nothing is written.
            let fault = match stop_fault(alloc, stopped.plan.program(), stopped.reason) {
                Ok(fault) => fault,
                Err(_) => return Err(Fault::no_memory()),
            };
            match write_rows(alloc, &stopped.plan, &stopped.rows, out) {
                Ok(()) => Err(fault),
                Err(fault) => Err(fault),
            }
        }
    }
}

// Writes the trace table of the rows.
fn write_rows<W: Write>(alloc: Global, plan: &Plan, rows: &Rows, out: &mut W) -> Result<(), Fault>
    requires { RowsFit plan.now.program rows.now }
    ensures written { OnOk result (Writes plan.now.program rows.now (W.contents out.old) (W.contents out.new)) }
    ensures refused { IfErr result (TableRefusal plan.now.program rows.now (W.contents out.old) (W.contents out.new)) }
{
    match write_trace(alloc, plan.program(), rows) {
        Ok(text) => write_text(text.as_slice(), out),
        Err(_) => Err(Fault::no_memory()),
    }
}
