//! The verdict on the trace that a reader gives, where it is accepted.

ghost use Rattle.std.specs.Prelude.{◌≡◌, ◌≢◌, ◌⊎◌, IfOk, IfErr, IfNone, IfSome};
ghost use Rattle.std.specs.Io.KnownBytes.{Keeps};
ghost use Rattle.lft_model.specs.Workers.{IsWorkers};
ghost use Rattle.lft_driver.specs.{Judged.{Accepts, IsJudgedUnder}, Refusals.{JudgeRefusalUnder, IsRefusedGrowth}};
ghost use Rattle.lft_load.specs.Faults.{IsFaultOfPath};
ghost use Rattle.lft_load.specs.declared.fault.Part.TheVariants as part;

use crate::accepting::accepted_by;
use crate::judge::tell;
use lft_check::Verdict;
use lft_load::{Fault, Part};
use lft_model::{Plan, is_workers};
use lft_stream::batches::accepts_reader_shared;
use std::alloc::Global;
use std::io::{Read, Write};
use std::thread::Threads;

/// Judges the trace table that a reader gives, by so many workers, and writes the verdict's line where it is
/// accepted. None says nothing of it, and nothing is written: then `check_plan` judges its text. `read` 1
/// `Failed` comes only where the reader failed; the path is for the fault alone. Of the text and of the rows
/// only what workers read at a time is kept.
pub fn judge_reader<T: Threads + Sync, R: Read + Drop, W: Write>(
    rt: &T,
    alloc: Global,
    plan: &Plan,
    path: &str,
    trace: R,
    workers: u32,
    out: &mut W,
) -> Result<Option<Verdict>, Fault>
    ensures accepts { IfOk result (λ found. IfSome found Accepts) }
    ensures judged { IfOk result (λ found. IfSome found (λ verdict. IfSome (R.remaining trace) (λ text. IsJudgedUnder plan.now text (W.contents out.old) (W.contents out.new) verdict))) }
    ensures workers { IfOk result (λ found. IfSome found (λ verdict. IsWorkers workers)) }
    ensures silent { IfOk result (λ found. IfNone found (Keeps (W.contents out.old) (W.contents out.new))) }
    ensures refused { IfErr result (λ f. IsFaultOfPath f part.Read 1 path.now ⊎ IsRefusedGrowth f ⊎ (f.part ≡ part.Write) × (f.number ≡ 1)) }
    ensures told { IfErr result (λ f. f.part ≡ part.Write → IfSome (R.remaining trace) (λ text. JudgeRefusalUnder plan.now text workers (W.contents out.old) (W.contents out.new) f)) }
    ensures kept { IfErr result (λ f. f.part ≢ part.Write → Keeps (W.contents out.old) (W.contents out.new)) }
{
    // A number out of range is a fault of the checker, and those of the table come before it.
    if !is_workers(workers) {
        return Ok(None);
    }
    match accepts_reader_shared(rt, alloc, plan, trace, workers) {
        Ok(Some(counts)) => match tell(alloc, plan, accepted_by(counts), out) {
            Ok(verdict) => Ok(Some(verdict)),
            Err(fault) => Err(fault),
        },
        Ok(None) => Ok(None),
        Err(_) => Err(Fault::of_path(alloc, Part::Read, 1, "Failed", path)),
    }
}
