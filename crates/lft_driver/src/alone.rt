//! The verdict on a trace by one worker, without a runtime.

ghost use Rattle.std.specs.Prelude.{◌≡◌, ◌≢◌, true, IfOk, IfErr, List};
ghost use Rattle.std.specs.Io.KnownBytes.{Keeps};
ghost use Rattle.lft_ir.specs.{Steps.Fits.RowsFit, declared.steps.row.Row.Row};
ghost use Rattle.lft_model.specs.Plans.{PlanParts};
ghost use Rattle.lft_check.specs.Verdicts.{IsVerdict};
ghost use Rattle.lft_driver.specs.{inner.Accepting.{IsRight, IsUnjudgedText}, Meaning.{IsNoTrace, Mean}, Judged.{IsJudged, IsJudgedUnder}};
ghost use Rattle.lft_driver.specs.Refusals.{IsRefusedGrowth, JudgeRefusal, JudgeRefusalUnder};
ghost use Rattle.lft_load.specs.Refusals.{is_of_text};
ghost use Rattle.lft_load.specs.declared.fault.Part.TheVariants as part;

use crate::accepting::accepted_text;
use crate::judge::tell;
use lft_check::{NoWatch, Verdict, judge_alone};
use lft_ir::steps::Rows;
use lft_load::{Fault, Part, load};
use lft_model::Plan;
use lft_trace::read_trace;
use std::alloc::Global;
use std::io::Write;

/// The verdict of the checker on rows.
fn checked(alloc: Global, plan: &Plan, rows: &Rows) -> Result<Verdict, Fault>
    requires fit { RowsFit plan.now.program rows.now }
    ensures verdict { IfOk result (IsVerdict plan.now rows.now) }
    ensures growth { IfErr result IsRefusedGrowth }
{
    match judge_alone(alloc, plan, rows, &NoWatch) {
        Ok(verdict) => Ok(verdict),
        Err(_) => Err(Fault::plain(Part::Check, 3, "NoMemory")),
    }
}

/// The verdict on a trace table of a plan. Of a table that is accepted from its text no list of rows is
/// made.
fn verdict_on(alloc: Global, plan: &Plan, trace: &[u8]) -> Result<Verdict, Fault>
    ensures right { IfOk result (IsRight plan.now trace.now) }
    ensures refused { IfErr result (IsUnjudgedText plan.now trace.now 1) }
    ensures none { IfErr result (λ f. is_of_text f.part f.number ≡ true → IsNoTrace plan.now.program trace.now) }
{
    if let Some(verdict) = accepted_text(alloc, plan, trace) {
        return Ok(verdict);
    }
    match read_trace(alloc, plan.program(), trace) {
        Ok(rows) => checked(alloc, plan, &rows),
        Err(fault) => Err(Fault::trace(fault)),
    }
}

/// What `judge_plan` does, by one worker. It starts no thread.
// It starts no thread, and its type says so.
pub fn judge_plan_alone<W: Write>(
    alloc: Global,
    plan: &Plan,
    trace: &[u8],
    out: &mut W,
) -> Result<Verdict, Fault>
    ensures judged { IfOk result (IsJudgedUnder plan.now trace.now (W.contents out.old) (W.contents out.new)) }
    ensures refused { IfErr result (JudgeRefusalUnder plan.now trace.now 1 (W.contents out.old) (W.contents out.new)) }
    ensures none { IfErr result (λ f. is_of_text f.part f.number ≡ true → IsNoTrace plan.now.program trace.now) }
    ensures kept { IfErr result (λ f. f.part ≢ part.Write → Keeps (W.contents out.old) (W.contents out.new)) }
{
    match verdict_on(alloc, plan, trace) {
        Ok(verdict) => tell(alloc, plan, verdict, out),
        Err(fault) => Err(fault),
    }
}

/// What `judge_texts` does, by one worker. It starts no thread.
// It starts no thread, and its type says so.
pub fn judge_texts_alone<W: Write>(
    alloc: Global,
    program: &[u8],
    externals: &[u8],
    trace: &[u8],
    out: &mut W,
) -> Result<Verdict, Fault>
    ensures judged { IfOk result (IsJudged program.now externals.now trace.now (W.contents out.old) (W.contents out.new)) }
    ensures refused { IfErr result (JudgeRefusal program.now externals.now trace.now 1 (W.contents out.old) (W.contents out.new)) }
    ensures none { IfErr result (λ f. is_of_text f.part f.number ≡ true → (plan : PlanParts) (rows : List Row) → Mean program.now externals.now trace.now plan rows → ⊥) }
    ensures kept { IfErr result (λ f. f.part ≢ part.Write → Keeps (W.contents out.old) (W.contents out.new)) }
{
    match load(alloc, program, externals) {
        Ok(plan) => judge_plan_alone(alloc, &plan, trace, out),
        Err(fault) => Err(fault),
    }
}
