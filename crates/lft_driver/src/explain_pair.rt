//! What is said of two traces, from texts, and what explains it.

ghost use Rattle.std.specs.Prelude.{◌≡◌, ◌≢◌, ◌⊎◌, true, OnOk, IfOk, IfErr};
ghost use Rattle.std.specs.Io.KnownBytes.{Keeps};
ghost use Rattle.lft_ir.specs.Steps.Fits.{RowsFit};
ghost use Rattle.lft_model.specs.Workers.{IsWorkers};
ghost use Rattle.lft_driver.specs.{Meaning.IsNoTrace, Pairs.IsPairing, declared.paired.Paired.TheVariants.Differ as TheyDiffer, Explained.Writes};
ghost use Rattle.lft_driver.specs.inner.Explained.{WriteRefusal};
ghost use Rattle.lft_driver.specs.PairExplained.{AreAnswers, StandsBehind, IsPairExplanation, IsPairExplainedUnder, PairExplainingRefusal, PairExplainRefusalUnder};
ghost use Rattle.lft_load.specs.Refusals.{is_of_text};
ghost use Rattle.lft_load.specs.declared.fault.Part.TheVariants as part;

use crate::explain::write_reasons;
use crate::pair::{judge_both, read_both, report};
use crate::paired::Paired;
use lft_ir::steps::Rows;
use lft_load::{Fault, write_text};
use lft_model::Plan;
use lft_pair::contrast;
use lft_report::push_shown;
use lft_tag::{NoMemory, Tag};
use std::alloc::Global;
use std::io::Write;
use std::thread::Threads;

/// An empty line, and what shows a difference.
fn answers(
    alloc: Global,
    plan: &Plan,
    first: &Rows,
    second: &Rows,
    tag: Tag,
    reaction: u32,
    all: bool,
) -> Result<Vec<u8>, NoMemory>
    requires first_fits { RowsFit plan.now.program first.now }
    requires second_fits { RowsFit plan.now.program second.now }
    requires right { IsPairing plan.now first.now second.now (TheyDiffer tag reaction) }
    ensures { IfOk result (λ text. AreAnswers all plan.now first.now second.now tag reaction text.items) }
{
    let what = contrast(alloc, plan, first, second, tag, reaction)?;
    let mut text = Vec::from_slice(alloc, b"\n")?;
    push_shown(alloc, &mut text, what.as_bytes(), all)?;
    Ok(text)
}

/// Writes an empty line and what shows a difference.
fn write_answers<W: Write>(
    alloc: Global,
    plan: &Plan,
    first: &Rows,
    second: &Rows,
    tag: Tag,
    reaction: u32,
    all: bool,
    out: &mut W,
) -> Result<(), Fault>
    requires first_fits { RowsFit plan.now.program first.now }
    requires second_fits { RowsFit plan.now.program second.now }
    requires right { IsPairing plan.now first.now second.now (TheyDiffer tag reaction) }
    ensures written { OnOk result (Writes (AreAnswers all plan.now first.now second.now tag reaction) (W.contents out.old) (W.contents out.new)) }
    ensures refused { IfErr result (WriteRefusal (AreAnswers all plan.now first.now second.now tag reaction) (W.contents out.old) (W.contents out.new)) }
{
    match answers(alloc, plan, first, second, tag, reaction, all) {
        Ok(text) => write_text(text.as_slice(), out),
        Err(_) => Err(Fault::no_memory()),
    }
}

/// Writes what stands behind the line of two traces.
fn write_behind<W: Write>(
    alloc: Global,
    plan: &Plan,
    first: &Rows,
    second: &Rows,
    paired: Paired,
    all: bool,
    out: &mut W,
) -> Result<(), Fault>
    requires first_fits { RowsFit plan.now.program first.now }
    requires second_fits { RowsFit plan.now.program second.now }
    requires right { IsPairing plan.now first.now second.now paired }
    ensures written { OnOk result (Writes (StandsBehind all plan.now first.now second.now paired) (W.contents out.old) (W.contents out.new)) }
    ensures refused { IfErr result (WriteRefusal (StandsBehind all plan.now first.now second.now paired) (W.contents out.old) (W.contents out.new)) }
{
    match paired {
        Paired::First(breach) => write_reasons(alloc, plan, first, breach, all, out),
        Paired::Second(breach) => write_reasons(alloc, plan, second, breach, all, out),
        Paired::Same { .. } => Ok(()),
        Paired::Differ { tag, reaction } => {
            write_answers(alloc, plan, first, second, tag, reaction, all, out)
        }
    }
}

/// Judges and compares rows, and writes the line. Then it looks for what explains it, and writes that.
fn explain_rows<W: Write, R: Threads + Sync>(
    rt: &R,
    alloc: Global,
    plan: &Plan,
    first: &Rows,
    second: &Rows,
    workers: u32,
    all: bool,
    out: &mut W,
) -> Result<Paired, Fault>
    requires first_fits { RowsFit plan.now.program first.now }
    requires second_fits { RowsFit plan.now.program second.now }
    ensures right { IfOk result (IsPairing plan.now first.now second.now) }
    ensures workers { OnOk result (IsWorkers workers) }
    ensures written { IfOk result (λ said. Writes (IsPairExplanation all plan.now first.now second.now said) (W.contents out.old) (W.contents out.new)) }
    ensures refused { IfErr result (PairExplainingRefusal all plan.now first.now second.now workers (W.contents out.old) (W.contents out.new)) }
{
    let paired = match judge_both(rt, alloc, plan, first, second, workers) {
        Ok(paired) => paired,
        Err(fault) => return Err(fault),
    };
    match report(alloc, plan.program(), paired, out) {
        Ok(()) => {}
        Err(fault) => return Err(fault),
    }
    match write_behind(alloc, plan, first, second, paired, all, out) {
        Ok(()) => Ok(paired),
        Err(fault) => Err(fault),
    }
}

/// Judges and compares as `pair_plan` does, and writes behind the line of a broken rule an empty line
/// and the facts that explain it, and behind that of a difference an empty line and both answers: all, or
/// the first lines. The line is written before these are looked for. Where memory is refused then, the
/// fault is `memory` 1 `NoMemory`, and the line alone was written.
pub fn explain_pair_plan<W: Write, R: Threads + Sync>(
    rt: &R,
    alloc: Global,
    plan: &Plan,
    first: &[u8],
    second: &[u8],
    workers: u32,
    all: bool,
    out: &mut W,
) -> Result<Paired, Fault>
    ensures explained { IfOk result (IsPairExplainedUnder all plan.now first.now second.now (W.contents out.old) (W.contents out.new)) }
    ensures workers { OnOk result (IsWorkers workers) }
    ensures refused { IfErr result (PairExplainRefusalUnder all plan.now first.now second.now workers (W.contents out.old) (W.contents out.new)) }
    ensures none { IfErr result (λ f. is_of_text f.part f.number ≡ true → IsNoTrace plan.now.program first.now ⊎ IsNoTrace plan.now.program second.now) }
    ensures kept { IfErr result (λ f. f.part ≢ part.Write → f.part ≢ part.Memory → Keeps (W.contents out.old) (W.contents out.new)) }
{
    match read_both(rt, alloc, plan, first, second, workers) {
        Ok(both) => explain_rows(
            rt,
            alloc,
            plan,
            &both.first,
            &both.second,
            workers,
            all,
            out,
        ),
        Err(fault) => Err(fault),
    }
}
