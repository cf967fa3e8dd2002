//! What the run that starts in a row read and answered.

ghost use Rattle.std.specs.Prelude.{◌≡◌, Some, slice_get, IfOk};
ghost use Rattle.lft_ir.specs.{Steps.Fits.RowsFit, declared.steps.row.Step.TheVariants.Start};
ghost use Rattle.lft_model.specs.Runs.{reads_at, answer_at};
ghost use Rattle.lft_rows.specs.Answers.Answers.{KeepsRows};

use crate::answers::answers::answer_of_steps;
use crate::answers::outcomes::Answer;
use crate::answers::reads::reads_of_steps;
use crate::answers::steps::read_steps;
use lft_ir::steps::Row;
use lft_model::{Plan, Reads};
use lft_tag::NoMemory;
use std::alloc::Global;

/// What the run that starts in the row at the place read. It looks at the rows up to its end row once.
pub fn reads_of_run(
    alloc: Global,
    plan: &Plan,
    rows: &[Row],
    place: usize,
    start: Row,
) -> Result<Reads, NoMemory>
    requires fit { RowsFit plan.now.program rows.now }
    requires rules { KeepsRows plan.now rows.now }
    requires row { slice_get rows.now place ≡ Some start }
    requires starts { start.step ≡ Start }
    ensures { IfOk result (λ reads. reads ≡ reads_at plan.now rows.now start.tag start.reaction) }
{
    let mut steps = Vec::new(alloc);
    read_steps(&mut steps, rows, place, start)?;
    let reaction = plan.program().reaction(start.reaction);
    reads_of_steps(alloc, reaction, steps.as_slice())
}

/// What the run that starts in the row at the place answered. It looks at the rows up to its end row
/// once, and then at the run's own steps once for each effect.
pub fn answer_of_run(
    alloc: Global,
    plan: &Plan,
    rows: &[Row],
    place: usize,
    start: Row,
) -> Result<Answer, NoMemory>
    requires fit { RowsFit plan.now.program rows.now }
    requires rules { KeepsRows plan.now rows.now }
    requires row { slice_get rows.now place ≡ Some start }
    requires starts { start.step ≡ Start }
    ensures { IfOk result (λ answer. answer ≡ answer_at plan.now rows.now start.tag start.reaction) }
{
    let mut steps = Vec::new(alloc);
    read_steps(&mut steps, rows, place, start)?;
    let effects = plan.program().reaction(start.reaction).effects.as_slice();
    answer_of_steps(alloc, effects, steps.as_slice())
}
