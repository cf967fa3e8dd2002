//! What two runs read.

ghost use Rattle.std.specs.Prelude.{◌≡◌, IfOk, OnOk};
ghost use Rattle.lft_ir.specs.Steps.Fits.{RowsFit};
ghost use Rattle.lft_model.specs.Runs.{reads_at};
ghost use Rattle.lft_rows.specs.Answers.Answers.{KeepsRows};
ghost use Rattle.lft_pair.specs.{inner.Enough.Adds, Enough.TellsReads};
ghost use Rattle.lft_races.specs.Runs.{StartsAt};

use crate::contrasting::contrasts::Contrast;
use lft_ir::steps::{Row, row_at};
use lft_lists::item_at;
use lft_model::{Plan, Reads};
use lft_rows::answers::reads_of_run;
use lft_tag::{NoMemory, Tag};
use std::alloc::Global;

/// What the run that starts in the row at the place read of its inputs.
fn read_from(
    alloc: Global,
    plan: &Plan,
    rows: &[Row],
    tag: Tag,
    reaction: u32,
    start: u32,
) -> Result<Reads, NoMemory>
    requires fit { RowsFit plan.now.program rows.now }
    requires kept { KeepsRows plan.now rows.now }
    requires starts { StartsAt rows.now tag reaction start }
    ensures { IfOk result (λ reads. reads ≡ reads_at plan.now rows.now tag reaction) }
{
    let row = row_at(rows, start as usize);
    reads_of_run(alloc, plan, rows, start as usize, row)
}

/// Adds what the reaction's run at the tag read of each of its inputs in both traces. It starts in the
/// row at the place in the first.
pub(crate) fn add_reads(
    told: &mut Vec<Contrast>,
    alloc: Global,
    plan: &Plan,
    rows: &[Row],
    others: &[Row],
    tag: Tag,
    reaction: u32,
    start: u32,
) -> Result<(), NoMemory>
    requires fit { RowsFit plan.now.program rows.now }
    requires kept { KeepsRows plan.now rows.now }
    requires starts { StartsAt rows.now tag reaction start }
    requires same { reads_at plan.now rows.now tag reaction ≡ reads_at plan.now others.now tag reaction }
    ensures holds { OnOk result (Adds plan.now rows.now others.now tag reaction told.old.items told.new.items) }
    ensures all { OnOk result (TellsReads plan.now reaction told.new.items) }
{
    // Both runs read the same, so the first trace tells of both.
    let reads = read_from(alloc, plan, rows, tag, reaction, start)?;
    let read = reads.as_slice();
    let inputs = plan.program().reaction(reaction).inputs(alloc)?;
    let names = inputs.as_slice();
    for place in 0..names.len() {
        told.push(Contrast::Read {
            place,
            name: item_at(names, place),
            read: item_at(read, place),
        })?;
    }
    Ok(())
}
