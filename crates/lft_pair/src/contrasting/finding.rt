//! What two traces show beside one another where they differ.

ghost use Rattle.std.specs.Prelude.{IfOk, OnOk};
ghost use Rattle.lft_ir.specs.Steps.Fits.{RowsFit};
ghost use Rattle.lft_model.specs.Breaches.{Legal};
ghost use Rattle.lft_pair.specs.{Pairs.IsDifference, Contrasts.AreContrasts, inner.Enough.Adds, Enough.{GiveOther, TellsAll, TellsAnswers, TellsReads}};

use crate::contrasting::contrasts::{Contrast, Contrasts};
use crate::contrasting::counts::{count_before, count_earlier, instance_of};
use crate::contrasting::effects::{effect_contrasts, stop_contrast};
use crate::contrasting::reads::add_reads;
use crate::contrasting::runs::placed_steps;
use lft_ir::steps::{Row, Rows};
use lft_model::Plan;
use lft_races::start_of;
use lft_tag::{NoMemory, Tag};
use std::alloc::Global;

/// What the runs of the reaction at the tag answered, where it isn't the same.
fn answers(
    alloc: Global,
    plan: &Plan,
    rows: &[Row],
    others: &[Row],
    tag: Tag,
    reaction: u32,
) -> Result<Vec<Contrast>, NoMemory>
    requires fit { RowsFit plan.now.program rows.now }
    requires others_fit { RowsFit plan.now.program others.now }
    requires difference { IsDifference plan.now rows.now others.now tag reaction }
    ensures holds { IfOk result (λ told. AreContrasts plan.now rows.now others.now tag reaction told.items) }
    ensures all { IfOk result (λ told. TellsAnswers plan.now rows.now others.now tag reaction told.items) }
{
    let mine = placed_steps(alloc, rows, tag, reaction)?;
    let theirs = placed_steps(alloc, others, tag, reaction)?;
    let (mine, theirs) = (mine.as_slice(), theirs.as_slice());
    let effects = plan.program().reaction(reaction).effects.as_slice();
    let mut told = effect_contrasts(alloc, effects, mine, theirs)?;
    if let Some(stop) = stop_contrast(mine, theirs) {
        told.push(stop)?;
    }
    Ok(told)
}

/// Adds what led to the runs of the reaction at the tag: where they start, what they read, and how many
/// runs stand before them.
fn add_reasons(
    told: &mut Vec<Contrast>,
    alloc: Global,
    plan: &Plan,
    rows: &[Row],
    others: &[Row],
    tag: Tag,
    reaction: u32,
) -> Result<(), NoMemory>
    requires fit { RowsFit plan.now.program rows.now }
    requires others_fit { RowsFit plan.now.program others.now }
    requires legal { Legal plan.now rows.now }
    requires difference { IsDifference plan.now rows.now others.now tag reaction }
    ensures holds { OnOk result (Adds plan.now rows.now others.now tag reaction told.old.items told.new.items) }
    ensures reads { OnOk result (TellsReads plan.now reaction told.new.items) }
{
    let first = start_of(rows, tag, reaction);
    let second = start_of(others, tag, reaction);
    told.push(Contrast::Starts { first, second })?;
    add_reads(told, alloc, plan, rows, others, tag, reaction, first)?;
    let program = plan.program();
    // Up to these runs both traces have the same, so those of the first are counted.
    told.push(Contrast::Earlier {
        instance: instance_of(program, reaction),
        count: count_earlier(program, rows, tag, reaction),
    })?;
    told.push(Contrast::Before {
        count: count_before(rows, tag),
    })?;
    Ok(())
}

/// What two legal traces show beside one another at their difference, in the order in which it is
/// told: what is answered otherwise, and then what led to it.
pub fn find(
    alloc: Global,
    plan: &Plan,
    first: &Rows,
    second: &Rows,
    tag: Tag,
    reaction: u32,
) -> Result<Contrasts, NoMemory>
    requires first_fits { RowsFit plan.now.program first.now }
    requires second_fits { RowsFit plan.now.program second.now }
    requires legal { Legal plan.now first.now }
    requires difference { IsDifference plan.now first.now second.now tag reaction }
    ensures holds { IfOk result (AreContrasts plan.now first.now second.now tag reaction) }
    ensures enough { IfOk result (λ contrasts. GiveOther contrasts tag reaction) }
    ensures all { IfOk result (TellsAll plan.now first.now second.now tag reaction) }
{
    let rows = first.as_slice();
    let others = second.as_slice();
    let mut told = answers(alloc, plan, rows, others, tag, reaction)?;
    add_reasons(&mut told, alloc, plan, rows, others, tag, reaction)?;
    Ok(Contrasts::from_vec(told))
}
