//! The rows of one run.

ghost use Rattle.std.specs.Prelude.{◌≡◌, ◌≤◌, length, IfOk};
ghost use Rattle.lft_model.specs.Runs.{step_of as the_step_of};
ghost use Rattle.lft_pair.specs.Runs.{placed_steps as the_placed_steps};

use crate::contrasting::contrasts::Placed;
use lft_ir::steps::{Row, Step, row_at};
use lft_tag::{NoMemory, Tag};
use std::alloc::Global;

/// The step of the row, where it is of the reaction at the tag.
fn step_of(row: Row, tag: Tag, reaction: u32) -> Option<Step>
    ensures { result ≡ the_step_of tag reaction row }
{
    if tag.time == row.tag.time && tag.micro == row.tag.micro && reaction == row.reaction {
        Some(row.step)
    } else {
        None
    }
}

/// The steps of the reaction's run at the tag, in order, with the places of their rows.
pub(crate) fn placed_steps(
    alloc: Global,
    rows: &[Row],
    tag: Tag,
    reaction: u32,
) -> Result<Vec<Placed>, NoMemory>
    requires few { length rows.now ≤ 4000000 }
    ensures { IfOk result (λ steps. steps.items ≡ the_placed_steps rows.now tag reaction) }
{
    let mut steps = Vec::new(alloc);
    for place in 0..rows.len() {
        if let Some(step) = step_of(row_at(rows, place), tag, reaction) {
            steps.push(Placed {
                row: place as u32,
                step,
            })?;
        }
    }
    Ok(steps)
}
