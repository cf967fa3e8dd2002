//! The runs of each reaction.

ghost use Rattle.std.specs.Prelude.{◌≡◌, length, IfOk};
ghost use Rattle.lft_model.specs.Plans.{PlanParts};
ghost use Rattle.lft_check.specs.inner.ByTag.{Slices.IsCuttable, Indexes.HasRuns};

use crate::by_tag::lists::ByReaction;
use lft_ir::steps::{Row, is_start, row_at};
use lft_tag::{NoMemory, Tag};
use std::alloc::Global;

/// The runs of each reaction: their tags, ascending, and the places of their start rows; and how many
/// runs there are in all.
#[derive(Drop)]
pub(crate) struct Started {
    pub(crate) tags: ByReaction<Tag>,
    pub(crate) places: ByReaction<u32>,
    pub(crate) runs: u32,
}

/// The runs of the rows.
pub(crate) fn started_of(alloc: Global, rows: &[Row], reactions: usize) -> Result<Started, NoMemory>
    requires { (plan : PlanParts) × IsCuttable (record { plan = plan; rows = rows.now }) × (reactions ≡ length plan.program.reactions) }
    ensures { IfOk result (HasRuns rows.now reactions) }
{
    let mut tags = ByReaction::new(alloc, reactions)?;
    let mut places = ByReaction::new(alloc, reactions)?;
    let mut runs = 0;
    for place in 0..rows.len() {
        let row = row_at(rows, place);
        if is_start(&row.step) {
            tags.push(row.reaction, row.tag)?;
            places.push(row.reaction, place as u32)?;
            runs += 1;
        }
    }
    Ok(Started { tags, places, runs })
}
