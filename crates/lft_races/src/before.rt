//! The first race before a breach.

ghost use Rattle.std.specs.Prelude.{IfOk};
ghost use Rattle.lft_ir.specs.Steps.Fits.{RowsFit};
ghost use Rattle.lft_model.specs.Plans.{PlanParts};
ghost use Rattle.lft_races.specs.Races.{FirstSoFar, StandBefore, IsRaceBefore};

use crate::finding::first_race;
use lft_ir::steps::{Row, row_at};
use lft_model::{Breach, Plan};
use lft_tag::NoMemory;
use std::alloc::Global;

/// How many rows stand before the breach.
pub fn rows_before(rows: &[Row], breach: Breach) -> usize
    requires { (plan : PlanParts) × FirstSoFar plan rows.now breach }
    ensures { StandBefore rows.now breach result }
{
    if breach.row > 0 {
        // Line 1 has the header, and places count from 0.
        return breach.row as usize - 2;
    }
    // A breach without a row is one of a whole tag, so the rows at that tag stand before it.
    for place in 0..rows.len() {
        if breach.tag.is_before(row_at(rows, place).tag) {
            return place;
        }
    }
    rows.len()
}

/// The place of the first row that starts a run too early for rule 9, among the rows before the breach.
pub fn race_before(
    alloc: Global,
    plan: &Plan,
    rows: &[Row],
    breach: Breach,
) -> Result<Option<u32>, NoMemory>
    requires fit { RowsFit plan.now.program rows.now }
    requires first { FirstSoFar plan.now rows.now breach }
    ensures { IfOk result (IsRaceBefore plan.now rows.now breach) }
{
    let before = rows_before(rows, breach);
    first_race(alloc, plan, &rows[..before])
}
