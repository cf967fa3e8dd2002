//! Rules 1 to 5: a row that breaks a rule.

ghost use Rattle.std.specs.Prelude.{◌≡◌, Some, slice_get, IfOk};
ghost use Rattle.lft_ir.specs.{Parts.Parts, Steps.Fits.RowsFit};
ghost use Rattle.lft_model.specs.{Plans.PlanParts, inner.Breaches.BreaksRow, Breaches.{IsOutOfOrder, IsUndeclared, RowBreach}};
ghost use Rattle.lft_facts.specs.{Facts.{IsRowFact, AreFacts}, inner.Enough.GivesRow, Enough.{ProvesRow, AreOwn, wrong_row}};

use crate::facts::{Fact, RowFact};
use crate::row_reasons::add_row_reasons;
use lft_ir::steps::{Row, Step, is_start, row_at};
use lft_model::{Breach, Plan};
use lft_races::{first_read, first_start, greater_row, open_start};
use lft_tag::NoMemory;
use std::alloc::Global;

/// The fact that gives the breach of rule 3 by the row at the place.
fn order_fact(rows: &[Row], place: u32, row: Row) -> RowFact
    requires row { slice_get rows.now place ≡ Some row }
    requires breaks { IsOutOfOrder rows.now place row row.step }
    ensures holds { (plan : PlanParts) → IsRowFact plan rows.now result }
    ensures gives { GivesRow result place 3 }
    ensures row { wrong_row result ≡ place }
{
    if !is_start(&row.step) {
        return RowFact::NotOpen { row: place };
    }
    // Both may hold, as where a start row stands twice. Then the second start of this run is told.
    match first_start(rows, place, row.tag, row.reaction) {
        Some(first) => RowFact::StartsAgain { row: place, first },
        None => RowFact::Busy {
            row: place,
            start: open_start(rows, place, row.worker),
        },
    }
}

/// The fact that gives the breach of rule 4 by the row at the place.
fn undeclared_fact(rows: &[Row], place: u32, row: Row) -> RowFact
    requires row { slice_get rows.now place ≡ Some row }
    requires breaks { (program : Parts) × IsUndeclared program rows.now place row row.step }
    ensures holds { (plan : PlanParts) → IsUndeclared plan.program rows.now place row row.step → IsRowFact plan rows.now result }
    ensures gives { GivesRow result place 4 }
    ensures row { wrong_row result ≡ place }
{
    match row.step {
        Step::Read(name, _) => match first_read(rows, place, row.tag, row.reaction, name) {
            Some(first) => RowFact::ReadAgain { row: place, first },
            None => RowFact::NotInput { row: place },
        },
        _ => RowFact::NotEffect { row: place },
    }
}

/// The fact that gives the breach of one of the rules 1 to 5 by the row at the place.
fn row_fact(rows: &[Row], rule: u8, place: u32, row: Row) -> RowFact
    requires row { slice_get rows.now place ≡ Some row }
    requires breaks { (plan : PlanParts) × BreaksRow plan rows.now place row rule }
    ensures holds { (plan : PlanParts) → BreaksRow plan rows.now place row rule → IsRowFact plan rows.now result }
    ensures gives { GivesRow result place rule }
    ensures row { wrong_row result ≡ place }
{
    match rule {
        1 => RowFact::Late {
            row: place,
            earlier: greater_row(rows, place, row),
        },
        2 => RowFact::AfterStop { row: place },
        3 => order_fact(rows, place, row),
        4 => undeclared_fact(rows, place, row),
        _ => RowFact::Unended { row: place },
    }
}

/// The facts that give the breach of one of the rules 1 to 5, and behind them what a reader asks next.
pub(crate) fn of_row(
    alloc: Global,
    plan: &Plan,
    rows: &[Row],
    breach: Breach,
) -> Result<Vec<Fact>, NoMemory>
    requires fit { RowsFit plan.now.program rows.now }
    requires breach { RowBreach plan.now rows.now breach }
    ensures holds { IfOk result (λ facts. AreFacts plan.now rows.now facts.items) }
    ensures enough { IfOk result (λ facts. ProvesRow facts.items breach) }
    ensures own { IfOk result (λ facts. AreOwn breach facts.items) }
{
    let place = breach.row - 2;
    let row = row_at(rows, place as usize);
    let fact = row_fact(rows, breach.rule, place, row);
    let mut facts = Vec::new(alloc);
    facts.push(Fact::RowIs {
        tag: row.tag,
        reaction: row.reaction,
        row: place,
    })?;
    facts.push(Fact::Row(fact))?;
    add_row_reasons(plan, rows, fact, &mut facts)?;
    Ok(facts)
}
