//! The first race before a breach of one of the rules 1 to 8.

ghost use Rattle.std.specs.Prelude.{◌≡◌, ◌↔◌, ◌<◌, ◌≤◌, ℕ, Some, length, slice_get, take, IfOk, OnOk, true};
ghost use Rattle.lft_ir.specs.Steps.Fits.{RowsFit};
ghost use Rattle.lft_model.specs.declared.breach.Breach.{Breach as TheBreach};
ghost use Rattle.lft_races.specs.Races.{EndLater, FirstSoFar, IsRace, StandBefore};
ghost use Rattle.lft_facts.specs.{Facts.AreFacts, inner.{Enough.Adds, Ways.IsMarked}, Enough.{AreOwn, EndWithRace, TellsRace}};

use crate::chain::chain;
use crate::early::{late_end, least_end};
use crate::facts::Fact;
use crate::ways::{steps, ways};
use lft_ir::steps::{Row, row_at};
use lft_lists::item_at;
use lft_model::{Breach, Plan};
use lft_races::{race_before, rows_before, unfinished_at};
use lft_tag::NoMemory;
use std::alloc::Global;

/// The mark, where it is kept.
fn kept(mark: Option<u32>, is_kept: bool) -> Option<u32>
    ensures { (b : ℕ) → (result ≡ Some b) ↔ ((mark ≡ Some b) × (is_kept ≡ true)) }
{
    if is_kept { mark } else { None }
}

/// The marks of these reactions, and none of others.
fn only(alloc: Global, marks: &[Option<u32>], these: &[bool]) -> Result<Vec<Option<u32>>, NoMemory>
    requires { length these.now ≡ length marks.now }
    ensures long { IfOk result (λ left. length left.items ≡ length marks.now) }
    ensures left { IfOk result (λ left. (a : ℕ) → IsMarked left.items a ↔ (IsMarked marks.now a × (slice_get these.now a ≡ Some true))) }
{
    let mut left = Vec::new(alloc);
    for place in 0..marks.len() {
        left.push(kept(item_at(marks, place), item_at(these, place)))?;
    }
    Ok(left)
}

/// The race that starts in the row at the place, and the steps from the one reaction to the other. The
/// one that had to end first is named as for rule 9. Nothing where no row ends a run that had to.
fn race_facts(
    alloc: Global,
    plan: &Plan,
    rows: &[Row],
    before: usize,
    start: u32,
) -> Result<Vec<Fact>, NoMemory>
    requires fit { RowsFit plan.now.program rows.now }
    requires before { before ≤ length rows.now }
    requires race { IsRace plan.now.program (take before rows.now) start }
    ensures holds { IfOk result (λ facts. AreFacts plan.now rows.now facts.items) }
    ensures own { IfOk result (λ facts. (b : TheBreach) → StandBefore rows.now b before → AreOwn b facts.items) }
    ensures race { IfOk result (λ facts. EndLater rows.now before → EndWithRace plan.now.program (take before rows.now) facts.items start) }
{
    let graph = plan.graph();
    let reactions = plan.program().reactions();
    let row = row_at(rows, start as usize);
    let next = ways(alloc, graph, reactions, row.reaction)?;
    let near = steps(alloc, graph, reactions, row.reaction)?;
    let unfinished = unfinished_at(alloc, &rows[..before], row.tag, start as usize, reactions)?;
    let late = only(alloc, next.as_slice(), unfinished.as_slice())?;
    let late_near = only(alloc, near.as_slice(), unfinished.as_slice())?;
    let least = least_end(rows, row.tag, start, late.as_slice());
    // `late_end` may be asked only where a row ends such a run. Where all are open, nothing is told.
    let Some(_) = least else {
        return Ok(Vec::new(alloc));
    };
    let (earlier, end) = late_end(rows, row.tag, start, late_near.as_slice(), late.as_slice());
    let way = chain(alloc, plan, graph, next.as_slice(), earlier, row.reaction)?;
    let mut facts = Vec::new(alloc);
    facts.push(Fact::Race {
        tag: row.tag,
        earlier,
        later: row.reaction,
        start,
        end,
    })?;
    facts.extend_from_slice(way.as_slice())?;
    Ok(facts)
}

/// Puts the first race before a breach of one of the rules 1 to 8 behind the facts, if there is one.
pub(crate) fn add_race(
    alloc: Global,
    plan: &Plan,
    rows: &[Row],
    breach: Breach,
    facts: &mut Vec<Fact>,
) -> Result<(), NoMemory>
    requires fit { RowsFit plan.now.program rows.now }
    requires first { FirstSoFar plan.now rows.now breach }
    ensures adds { OnOk result (Adds breach plan.now rows.now facts.old.items facts.new.items) }
    ensures race { OnOk result (TellsRace plan.now rows.now breach facts.new.items) }
{
    // Rule 9 is told as a race anyway. Where rule 10 is named, no tag up to its own breaks rule 9.
    if breach.rule > 8 {
        return Ok(());
    }
    // A reaction that starts too early may run again, which is rule 3, or the next tag begins too soon,
    // which is rule 1. The early start stands some rows before.
    let race = race_before(alloc, plan, rows, breach)?;
    let Some(start) = race else {
        return Ok(());
    };
    let before = rows_before(rows, breach);
    let facts_of_race = race_facts(alloc, plan, rows, before, start)?;
    facts.extend_from_slice(facts_of_race.as_slice())?;
    Ok(())
}
