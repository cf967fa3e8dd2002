//! Rule 9: a run that started before one that precedes it had ended.

ghost use Rattle.std.specs.Prelude.{◌≡◌, ◌↔◌, ◌+◌, ◌<◌, ◌≤◌, ◌⊎◌, ℕ, Some, length, slice_get, IsTrue, IfOk};
ghost use Rattle.lft_ir.specs.{Steps.Fits.RowsFit, declared.steps.row.Row.Row as TheRow};
ghost use Rattle.lft_model.specs.{Breaches.IsTooEarly, Runs.Ran};
ghost use Rattle.lft_rows.specs.Answers.Answers.{KeepsRows};
ghost use Rattle.lft_races.specs.Runs.{EndsAt};
ghost use Rattle.lft_facts.specs.{Facts.AreFacts, inner.{Enough.{Gives, AreOwnAt}, Ways.{IsMarked, EndsMarked, IsLeastEnd, IsLeastOfAll}}};

use crate::chain::chain;
use crate::facts::Fact;
use crate::passing::add_passed_by;
use crate::ways::{is_marked, steps, ways};
use lft_ir::steps::{Row, is_end, row_at};
use lft_model::Plan;
use lft_races::{runs_at, start_of};
use lft_tag::{NoMemory, Tag};
use std::alloc::Global;

/// Whether the row at the place ends a run at the tag of a reaction from which a way leads on.
fn ends_marked(rows: &[Row], tag: Tag, next: &[Option<u32>], place: usize) -> bool
    requires place { place < length rows.now }
    requires known { (i : ℕ) → (row : TheRow) → slice_get rows.now i ≡ Some row → row.reaction < length next.now }
    ensures { IsTrue result ↔ EndsMarked rows.now tag next.now place }
{
    let row = row_at(rows, place);
    is_end(&row.step) && row.tag.is_same(tag) && is_marked(next, row.reaction)
}

/// Of the reactions from which a way leads on, and which end at the tag, the least so far, or that of
/// the row at the place where it is lesser: itself and its place.
fn lesser(
    rows: &[Row],
    tag: Tag,
    start: u32,
    next: &[Option<u32>],
    so_far: Option<(u32, u32)>,
    place: usize,
) -> Option<(u32, u32)>
    requires few { length rows.now ≤ 4000000 }
    requires place { place < length rows.now }
    requires after { start < place }
    requires known { (i : ℕ) → (row : TheRow) → slice_get rows.now i ≡ Some row → row.reaction < length next.now }
    requires so_far { IsLeastEnd rows.now tag next.now start place so_far }
    ensures { IsLeastEnd rows.now tag next.now start (place + 1) result }
{
    if !ends_marked(rows, tag, next, place) {
        return so_far;
    }
    let reaction = row_at(rows, place).reaction;
    match so_far {
        Some(end) => {
            if reaction < end.0 {
                Some((reaction, place as u32))
            } else {
                so_far
            }
        }
        None => Some((reaction, place as u32)),
    }
}

/// Of the reactions from which a way leads on, and which end at the tag behind the place, the least, if
/// there are any: itself and its place.
pub(crate) fn least_end(
    rows: &[Row],
    tag: Tag,
    start: u32,
    next: &[Option<u32>],
) -> Option<(u32, u32)>
    requires few { length rows.now ≤ 4000000 }
    requires known { (i : ℕ) → (row : TheRow) → slice_get rows.now i ≡ Some row → row.reaction < length next.now }
    ensures { IsLeastOfAll rows.now tag next.now start result }
{
    let mut least = None;
    for place in start as usize + 1..rows.len() {
        least = lesser(rows, tag, start, next, least, place);
    }
    least
}

/// Of the reactions which end at the tag behind the place the least of those that are just before, and
/// where there are none of those from which a way leads on: itself and its place.
pub(crate) fn late_end(
    rows: &[Row],
    tag: Tag,
    start: u32,
    near: &[Option<u32>],
    next: &[Option<u32>],
) -> (u32, u32)
    requires few { length rows.now ≤ 4000000 }
    requires near { (i : ℕ) → (row : TheRow) → slice_get rows.now i ≡ Some row → row.reaction < length near.now }
    requires known { (i : ℕ) → (row : TheRow) → slice_get rows.now i ≡ Some row → row.reaction < length next.now }
    requires leads { (a : ℕ) → IsMarked near.now a → IsMarked next.now a }
    requires some { (i : ℕ) × (start < i) × EndsMarked rows.now tag next.now i }
    ensures marked { IsMarked next.now result.0 }
    ensures ends { EndsAt rows.now tag result.0 result.1 }
    ensures after { start < result.1 }
    ensures nearest { (i a : ℕ) → start < i → EndsAt rows.now tag a i → IsMarked near.now a → IsMarked near.now result.0 × (result.0 ≤ a) }
    ensures least { (i a : ℕ) → start < i → EndsAt rows.now tag a i → IsMarked next.now a → IsMarked near.now result.0 ⊎ (result.0 ≤ a) }
{
    // One that is just before comes first: its way to the other has one step.
    if let Some(end) = least_end(rows, tag, start, near) {
        return end;
    }
    let Some(end) = least_end(rows, tag, start, next) else {
        // The run breaks the rule, so a reaction that precedes it ends behind its start.
        unreachable!()
    };
    end
}

/// The start before an end, and the steps between the two reactions.
fn early_chain(
    alloc: Global,
    plan: &Plan,
    rows: &[Row],
    tag: Tag,
    reaction: u32,
) -> Result<Vec<Fact>, NoMemory>
    requires fit { RowsFit plan.now.program rows.now }
    requires kept { KeepsRows plan.now rows.now }
    requires ran { Ran rows.now tag reaction }
    requires early { IsTooEarly plan.now rows.now tag reaction }
    ensures holds { IfOk result (λ facts. AreFacts plan.now rows.now facts.items) }
    ensures enough { IfOk result (λ facts. Gives facts.items tag (Some reaction) 9) }
    ensures own { IfOk result (λ facts. AreOwnAt tag (Some reaction) facts.items) }
{
    let graph = plan.graph();
    let start = start_of(rows, tag, reaction);
    let reactions = plan.program().reactions();
    let next = ways(alloc, graph, reactions, reaction)?;
    let near = steps(alloc, graph, reactions, reaction)?;
    let (earlier, end) = late_end(rows, tag, start, near.as_slice(), next.as_slice());
    let way = chain(alloc, plan, graph, next.as_slice(), earlier, reaction)?;
    let mut facts = Vec::new(alloc);
    facts.push(Fact::StartsEarly {
        tag,
        earlier,
        later: reaction,
        start,
        end,
    })?;
    facts.extend_from_slice(way.as_slice())?;
    Ok(facts)
}

/// The facts that give the breach of rule 9 by the reaction's run at the tag, and which reactions on the
/// way have no run there.
pub(crate) fn too_early(
    alloc: Global,
    plan: &Plan,
    rows: &[Row],
    tag: Tag,
    reaction: u32,
) -> Result<Vec<Fact>, NoMemory>
    requires fit { RowsFit plan.now.program rows.now }
    requires kept { KeepsRows plan.now rows.now }
    requires ran { Ran rows.now tag reaction }
    requires early { IsTooEarly plan.now rows.now tag reaction }
    ensures holds { IfOk result (λ facts. AreFacts plan.now rows.now facts.items) }
    ensures enough { IfOk result (λ facts. Gives facts.items tag (Some reaction) 9) }
    ensures own { IfOk result (λ facts. AreOwnAt tag (Some reaction) facts.items) }
{
    let mut facts = early_chain(alloc, plan, rows, tag, reaction)?;
    let ran = runs_at(alloc, rows, tag, plan.program().reactions())?;
    add_passed_by(tag, ran.as_slice(), &mut facts)?;
    Ok(facts)
}
