//! Rule 10: a run that read something else than its inputs.

ghost use Rattle.std.specs.Prelude.{◌≡◌, List, Option, Some, IfOk};
ghost use Rattle.lft_ir.specs.{declared.parts.Value.Value as Carried, Steps.Fits.RowsFit};
ghost use Rattle.lft_model.specs.{Presence.{Inputs, Collision}, Runs.{Ran, reads_at}};
ghost use Rattle.lft_rows.specs.Answers.Answers.{KeepsRows};
ghost use Rattle.lft_facts.specs.{Facts.AreFacts, inner.Enough.{Gives, AreOwnAt}};
ghost use Rattle.lft_races.specs.Runs.{StartsAt};

use crate::facts::Fact;
use lft_ir::Value;
use lft_ir::steps::{Row, row_at};
use lft_lists::item_at;
use lft_model::{Plan, Reads};
use lft_races::start_of;
use lft_rows::answers::reads_of_run;
use lft_rows::presence::Presence;
use lft_tag::{NoMemory, Tag};
use std::alloc::Global;

/// What the run that starts in the row at the place read of its inputs.
fn read_from(
    alloc: Global,
    plan: &Plan,
    rows: &[Row],
    tag: Tag,
    reaction: u32,
    start: u32,
) -> Result<Reads, NoMemory>
    requires fit { RowsFit plan.now.program rows.now }
    requires kept { KeepsRows plan.now rows.now }
    requires starts { StartsAt rows.now tag reaction start }
    ensures { IfOk result (λ reads. reads ≡ reads_at plan.now rows.now tag reaction) }
{
    let row = row_at(rows, start as usize);
    reads_of_run(alloc, plan, rows, start as usize, row)
}

/// The facts on a run: where it starts, and what it read and what is present of each of its inputs.
fn read_facts(
    alloc: Global,
    plan: &Plan,
    rows: &[Row],
    tag: Tag,
    reaction: u32,
    present: &[Option<Value>],
) -> Result<Vec<Fact>, NoMemory>
    requires fit { RowsFit plan.now.program rows.now }
    requires kept { KeepsRows plan.now rows.now }
    requires ran { Ran rows.now tag reaction }
    requires present { Inputs plan.now rows.now tag reaction present.now }
    requires only { (other : List (Option Carried)) → Inputs plan.now rows.now tag reaction other → other ≡ present.now }
    requires wrong { ¬ Inputs plan.now rows.now tag reaction (reads_at plan.now rows.now tag reaction) }
    ensures holds { IfOk result (λ facts. AreFacts plan.now rows.now facts.items) }
    ensures enough { IfOk result (λ facts. Gives facts.items tag (Some reaction) 10) }
    ensures own { IfOk result (λ facts. AreOwnAt tag (Some reaction) facts.items) }
{
    let start = start_of(rows, tag, reaction);
    let reads = read_from(alloc, plan, rows, tag, reaction, start)?;
    let was = reads.as_slice();
    let inputs = plan.program().reaction(reaction).inputs(alloc)?;
    let names = inputs.as_slice();
    let mut facts = Vec::new(alloc);
    facts.push(Fact::Runs {
        tag,
        reaction,
        start,
    })?;
    for place in 0..names.len() {
        facts.push(Fact::Reads {
            tag,
            reaction,
            place,
            name: item_at(names, place),
            read: item_at(was, place),
            present: item_at(present, place),
        })?;
    }
    Ok(facts)
}

/// The facts that give the breach of rule 10 by the reaction's run at the tag.
pub(crate) fn wrong_read(
    alloc: Global,
    plan: &Plan,
    rows: &[Row],
    presence: &Presence,
    tag: Tag,
    reaction: u32,
) -> Result<Vec<Fact>, NoMemory>
    requires fit { RowsFit plan.now.program rows.now }
    requires same { presence.now ≡ record { plan = plan.now; rows = rows.now } }
    requires kept { KeepsRows plan.now rows.now }
    requires ran { Ran rows.now tag reaction }
    requires no_clash { ¬ Collision plan.now rows.now tag }
    requires wrong { ¬ Inputs plan.now rows.now tag reaction (reads_at plan.now rows.now tag reaction) }
    ensures holds { IfOk result (λ facts. AreFacts plan.now rows.now facts.items) }
    ensures enough { IfOk result (λ facts. Gives facts.items tag (Some reaction) 10) }
    ensures own { IfOk result (λ facts. AreOwnAt tag (Some reaction) facts.items) }
{
    let present = presence.inputs(alloc, tag, reaction)?;
    read_facts(alloc, plan, rows, tag, reaction, present.as_slice())
}
