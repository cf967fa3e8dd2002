//! The facts that give a breach.

ghost use Rattle.std.specs.Prelude.{◌≡◌, IfOk};
ghost use Rattle.lft_ir.specs.Steps.Fits.{RowsFit};
ghost use Rattle.lft_model.specs.Breaches.{First};
ghost use Rattle.lft_races.specs.Races.{FirstSoFar};
ghost use Rattle.lft_facts.specs.{Facts.AreFacts, Enough.{Proves, ProvesTag, AreOwn, TellsRace}};

use crate::collision::collision;
use crate::early::too_early;
use crate::facts::{Fact, Facts};
use crate::race::add_race;
use crate::reads::wrong_read;
use crate::reasons::with_reasons;
use crate::rows::of_row;
use crate::triggers::{not_run, not_triggered};
use lft_ir::steps::{Row, Rows};
use lft_model::{Breach, Plan, trace_stop};
use lft_rows::presence::{Presence, presence_of};
use lft_tag::NoMemory;
use std::alloc::Global;

/// The facts that are enough for the first breach, where no row breaks a rule.
fn enough_at_tag(
    alloc: Global,
    plan: &Plan,
    rows: &[Row],
    presence: &Presence,
    breach: Breach,
) -> Result<Vec<Fact>, NoMemory>
    requires fit { RowsFit plan.now.program rows.now }
    requires same { presence.now ≡ record { plan = plan.now; rows = rows.now } }
    requires first { First plan.now rows.now breach }
    requires tag { breach.row ≡ 0 }
    ensures holds { IfOk result (λ facts. AreFacts plan.now rows.now facts.items) }
    ensures enough { IfOk result (λ facts. ProvesTag facts.items breach) }
    ensures own { IfOk result (λ facts. AreOwn breach facts.items) }
{
    let tag = breach.tag;
    let causes = presence.causes();
    // Of the rules of a tag the sixth alone names no reaction.
    let Some(reaction) = breach.reaction else {
        return collision(alloc, plan, rows, causes, tag);
    };
    match breach.rule {
        7 => not_run(alloc, plan, rows, causes, tag, reaction),
        8 => not_triggered(alloc, plan, rows, tag, reaction),
        9 => too_early(alloc, plan, rows, tag, reaction),
        _ => wrong_read(alloc, plan, rows, presence, tag, reaction),
    }
}

/// The facts behind the first breach, where no row breaks a rule.
fn at_tag(alloc: Global, plan: &Plan, rows: &[Row], breach: Breach) -> Result<Vec<Fact>, NoMemory>
    requires fit { RowsFit plan.now.program rows.now }
    requires first { First plan.now rows.now breach }
    requires tag { breach.row ≡ 0 }
    ensures holds { IfOk result (λ facts. AreFacts plan.now rows.now facts.items) }
    ensures enough { IfOk result (λ facts. ProvesTag facts.items breach) }
    ensures own { IfOk result (λ facts. AreOwn breach facts.items) }
{
    let stop = trace_stop(plan, rows);
    let presence = presence_of(alloc, plan, rows, stop)?;
    let facts = enough_at_tag(alloc, plan, rows, &presence, breach)?;
    with_reasons(alloc, plan, rows, presence.causes(), facts)
}

/// The facts that give the breach, and reasons behind them.
fn of_breach(
    alloc: Global,
    plan: &Plan,
    rows: &[Row],
    breach: Breach,
) -> Result<Vec<Fact>, NoMemory>
    requires fit { RowsFit plan.now.program rows.now }
    requires first { FirstSoFar plan.now rows.now breach }
    ensures holds { IfOk result (λ facts. AreFacts plan.now rows.now facts.items) }
    ensures enough { IfOk result (λ facts. Proves facts.items breach) }
    ensures own { IfOk result (λ facts. AreOwn breach facts.items) }
{
    // Lines count from 1, so 0 is no row: it says that the breach is of a tag.
    if breach.row == 0 {
        at_tag(alloc, plan, rows, breach)
    } else {
        of_row(alloc, plan, rows, breach)
    }
}

/// The facts behind the first breach of a trace, in the order in which they are told: those that are
/// enough, reasons behind them, and last the first race before a breach of one of the rules 1 to 8. Where
/// runs may end yet the race may be left out: no row ends the run that had to end first.
// Facts are enough if they give the breach of every plan and every list of rows (`Proves`), so none can be left
// out, not even one on the program. Of this plan and these rows the breach is known: no fact at all would do.
pub fn find(alloc: Global, plan: &Plan, rows: &Rows, breach: Breach) -> Result<Facts, NoMemory>
    requires fit { RowsFit plan.now.program rows.now }
    requires first { FirstSoFar plan.now rows.now breach }
    ensures holds { IfOk result (λ facts. AreFacts plan.now rows.now facts) }
    ensures enough { IfOk result (λ facts. Proves facts breach) }
    ensures own { IfOk result (λ facts. AreOwn breach facts) }
    ensures race { IfOk result (TellsRace plan.now rows.now breach) }
{
    let rows = rows.as_slice();
    // They are found anew: the checker keeps tables over all rows, and nothing that a reader could look up.
    let mut facts = of_breach(alloc, plan, rows, breach)?;
    add_race(alloc, plan, rows, breach, &mut facts)?;
    Ok(Facts::from_vec(facts))
}
