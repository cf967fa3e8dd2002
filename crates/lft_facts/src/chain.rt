//! The steps by which one reaction precedes another.

ghost use Rattle.std.specs.Prelude.{◌<◌, ◌⊎◌, Some, length, IfOk};
ghost use Rattle.std.specs.Prelude.{List};
ghost use Rattle.lft_graph.specs.{Graph.IsGraphOf, Before.{IsDeclaredJustBefore, FeedsLast}};
ghost use Rattle.lft_facts.specs.{Facts.{IsFact, AreFacts}, inner.{Enough.GivesDirect, Ways.{AreWays, IsMarked}}, Enough.{GivesChain, IsOwn, AreOwn}};
ghost use Rattle.lft_ir.specs.declared.steps.row.Row.{Row as TheRow};
ghost use Rattle.lft_model.specs.declared.breach.Breach.{Breach as TheBreach};

use crate::facts::Fact;
use crate::feeding::feeding_port;
use crate::ways::next_at;
use lft_graph::Graph;
use lft_model::Plan;
use lft_tag::NoMemory;
use std::alloc::Global;

/// Why the first reaction directly precedes the second.
fn step(plan: &Plan, first: u32, second: u32) -> Fact
    requires first { first < length plan.now.program.reactions }
    requires second { second < length plan.now.program.reactions }
    requires direct { IsDeclaredJustBefore plan.now.program first second ⊎ FeedsLast plan.now.program first second }
    ensures holds { (t : List TheRow) → IsFact plan.now t result }
    ensures gives { GivesDirect result first second }
    ensures own { (b : TheBreach) → IsOwn b result }
{
    // The graph keeps which reactions are just before, and not why.
    match feeding_port(plan.program(), first, second) {
        Some(port) => Fact::Feeds {
            writer: first,
            reader: second,
            port,
        },
        None => Fact::DeclaredFirst { first, second },
    }
}

/// The steps of a way from the first reaction to the last.
pub(crate) fn chain(
    alloc: Global,
    plan: &Plan,
    graph: &Graph,
    next: &[Option<u32>],
    first: u32,
    last: u32,
) -> Result<Vec<Fact>, NoMemory>
    requires graph { IsGraphOf plan.now.program graph.now }
    requires ways { AreWays graph.now last next.now }
    requires first { IsMarked next.now first }
    requires last { last < length graph.now.before }
    ensures holds { IfOk result (λ facts. (t : List TheRow) → AreFacts plan.now t facts.items) }
    ensures gives { IfOk result (λ facts. GivesChain facts.items first last) }
    ensures own { IfOk result (λ facts. (b : TheBreach) → AreOwn b facts.items) }
{
    let mut facts = Vec::new(alloc);
    let mut at = first;
    // No way leads on from the last reaction, so this ends there.
    while let Some(after) = next_at(next, at) {
        facts.push(step(plan, at, after))?;
        at = after;
    }
    Ok(facts)
}
