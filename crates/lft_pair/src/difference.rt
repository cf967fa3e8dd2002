//! The first run that isn't the same in two traces.

ghost use Rattle.std.specs.Prelude.{◌≡◌, ◌↔◌, ◌<◌, ◌⊎◌, length, Some, IsTrue, IsSomeAnd, IfOk, MatchOption, slice_get};
ghost use Rattle.std.specs.Bool.{Decides};
ghost use Rattle.lft_tag.specs.Tags.{Before};
ghost use Rattle.lft_graph.specs.Graph.{GraphParts, IsGraphOf};
ghost use Rattle.lft_ir.specs.{Steps.Fits.RowsFit, declared.steps.row.Step.TheVariants.Start, Parts.Parts};
ghost use Rattle.lft_model.specs.Breaches.{Legal};
ghost use Rattle.lft_pair.specs.{Pairs.ComesFirst, inner.{Pairs.{Agrees, FirstOdd}, Places.{AreLastStarts, AreRowsUpTo}}};

use crate::answers::same_answers;
use crate::starts::{StartPlaces, no_starts};
use lft_graph::Graph;
use lft_ir::steps::{Row, Step, is_start, row_at};
use lft_model::Plan;
use lft_rows::answers::read_steps;
use lft_tag::{NoMemory, Tag};
use std::alloc::Global;

/// What is kept from run to run: where the runs of the second trace start, and room for the steps of
/// a run of each trace.
// Lists that are filled anew, so that a run asks for no memory of its own.
#[derive(Drop)]
struct Carried {
    starts: StartPlaces,
    mine: Vec<Step>,
    theirs: Vec<Step>,
}

/// Whether the run that starts in the row at the place is in the other trace too, with an equal
/// answer.
fn agrees(
    alloc: Global,
    plan: &Plan,
    rows: &[Row],
    others: &[Row],
    kept: &mut Carried,
    place: usize,
    row: Row,
) -> Result<bool, NoMemory>
    requires fit { RowsFit plan.now.program rows.now }
    requires others_fit { RowsFit plan.now.program others.now }
    requires legal { Legal plan.now rows.now }
    requires others { Legal plan.now others.now }
    requires as_long { length kept.old.starts.places.items ≡ length plan.now.program.reactions }
    requires starts { AreLastStarts others.now kept.old.starts.read kept.old.starts.places.items }
    requires read { AreRowsUpTo others.now kept.old.starts.read row.tag }
    requires row { slice_get rows.now place ≡ Some row }
    requires begins { row.step ≡ Start }
    ensures same { IfOk result (λ same. Decides same (Agrees plan.now rows.now others.now row.tag row.reaction)) }
    ensures as_long { length kept.new.starts.places.items ≡ length kept.old.starts.places.items }
    ensures starts { AreLastStarts others.now kept.new.starts.read kept.new.starts.places.items }
    ensures read { AreRowsUpTo others.now kept.new.starts.read row.tag }
{
    match kept.starts.find(others, row.tag, row.reaction) {
        Some(other) => {
            read_steps(&mut kept.mine, rows, place, row)?;
            read_steps(&mut kept.theirs, others, other, row_at(others, other))?;
            // Asked for what every plan keeps: it is sound, and legal rows of it answer for effects alone.
            plan.keeps();
            let same = same_answers(alloc, kept.mine.as_slice(), kept.theirs.as_slice())?;
            Ok(same)
        }
        None => Ok(false),
    }
}

/// Whether the first run comes before the second: by tag, level and reaction number.
fn comes_first(graph: &Graph, a: (Tag, u32), b: (Tag, u32)) -> bool
    requires first { a.1 < length graph.now.levels }
    requires second { b.1 < length graph.now.levels }
    requires graph { (program : Parts) × IsGraphOf program graph.now }
    ensures { Decides result (ComesFirst graph.now.levels a.0 a.1 b.0 b.1) }
{
    if !a.0.is_same(b.0) {
        return a.0.is_before(b.0);
    }
    // By level: at its tag a run can change what those of higher levels read, and nothing that others do.
    let first = graph.level(a.1);
    let second = graph.level(b.1);
    first < second || (first == second && a.1 < b.1)
}

/// The first of the two, where there are two.
fn first_of(graph: &Graph, least: Option<(Tag, u32)>, run: (Tag, u32)) -> (Tag, u32)
    requires run { run.1 < length graph.now.levels }
    requires least { MatchOption least (Unit {0}) (λ o. o.1 < length graph.now.levels) }
    requires graph { (program : Parts) × IsGraphOf program graph.now }
    ensures { MatchOption least (result ≡ run) (λ o. ((result ≡ o) × ComesFirst graph.now.levels o.0 o.1 run.0 run.1) ⊎ ((result ≡ run) × (ComesFirst graph.now.levels o.0 o.1 run.0 run.1 → ⊥))) }
{
    match least {
        Some(other) => if comes_first(graph, other, run) {
            other
        } else {
            run
        },
        None => run,
    }
}

/// Whether a run was found at a tag before this one.
fn is_over(least: Option<(Tag, u32)>, tag: Tag) -> bool
    ensures { IsTrue result ↔ IsSomeAnd least (λ x. Before x.0 tag) }
{
    match least {
        Some(run) => run.0.is_before(tag),
        None => false,
    }
}

/// Of the runs of the first trace that aren't in the second, or not with an equal answer, the
/// first. It reads no further than the tag of that run.
pub(crate) fn first_odd(
    alloc: Global,
    plan: &Plan,
    rows: &[Row],
    others: &[Row],
) -> Result<Option<(Tag, u32)>, NoMemory>
    requires fit { RowsFit plan.now.program rows.now }
    requires others_fit { RowsFit plan.now.program others.now }
    requires legal { Legal plan.now rows.now }
    requires others { Legal plan.now others.now }
    ensures { IfOk result (λ odd. (graph : GraphParts) × IsGraphOf plan.now.program graph × FirstOdd plan.now graph.levels rows.now others.now odd) }
{
    let graph = plan.graph();
    let starts = no_starts(alloc, plan.program().reactions())?;
    let mut kept = Carried {
        starts,
        mine: Vec::new(alloc),
        theirs: Vec::new(alloc),
    };
    // Up to the first run that isn't in the other trace with an equal answer all is the same, so its history,
    // its inputs and whether it is triggered are too. If there is none, the law of agreement gives the rest.
    let mut least = None;
    for place in 0..rows.len() {
        let row = row_at(rows, place);
        // Only at the next tag: at one tag runs may stand in another order than the one that says which is first.
        if is_over(least, row.tag) {
            return Ok(least);
        }
        if is_start(&row.step) {
            let same = agrees(alloc, plan, rows, others, &mut kept, place, row)?;
            if !same {
                least = Some(first_of(graph, least, (row.tag, row.reaction)));
            }
        }
    }
    Ok(least)
}
