//! The first breach from a tag on.

ghost use Rattle.std.specs.Prelude.{◌≤◌, ◌<◌, List, length, IfOk, IfErr, IsTrue, ◌↔◌};
ghost use Rattle.lft_ir.specs.{declared.steps.row.Row.Row as TheRow, Steps.Fits.RowsFit};
ghost use Rattle.lft_rows.specs.Presence.Clashes.{IsClash};
ghost use Rattle.lft_check.specs.inner.{ByTag.Slices.AreSlices, Verdicts.{LeastOf, BreachFrom, IsBegin, IsFrom, IsFromFault}};

use crate::by_tag::{CutFault, Sliced, slice_rows};
use crate::fault::FromFault;
use crate::judging::{first_in, least_of};
use crate::watch::NoWatch;
use lft_graph::Ancestors;
use lft_ir::steps::Rows;
use lft_lists::item_at;
use lft_model::{Breach, Plan};
use lft_rows::Slice;
use lft_tag::{NoMemory, Tag};
use std::alloc::Global;

/// The place of the first slice that isn't before the tag.
fn begin_of(slices: &[Slice], low: Tag) -> usize
    requires { (t : List TheRow) × AreSlices t slices.now }
    ensures begin { IsBegin slices.now low result }
    ensures within { result ≤ length slices.now }
{
    for place in 0..slices.len() {
        if !item_at(slices, place).tag.is_before(low) {
            return place;
        }
    }
    slices.len()
}

/// Whether the tag isn't before the low one, if there is one.
fn is_from(tag: Option<Tag>, low: Tag) -> bool
    ensures { IsTrue result ↔ IsFrom low tag }
{
    match tag {
        Some(tag) => !tag.is_before(low),
        None => true,
    }
}

/// The first breach of the rules 6 to 10 from the tag on, of rows whose first collision isn't before it.
fn first_of_sliced(
    alloc: Global,
    sliced: &Sliced,
    low: Tag,
    clash: Option<Tag>,
) -> Result<Option<Breach>, NoMemory>
    requires low { low.time ≤ 1000000000000000000 }
    requires clash { IsClash sliced.now clash }
    requires early { IsFrom low clash }
    ensures { IfOk result (LeastOf (BreachFrom sliced.now.plan sliced.now.rows low)) }
{
    let slices = sliced.slices();
    let missing = sliced.missing_from(alloc, low)?;
    let ancestors = Ancestors::new(alloc, sliced.program(), sliced.graph())?;
    let begin = begin_of(slices, low);
    let end = slices.len();
    let inner = first_in(
        alloc, sliced, &ancestors, &NoWatch, slices, clash, begin, end,
    )?;
    Ok(least_of(sliced, slices, low, clash, missing, inner))
}

/// The first breach of the rules 6 to 10 at a tag from the low one on: what is broken before it isn't
/// looked at. The time of that tag is at most 10^18.
pub fn first_from(
    alloc: Global,
    plan: &Plan,
    rows: &Rows,
    low: Tag,
) -> Result<Option<Breach>, FromFault>
    requires fit { RowsFit plan.now.program rows.now }
    requires low { low.time ≤ 1000000000000000000 }
    ensures least { IfOk result (LeastOf (BreachFrom plan.now rows.now low)) }
    ensures fault { IfErr result (IsFromFault plan.now rows.now low) }
{
    let sliced = match slice_rows(alloc, plan, rows) {
        Ok(sliced) => sliced,
        Err(CutFault::Broken(_)) => return Err(FromFault::RowBroken),
        Err(CutFault::NoMemory) => return Err(FromFault::Refused),
    };
    let clash = sliced.clash();
    // From a collision on an input has no one value, so of runs behind it rule 10 decides nothing.
    if !is_from(clash, low) {
        return Err(FromFault::EarlyCollision);
    }
    match first_of_sliced(alloc, &sliced, low, clash) {
        Ok(found) => Ok(found),
        Err(_) => Err(FromFault::Refused),
    }
}
