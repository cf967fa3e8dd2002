//! From rows to slices, by several workers.

ghost use Rattle.std.specs.Prelude.{◌≡◌, length, IfOk, IfErr};
ghost use Rattle.lft_ir.specs.Steps.Fits.{RowsFit};
ghost use Rattle.lft_model.specs.{Plans.PlanParts, Presence.stop as the_stop};
ghost use Rattle.lft_check.specs.{inner.ByTag.{Indexes.{HasRuns, IsCaused}, Slices.{AreSlices, IsCuttable}}, ByTag.Slices.IsCutFault};
ghost use Rattle.lft_rows.specs.inner.Slices.{Rises};

use crate::by_tag::fault::CutFault;
use crate::by_tag::sliced::Sliced;
use crate::by_tag::slices::slices_of;
use crate::by_tag::slicing::{Caused, caused_by};
use crate::by_tag::started::{Started, started_of};
use crate::by_tag::stops::trace_stop_shared;
use lft_ir::steps::{Row, Rows};
use lft_model::Plan;
use lft_rows::presence::{Presence, presence_of};
use lft_rows::{Slice, first_breach_shared};
use lft_tag::{NoMemory, Tag};
use std::alloc::Global;
use std::thread::{Threads, join};

/// What `slice_rows` gives, by so many workers at a time: the stop and the rules 1 to 5 in as many
/// parts, then the slices, the runs by reaction and the events side by side.
pub fn slice_rows_shared<'a, R: Threads + Sync>(
    rt: &R,
    alloc: Global,
    plan: &'a Plan,
    rows: &'a Rows,
    workers: u32,
) -> Result<Sliced<'a>, CutFault>
    requires { RowsFit plan.now.program rows.now }
    ensures sliced { IfOk result (λ s. s ≡ record { plan = plan.now; rows = rows.now }) }
    ensures fault { IfErr result (IsCutFault plan.now rows.now) }
{
    // Asked for what every plan keeps: it is sound, which sliced rows are read with.
    plan.keeps();
    let rows = rows.as_slice();
    let stop = trace_stop_shared(rt, plan, rows, workers);
    match first_breach_shared(rt, alloc, plan, stop, rows, workers) {
        Ok(Some(breach)) => return Err(CutFault::Broken(breach)),
        Ok(None) => {}
        Err(_) => return Err(CutFault::NoMemory),
    }
    match index_shared(rt, alloc, Traced { plan, rows }, stop) {
        Ok(sliced) => Ok(sliced),
        Err(_) => Err(CutFault::NoMemory),
    }
}

/// A plan and the rows of a trace of it.
// A closure can't name lifetimes, so what it makes of two references has to come with both in one.
#[derive(Clone, Copy, Drop)]
struct Traced<'a> {
    plan: &'a Plan,
    rows: &'a [Row],
}

/// The events of the rows.
fn events_of<'a>(alloc: Global, traced: Traced<'a>, stop: Tag) -> Result<Presence<'a>, NoMemory>
    requires fit { RowsFit traced.plan.now.program traced.rows.now }
    requires stop { stop ≡ the_stop traced.plan.now traced.rows.now }
    ensures { IfOk result (λ p. p ≡ record { plan = traced.entry.plan.now; rows = traced.entry.rows.now }) }
{
    presence_of(alloc, traced.plan, traced.rows, stop)
}

/// What the rows cause: their runs by reaction are found beside their events.
fn caused_shared<'a, R: Threads + Sync>(
    rt: &R,
    alloc: Global,
    traced: Traced<'a>,
    stop: Tag,
) -> Result<Caused<'a>, NoMemory>
    requires rules { IsCuttable (record { plan = traced.plan.now; rows = traced.rows.now }) }
    requires stop { stop ≡ the_stop traced.plan.now traced.rows.now }
    ensures { IfOk result (λ c. (c.presence ≡ record { plan = traced.entry.plan.now; rows = traced.entry.rows.now }) × IsCaused c) }
{
    let rows = traced.rows;
    let reactions = traced.plan.program().reactions();
    let runs = move || -> Result<Started, NoMemory>
        requires { (plan : PlanParts) × IsCuttable (record { plan = plan; rows = rows.now }) × (reactions ≡ length plan.program.reactions) }
        ensures { IfOk result (HasRuns rows.entry.now reactions) }
    { started_of(alloc, rows, reactions) };
    let events = move || -> Result<Presence, NoMemory>
        requires { RowsFit traced.plan.now.program traced.rows.now × (stop ≡ the_stop traced.plan.now traced.rows.now) }
        ensures { IfOk result (λ p. p ≡ record { plan = traced.entry.plan.now; rows = traced.entry.rows.now }) }
    { events_of(alloc, traced, stop) };
    let (started, presence) = join(rt, runs, events);
    caused_by(alloc, presence?, started?)
}

/// The slices of rows that break none of the rules 1 to 5: found beside what the rows cause.
fn index_shared<'a, R: Threads + Sync>(
    rt: &R,
    alloc: Global,
    traced: Traced<'a>,
    stop: Tag,
) -> Result<Sliced<'a>, NoMemory>
    requires rules { IsCuttable (record { plan = traced.plan.now; rows = traced.rows.now }) }
    requires stop { stop ≡ the_stop traced.plan.now traced.rows.now }
    ensures { IfOk result (λ s. s ≡ record { plan = traced.entry.plan.now; rows = traced.entry.rows.now }) }
{
    let rows = traced.rows;
    let slicing = move || -> Result<Vec<Slice>, NoMemory>
        requires { Rises rows.now }
        ensures { IfOk result (λ slices. AreSlices rows.entry.now slices.items) }
    { slices_of(alloc, rows) };
    let causing = move || -> Result<Caused, NoMemory>
        requires { IsCuttable (record { plan = traced.plan.now; rows = traced.rows.now }) × (stop ≡ the_stop traced.plan.now traced.rows.now) }
        ensures { IfOk result (λ c. (c.presence ≡ record { plan = traced.entry.plan.now; rows = traced.entry.rows.now }) × IsCaused c) }
    { caused_shared(rt, alloc, traced, stop) };
    let (slices, caused) = join(rt, slicing, causing);
    Ok(Sliced::from_parts(slices?, caused?))
}
