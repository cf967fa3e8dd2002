//! From rows to slices.

ghost use Rattle.std.specs.Prelude.{◌≡◌, length, IfOk, IfErr};
ghost use Rattle.lft_ir.specs.Steps.Fits.{RowsFit};
ghost use Rattle.lft_model.specs.Presence.{stop as the_stop};
ghost use Rattle.lft_check.specs.{inner.ByTag.{Indexes.{HasRuns, IsCaused}, Slices.IsCuttable}, ByTag.Slices.IsCutFault};

use crate::by_tag::fault::CutFault;
use crate::by_tag::missing::first_missing;
use crate::by_tag::sliced::Sliced;
use crate::by_tag::slices::slices_of;
use crate::by_tag::started::{Started, started_of};
use lft_ir::steps::{Row, Rows};
use lft_model::{Plan, trace_stop};
use lft_rows::first_breach;
use lft_rows::presence::{Presence, presence_of};
use lft_tag::{NoMemory, Tag};
use std::alloc::Global;

/// Slices the rows by tag. `Broken` has the first breach where a row breaks one of the rules 1 to 5,
/// and `NoMemory` comes where a growth was refused.
pub fn slice_rows<'a>(alloc: Global, plan: &'a Plan, rows: &'a Rows) -> Result<Sliced<'a>, CutFault>
    requires { RowsFit plan.now.program rows.now }
    ensures sliced { IfOk result (λ s. s ≡ record { plan = plan.now; rows = rows.now }) }
    ensures fault { IfErr result (IsCutFault plan.now rows.now) }
{
    // Asked for what every plan keeps: it is sound, which sliced rows are read with.
    plan.keeps();
    let rows = rows.as_slice();
    let stop = trace_stop(plan, rows);
    match first_breach(alloc, plan, stop, rows) {
        Ok(Some(breach)) => return Err(CutFault::Broken(breach)),
        Ok(None) => {}
        Err(_) => return Err(CutFault::NoMemory),
    }
    match index(alloc, plan, rows, stop) {
        Ok(sliced) => Ok(sliced),
        Err(_) => Err(CutFault::NoMemory),
    }
}

/// What rows cause, and how many runs they have, beside their slices.
#[derive(Drop)]
pub(crate) struct Caused<'a> {
    pub(crate) presence: Presence<'a>,
    pub(crate) missing: Option<(Tag, u32)>,
    pub(crate) due: Vec<bool>,
    pub(crate) runs: u32,
}

/// What is caused by rows of which presence and runs are known.
pub(crate) fn caused_by<'a>(
    alloc: Global,
    presence: Presence<'a>,
    started: Started,
) -> Result<Caused<'a>, NoMemory>
    requires rules { IsCuttable presence }
    requires started { HasRuns presence.rows (length presence.plan.program.reactions) started }
    ensures { IfOk result (λ c. (c.presence ≡ presence.entry) × IsCaused c) }
{
    let mut due = vec![in alloc; false; presence.rows().len()]?;
    let low = Tag { time: 0, micro: 0 };
    let missing = first_missing(alloc, &presence, &started, low, due.as_mut_slice())?;
    Ok(Caused {
        presence,
        missing,
        due,
        runs: started.runs,
    })
}

/// The slices of rows that break none of the rules 1 to 5.
fn index<'a>(
    alloc: Global,
    plan: &'a Plan,
    rows: &'a [Row],
    stop: Tag,
) -> Result<Sliced<'a>, NoMemory>
    requires rules { IsCuttable (record { plan = plan.now; rows = rows.now }) }
    requires stop { stop ≡ the_stop plan.now rows.now }
    ensures { IfOk result (λ s. s ≡ record { plan = plan.now; rows = rows.now }) }
{
    let slices = slices_of(alloc, rows)?;
    let started = started_of(alloc, rows, plan.program().reactions())?;
    let presence = presence_of(alloc, plan, rows, stop)?;
    let caused = caused_by(alloc, presence, started)?;
    Ok(Sliced::from_parts(slices, caused))
}
