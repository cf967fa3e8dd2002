//! What the events of a trace are looked up in.

ghost use Rattle.std.specs.Prelude.{◌≡◌, ◌≤◌, length, IfOk};
ghost use Rattle.lft_ir.specs.Steps.Fits.{RowsFit};
ghost use Rattle.lft_model.specs.Presence.{stop as the_stop};
ghost use Rattle.lft_rows.specs.{inner.Presence.{Causes.AreCauses, Traces.IsFitting}, Presence.Clashes.IsClash};

use crate::presence::causes::EventCause;
use crate::presence::causing::causes_of;
use crate::presence::clashes::clash_of;
use lft_ir::Program;
use lft_ir::steps::{Event, Row};
use lft_model::Plan;
use lft_tag::{NoMemory, Tag};
use std::alloc::Global;
use std::marker::Model;

/// The events of a trace of a plan, by what causes them. The rows may break any rule.
#[derive(Drop)]
pub struct Presence<'a> {
    plan: &'a Plan,
    rows: &'a [Row],
    stop: Tag,
    causes: Vec<EventCause>,
    clash: Option<Tag>,
}

impl<'a> Model for Presence<'a> {
    ghost use Rattle.lft_rows.specs.Presence.Traces.{TraceParts};

    ghost Value = { TraceParts };

    ghost view = { λ a. record { plan = a.plan.now; rows = a.rows.now } };

    ghost use Rattle.lft_rows.specs.inner.Presence.Kept.{IsKept};

    ghost invariant = { λ a. IsKept (record { plan = a.plan.now; rows = a.rows.now }) a.stop a.causes.items a.clash };
}

impl<'a> Presence<'a> {
    ghost use Rattle.lft_rows.specs.inner.Presence.Kept.{IsKept};

    /// The events of rows with what is kept beside them. It takes no memory.
    fn from_parts(
        plan: &'a Plan,
        rows: &'a [Row],
        stop: Tag,
        causes: Vec<EventCause>,
        clash: Option<Tag>,
    ) -> Presence<'a>
        requires { IsKept (record { plan = plan.now; rows = rows.now }) stop causes.items clash }
        ensures { result ≡ record { plan = plan.now; rows = rows.now } }
    {
        Presence {
            plan,
            rows,
            stop,
            causes,
            clash,
        }
    }

    /// The plan whose trace it is.
    pub fn plan(&self) -> &Plan
        ensures { result.now ≡ self.now.plan }
    {
        self.plan
    }

    /// The rows of the trace.
    pub fn rows(&self) -> &[Row]
        ensures { result.now ≡ self.now.rows }
    {
        self.rows
    }

    /// The flat program.
    pub fn program(&self) -> &Program
        ensures value { result.now ≡ self.now.plan.program }
        ensures fits { IsFitting self.now }
    {
        self.plan.program()
    }

    /// How many reactions the program has.
    pub fn reactions(&self) -> usize
        ensures count { result ≡ length self.now.plan.program.reactions }
        ensures few { result ≤ 10000 }
    {
        self.plan.program().reactions()
    }

    /// The events of the external inputs.
    pub(crate) fn events(&self) -> &[Event]
        ensures { result.now ≡ self.now.plan.externals.events }
    {
        self.plan.externals().events()
    }

    /// The causes of events, by name, tag and place.
    pub fn causes(&self) -> &[EventCause]
        ensures { AreCauses self.now.plan self.now.rows result.now }
    {
        self.causes.as_slice()
    }

    /// The last tag of the execution. Its time is at most that of a recorded tag.
    pub fn stop(&self) -> Tag
        ensures value { result ≡ the_stop self.now.plan self.now.rows }
        ensures limit { result.time ≤ 1000000000000000000 }
    {
        self.stop
    }

    /// The least tag up to the stop at which two causes give a port or an action an event.
    pub fn clash(&self) -> Option<Tag>
        ensures { IsClash self.now result }
    {
        self.clash
    }
}

/// The events of the rows. The stop is the one of the trace.
pub fn presence_of<'a>(
    alloc: Global,
    plan: &'a Plan,
    rows: &'a [Row],
    stop: Tag,
) -> Result<Presence<'a>, NoMemory>
    requires fit { RowsFit plan.now.program rows.now }
    requires stop { stop ≡ the_stop plan.now rows.now }
    ensures { IfOk result (λ presence. presence ≡ record { plan = plan.now; rows = rows.now }) }
{
    let causes = causes_of(alloc, plan, rows)?;
    let clash = clash_of(alloc, plan, rows, stop, causes.as_slice())?;
    // Asked for what every plan keeps: it is sound, which the causes are read with.
    plan.keeps();
    Ok(Presence::from_parts(plan, rows, stop, causes, clash))
}
