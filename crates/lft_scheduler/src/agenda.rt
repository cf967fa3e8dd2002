//! What is kept beside the rows of a recording.

ghost use Rattle.std.specs.Prelude.{◌≡◌, ◌<◌, ◌↔◌, ◌++◌, ℕ, List, [], length, slice_get, Some, IsTrue, IfOk, OnOk, OnErr};
ghost use Rattle.lft_tag.specs.Tags.{IsRecorded};
ghost use Rattle.lft_model.specs.{Plans.{PlanParts, IsSoundPlan}, Presence.Inputs, Recorded.{SoFar, OnlyEndedAnswer, begun_rows}};
ghost use Rattle.lft_ir.specs.{declared.steps.row.{Row.Row as RowOf, Step.Step as StepOf}, Steps.Fits.StepFits};
ghost use Rattle.lft_scheduler.specs.Starts.{IsBusy, MayStart};
ghost use Rattle.lft_scheduler.specs.inner.{Agendas.{IsAgenda, IsOf, MayFind, Finds, MayBegin, MayEnd, EndsWith}, OpenRuns.HasReads};

use crate::advancing::advance;
use crate::events::{feed, first_events, read_inputs};
use crate::firings::Firings;
use crate::found::NextRun;
use crate::listeners::{Arrivals, Listeners};
use crate::open::{OpenRun, has_reads, is_busy, take_out};
use crate::stopping::stop_with;
use crate::telling::tell;
use crate::turn::Turn;
use crate::turning::{finish, start};
use crate::writing::tell_writes;
use lft_ir::Value;
use lft_ir::steps::Step;
use lft_model::{Plan, Reads};
use lft_queue::Queue;
use lft_tag::{NoMemory, Tag};
use std::alloc::Global;
use std::marker::Model;

/// What is kept beside the rows of a recording: its open runs, the events that are to happen, how
/// far each reaction is at the tag that is run, and the stop. While something is left to run, that
/// tag is the least at which a reaction is pending: `new` and `end` go on to it, so that `find`
/// has nothing to look for.
// A search over all rows at each `begin` would cost by the rows so far. So contracts speak of all rows that an
// agenda is of, and it keeps none of them.
#[derive(Drop)]
pub struct Agenda {
    alloc: Global,
    listeners: Listeners,
    arrivals: Arrivals,
    runs: Vec<OpenRun>,
    queue: Queue,
    firings: Firings,
    turn: Turn,
    from: Tag,
    stop: Tag,
}

impl Model for Agenda {
    ghost use Rattle.lft_scheduler.specs.inner.Agendas.{AgendaParts};

    ghost Value = { AgendaParts };

    ghost view = { λ a. record { runs = a.runs.items; queue = a.queue; firings = a.firings; turn = a.turn; from = a.from; stop = a.stop; listeners = a.listeners; arrivals = a.arrivals } };
}

impl Agenda {
    /// The agenda of no rows.
    pub fn new(alloc: Global, plan: &Plan) -> Result<Agenda, NoMemory>
        ensures { IfOk result (IsAgenda plan.now []) }
    {
        let program = plan.program();
        let listeners = Listeners::new(alloc, program)?;
        let arrivals = Arrivals::new(alloc, program)?;
        let mut queue = first_events(alloc, plan)?;
        let mut firings = Firings::new(alloc, &listeners, program)?;
        let mut turn = Turn::new(alloc, program, plan.graph())?;
        let stop = plan.externals().stop();
        let first = Tag { time: 0, micro: 0 };
        tell(
            &mut turn,
            &mut firings,
            &listeners,
            plan,
            &queue,
            first,
            stop,
        );
        let from = advance(
            &mut turn,
            &mut queue,
            &mut firings,
            &listeners,
            plan,
            first,
            stop,
        );
        Ok(Agenda {
            alloc,
            listeners,
            arrivals,
            runs: Vec::new(alloc),
            queue,
            firings,
            turn,
            from,
            stop,
        })
    }

    /// What may start next. It takes no memory, and looks at no row and at no event.
    pub fn find(&self) -> NextRun
        ensures { (plan : PlanParts) (t : List RowOf) → MayFind plan t → IsAgenda plan t self.now → Finds plan t result }
    {
        if let Some(reaction) = self.turn.first() {
            return NextRun::Ready(self.from, reaction);
        }
        if self.runs.is_empty() {
            return NextRun::Nothing;
        }
        NextRun::Blocked
    }

    /// Whether the worker has an open run.
    pub fn is_busy(&self, worker: u32) -> bool
        ensures { (plan : PlanParts) (t : List RowOf) → IsAgenda plan t self.now → IsTrue result ↔ IsBusy t worker }
    {
        is_busy(self.runs.as_slice(), worker)
    }

    /// Whether the run of the reaction at the tag by the worker is open and read this.
    pub fn has_reads(&self, worker: u32, tag: Tag, reaction: u32, reads: &[Option<Value>]) -> bool
        ensures { (plan : PlanParts) (t : List RowOf) → IsAgenda plan t self.now → IsTrue result ↔ HasReads plan t worker tag reaction reads.now }
    {
        has_reads(self.runs.as_slice(), worker, tag, reaction, reads)
    }

    /// What a reaction that may start reads.
    pub fn inputs(&self, plan: &Plan, tag: Tag, reaction: u32) -> Result<Reads, NoMemory>
        requires { reaction < length plan.now.program.reactions }
        ensures { (t : List RowOf) → IsAgenda plan.now t self.now → SoFar plan.now t → OnlyEndedAnswer t → MayStart plan.now t tag reaction → IfOk result (Inputs plan.now t tag reaction) }
    {
        // Asked for what every plan keeps: it is sound, so that what may start is up to the stop.
        plan.keeps();
        read_inputs(self.alloc, &self.queue, plan, tag, reaction)
    }

    /// The run of the reaction at the tag is begun by the worker, with these reads. Where memory
    /// is refused nothing changes.
    pub fn begin(
        &mut self,
        worker: u32,
        tag: Tag,
        reaction: u32,
        reads: &Reads,
    ) -> Result<(), NoMemory>
        ensures ok { (plan : PlanParts) (t : List RowOf) → IsSoundPlan plan → IsAgenda plan t self.old → MayBegin plan t worker tag reaction reads.now → OnOk result (IsAgenda plan (t ++ begun_rows plan worker tag reaction reads.now) self.new) }
        ensures err { OnErr result (self.new ≡ self.old) }
    {
        let Ok(items) = Vec::from_slice(self.alloc, reads.as_slice()) else {
            return Err(NoMemory);
        };
        let reads = Reads::from_vec(items);
        let run = OpenRun {
            worker,
            tag,
            reaction,
            reads,
        };
        let Ok(()) = self.runs.push(run) else {
            return Err(NoMemory);
        };
        start(&mut self.turn, reaction);
        Ok(())
    }

    /// The run of the reaction at the tag is ended by the worker, with these steps. Gives the
    /// least tag up to the stop at which two causes then give one port or action an event. With such a
    /// tag, and where memory is refused, it is the agenda of no rows any more.
    pub fn end(
        &mut self,
        plan: &Plan,
        worker: u32,
        tag: Tag,
        reaction: u32,
        steps: &[Step],
    ) -> Result<Option<Tag>, NoMemory>
        requires of { IsOf plan.now.program self.old }
        requires recorded { IsRecorded tag }
        requires fit { (k : ℕ) (s : StepOf) → slice_get steps.now k ≡ Some s → StepFits plan.now.program s }
        ensures { (t : List RowOf) → IsAgenda plan.now t self.old → MayEnd plan.now t worker tag reaction steps.now → IfOk result (EndsWith plan.now t worker tag reaction steps.now self.new) }
    {
        // Asked for what every plan keeps: it is sound.
        plan.keeps();
        let stop = stop_with(self.stop, tag, steps);
        let clash = feed(&mut self.queue, plan, &self.arrivals, stop, tag, steps)?;
        take_out(&mut self.runs, worker, tag, reaction);
        // Those that its writes trigger are told before it is idle: they aren't ready in between.
        tell_writes(
            &mut self.turn,
            &self.listeners,
            &self.arrivals,
            plan,
            tag,
            steps,
        );
        finish(&mut self.turn, reaction);
        self.stop = stop;
        if self.runs.is_empty() {
            self.from = advance(
                &mut self.turn,
                &mut self.queue,
                &mut self.firings,
                &self.listeners,
                plan,
                self.from,
                stop,
            );
        }
        Ok(clash)
    }
}
