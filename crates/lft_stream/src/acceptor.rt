//! Rows that are gone over part by part.

ghost use Rattle.std.specs.Prelude.{◌≡◌, List, [], ◌++◌, IsTrue, IfOk, IfSome};
ghost use Rattle.lft_ir.specs.{declared.steps.row.Row.Row as TheRow, Steps.Fits.RowsFit};
ghost use Rattle.lft_model.specs.{Accepted.IsAccepted, Plans.PlanParts, Presence.stop};
ghost use Rattle.lft_stream.specs.inner.{Dues.NoneDueBefore, Owed.MeetNowhere, Kept.{IsAcceptorOf, KeepRules, stopped_stream}};
ghost use Rattle.lft_tag.specs.declared.Tag.{Tag as TheTag};
ghost use Rattle.lft_queue.specs.Coming.AtTag.{AreBefore};

use crate::effort::Effort;
use crate::order::Precedence;
use crate::stream::{RunCounts, Stream};
use lft_ir::steps::Row;
use lft_model::Plan;
use lft_rows::{Marks, Pass};
use lft_tag::{NoMemory, Tag};
use std::alloc::Global;

/// What is kept of rows at finished tags, and what they are looked up in.
// Whoever makes the latter looks at the whole program. So they are made once, and a part of the rows
// may be short enough to stay near the processor.
#[derive(Drop)]
pub struct Acceptor {
    stream: Stream,
    pass: Pass,
    marks: Marks,
    order: Precedence,
}

impl Acceptor {
    /// Before the first row, where so much may be looked at.
    fn with_effort(alloc: Global, plan: &Plan, effort: Effort) -> Result<Acceptor, NoMemory>
        ensures { IfOk result (IsAcceptorOf plan.now []) }
    {
        let program = plan.program();
        // The largest is made last: no way out has to drop it.
        Ok(Acceptor {
            pass: Pass::new(alloc, program)?,
            marks: Marks::new(alloc, program)?,
            order: Precedence::new(alloc),
            stream: Stream::new(alloc, plan, effort)?,
        })
    }

    /// Before the first row. Where much is to be looked at, rows are given up soon: another judge stands
    /// behind, which is faster then.
    pub fn new(alloc: Global, plan: &Plan) -> Result<Acceptor, NoMemory>
        ensures { IfOk result (IsAcceptorOf plan.now []) }
    {
        Acceptor::with_effort(alloc, plan, Effort::shared())
    }

    /// Before the first row, where no other judge stands behind. However much is to be looked at, no rows are
    /// given up for it.
    pub fn alone(alloc: Global, plan: &Plan) -> Result<Acceptor, NoMemory>
        ensures { IfOk result (IsAcceptorOf plan.now []) }
    {
        Acceptor::with_effort(alloc, plan, Effort::alone())
    }

    /// Goes on past more rows, of whole tags. It is false where they may break a rule, or too much is
    /// to be looked at, or memory is refused.
    pub fn add(&mut self, alloc: Global, plan: &Plan, rows: &[Row]) -> bool
        requires fit { RowsFit plan.now.program rows.now }
        requires stands { (done : List TheRow) × IsAcceptorOf plan.now done self.old }
        ensures { IsTrue result → (done : List TheRow) → IsAcceptorOf plan.now done self.old → IsAcceptorOf plan.now (done ++ rows.now) self.new }
    {
        let stop = self.stream.stop;
        // Marks are places among the rows of one part, and say nothing of those of the next.
        self.marks.clear();
        match self.pass.first_breach(alloc, plan, stop, rows) {
            Ok(None) => self
                .stream
                .add_kept(plan, &mut self.order, &mut self.marks, rows),
            // Of what isn't accepted nothing is said, so the breach is dropped.
            Ok(Some(_)) => false,
            Err(_) => false,
        }
    }

    /// The same of rows that are known to break none of the rules 1 to 5.
    pub fn add_kept(&mut self, plan: &Plan, rows: &[Row]) -> bool
        requires fit { RowsFit plan.now.program rows.now }
        requires kept { KeepRules plan.now rows.now }
        requires stands { (done : List TheRow) × IsAcceptorOf plan.now done self.old }
        ensures { IsTrue result → (done : List TheRow) → IsAcceptorOf plan.now done self.old → IsAcceptorOf plan.now (done ++ rows.now) self.new }
    {
        Marks::clear(&mut self.marks);
        self.stream
            .add_kept(plan, &mut self.order, &mut self.marks, rows)
    }

    /// Whether nothing is due before the tag. A timer or the startup may be due at a tag that is finished:
    /// that is found by this call, when the reaction runs next, or at the end.
    pub fn is_timely(&self, low: Tag) -> bool
        ensures { IsTrue result → NoneDueBefore self.now.stream.stop low self.now.stream.dues }
    {
        self.stream.is_timely(low)
    }

    /// Whether no two events are known to meet. Then no two writes meet at a port that no reaction reads.
    pub fn is_apart(&self) -> bool
        ensures { IsTrue result → (plan : PlanParts) (t : List TheRow) (low : TheTag) → IsAcceptorOf plan t self.now → AreBefore t low → MeetNowhere (stop plan t) plan t low }
    {
        self.stream.is_apart()
    }

    /// Makes the tag the stop, where it is earlier. All else stays.
    pub fn stop_at(&mut self, stop: Tag)
        ensures { self.new ≡ record self.old { stream = stopped_stream self.old.stream stop } }
    {
        self.stream.stop_at(stop);
    }

    /// The counts, where nothing is owed up to the stop.
    pub fn finish(&mut self, plan: &Plan) -> Option<RunCounts>
        ensures { IfSome result (λ c. (t : List TheRow) → IsAcceptorOf plan.now t self.old → IsAccepted plan.now t c.runs c.tags) }
    {
        self.stream.finish(plan)
    }
}
