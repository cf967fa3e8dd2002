//! How far the rows of a trace are judged, a batch at a time.

ghost use Rattle.std.specs.Prelude.{◌++◌, ◌≤◌, List, [], length, IfOk, IfSome, IsTrue};
ghost use Rattle.lft_ir.specs.{Steps.Fits.RowsFit, declared.steps.row.Row.Row as TheRow};
ghost use Rattle.lft_model.specs.Accepted.{IsAccepted};
ghost use Rattle.lft_stream.specs.inner.Batches.Progresses.{IsGoneOn, IsJudgedTo, IsProgress};

use crate::batches::cut::cut_batch;
use crate::{Acceptor, RunCounts};
use lft_ir::steps::Row;
use lft_model::Plan;
use lft_tag::{MAX_ROWS, NoMemory};
use std::alloc::Global;
use std::mem;

/// How far the rows of a trace are judged.
#[derive(Drop)]
pub(crate) struct JudgedRows {
    acceptor: Acceptor,
    /// So many more rows a table may have.
    left: usize,
    /// The rows at the last tag. More may follow at it, and so they aren't judged yet.
    waiting: Vec<Row>,
}

impl JudgedRows {
    /// Before the first row.
    pub(crate) fn new(alloc: Global, plan: &Plan) -> Result<JudgedRows, NoMemory>
        ensures { IfOk result (IsProgress plan.now []) }
    {
        Ok(JudgedRows {
            acceptor: Acceptor::new(alloc, plan)?,
            left: MAX_ROWS,
            waiting: Vec::new(alloc),
        })
    }

    /// Judges the rows that come next, whole tags always. It is false where they may break a rule, or too
    /// much is to be looked at, or memory is refused, or a table may not have as many.
    fn judge(&mut self, alloc: Global, plan: &Plan, rows: &[Row]) -> bool
        requires fit { RowsFit plan.now.program rows.now }
        requires stands { (t : List TheRow) × IsJudgedTo plan.now t self.old }
        ensures { IsTrue result → (t : List TheRow) → IsJudgedTo plan.now t self.old → IsJudgedTo plan.now (t ++ rows.now) self.new }
    {
        if rows.is_empty() {
            return true;
        }
        if rows.len() > self.left || !self.acceptor.add(alloc, plan, rows) {
            return false;
        }
        self.left -= rows.len();
        true
    }

    /// Goes on past a batch of rows. Those at its last tag wait: they are judged with the next batch that has a
    /// later one. It is false where `judge` is.
    pub(crate) fn add(&mut self, alloc: Global, plan: &Plan, batch: &[Row]) -> bool
        requires fit { RowsFit plan.now.program batch.now }
        requires stands { (t : List TheRow) × IsProgress plan.now t self.old }
        ensures { IsTrue result → IsGoneOn plan.now self.old self.new batch.now }
    {
        let waiting = mem::replace(&mut self.waiting, Vec::new(alloc));
        let Some(cut) = cut_batch(alloc, waiting, batch) else {
            return false;
        };
        if !self.judge(alloc, plan, cut.first.as_slice()) || !self.judge(alloc, plan, cut.next) {
            return false;
        }
        self.waiting = cut.waiting;
        true
    }

    /// Judges the rows that wait, behind which no other comes. The counts, where nothing is owed up to the stop.
    pub(crate) fn finish(&mut self, alloc: Global, plan: &Plan) -> Option<RunCounts>
        requires { (t : List TheRow) × IsProgress plan.now t self.old }
        ensures { IfSome result (λ c. (t : List TheRow) → IsProgress plan.now t self.old → (length t ≤ 4000000) × IsAccepted plan.now t c.runs c.tags) }
    {
        let waiting = mem::replace(&mut self.waiting, Vec::new(alloc));
        if !self.judge(alloc, plan, waiting.as_slice()) {
            return None;
        }
        self.acceptor.finish(plan)
    }
}
