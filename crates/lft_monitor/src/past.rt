//! What is kept of rows that are judged, and the first rule that is broken behind them.

ghost use Rattle.std.specs.Prelude.{◌≡◌, ◌-◌, ◌<◌, ◌≤◌, List, [], ◌++◌, length, Some, IfOk, IfSome, OnOk, IsTrue, slice_get};
ghost use Rattle.lft_tag.specs.Tags.{after};
ghost use Rattle.lft_ir.specs.{declared.steps.row.Row.Row as TheRow, Steps.Fits.RowsFit};
ghost use Rattle.lft_model.specs.{Presence.stop, Breaches.First};
ghost use Rattle.lft_stream.specs.inner.Owed.{MeetNowhere};
ghost use Rattle.lft_rows.specs.{inner.Slices.Rises, Answers.Answers.KeepsRows};
ghost use Rattle.lft_monitor.specs.{inner.Kept.IsPastOfRows, Sure.{AreRowsFrom, IsUnbroken, IsFirstBefore}, Follows.breach_of};

use crate::found::{BrokenRule, found_of};
use crate::gone::stop_over;
use crate::kept::{CarriedWrites, keep_rows};
use lft_check::first_from;
use lft_ir::steps::{Row, Rows, row_at};
use lft_model::{Breach, Plan};
use lft_tag::{MAX_ROWS, NoMemory, Tag};
use std::alloc::Global;

/// Kept rows are gone over anew once they are twice as many as were left the last time, and so many more.
const SLACK: usize = 1024;

/// No tag of a run is as late.
const NEVER: Tag = Tag {
    time: u64::MAX,
    micro: 0,
};

/// What is kept of rows that are judged.
#[derive(Drop)]
pub(crate) struct Past {
    /// What they ask for.
    pub(crate) stop: Tag,
    /// The first tag behind them.
    low: Tag,
    /// Those of runs that cause something from there on, or ask for the stop.
    kept: Vec<Row>,
    /// How many of these were left when they were last gone over.
    left: usize,
    /// How far writes are carried.
    ways: CarriedWrites,
}

/// Whether no row is before the tag.
fn are_from(rows: &[Row], low: Tag) -> bool
    ensures { IsTrue result → AreRowsFrom rows.now low }
{
    for place in 0..rows.len() {
        if row_at(rows, place).tag.is_before(low) {
            return false;
        }
    }
    true
}

impl Past {
    /// Before the first row.
    pub(crate) fn new(alloc: Global, plan: &Plan) -> Result<Past, NoMemory>
        ensures { IfOk result (IsPastOfRows plan.now []) }
    {
        Ok(Past {
            stop: plan.externals().stop(),
            low: Tag { time: 0, micro: 0 },
            kept: Vec::new(alloc),
            left: 0,
            ways: CarriedWrites::new(alloc, plan.program())?,
        })
    }

    /// Drops kept rows of runs that cause nothing from the low tag on, where many rows are kept. With
    /// `is_apart` no two writes of all rows meet from there on where no reaction reads.
    fn drop_some(&mut self, alloc: Global, plan: &Plan, is_apart: bool) -> Result<(), NoMemory>
        requires { (t : List TheRow) × IsPastOfRows plan.now t self.old }
        ensures { OnOk result ((t : List TheRow) → IsPastOfRows plan.now t self.old → (IsTrue is_apart → MeetNowhere (stop plan.now t) plan.now t self.old.low) → IsPastOfRows plan.now t self.new) }
    {
        let rows = self.kept.as_slice();
        if rows.len() / 2 <= self.left.saturating_add(SLACK) {
            return Ok(());
        }
        let kept = keep_rows(alloc, plan, &self.ways, rows, self.low, is_apart)?;
        self.left = kept.as_slice().len();
        self.kept = kept;
        Ok(())
    }

    /// Goes on past more rows, which break no rule. With `is_apart` no two writes of all rows meet behind them
    /// where no reaction reads.
    pub(crate) fn add(
        &mut self,
        alloc: Global,
        plan: &Plan,
        rows: &[Row],
        is_apart: bool,
    ) -> Result<(), NoMemory>
        requires fit { RowsFit plan.now.program rows.now }
        requires some { 0 < length rows.now }
        requires stands { (t : List TheRow) × IsPastOfRows plan.now t self.old × Rises (t ++ rows.now) × ((x : TheRow) → slice_get rows.now (length rows.now - 1) ≡ Some x → IsUnbroken plan.now (t ++ rows.now) (after x.tag 0)) × ((x : TheRow) → slice_get rows.now (length rows.now - 1) ≡ Some x → IsTrue is_apart → MeetNowhere (stop plan.now (t ++ rows.now)) plan.now (t ++ rows.now) (after x.tag 0)) }
        ensures { OnOk result ((t : List TheRow) → IsPastOfRows plan.now t self.old → Rises (t ++ rows.now) → ((x : TheRow) → slice_get rows.now (length rows.now - 1) ≡ Some x → IsUnbroken plan.now (t ++ rows.now) (after x.tag 0)) → ((x : TheRow) → slice_get rows.now (length rows.now - 1) ≡ Some x → IsTrue is_apart → MeetNowhere (stop plan.now (t ++ rows.now)) plan.now (t ++ rows.now) (after x.tag 0)) → IsPastOfRows plan.now (t ++ rows.now) self.new) }
    {
        let low = row_at(rows, rows.len() - 1).tag.after(0, 0);
        let more = keep_rows(alloc, plan, &self.ways, rows, low, is_apart)?;
        let Ok(()) = self.kept.extend_from_slice(more.as_slice()) else {
            return Err(NoMemory);
        };
        self.low = low;
        // Rows that ask for the stop are kept.
        self.stop = stop_over(self.stop, more.as_slice());
        self.drop_some(alloc, plan, is_apart)?;
        Ok(())
    }

    /// The rows that are kept, and these behind them. None where they are more than a table may have, or
    /// memory is refused.
    fn with_rows(&self, alloc: Global, rows: &[Row]) -> Option<Rows>
        requires { length rows.now ≤ 4000000 }
        ensures { IfSome result (λ all. (all ≡ self.now.kept.items ++ rows.now) × (length all ≤ 4000000)) }
    {
        let kept = self.kept.as_slice();
        if kept.len() > MAX_ROWS - rows.len() {
            return None;
        }
        let Ok(mut all) = Vec::from_slice(alloc, kept) else {
            return None;
        };
        let Ok(()) = all.extend_from_slice(rows) else {
            return None;
        };
        Some(Rows::from_vec(all))
    }

    /// The first breach of the rules 6 to 10 before the high tag, of these rows behind those that are
    /// judged. None where none is found: there is none, or there are too many rows, or memory is refused.
    pub(crate) fn first_breach(
        &self,
        alloc: Global,
        plan: &Plan,
        rows: &[Row],
        high: Tag,
    ) -> Option<Breach>
        requires fit { RowsFit plan.now.program rows.now }
        requires stands { (t : List TheRow) × IsPastOfRows plan.now t self.now }
        ensures { IfSome result (λ b. (t u : List TheRow) → IsPastOfRows plan.now t self.now → AreRowsFrom u high → IsFirstBefore plan.now ((t ++ rows.now) ++ u) high b) }
    {
        let all = self.with_rows(alloc, rows)?;
        if !are_from(rows, self.low) {
            return None;
        }
        match first_from(alloc, plan, &all, self.low) {
            Ok(Some(breach)) => {
                if breach.tag.is_before(high) {
                    Some(breach)
                } else {
                    None
                }
            }
            Ok(None) => None,
            Err(_) => None,
        }
    }

    /// The first breach, of the rules 6 to 10, of these rows behind those that are judged, where no more
    /// come and none of them breaks one of the rules 1 to 5. None where none is found.
    pub(crate) fn first_of_all(
        &self,
        alloc: Global,
        plan: &Plan,
        rows: &[Row],
    ) -> Option<BrokenRule>
        requires fit { RowsFit plan.now.program rows.now }
        requires stands { (t : List TheRow) × IsPastOfRows plan.now t self.now }
        ensures { IfSome result (λ b. (t : List TheRow) → IsPastOfRows plan.now t self.now → KeepsRows plan.now (t ++ rows.now) → First plan.now (t ++ rows.now) (breach_of b)) }
    {
        let breach = self.first_breach(alloc, plan, rows, NEVER)?;
        Some(found_of(breach))
    }
}
