//! The runs that have started and haven't ended.

ghost use Rattle.std.specs.Prelude.{◌≡◌, ◌↔◌, ◌<◌, List, filter, not, IsTrue};
ghost use Rattle.lft_model.specs.Plans.{PlanParts};
ghost use Rattle.lft_ir.specs.declared.steps.row.Row.{Row};
ghost use Rattle.lft_scheduler.specs.{Starts.IsBusy, inner.OpenRuns.{AreOpen, HasReads, is_run}};

use crate::same::same_reads;
use lft_ir::Value;
use lft_model::Reads;
use lft_tag::Tag;

/// A run that has started and hasn't ended, and what it read.
#[derive(Drop)]
pub struct OpenRun {
    pub worker: u32,
    pub tag: Tag,
    pub reaction: u32,
    pub reads: Reads,
}

// Whether the run is that of the reaction at the tag by the worker.
fn is_of(run: &OpenRun, worker: u32, tag: Tag, reaction: u32) -> bool
    ensures { result ≡ is_run worker tag reaction run.now }
{
    worker == run.worker && tag.is_same(run.tag) && reaction == run.reaction
}

/// Whether a run is the worker's.
pub(crate) fn is_busy(runs: &[OpenRun], worker: u32) -> bool
    ensures { (plan : PlanParts) (t : List Row) → AreOpen plan t runs.now → IsTrue result ↔ IsBusy t worker }
{
    for at in 0..runs.len() {
        if runs[at].worker == worker {
            return true;
        }
    }
    false
}

/// Whether the run of the reaction at the tag by the worker is open and read this.
pub(crate) fn has_reads(
    runs: &[OpenRun],
    worker: u32,
    tag: Tag,
    reaction: u32,
    reads: &[Option<Value>],
) -> bool
    ensures { (plan : PlanParts) (t : List Row) → AreOpen plan t runs.now → IsTrue result ↔ HasReads plan t worker tag reaction reads.now }
{
    for at in 0..runs.len() {
        let run = &runs[at];
        if is_of(run, worker, tag, reaction) {
            return same_reads(run.reads.as_slice(), reads);
        }
    }
    false
}

/// Takes the run of the reaction at the tag by the worker out.
pub(crate) fn take_out(runs: &mut Vec<OpenRun>, worker: u32, tag: Tag, reaction: u32)
    ensures { runs.new.items ≡ filter (λ o. not (is_run worker tag reaction o)) runs.old.items }
{
    runs.retain(|run| !is_of(run, worker, tag, reaction));
}
