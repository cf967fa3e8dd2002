//! The stop after the steps of a run.

ghost use Rattle.std.specs.Prelude.{◌≡◌, ◌≤◌, ◌↔◌, ◌++◌, ℕ, List, IsTrue};
ghost use Rattle.lft_tag.specs.Tags.{IsRecorded};
ghost use Rattle.lft_ir.specs.declared.steps.row.Row.{Row as RowOf};
ghost use Rattle.lft_model.specs.{Plans.PlanParts, Presence.stop as the_stop, Recorded.committed_rows};
ghost use Rattle.lft_scheduler.specs.inner.Agendas.{AsksStop};

use lft_ir::steps::{Step, is_stop};
use lft_tag::Tag;

// Whether one of the steps requests a stop.
fn asks_stop(steps: &[Step]) -> bool
    ensures { IsTrue result ↔ AsksStop steps.now }
{
    for at in 0..steps.len() {
        if is_stop(&steps[at]) {
            return true;
        }
    }
    false
}

/// The stop of rows with this one, once a run at the tag has ended with the steps.
pub(crate) fn stop_with(stop: Tag, tag: Tag, steps: &[Step]) -> Tag
    requires { IsRecorded tag }
    ensures sooner { result.time ≤ stop.time }
    ensures stop { (plan : PlanParts) (t : List RowOf) (w : ℕ) (r : ℕ) → stop ≡ the_stop plan t → result ≡ the_stop plan (t ++ committed_rows w tag r steps.now) }
{
    if asks_stop(steps) {
        let asked = tag.after(0, 0);
        if asked.is_before(stop) {
            return asked;
        }
    }
    stop
}
