//! Whether each reaction that a written port triggers has a run.

ghost use Rattle.std.specs.Prelude.{◌≡◌, ℕ, List, length, IsSome, IsTrue, Contains};
ghost use Rattle.lft_ir.specs.{declared.{steps.row.Row.Row as TheRow, parts.Name.Name as TheName}, Steps.Fits.RowsFit};
ghost use Rattle.lft_model.specs.Runs.{Ran};
ghost use Rattle.lft_queue.specs.{inner.Coming.{AtOnce.AreHeard, Listeners.{AreNameListeners, AreStarted}}, Pending.value_of};
ghost use Rattle.lft_stream.specs.inner.StartTags.{AreStartTags};

use crate::start_tags::StartTags;
use lft_ir::Program;
use lft_ir::steps::{Row, row_at};
use lft_lists::item_at;
use lft_model::Plan;
use lft_queue::coming::{Coming, NameListeners, written_port};
use lft_tag::Tag;

/// Whether each of the reactions started last at the tag.
fn have_started(program: &Program, starts: &StartTags, reactions: &[u32], tag: Tag) -> bool
    requires { length starts.now ≡ length program.now.reactions }
    ensures { IsTrue result → (whole : List TheRow) → AreStartTags program.now whole starts.now → (r : ℕ) → Contains reactions.now r → Ran whole tag r }
{
    for place in 0..reactions.len() {
        if !starts.is_at(program, item_at(reactions, place), tag) {
            return false;
        }
    }
    true
}

/// Whether each reaction that one of the rows triggers at once, all at the tag, has a run there.
fn are_heard(
    plan: &Plan,
    listeners: &NameListeners,
    starts: &StartTags,
    own: &[Row],
    tag: Tag,
) -> bool
    requires fit { RowsFit plan.now.program own.now }
    requires listeners { AreNameListeners plan.now listeners.now }
    requires long { length starts.now ≡ length plan.now.program.reactions }
    ensures { IsTrue result → (whole : List TheRow) → AreStartTags plan.now.program whole starts.now → AreHeard plan.now whole own.now tag }
{
    let program = plan.program();
    for place in 0..own.len() {
        let row = row_at(own, place);
        if let Some((port, _)) = written_port(&row.step) {
            if !have_started(program, starts, listeners.of(port), tag) {
                return false;
            }
        }
    }
    true
}

/// Whether each reaction in the list of a name with an event at the tag in the queue has a run there.
fn are_met(
    program: &Program,
    coming: &Coming,
    listeners: &NameListeners,
    starts: &StartTags,
    tag: Tag,
) -> bool
    requires { length starts.now ≡ length program.now.reactions }
    ensures { IsTrue result → (whole : List TheRow) → AreStartTags program.now whole starts.now → (n : TheName) → IsSome (value_of tag n coming.now.queue) → AreStarted whole tag listeners.now n }
{
    // Many programs never have an event on its way.
    if coming.is_empty() {
        return true;
    }
    for name in coming.names_at(tag) {
        if let Some(list) = listeners.get(name) {
            if !have_started(program, starts, list, tag) {
                return false;
            }
        }
    }
    true
}

/// Whether each reaction has a run at the tag that one of the rows there triggers at once, or an event of
/// the queue.
pub(crate) fn is_all_heard(
    plan: &Plan,
    coming: &Coming,
    listeners: &NameListeners,
    starts: &StartTags,
    own: &[Row],
    tag: Tag,
) -> bool
    requires fit { RowsFit plan.now.program own.now }
    requires listeners { AreNameListeners plan.now listeners.now }
    requires long { length starts.now ≡ length plan.now.program.reactions }
    ensures heard { IsTrue result → (whole : List TheRow) → AreStartTags plan.now.program whole starts.now → AreHeard plan.now whole own.now tag }
    ensures met { IsTrue result → (whole : List TheRow) → AreStartTags plan.now.program whole starts.now → (n : TheName) → IsSome (value_of tag n coming.now.queue) → AreStarted whole tag listeners.now n }
{
    are_heard(plan, listeners, starts, own, tag)
        && are_met(plan.program(), coming, listeners, starts, tag)
}
