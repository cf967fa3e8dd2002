//! The events that rows cause at later tags.

ghost use Rattle.std.specs.Prelude.{◌≡◌, ◌++◌, [], ◌∷◌, List, IsTrue};
ghost use Rattle.lft_tag.specs.{declared.Tag.Tag as TheTag, Tags.{Before, UpTo, after}};
ghost use Rattle.lft_ir.specs.{declared.{parts.Name.Name as TheName, steps.externals.Event.Event as TheEvent}, Steps.Fits.{RowFits, RowsFit}};
ghost use Rattle.lft_queue.specs.inner.Coming.{Channels.{AreReadChannels, caused_by}, AtOnce.IsAwaited, Coming.{to_come, scheduled_by, IsClear, IsNoLater}};
ghost use Rattle.lft_queue.specs.inner.Coming.{Lanes.held, Writes.{AreWrites, AreEarlierWrites}};
ghost use Rattle.lft_queue.specs.Coming.AtTag.{AreAt};

use crate::coming::channels::{Channels, carry_all};
use crate::coming::coming::Coming;
use crate::coming::writes::Writes;
use lft_ir::Name;
use lft_ir::steps::{Row, Step, row_at};
use lft_model::Plan;
use lft_tag::Tag;

/// Puts the event in that the row schedules up to the stop, if it schedules one. It is false where memory
/// is refused.
fn schedule(coming: &mut Coming, plan: &Plan, row: Row, last: Tag) -> bool
    requires { RowFits plan.now.program row }
    ensures next { coming.new.next ≡ coming.old.next }
    ensures no_later { IsNoLater coming.old.clash coming.new.clash }
    ensures put { IsTrue result → (events : List TheEvent) (h : TheTag) (n : TheName) → UpTo h last → IsClear coming.new.clash h → to_come events coming.new h n ≡ to_come events coming.old h n ++ held (scheduled_by plan.now (row ∷ []) n) h }
{
    match row.step {
        Step::Schedule(Name::Action(number), value, delay) => {
            let min_delay = plan.program().action(number).min_delay;
            let tag = row.tag.after(min_delay, delay);
            coming.put_until(last, tag, Name::Action(number), value)
        }
        // Such a row breaks rule 4, and what it asks for causes nothing.
        Step::Schedule(Name::Port(_), _, _) => true,
        Step::Start => true,
        Step::Read(_, _) => true,
        Step::Write(_, _) => true,
        Step::Stop => true,
        Step::End => true,
    }
}

/// Puts the events in that the rows schedule up to the stop. It is false where memory is refused.
fn schedule_all(coming: &mut Coming, plan: &Plan, rows: &[Row], last: Tag) -> bool
    requires { RowsFit plan.now.program rows.now }
    ensures next { coming.new.next ≡ coming.old.next }
    ensures no_later { IsNoLater coming.old.clash coming.new.clash }
    ensures put { IsTrue result → (events : List TheEvent) (h : TheTag) (n : TheName) → UpTo h last → IsClear coming.new.clash h → to_come events coming.new h n ≡ to_come events coming.old h n ++ held (scheduled_by plan.now rows.now n) h }
{
    for place in 0..rows.len() {
        if !schedule(coming, plan, row_at(rows, place), last) {
            return false;
        }
    }
    true
}

/// Puts in what the rows, which are all at the tag, cause later and up to the stop: the events that they
/// schedule, and what their last writes carry to the ports behind delays that some reaction reads. Where two
/// events meet, their tag is noted: what comes before it is right still. It is false where memory is refused.
pub fn pass_on(
    coming: &mut Coming,
    writes: &mut Writes,
    channels: &Channels,
    plan: &Plan,
    rows: &[Row],
    tag: Tag,
    last: Tag,
) -> bool
    requires fit { RowsFit plan.now.program rows.now }
    requires at { AreAt rows.now tag }
    requires channels { AreReadChannels plan.now.program channels.now }
    requires writes { AreWrites plan.now.program rows.now tag writes.old }
    ensures next { coming.new.next ≡ coming.old.next }
    ensures no_later { IsNoLater coming.old.clash coming.new.clash }
    ensures earlier { IsTrue result → AreEarlierWrites plan.now.program (after tag 0) writes.new }
    ensures caused { IsTrue result → (events : List TheEvent) (h : TheTag) (n : TheName) → IsAwaited plan.now.program n → Before tag h → UpTo h last → IsClear coming.new.clash h → to_come events coming.new h n ≡ to_come events coming.old h n ++ held (caused_by plan.now rows.now tag n) h }
{
    schedule_all(coming, plan, rows, last)
        && carry_all(coming, writes, channels, plan.program(), rows, tag, last)
}
