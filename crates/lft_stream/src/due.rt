//! When a trigger that waits for no event is present next.

ghost use Rattle.std.specs.Prelude.{◌≡◌, ◌↔◌, ℕ, List, [], IfSome, IsTrue};
ghost use Rattle.lft_tag.specs.declared.Tag.{Tag as TheTag};
ghost use Rattle.lft_ir.specs.{Sound.IsTriggerOf, declared.{parts.Trigger.Trigger as TheTrigger, steps.row.Row.Row as TheRow}};
ghost use Rattle.lft_model.specs.{Plans.PlanParts, Presence.stop, Runs.Ran};
ghost use Rattle.lft_stream.specs.inner.Dues.{IsDue, IsDueAt, IsOwed, IsDueBefore};

use lft_ir::Trigger;
use lft_model::Plan;
use lft_tag::Tag;

/// When a trigger is present next, of the tags at which its reaction has no run so far.
// The period stands here, so that a run looks up neither its triggers nor their timers.
#[derive(Clone, Copy, PartialEq, Eq, Default, Drop)]
pub(crate) enum Due {
    /// At this tag, and again after each such period; once where that is 0.
    AtTag(Tag, u64),
    /// At the stop, which a later row may bring nearer.
    AtStop,
    /// At none; or an event is waited for.
    #[default]
    Never,
}

/// The tag of this time, at microstep 0.
fn at_time(time: u64) -> Tag
    ensures { result ≡ record { time = time; micro = 0 } }
{
    Tag { time, micro: 0 }
}

impl Due {
    /// When a trigger is due before the first row.
    pub(crate) fn first(plan: &Plan, trigger: Trigger) -> Due
        requires { IsTriggerOf plan.now.program trigger }
        ensures { (r : ℕ) → IsDue plan.now [] r trigger result }
    {
        match trigger {
            Trigger::Startup => Due::AtTag(at_time(0), 0),
            Trigger::Shutdown => Due::AtStop,
            Trigger::Timer(number) => {
                let timer = plan.program().timer(number);
                Due::AtTag(at_time(timer.offset), timer.period)
            }
            Trigger::On(_) => Due::Never,
        }
    }

    /// A time before which this isn't, but at the stop.
    pub(crate) fn time(self) -> u64 {
        match self {
            Due::AtTag(next, _) => next.time,
            _ => u64::MAX,
        }
    }

    /// Whether this is at the tag, where the stop is the last.
    pub(crate) fn is_at(self, tag: Tag, last: Tag) -> bool
        ensures { IsTrue result ↔ IsDueAt last tag self }
    {
        match self {
            Due::AtTag(next, _) => next.is_same(tag),
            Due::AtStop => tag.is_same(last),
            Due::Never => false,
        }
    }

    /// Whether this is up to the stop.
    pub(crate) fn is_owed(self, last: Tag) -> bool
        ensures { IsTrue result ↔ IsOwed last self }
    {
        match self {
            Due::AtTag(next, _) => !last.is_before(next),
            Due::AtStop => true,
            Due::Never => false,
        }
    }

    /// Whether this is before the tag, where the stop is the last.
    pub(crate) fn is_before(self, low: Tag, last: Tag) -> bool
        ensures { IsTrue result ↔ IsDueBefore last low self }
    {
        match self {
            Due::AtTag(next, _) => next.is_before(low),
            Due::AtStop => last.is_before(low),
            Due::Never => false,
        }
    }

    /// When the trigger is due next, where its reaction has a run now. None where that is at no tag
    /// that 64 bits hold.
    pub(crate) fn next(self) -> Option<Due>
        ensures { IfSome result (λ due. (plan : PlanParts) (t : List TheRow) (g : TheTag) (r : ℕ) (x : TheTrigger) → IsDue plan t r x self → IsDueAt (stop plan t) g self → Ran t g r → IsDue plan t r x due) }
    {
        match self {
            Due::AtTag(tag, period) if period > 0 => {
                let time = tag.time.checked_add(period)?;
                Some(Due::AtTag(at_time(time), period))
            }
            // The startup, the stop and a timer without a period come once.
            _ => Some(Due::Never),
        }
    }
}
