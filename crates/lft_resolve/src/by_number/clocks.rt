//! Times as numbers of nanoseconds, or as places of parameters.

ghost use Rattle.std.specs.Prelude.{◌≡◌, map, option_map, option_to_list, Any};
ghost use Rattle.lft_tree.specs.{Tree.{ReactorTree, nanoseconds}, View.time_view};
ghost use Rattle.lft_resolve.specs.inner.{Lacking.LacksPlace, Places.{IsIndexOf, place_in}, Sheets.{IsClock, IsClockOrZero, kept}};

use crate::expansion::Clock;
use crate::index::Index;
use crate::times::nanoseconds;
use lft_tag::MAX_TIME;
use lft_tree::{Time, TimeExpression};

/// A written time in nanoseconds; each past the greatest is kept as one nanosecond more than that.
pub(crate) fn kept(time: Time) -> u64
    ensures { result ≡ kept (nanoseconds time) }
{
    match nanoseconds(time) {
        Some(all) => all,
        // It is refused later: limits and cycles are answered before it.
        None => MAX_TIME + 1,
    }
}

/// The clock that a time is, where the parameters of the reactor have these places.
pub(crate) fn clock(parameters: &Index, time: &TimeExpression) -> Clock
    requires { LacksPlace (place_in parameters.now) (time_view time.now) → ⊥ }
    ensures { (r : ReactorTree) → IsIndexOf parameters.now (map (λ p. p.name) r.parameters) → IsClock r (time_view time.now) result }
{
    match time {
        TimeExpression::Written { time: written, .. } => Clock::Fixed(kept(*written)),
        TimeExpression::Parameter { name, .. } => match parameters.get(name.as_str()) {
            Some(place) => Clock::Parameter(place),
            None => unreachable!(),
        },
    }
}

/// The clock that a time is, 0 where none stands.
pub(crate) fn clock_or_zero(parameters: &Index, time: &Option<TimeExpression>) -> Clock
    requires { Any (LacksPlace (place_in parameters.now)) (option_to_list (option_map time_view time.now)) → ⊥ }
    ensures { (r : ReactorTree) → IsIndexOf parameters.now (map (λ p. p.name) r.parameters) → IsClockOrZero r (option_map time_view time.now) result }
{
    match time {
        Some(time) => clock(parameters, time),
        None => Clock::Fixed(0),
    }
}
