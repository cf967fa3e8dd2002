//! Where an event belongs among others.

ghost use Rattle.std.specs.Prelude.{◌≡◌, ◌↔◌, IsTrue, IfSome, IfNone};
ghost use Rattle.lft_ir.specs.{Steps.Inputs.{ComesBefore, InOrder, IsTold}, inner.Steps.Inputs.BelongsAt};

use crate::steps::externals::Event;

/// Where the event belongs, or None where one of its action at its tag is there. Most events are told
/// in their order, so it looks from the end.
pub(crate) fn place_of(events: &[Event], event: Event) -> Option<usize>
    requires { InOrder events.now }
    ensures some { IfSome result (BelongsAt events.now event) }
    ensures none { IfNone result (IsTold events.now event) }
{
    let mut place = events.len();
    while place > 0 {
        let last = events[place - 1];
        if comes_before(last, event) {
            return Some(place);
        }
        if !comes_before(event, last) {
            return None;
        }
        place -= 1;
    }
    Some(0)
}

/// By tag, then by action.
fn comes_before(event: Event, other: Event) -> bool
    ensures { IsTrue result ↔ ComesBefore event other }
{
    event.tag.is_before(other.tag) || (event.tag.is_same(other.tag) && event.action < other.action)
}
