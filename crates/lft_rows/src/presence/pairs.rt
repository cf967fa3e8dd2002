//! Pairs of causes that lead to one tag. Causes stand in order, so the first pair of a name stands
//! side by side.

ghost use Rattle.std.specs.Prelude.{IsTrue, ◌↔◌};
ghost use Rattle.lft_rows.specs.inner.Presence.{Causes.{AreAscending, AreNear}, Clashes.{IsPair, IsFirstPair}};

use crate::presence::causes::{EventCause, position};
use lft_lists::item_at;
use lft_tag::{Shift, Tag};

/// Whether the two are causes of the name that lead to one tag: of a port two tags of one time, of
/// an action two places of one tag.
fn is_pair(x: EventCause, y: EventCause, name: u32, ports: bool) -> bool
    ensures { IsTrue result ↔ IsPair ports name x y }
{
    if x.name != name || y.name != name || x.time != y.time {
        false
    } else if ports {
        x.micro != y.micro
    } else {
        x.micro == y.micro && x.place != y.place
    }
}

/// The later cause of the first pair of causes of the name that lead to one tag. A port's causes
/// are asked about their times alone, since a shift with a time leads all tags of one time to one.
pub(crate) fn first_pair(causes: &[EventCause], name: u32, ports: bool) -> Option<EventCause>
    requires ascending { AreAscending causes.now }
    requires near { AreNear causes.now }
    ensures { IsFirstPair causes.now ports name result }
{
    let first = Tag { time: 0, micro: 0 };
    let mut place = position(causes, name, Shift::none(), first, false);
    while place + 1 < causes.len() {
        let next = item_at(causes, place + 1);
        if next.name != name {
            return None;
        }
        if is_pair(item_at(causes, place), next, name, ports) {
            return Some(next);
        }
        place += 1;
    }
    None
}
