//! The causes of events in one list, which is searched by name and tag.

ghost use Rattle.std.specs.Prelude.{◌≡◌, Some, IsTrue, ◌↔◌, slice_get};
ghost use Rattle.lft_tag.specs.Shifts.{shifted};
ghost use Rattle.lft_rows.specs.declared.presence.causes.EventCause.{EventCause as TheCause};
ghost use Rattle.lft_rows.specs.inner.Presence.Causes.{IsNear, AreNear, AreAscending, LiesBelow, IsPosition, IsSkip, Leads, tag_of};

use lft_lists::item_at;
use lft_tag::{Shift, Tag};

/// A row that writes a port or schedules an action, or an external event of an action, as the cause
/// of an event. Causes are ordered by their fields as these stand.
// 24 bytes each: a cause tells where its value stands and not the value.
#[derive(Clone, Copy, PartialEq, Eq, PartialOrd, Ord, Drop)]
pub struct EventCause {
    /// The number of the port; for an action, the number of all ports and its own number.
    pub name: u32,
    /// The tag at which the port is written, or at which the action has its event.
    pub time: u64,
    pub micro: u32,
    /// The place of the row; for an external event, the number of all rows and its own place.
    pub place: u32,
}

/// The tag at which the cause stands.
pub fn cause_tag(cause: EventCause) -> Tag
    ensures { result ≡ tag_of cause }
{
    Tag {
        time: cause.time,
        micro: cause.micro,
    }
}

/// Where the delays that the shift folds take the tag, which may be the one of a scheduled event.
pub fn moved(tag: Tag, shift: Shift) -> Tag
    requires { IsNear tag }
    ensures { result ≡ shifted tag (shift.time, shift.steps) }
{
    if shift.time == 0 {
        Tag {
            time: tag.time,
            micro: tag.micro + shift.steps,
        }
    } else {
        Tag {
            time: tag.time + shift.time,
            // A delay with a time leads to microstep 0, so only the steps behind it count.
            micro: shift.steps,
        }
    }
}

/// Whether the cause is of a lesser name, or is of the name and leads to an earlier tag; or to the
/// tag itself, where `past` asks for these too.
fn lies_below(cause: EventCause, name: u32, shift: Shift, tag: Tag, past: bool) -> bool
    requires { IsNear (tag_of cause) }
    ensures { IsTrue result ↔ LiesBelow name (shift.time, shift.steps) tag past cause }
{
    if cause.name != name {
        return cause.name < name;
    }
    let to = moved(cause_tag(cause), shift);
    to.is_before(tag) || (past && to.is_same(tag))
}

/// Whether the cause is of the name and the shift leads from its tag to this one.
pub(crate) fn leads(cause: EventCause, name: u32, shift: Shift, tag: Tag) -> bool
    requires { IsNear (tag_of cause) }
    ensures { IsTrue result ↔ Leads name (shift.time, shift.steps) tag cause }
{
    cause.name == name && moved(cause_tag(cause), shift).is_same(tag)
}

/// How many causes are of a lesser name, or of the name and lead to an earlier tag; or to the tag
/// itself, where `past` asks for these too. They stand first.
pub fn position(causes: &[EventCause], name: u32, shift: Shift, tag: Tag, past: bool) -> usize
    requires ascending { AreAscending causes.now }
    requires near { AreNear causes.now }
    ensures { IsPosition causes.now name (shift.time, shift.steps) tag past result }
{
    let mut low = 0;
    let mut high = causes.len();
    while low < high {
        let middle = low + (high - low) / 2;
        if lies_below(item_at(causes, middle), name, shift, tag, past) {
            low = middle + 1;
        } else {
            high = middle;
        }
    }
    low
}

/// The first place past this one at which the cause leads to another tag. The next one mostly
/// does, and where many lead to one tag they are passed over by a search.
pub fn skip(causes: &[EventCause], place: usize, name: u32, shift: Shift, tag: Tag) -> usize
    requires ascending { AreAscending causes.now }
    requires near { AreNear causes.now }
    requires here { (c : TheCause) × (slice_get causes.now place ≡ Some c) × Leads name (shift.time, shift.steps) tag c }
    ensures { IsSkip causes.now name (shift.time, shift.steps) tag place result }
{
    // Read for its clause that the place is one of the list, so that the next is a number.
    let _here = causes[place];
    let next = place + 1;
    if next < causes.len() && leads(item_at(causes, next), name, shift, tag) {
        position(causes, name, shift, tag, true)
    } else {
        next
    }
}
