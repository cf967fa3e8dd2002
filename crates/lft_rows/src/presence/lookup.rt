//! Causes of events, looked up by a key and a tag. The key is the origin of a port, or the number of
//! all ports and that of an action.

ghost use Rattle.std.specs.Prelude.{List};
ghost use Rattle.lft_ir.specs.declared.steps.row.Row.{Row as TheRow};
ghost use Rattle.lft_model.specs.Plans.{PlanParts};
ghost use Rattle.lft_rows.specs.inner.Presence.{Causes.{AreAscending, AreNear, AreCauses, IsLastCause}, Lookups.{IsFirstCause, IsLastBefore, IsFirstAfter}};

use crate::presence::causes::{EventCause, leads, position};
use lft_lists::item_at;
use lft_tag::{Shift, Tag};

/// Of the causes of the key from whose tags the shift leads to the tag the first.
pub fn first_cause(causes: &[EventCause], key: u32, shift: Shift, tag: Tag) -> Option<EventCause>
    requires ascending { AreAscending causes.now }
    requires near { AreNear causes.now }
    ensures { (plan : PlanParts) (t : List TheRow) → AreCauses plan t causes.now → IsFirstCause plan t key (shift.time, shift.steps) tag result }
{
    let place = position(causes, key, shift, tag, false);
    if place == causes.len() {
        return None;
    }
    let first = item_at(causes, place);
    if leads(first, key, shift, tag) {
        Some(first)
    } else {
        None
    }
}

/// Of the causes of the key from whose tags the shift leads to the tag the last.
pub fn last_cause(causes: &[EventCause], key: u32, shift: Shift, tag: Tag) -> Option<EventCause>
    requires ascending { AreAscending causes.now }
    requires near { AreNear causes.now }
    ensures { (plan : PlanParts) (t : List TheRow) → AreCauses plan t causes.now → IsLastCause plan t key (shift.time, shift.steps) tag result }
{
    let end = position(causes, key, shift, tag, true);
    if end == 0 {
        return None;
    }
    let last = item_at(causes, end - 1);
    if leads(last, key, shift, tag) {
        Some(last)
    } else {
        None
    }
}

/// Of the causes of the key from whose tags the shift leads to an earlier tag the last.
pub fn last_before(causes: &[EventCause], key: u32, shift: Shift, tag: Tag) -> Option<EventCause>
    requires ascending { AreAscending causes.now }
    requires near { AreNear causes.now }
    ensures { (plan : PlanParts) (t : List TheRow) → AreCauses plan t causes.now → IsLastBefore plan t key (shift.time, shift.steps) tag result }
{
    let end = position(causes, key, shift, tag, false);
    if end == 0 {
        return None;
    }
    let last = item_at(causes, end - 1);
    if last.name == key { Some(last) } else { None }
}

/// Of the causes of the key from whose tags the shift leads to a later tag the first.
pub fn first_after(causes: &[EventCause], key: u32, shift: Shift, tag: Tag) -> Option<EventCause>
    requires ascending { AreAscending causes.now }
    requires near { AreNear causes.now }
    ensures { (plan : PlanParts) (t : List TheRow) → AreCauses plan t causes.now → IsFirstAfter plan t key (shift.time, shift.steps) tag result }
{
    let place = position(causes, key, shift, tag, true);
    if place == causes.len() {
        return None;
    }
    let first = item_at(causes, place);
    if first.name == key { Some(first) } else { None }
}
