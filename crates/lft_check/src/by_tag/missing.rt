//! The first missing run, found from what makes reactions run and not from the tags.

ghost use Rattle.std.specs.Prelude.{◌≡◌, ℕ, ◌<◌, ◌≤◌, length, true, Some, MatchOption, IfSome, IfOk, OnOk, slice_get, slice_set};
ghost use Rattle.lft_tag.specs.{declared.Tag.Tag as TheTag, Tags.Before};
ghost use Rattle.lft_ir.specs.{Sound.{IsNameOf, IsTriggerOf}, declared.parts.Trigger.TheVariants.On};
ghost use Rattle.lft_model.specs.Presence.{Fires, IsPresent, Occurs, Triggered};
ghost use Rattle.lft_rows.specs.{inner.Presence.{Causes.{IsCause, Leads}, Needed.AreNeededOf}, Presence.Traces.LeastTag};
ghost use Rattle.lft_check.specs.inner.ByTag.{Indexes.{AreStartsOf, HasRuns, AreTriggeredRows, AreMarkedTo}, Slices.{IsCuttable, IsFirstMissingFrom}};
ghost use Rattle.lft_check.specs.inner.ByTag.Least.{AreUp, HasTag, IsFirstFiringFrom, IsFirstTime, AreTriggered, IsEarlierLack, LacksAt, LacksFiring, LacksCause, LacksTriggerAt, Lacks};

use crate::by_tag::started::Started;
use lft_ir::{Name, Timer, Trigger};
use lft_lists::item_at;
use lft_rows::presence::{Presence, cause_tag, moved, needed_of, position, skip, sooner};
use lft_tag::{NoMemory, Shift, Tag};
use std::alloc::Global;

/// The pair of the earlier tag, where they are at one tag the first pair.
pub(crate) fn first_of(
    first: Option<(Tag, u32)>,
    tag: Option<Tag>,
    reaction: u32,
) -> Option<(Tag, u32)>
    ensures { IsEarlierLack first tag reaction result }
{
    match (first, tag) {
        (Some((a, number)), Some(b)) => {
            if b.is_before(a) {
                Some((b, reaction))
            } else {
                Some((a, number))
            }
        }
        (Some(pair), None) => Some(pair),
        (None, Some(b)) => Some((b, reaction)),
        (None, None) => None,
    }
}

/// The place of the tag among ascending ones, if it is one. It is looked for at the hint first, and
/// then behind it, where the one at the hint is earlier.
fn find_tag(tags: &[Tag], tag: Tag, hint: usize) -> Option<usize>
    requires { AreUp tags.now }
    ensures found { MatchOption result (HasTag tags.now tag → ⊥) (λ k. slice_get tags.now k ≡ Some tag) }
    ensures within { IfSome result (λ k. k < length tags.now) }
{
    // A wrong hint costs a search, and no proof.
    let mut low = 0;
    if hint < tags.len() {
        let there = item_at(tags, hint);
        if there.is_same(tag) {
            return Some(hint);
        }
        if there.is_before(tag) {
            low = hint + 1;
        }
    }
    let mut high = tags.len();
    while low < high {
        let middle = low + (high - low) / 2;
        if item_at(tags, middle).is_before(tag) {
            low = middle + 1;
        } else {
            high = middle;
        }
    }
    if low < tags.len() && item_at(tags, low).is_same(tag) {
        Some(low)
    } else {
        None
    }
}

/// Marks the place, where there are marks.
fn mark(known: &mut [bool], place: usize)
    ensures { known.new ≡ slice_set known.old place true }
{
    // A mark only has to be true: what triggers a run without one is looked up later.
    if place < known.len() {
        known[place] = true;
    }
}

/// The tag, where it is up to the stop and not passed. Else its place among the tags, if it has one,
/// is marked.
fn lacked_at(
    presence: &Presence,
    tag: Tag,
    reaction: u32,
    low: Tag,
    tags: &[Tag],
    known: &mut [bool],
) -> Option<Tag>
    requires up { AreUp tags.now }
    requires triggers { Triggered presence.now.plan presence.now.rows tag reaction }
    requires known { AreTriggered presence.now reaction tags.now known.old }
    ensures known { AreTriggered presence.now reaction tags.now known.new }
    ensures least { LeastTag (LacksAt presence.now low tags.now tag) result }
{
    if tag.is_before(low) || presence.stop().is_before(tag) {
        return None;
    }
    match find_tag(tags, tag, 0) {
        Some(place) => {
            mark(known, place);
            None
        }
        None => Some(tag),
    }
}

/// The first time whose tag with microstep 0 isn't before the tag.
fn first_time(low: Tag) -> u64
    requires { low.time ≤ 1000000000000000000 }
    ensures first { IsFirstTime low result }
    ensures small { result ≤ 1000000000000000001 }
{
    if low.micro == 0 {
        return low.time;
    }
    low.time + 1
}

/// The first time at which the timer fires at the tag or behind it, if there is one.
fn first_firing(timer: &Timer, low: Tag) -> Option<u64>
    requires period { timer.now.period ≤ 1000000000000000000 }
    requires low { low.time ≤ 1000000000000000000 }
    ensures { MatchOption result ((g : TheTag) → Fires timer.now g → Before g low) (IsFirstFiringFrom timer.now low) }
{
    let due = first_time(low);
    if timer.offset >= due {
        return Some(timer.offset);
    }
    if timer.period == 0 {
        return None;
    }
    let passed = (due - timer.offset - 1) / timer.period + 1;
    Some(timer.offset + passed * timer.period)
}

/// The first tag up to the stop at which the timer fires and which isn't passed. Each firing from the
/// low tag on that is looked at but the last one is one of the tags, and marked.
fn lacked_firing(
    presence: &Presence,
    timer: &Timer,
    reaction: u32,
    low: Tag,
    tags: &[Tag],
    known: &mut [bool],
) -> Option<Tag>
    requires period { timer.now.period ≤ 1000000000000000000 }
    requires low { low.time ≤ 1000000000000000000 }
    requires up { AreUp tags.now }
    requires triggers { (g : TheTag) → Fires timer.now g → Triggered presence.now.plan presence.now.rows g reaction }
    requires known { AreTriggered presence.now reaction tags.now known.old }
    ensures known { AreTriggered presence.now reaction tags.now known.new }
    ensures least { LeastTag (LacksFiring presence.now timer.now low tags.now) result }
{
    // A timer fires at microstep 0, so its time alone says whether that is up to the stop.
    let last = presence.stop().time;
    let mut hint = 0;
    let mut time = first_firing(timer, low)?;
    while time <= last {
        let tag = Tag { time, micro: 0 };
        match find_tag(tags, tag, hint) {
            Some(place) => {
                mark(known, place);
                hint = place + 1;
            }
            None => return Some(tag),
        }
        if timer.period == 0 {
            return None;
        }
        time += timer.period;
    }
    None
}

/// The first tag up to the stop to which a cause of the name leads and which isn't passed. Each tag
/// that is looked at but the last one is one of the tags, and marked.
fn lacked_cause(
    presence: &Presence,
    name: u32,
    shift: Shift,
    reaction: u32,
    low: Tag,
    tags: &[Tag],
    known: &mut [bool],
) -> Option<Tag>
    requires up { AreUp tags.now }
    requires triggers { (g : TheTag) (c : _) → IsCause presence.now.plan presence.now.rows c → Leads name (shift.time, shift.steps) g c → Triggered presence.now.plan presence.now.rows g reaction }
    requires known { AreTriggered presence.now reaction tags.now known.old }
    ensures known { AreTriggered presence.now reaction tags.now known.new }
    ensures least { LeastTag (LacksCause presence.now name (shift.time, shift.steps) low tags.now) result }
{
    let causes = presence.causes();
    let mut hint = 0;
    let mut place = position(causes, name, shift, low, false);
    while place < causes.len() {
        let cause = item_at(causes, place);
        if cause.name != name {
            return None;
        }
        let tag = moved(cause_tag(cause), shift);
        if presence.stop().is_before(tag) {
            return None;
        }
        match find_tag(tags, tag, hint) {
            Some(at) => {
                mark(known, at);
                hint = at + 1;
            }
            None => return Some(tag),
        }
        place = skip(causes, place, name, shift, tag);
    }
    None
}

/// The first tag up to the stop at which the port or action is present and which isn't passed.
fn lacked_name(
    presence: &Presence,
    name: Name,
    reaction: u32,
    low: Tag,
    tags: &[Tag],
    known: &mut [bool],
) -> Option<Tag>
    requires name { IsNameOf presence.now.plan.program name }
    requires up { AreUp tags.now }
    requires triggers { (g : TheTag) → IsPresent presence.now.plan presence.now.rows g name → Triggered presence.now.plan presence.now.rows g reaction }
    requires known { AreTriggered presence.now reaction tags.now known.old }
    ensures known { AreTriggered presence.now reaction tags.now known.new }
    ensures least { LeastTag (LacksTriggerAt presence.now (On name) low tags.now) result }
{
    let program = presence.program();
    match name {
        Name::Port(number) => {
            let port = program.port(number);
            lacked_cause(
                presence,
                port.origin,
                port.shift,
                reaction,
                low,
                tags,
                known,
            )
        }
        Name::Action(number) => {
            let key = program.ports() as u32 + number;
            lacked_cause(presence, key, Shift::none(), reaction, low, tags, known)
        }
    }
}

/// The first tag up to the stop at which the trigger is present and which isn't passed.
fn lacked_trigger(
    presence: &Presence,
    trigger: Trigger,
    reaction: u32,
    low: Tag,
    tags: &[Tag],
    known: &mut [bool],
) -> Option<Tag>
    requires trigger { IsTriggerOf presence.now.plan.program trigger }
    requires low { low.time ≤ 1000000000000000000 }
    requires up { AreUp tags.now }
    requires triggers { (g : TheTag) → Occurs presence.now.plan presence.now.rows g trigger → Triggered presence.now.plan presence.now.rows g reaction }
    requires known { AreTriggered presence.now reaction tags.now known.old }
    ensures known { AreTriggered presence.now reaction tags.now known.new }
    ensures least { LeastTag (LacksTriggerAt presence.now trigger low tags.now) result }
{
    match trigger {
        Trigger::Startup => {
            let first = Tag { time: 0, micro: 0 };
            lacked_at(presence, first, reaction, low, tags, known)
        }
        Trigger::Shutdown => lacked_at(presence, presence.stop(), reaction, low, tags, known),
        Trigger::Timer(number) => {
            let timer = presence.program().timer(number);
            lacked_firing(presence, timer, reaction, low, tags, known)
        }
        Trigger::On(name) => lacked_name(presence, name, reaction, low, tags, known),
    }
}

/// The first tag up to the stop at which the reaction is triggered and which isn't passed, by triggers
/// that stand for all of the reaction. Marks are set at some of the tags at which it is triggered: at
/// all from the low one on, where none is answered.
pub(crate) fn lacked(
    presence: &Presence,
    reaction: u32,
    low: Tag,
    triggers: &[Trigger],
    tags: &[Tag],
    known: &mut [bool],
) -> Option<Tag>
    requires triggers { AreNeededOf presence.now.plan.program reaction triggers.now }
    requires low { low.time ≤ 1000000000000000000 }
    requires up { AreUp tags.now }
    requires known { AreTriggered presence.now reaction tags.now known.old }
    ensures known { AreTriggered presence.now reaction tags.now known.new }
    ensures least { LeastTag (Lacks presence.now low tags.now reaction) result }
{
    // Asked for what every presence keeps: its program is sound, so its triggers are.
    let _ = presence.program();
    let mut least = None;
    for place in 0..triggers.len() {
        let trigger = item_at(triggers, place);
        least = sooner(
            least,
            lacked_trigger(presence, trigger, reaction, low, tags, known),
        );
    }
    least
}

/// Where the run of this number starts, if it is marked.
fn marked_start(places: &[u32], known: &[bool], number: usize) -> Option<usize>
    ensures { MatchOption result ((p : ℕ) → slice_get known.now number ≡ Some true → ¬ (slice_get places.now number ≡ Some p)) (λ p. (slice_get known.now number ≡ Some true) × (slice_get places.now number ≡ Some p)) }
{
    if number < known.len() && number < places.len() && known[number] {
        Some(places[number] as usize)
    } else {
        None
    }
}

/// Marks the start rows of the runs that are marked.
fn keep_due(
    presence: &Presence,
    reaction: u32,
    tags: &[Tag],
    places: &[u32],
    known: &[bool],
    due: &mut [bool],
)
    requires starts { AreStartsOf presence.now.rows (length presence.now.rows) reaction tags.now places.now }
    requires known { AreTriggered presence.now reaction tags.now known.now }
    requires due { AreTriggeredRows presence.now due.old }
    ensures due { AreTriggeredRows presence.now due.new }
    ensures marked { AreMarkedTo places.now known.now (length known.now) due.old due.new }
{
    for number in 0..known.len() {
        if let Some(place) = marked_start(places, known, number) {
            mark(due, place);
        }
    }
}

/// The least tag from the low one on, up to the stop, at which a reaction is triggered and has no run,
/// and the least such reaction. The start rows of runs that are found to be triggered are marked on
/// the way: where none is answered, of all that are, from that tag on.
///
/// A timer is gone through only up to its first tag without a run. One that triggers nothing is
/// passed over, and so is one whose firings another timer of the reaction makes too.
pub(crate) fn first_missing(
    alloc: Global,
    presence: &Presence,
    started: &Started,
    low: Tag,
    due: &mut [bool],
) -> Result<Option<(Tag, u32)>, NoMemory>
    requires rules { IsCuttable presence.now }
    requires low { low.time ≤ 1000000000000000000 }
    requires started { HasRuns presence.now.rows (length presence.now.plan.program.reactions) started.now }
    requires due { AreTriggeredRows presence.now due.old }
    ensures due { OnOk result (AreTriggeredRows presence.now due.new) }
    ensures missing { IfOk result (IsFirstMissingFrom presence.now low) }
{
    let mut first = None;
    for reaction in 0..presence.reactions() as u32 {
        let tags = started.tags.at(reaction);
        let mut known = vec![in alloc; false; tags.len()]?;
        let needed = needed_of(alloc, presence.program(), reaction)?;
        let missed = lacked(
            presence,
            reaction,
            low,
            needed.as_slice(),
            tags,
            known.as_mut_slice(),
        );
        keep_due(
            presence,
            reaction,
            tags,
            started.places.at(reaction),
            known.as_slice(),
            due,
        );
        first = first_of(first, missed, reaction);
    }
    Ok(first)
}
