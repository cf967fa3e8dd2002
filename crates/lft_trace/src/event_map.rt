//! External events as they come, kept in their order.

ghost use Rattle.std.specs.Prelude.{◌≡◌, ◌∷◌, ◌↔◌, [], map, true, false, IfOk, IsTrue};
ghost use Rattle.std.specs.List.Sorted.{IsPermutation};
ghost use Rattle.lft_trace.specs.{ExternalTables.{Clash, Has}, inner.Keys.event_at};
ghost use Rattle.lft_ir.specs.{Steps.Inputs.{ComesBefore, InOrder}, declared.steps.externals.Event.Event as TheEvent};

use lft_ir::Value;
use lft_ir::steps::Event;
use lft_tag::{NoMemory, Tag};
use std::alloc::Global;
use std::collections::BTreeMap;
use std::marker::Model;

/// Values of events by time, microstep and action.
type EventValues = BTreeMap<(u64, u32, u32), Value>;

/// Events. While they come in order, they stand in a list, and from the first one on that doesn't in a map.
#[derive(Drop)]
pub(crate) struct EventMap {
    list: Vec<Event>,
    values: EventValues,
}

impl Model for EventMap {
    ghost use Rattle.std.specs.Prelude.{List, ◌++◌, map};
    ghost use Rattle.lft_ir.specs.declared.steps.externals.Event.{Event};
    ghost use Rattle.lft_trace.specs.inner.Keys.{event_at, IsInOnePlace};

    ghost Value = { List Event };

    ghost view = { λ a. a.list.items ++ map event_at a.values.entries };

    ghost invariant = { λ a. IsInOnePlace a.list.items a.values.entries };
}

/// By tag, then by action.
fn comes_before(event: Event, other: Event) -> bool
    ensures { IsTrue result ↔ ComesBefore event other }
{
    event.tag.is_before(other.tag) || (event.tag.is_same(other.tag) && event.action < other.action)
}

/// Whether the event comes behind all of these.
fn comes_last(events: &[Event], event: Event) -> bool
    requires { InOrder events.now }
    ensures { IsTrue result → (other : TheEvent) → Has events.now other → ComesBefore other event }
{
    match events.last() {
        Some(last) => comes_before(*last, event),
        None => true,
    }
}

/// Puts an event into a map; false where one of its action at its tag is there already, whose value it then
/// replaces.
fn put(values: &mut EventValues, event: Event) -> Result<bool, NoMemory>
    ensures there { IfOk result (λ new. new ≡ false → (d : TheEvent) × Has (map event_at values.old.entries) d × Clash d event) }
    ensures apart { IfOk result (λ new. new ≡ true → (d : TheEvent) → Has (map event_at values.old.entries) d → Clash d event → ⊥) }
    ensures added { IfOk result (λ new. new ≡ true → IsPermutation (event ∷ map event_at values.old.entries) (map event_at values.new.entries)) }
{
    let key = (event.tag.time, event.tag.micro, event.action);
    let old = match values.insert(key, event.value) {
        Ok(old) => old,
        Err(_) => return Err(NoMemory),
    };
    Ok(old.is_none())
}

/// A map of these events.
fn map_of(alloc: Global, events: &[Event]) -> Result<EventValues, NoMemory>
    requires { InOrder events.now }
    ensures { IfOk result (λ values. IsPermutation events.now (map event_at values.entries)) }
{
    let mut values = BTreeMap::new(alloc);
    for place in 0..events.len() {
        put(&mut values, events[place])?;
    }
    Ok(values)
}

impl EventMap {
    /// No events. It takes no memory.
    pub(crate) fn new(alloc: Global) -> EventMap
        ensures { result ≡ [] }
    {
        EventMap {
            list: Vec::new(alloc),
            values: BTreeMap::new(alloc),
        }
    }

    /// Puts an event in; false where one of its action at its tag is there already, whose value it
    /// then replaces.
    pub(crate) fn insert(&mut self, alloc: Global, event: Event) -> Result<bool, NoMemory>
        ensures there { IfOk result (λ new. new ≡ false → (d : TheEvent) × Has self.old d × Clash d event) }
        ensures apart { IfOk result (λ new. new ≡ true → (d : TheEvent) → Has self.old d → Clash d event → ⊥) }
        ensures added { IfOk result (λ new. new ≡ true → IsPermutation (event ∷ self.old) self.new) }
    {
        if !self.values.is_empty() {
            let new = put(&mut self.values, event)?;
            return Ok(new);
        }
        if comes_last(self.list.as_slice(), event) {
            self.list.push(event)?;
            return Ok(true);
        }
        let mut values = map_of(alloc, self.list.as_slice())?;
        let new = put(&mut values, event)?;
        self.list = Vec::new(alloc);
        self.values = values;
        Ok(new)
    }

    /// The events in order.
    pub(crate) fn into_vec(self, alloc: Global) -> Result<Vec<Event>, NoMemory>
        ensures all { IfOk result (λ events. events.items ≡ self) }
        ensures order { IfOk result (λ events. InOrder events.items) }
    {
        let EventMap { list, values } = self;
        if values.is_empty() {
            return Ok(list);
        }
        let mut events = Vec::new(alloc);
        for ((time, micro, action), value) in values {
            let tag = Tag { time, micro };
            if events.push(Event { tag, action, value }).is_err() {
                return Err(NoMemory);
            }
        }
        Ok(events)
    }
}
