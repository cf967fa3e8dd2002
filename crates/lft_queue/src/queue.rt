//! The queue of pending events.

ghost use Rattle.std.specs.Prelude.{◌≡◌, ◌↔◌, ◌+◌, ◌-◌, ◌∷◌, [], List, length, map, filter, not, false, Some, None, IsSome, IfSome, IfNone, IfErr, OnOk, IsTrue, Contains, slice_get};
ghost use Rattle.lft_tag.specs.Tags.{Before, UpTo};
ghost use Rattle.lft_ir.specs.declared.parts.{Name.Name as NameOf, Value.Value as Carried};
ghost use Rattle.lft_queue.specs.{Pending.{Pending, value_of, Becomes, IsMap, is_at, is_after}, inner.Keys.{Key as KeyOf, key_tag, pending_at}};

use crate::keys::{Key, key, tag_of_key};
use crate::names::NamesAt;
use lft_ir::{Name, Value};
use lft_tag::Tag;
use std::alloc::Global;
use std::collections::BTreeMap;
use std::marker::Model;

/// Why an event isn't put into a queue.
#[derive(Clone, Copy, PartialEq, Eq, Debug)]
pub enum QueueFault {
    /// The port or action has an event at the tag already.
    Collision,
    /// A growth of memory was refused.
    NoMemory,
}

/// Events that are to happen: a map from a tag and a port or action to the value of its event.
#[derive(Drop)]
pub struct Queue {
    values: BTreeMap<Key, Value>,
}

impl Model for Queue {
    ghost use Rattle.std.specs.Prelude.{List, map};
    ghost use Rattle.lft_queue.specs.{Pending.Pending, inner.Keys.pending_at};

    ghost Value = { List Pending };

    ghost view = { λ a. map pending_at a.values.entries };
}

// Whether the first event is there and not after the tag.
fn begins_by(values: &BTreeMap<Key, Value>, tag: Tag) -> bool
    ensures begins { IsTrue result → (k : KeyOf) × (v : Carried) × (slice_get values.now.entries 0 ≡ Some (k, v)) × ¬ Before tag (key_tag k) }
    ensures over { result ≡ false → map pending_at values.now.entries ≡ filter (λ e. is_after tag e) (map pending_at values.now.entries) }
{
    // Asked for its clause that the keys ascend.
    let _count = values.len();
    match values.first_key_value() {
        Some((key, _)) => return !tag.is_before(tag_of_key(*key)),
        None => return false,
    }
}

// Whether the last event is there and after the tag.
fn ends_after(values: &BTreeMap<Key, Value>, tag: Tag) -> bool
    ensures ends { IsTrue result → (k : KeyOf) × (v : Carried) × (slice_get values.now.entries (length values.now.entries - 1) ≡ Some (k, v)) × Before tag (key_tag k) }
    ensures over { result ≡ false → map pending_at values.now.entries ≡ filter (λ e. not (is_after tag e)) (map pending_at values.now.entries) }
{
    match values.last_key_value() {
        Some((key, _)) => return tag.is_before(tag_of_key(*key)),
        None => return false,
    }
}

impl Queue {
    /// No events. It takes no memory.
    pub fn new(alloc: Global) -> Queue
        ensures { result ≡ [] }
    {
        Queue {
            values: BTreeMap::new(alloc),
        }
    }

    /// How many events there are. It takes no memory.
    pub fn len(&self) -> usize
        ensures { result ≡ length self.now }
    {
        self.values.len()
    }

    /// Puts an event in. Where the port or action has an event at the tag, or memory is refused,
    /// the queue stays as it was.
    pub fn put(&mut self, tag: Tag, name: Name, value: Value) -> Result<(), QueueFault>
        ensures absent { OnOk result (value_of tag name self.old ≡ None) }
        ensures ok { OnOk result (Becomes self.old self.new tag name (Some value)) }
        ensures err { IfErr result (λ e. self.new ≡ self.old) }
        ensures collision { IfErr result (λ e. e ≡ QueueFault.Collision → IsSome (value_of tag name self.old)) }
    {
        let key = key(tag, name);
        match self.values.insert(key, value) {
            Ok(None) => return Ok(()),
            Ok(Some(first)) => {
                // Rare, so it isn't asked for before. The one that was there stays.
                let _second = self.values.insert(key, first);
                return Err(QueueFault::Collision);
            }
            Err(_) => return Err(QueueFault::NoMemory),
        }
    }

    /// Gives an event that is there another value. It takes no memory.
    pub fn replace(&mut self, tag: Tag, name: Name, value: Value)
        requires { IsSome (value_of tag name self.old) }
        ensures { Becomes self.old self.new tag name (Some value) }
    {
        let _there = self.values.insert(key(tag, name), value);
    }

    /// Takes an event out, and gives its value if it was there. It takes no memory.
    pub fn remove(&mut self, tag: Tag, name: Name) -> Option<Value>
        ensures value { result ≡ value_of tag name self.old }
        ensures removed { Becomes self.old self.new tag name None }
    {
        self.values.remove(&key(tag, name))
    }

    /// The value of an event, if it is there. It takes no memory.
    pub fn get(&self, tag: Tag, name: Name) -> Option<Value>
        ensures { result ≡ value_of tag name self.now }
    {
        self.values.get(&key(tag, name)).copied()
    }

    /// The least tag of an event. It takes no memory.
    pub fn first_tag(&self) -> Option<Tag>
        ensures some { IfSome result (λ g. (e : Pending) × Contains self.now e × (e.tag ≡ g)) }
        ensures least { IfSome result (λ g. (e : Pending) → Contains self.now e → UpTo g e.tag) }
        ensures none { IfNone result (self.now ≡ []) }
        ensures once { IsMap self.now }
    {
        // Asked for its clause that the keys ascend.
        let _count = self.values.len();
        match self.values.first_key_value() {
            Some((key, _)) => return Some(tag_of_key(*key)),
            None => return None,
        }
    }

    /// The names that have an event at the tag. It takes no memory, and costs a look-up and a step
    /// for each.
    pub fn names_at(&self, tag: Tag) -> NamesAt<'_>
        ensures { (n : NameOf) → Contains result n ↔ IsSome (value_of tag n self.now) }
    {
        // No key of the tag is less than that of port 0.
        NamesAt::new(tag, self.values.range(key(tag, Name::Port(0))..))
    }

    /// Takes out all events up to a tag. It takes no memory, and costs what it takes out.
    pub fn drop_until(&mut self, tag: Tag)
        ensures { self.new ≡ filter (λ e. is_after tag e) self.old }
    {
        'past: while begins_by(&self.values, tag) {
            let _past = self.values.pop_first();
        }
    }

    /// Takes out all events at a tag, and gives how many there were. It takes no memory.
    pub fn drop_all(&mut self, tag: Tag) -> u64
        ensures rest { self.new ≡ filter (λ e. not (is_at tag e)) self.old }
        ensures count { result + length self.new ≡ length self.old }
    {
        let before = self.values.len();
        self.values.retain(|key, _| !tag.is_same(tag_of_key(*key)));
        (before - self.values.len()) as u64
    }

    /// Takes out all events after a tag, and gives how many there were. It takes no memory, and costs
    /// what it takes out.
    pub fn drop_after(&mut self, tag: Tag) -> u64
        ensures rest { self.new ≡ filter (λ e. not (is_after tag e)) self.old }
        ensures count { result + length self.new ≡ length self.old }
    {
        let before = self.values.len();
        'later: while ends_after(&self.values, tag) {
            let _later = self.values.pop_last();
        }
        (before - self.values.len()) as u64
    }
}
