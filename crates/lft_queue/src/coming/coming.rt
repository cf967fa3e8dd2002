//! The events to come.

ghost use Rattle.std.specs.Prelude.{◌≡◌, ◌↔◌, ◌⊎◌, ◌++◌, [], List, Some, None, IsSome, IsTrue, OnOk, IfErr, Contains};
ghost use Rattle.lft_tag.specs.{declared.Tag.Tag as TheTag, Tags.{Before, UpTo}};
ghost use Rattle.lft_ir.specs.declared.{parts.Name.Name as TheName, steps.externals.Event.Event as TheEvent};
ghost use Rattle.lft_queue.specs.Pending.{value_of, Becomes};
ghost use Rattle.lft_queue.specs.inner.Coming.Coming.{put_at, to_come, AreBrought, AreTaken, ArePassed, IsReached, AreOver, IsClear, IsNoLater};
ghost use Rattle.lft_queue.specs.inner.Coming.Listeners.{IsUnheard};

use crate::coming::listeners::NameListeners;
use crate::{NamesAt, Queue, QueueFault};
use lft_ir::steps::Externals;
use lft_ir::{Name, Value};
use lft_lists::item_at;
use lft_tag::Tag;
use std::alloc::Global;

/// The events that are still to be met: those in the queue, and the external ones from a place on.
#[derive(Drop)]
pub struct Coming {
    queue: Queue,
    /// So many events may be in the queue at once.
    most: usize,
    /// The place of the first external event that isn't in the queue.
    // External events stand in order. Each is put in when its tag comes, so the queue stays small.
    next: usize,
    /// The least tag at which two events of a name are known to meet, if there is one. The queue has what
    /// comes before it.
    // All goes on up to that tag: an end where two events meet would leave `follow` no rule to name.
    clash: Option<Tag>,
}

/// The earlier of two tags, of those that there are.
pub(crate) fn earlier_of(one: Option<Tag>, other: Option<Tag>) -> Option<Tag>
    ensures clear { (h : TheTag) → IsClear result h ↔ IsClear one h × IsClear other h }
    ensures one { (result ≡ one) ⊎ (result ≡ other) }
{
    match (one, other) {
        (Some(tag), Some(next)) => { if next.is_before(tag) { other } else { one } }
        (Some(_), None) => one,
        (None, _) => other,
    }
}

impl Coming {
    /// All external events are to come, and nothing else. So many events may be in the queue at once.
    pub fn new(alloc: Global, most: usize) -> Coming
        ensures { result ≡ record { queue = []; most = most; next = 0; clash = None } }
    {
        Coming {
            queue: Queue::new(alloc),
            most,
            next: 0,
            clash: None,
        }
    }

    /// Puts an event in. Too many events count as memory that is refused.
    fn put(&mut self, tag: Tag, name: Name, value: Value) -> Result<(), QueueFault>
        ensures next { self.new.next ≡ self.old.next }
        ensures clash { self.new.clash ≡ self.old.clash }
        ensures absent { OnOk result (value_of tag name self.old.queue ≡ None) }
        ensures put { OnOk result (Becomes self.old.queue self.new.queue tag name (Some value)) }
        ensures err { IfErr result (λ e. self.new ≡ self.old) }
        ensures collision { IfErr result (λ e. e ≡ QueueFault.Collision → IsSome (value_of tag name self.old.queue)) }
    {
        if self.queue.len() >= self.most {
            return Err(QueueFault::NoMemory);
        }
        self.queue.put(tag, name, value)
    }

    /// Notes the tag, if there is one, as one at which two events meet.
    pub fn note(&mut self, met: Option<Tag>)
        ensures next { self.new.next ≡ self.old.next }
        ensures same { (events : List TheEvent) (h : TheTag) (n : TheName) → to_come events self.new h n ≡ to_come events self.old h n }
        ensures clear { (h : TheTag) → IsClear self.new.clash h ↔ IsClear self.old.clash h × IsClear met h }
        ensures one { (self.new.clash ≡ self.old.clash) ⊎ (self.new.clash ≡ met) }
    {
        self.clash = earlier_of(self.clash, met);
    }

    /// Puts an event in, where it is up to the stop: behind that nobody waits for one. Where the name has an
    /// event at the tag already, that one stays, and the tag is noted, if none before it was. It is false
    /// where too many events are in the queue, or memory is refused.
    pub(crate) fn put_until(&mut self, last: Tag, tag: Tag, name: Name, value: Value) -> bool
        ensures next { self.new.next ≡ self.old.next }
        ensures no_later { IsNoLater self.old.clash self.new.clash }
        ensures put { IsTrue result → (events : List TheEvent) (h : TheTag) (n : TheName) → UpTo h last → IsClear self.new.clash h → to_come events self.new h n ≡ to_come events self.old h n ++ put_at tag name value h n }
        ensures met { (self.new.clash ≡ self.old.clash) ⊎ (self.new.clash ≡ Some tag) × IsSome (value_of tag name self.old.queue) }
    {
        if last.is_before(tag) {
            return true;
        }
        match self.put(tag, name, value) {
            Ok(()) => true,
            Err(QueueFault::NoMemory) => false,
            Err(QueueFault::Collision) => {
                // Nothing is wrong yet: before that tag a request may stop the run, or another rule may be broken.
                self.note(Some(tag));
                true
            }
        }
    }

    /// Puts the external events up to the tag into the queue. It is false where one meets an event of
    /// its action, or memory is refused.
    fn bring(&mut self, externals: &Externals, tag: Tag) -> bool
        ensures brought { IsTrue result → AreBrought externals.now.events self.new.next tag }
        ensures taken { AreTaken externals.now.events self.old.next self.new.next tag }
        ensures clash { self.new.clash ≡ self.old.clash }
        ensures same { IsTrue result → (h : TheTag) (n : TheName) → to_come externals.now.events self.new h n ≡ to_come externals.now.events self.old h n }
    {
        let events = externals.events();
        while self.next < events.len() {
            let event = item_at(events, self.next);
            if tag.is_before(event.tag) {
                return true;
            }
            // Its tag is reached, so here the two do meet, and nothing can end the run before.
            let Ok(()) = self.put(event.tag, Name::Action(event.action), event.value) else {
                return false;
            };
            self.next += 1;
        }
        true
    }

    /// Whether the queue has no event.
    pub fn is_empty(&self) -> bool
        ensures { IsTrue result → (tag : TheTag) (n : TheName) → value_of tag n self.now.queue ≡ None }
    {
        self.queue.len() == 0
    }

    /// The value of the name's event at the tag, if it has one in the queue.
    pub fn value_at(&self, tag: Tag, name: Name) -> Option<Value>
        ensures { result ≡ value_of tag name self.now.queue }
    {
        self.queue.get(tag, name)
    }

    /// The names of the queue's events at the tag.
    pub fn names_at(&self, tag: Tag) -> NamesAt<'_>
        ensures { (n : TheName) → Contains result n ↔ IsSome (value_of tag n self.now.queue) }
    {
        self.queue.names_at(tag)
    }

    /// Whether the names of the queue's events at the tag trigger nothing.
    fn are_unheard(&self, listeners: &NameListeners, tag: Tag) -> bool
        ensures { IsTrue result → (n : TheName) → IsUnheard listeners.now n ⊎ (value_of tag n self.now.queue ≡ None) }
    {
        for name in self.queue.names_at(tag) {
            if !listeners.is_unheard(name) {
                return false;
            }
        }
        true
    }

    /// Takes the queue's events before the tag out. It is false where one of them is of a name that
    /// triggers something: then a run is missing.
    fn pass(&mut self, listeners: &NameListeners, tag: Tag) -> bool
        ensures next { self.new.next ≡ self.old.next }
        ensures clash { self.new.clash ≡ self.old.clash }
        ensures passed { IsTrue result → ArePassed listeners.now tag self.old.queue self.new.queue }
    {
        while let Some(first) = self.queue.first_tag() {
            if !first.is_before(tag) {
                return true;
            }
            if !self.are_unheard(listeners, first) {
                return false;
            }
            self.queue.drop_until(first);
        }
        true
    }

    /// Whether no two events are known to meet.
    pub fn is_apart(&self) -> bool
        ensures { IsTrue result → self.now.clash ≡ None }
    {
        self.clash.is_none()
    }

    /// Whether the tag is before the one at which two events are known to meet.
    fn is_clear(&self, tag: Tag) -> bool
        ensures { IsTrue result ↔ IsClear self.now.clash tag }
    {
        match self.clash {
            Some(clash) => tag.is_before(clash),
            None => true,
        }
    }

    /// Goes on to a later tag: what comes at the tag is in the queue, and nothing that comes before it.
    /// It is false where an event before the tag is of a name that triggers something, where two meet up to
    /// the tag, or memory is refused.
    pub fn reach(&mut self, externals: &Externals, listeners: &NameListeners, tag: Tag) -> bool
        ensures { IsTrue result → IsReached externals.now.events listeners.now tag self.old self.new }
    {
        if !self.is_clear(tag) {
            return false;
        }
        // Brought in first: external events before the tag are passed over too.
        self.bring(externals, tag) && self.pass(listeners, tag)
    }

    /// Whether no event up to the stop is of a name that triggers something, and no two meet. Those up to
    /// the stop go.
    pub fn is_over(&mut self, externals: &Externals, listeners: &NameListeners, stop: Tag) -> bool
        ensures { IsTrue result → AreOver externals.now.events listeners.now stop self.old }
    {
        self.reach(externals, listeners, stop) && self.are_unheard(listeners, stop)
    }

    /// Takes the queue's events up to the tag out.
    pub fn drop_until(&mut self, tag: Tag)
        ensures next { self.new.next ≡ self.old.next }
        ensures clash { self.new.clash ≡ self.old.clash }
        ensures same { (events : List TheEvent) (h : TheTag) (n : TheName) → Before tag h → to_come events self.new h n ≡ to_come events self.old h n }
    {
        self.queue.drop_until(tag);
    }
}
