//! The next firings of the live timers: of those that trigger a reaction and beat alike, the first.

ghost use Rattle.std.specs.Prelude.{◌≡◌, ◌≤◌, ◌<◌, [], length, IfOk, IfSome, IfNone, Contains};
ghost use Rattle.lft_tag.specs.Tags.{Before, UpTo};
ghost use Rattle.lft_model.specs.Presence.{Fires};
ghost use Rattle.lft_scheduler.specs.inner.{Listeners.AreListeners, Firings.{tag_of_firing, IsFirstFiring, AreFirstFirings, IsMoved}};
ghost use Rattle.lft_scheduler.specs.declared.firings.Firing.{Firing as FiringOf};

use crate::listeners::Listeners;
use lft_ir::{Program, Timer};
use lft_lists::item_at;
use lft_tag::{NoMemory, Tag};
use std::alloc::Global;
use std::cmp::Reverse;
use std::collections::BinaryHeap;
use std::marker::Model;

// The first firing of the timer after the tag.
fn next_firing(timer: &Timer, tag: Tag) -> Option<Tag>
    requires time { tag.time ≤ 1000000000000000000 }
    requires offset { timer.now.offset ≤ 1000000000000000000 }
    requires period { timer.now.period ≤ 1000000000000000000 }
    ensures some { IfSome result (IsFirstFiring timer.now (λ h. Before tag h)) }
    ensures none { IfNone result ((f : _) → Fires timer.now f → Before tag f → ⊥) }
{
    if tag.time < timer.offset {
        return Some(Tag {
            time: timer.offset,
            micro: 0,
        });
    }
    if timer.period == 0 {
        return None;
    }
    // The tag's time and the period are at most 10^18 each, so their sum below fits.
    let over = (tag.time - timer.offset) % timer.period;
    Some(Tag {
        time: tag.time - over + timer.period,
        micro: 0,
    })
}

/// A timer fires at a time, at microstep 0.
#[derive(Clone, Copy, PartialEq, Eq, PartialOrd, Ord, Debug, Drop)]
pub(crate) struct Firing {
    time: u64,
    timer: u32,
}

impl Firing {
    fn tag(self) -> Tag
        ensures { result ≡ tag_of_firing self }
    {
        Tag {
            time: self.time,
            micro: 0,
        }
    }
}

/// One firing of each live timer, where it has one left; the first stands first.
// A heap, so that a tag costs by the timers that fire there and not by all of them.
#[derive(Drop)]
pub(crate) struct Firings {
    heap: BinaryHeap<Reverse<Firing>>,
}

impl Model for Firings {
    ghost use Rattle.std.specs.Prelude.{List, map};
    ghost use Rattle.std.specs.BinaryHeap.{heap_items, IsHeap};
    ghost use Rattle.lft_scheduler.specs.{declared.firings.Firing.Firing, inner.Firings.sooner_first};

    ghost Value = { List Firing };

    ghost view = { λ a. map (λ f. f.0) (heap_items a.heap) };

    ghost invariant = { λ a. IsHeap sooner_first (heap_items a.heap) };
}

impl Firings {
    /// The first firings from the tag (0, 0) on.
    pub(crate) fn new(
        alloc: Global,
        listeners: &Listeners,
        program: &Program,
    ) -> Result<Firings, NoMemory>
        requires { AreListeners program.now listeners.now }
        ensures { IfOk result (AreFirstFirings program.now (λ h. UpTo (record { time = 0; micro = 0 }) h)) }
    {
        // Asked for what every program keeps: these are timers of the program.
        program.keeps();
        let timers = listeners.live_timers();
        let mut firings = Vec::new(alloc);
        for at in 0..timers.len() {
            let timer = item_at(timers, at);
            firings.push(Reverse(Firing {
                time: program.timer(timer).offset,
                timer,
            }))?;
        }
        Ok(Firings {
            heap: BinaryHeap::from(firings),
        })
    }

    /// The tag of the first one.
    pub(crate) fn first_tag(&self) -> Option<Tag>
        ensures some { IfSome result (λ g. (f : FiringOf) × Contains self.now f × (tag_of_firing f ≡ g)) }
        ensures least { IfSome result (λ g. (f : FiringOf) → Contains self.now f → UpTo g (tag_of_firing f)) }
        ensures none { IfNone result (self.now ≡ []) }
    {
        let Some(first) = self.heap.peek() else {
            return None;
        };
        Some(first.0.tag())
    }

    /// Where the first one isn't after the tag: its timer. The first firing of the timer after the
    /// tag comes in its place, so it takes no memory.
    pub(crate) fn take(&mut self, program: &Program, tag: Tag) -> Option<u32>
        requires time { tag.time ≤ 1000000000000000000 }
        requires timers { (f : FiringOf) → Contains self.old f → f.timer < length program.now.timers }
        ensures some { IfSome result (λ n. IsMoved program.now tag n self.old self.new) }
        ensures none { IfNone result (self.new ≡ self.old) }
        ensures over { IfNone result ((f : FiringOf) → Contains self.old f → Before tag (tag_of_firing f)) }
    {
        let Some(first) = self.first_tag() else {
            return None;
        };
        if tag.is_before(first) {
            return None;
        }
        let Some(Reverse(firing)) = self.heap.pop() else {
            return None;
        };
        if let Some(next) = next_firing(program.timer(firing.timer), tag) {
            // One was taken out, so there is room.
            let _fits = self.heap.push(Reverse(Firing {
                time: next.time,
                timer: firing.timer,
            }));
        }
        Some(firing.timer)
    }
}
