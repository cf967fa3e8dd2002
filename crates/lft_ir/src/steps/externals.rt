//! External inputs.

ghost use Rattle.std.specs.Prelude.{◌≡◌, ◌↔◌, ◌≤◌, IfOk, IfSome, IfNone, IsTrue, OnErr, length};
ghost use Rattle.std.specs.List.{insert};

use crate::steps::fits::{event_fits, is_recorded};
use crate::steps::order::place_of;
use crate::steps::same::same_events;
use crate::{Program, Value};
use lft_tag::{MAX_ROWS, NoMemory, Tag};
use std::alloc::Global;
use std::marker::Model;

/// An event of a physical action.
#[derive(Clone, Copy, PartialEq, Eq, Debug, Drop)]
pub struct Event {
    pub tag: Tag,
    pub action: u32,
    pub value: Value,
}

/// The stop tag, and the events in ascending order of tag and action, each pair once: a map from
/// (tag, action) to value.
// A list and no map: it takes 32 bytes an event, and most events are told in their order.
#[derive(Debug, Drop)]
pub struct Externals {
    stop: Tag,
    events: Vec<Event>,
}

impl Model for Externals {
    ghost use Rattle.lft_ir.specs.Steps.Inputs.{ExternalInputs};

    ghost Value = { ExternalInputs };

    ghost view = { λ a. record { stop = a.stop; events = a.events.items } };

    ghost use Rattle.lft_ir.specs.Steps.Inputs.{InOrder};

    ghost invariant = { λ a. InOrder a.events.items };
}

impl Externals {
    ghost use Rattle.lft_ir.specs.Steps.{Fits.ExternalsFit, Inputs.{InOrder, IsTold}};

    /// The external inputs of a stop tag and of events in their order. It takes no memory.
    pub fn from_parts(stop: Tag, events: Vec<Event>) -> Externals
        requires { InOrder events.items }
        ensures { result ≡ record { stop = stop; events = events.items } }
    {
        Externals { stop, events }
    }

    /// Does nothing. It is called for its clause, where code has external inputs and a proof needs
    /// what all of them keep: their events stand in order.
    pub fn keeps(&self)
        ensures order { InOrder self.now.events }
    {
        let _ = &self.events;
    }

    /// The greatest tag of the execution.
    pub fn stop(&self) -> Tag
        ensures { result ≡ self.now.stop }
    {
        self.stop
    }

    /// The events, ascending by tag and then by action.
    pub fn events(&self) -> &[Event]
        ensures value { result.now ≡ self.now.events }
        ensures order { InOrder self.now.events }
    {
        self.events.as_slice()
    }

    /// Puts an event at its place in the order, and gives the place; or gives None and leaves all as
    /// it was, where an event of its action at its tag is there already. Where memory is refused all
    /// stays as it was.
    pub fn tell(&mut self, event: Event) -> Result<Option<usize>, NoMemory>
        ensures stop { self.new.stop ≡ self.old.stop }
        ensures some { IfOk result (λ place. IfSome place (λ p. (p ≤ length self.old.events) × (self.new.events ≡ insert self.old.events p event))) }
        ensures none { IfOk result (λ place. IfNone place (IsTold self.old.events event × (self.new.events ≡ self.old.events))) }
        ensures err { OnErr result (self.new.events ≡ self.old.events) }
    {
        let Some(place) = place_of(self.events.as_slice(), event) else {
            return Ok(None);
        };
        match self.events.insert(place, event) {
            Ok(()) => Ok(Some(place)),
            Err(_) => Err(NoMemory),
        }
    }

    /// Makes the tag the stop. The events stay.
    pub fn stop_at(&mut self, stop: Tag)
        ensures { self.new ≡ record { stop = stop; events = self.old.events } }
    {
        self.stop = stop;
    }

    /// Whether all actions are of the program and all tags recorded, in at most 4,000,000 events.
    /// It takes no memory.
    pub fn fits(&self, program: &Program) -> bool
        ensures { IsTrue result ↔ ExternalsFit program.now self.now }
    {
        if self.events.len() > MAX_ROWS || !is_recorded(self.stop) {
            return false;
        }
        for at in 0..self.events.len() {
            if !event_fits(self.events[at], program) {
                return false;
            }
        }
        true
    }

    /// Whether the two have the same stop tag and the same events. It takes no memory.
    pub fn same(&self, other: &Externals) -> bool
        ensures { IsTrue result ↔ (self.now ≡ other.now) }
    {
        other.stop.is_same(self.stop)
            && same_events(self.events.as_slice(), other.events.as_slice())
    }

    /// The same external inputs.
    pub fn copy(&self, alloc: Global) -> Result<Externals, NoMemory>
        ensures { IfOk result (λ copy. copy ≡ self.now) }
    {
        let stop = self.stop();
        let events = Vec::from_slice(alloc, self.events())?;
        Ok(Externals::from_parts(stop, events))
    }
}
