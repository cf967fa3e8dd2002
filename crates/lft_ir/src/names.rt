//! The names of a program's things.

ghost use Rattle.std.specs.Prelude.{◌≡◌, ◌≤◌, ◌<◌, length, slice_get, Some, IfSome, IfNone, IfOk};
ghost use Rattle.std.specs.Bool.{Decides};

use crate::found::Found;
use crate::texts::Texts;
use lft_tag::NoMemory;
use std::alloc::Global;
use std::marker::Model;

/// Where the names of each kind but the first begin.
#[derive(Clone, Copy, Debug)]
pub struct Starts {
    pub ports: u32,
    pub actions: u32,
    pub timers: u32,
    pub reactions: u32,
}

impl Starts {
    ghost use Rattle.lft_ir.specs.inner.Places.{AreStarts, thing_at};

    /// Whether each kind begins at the same place.
    fn same(&self, other: Starts) -> bool
        ensures { Decides result (self.now ≡ other) }
    {
        self.ports == other.ports
            && self.actions == other.actions
            && self.timers == other.timers
            && self.reactions == other.reactions
    }

    /// The thing whose name stands at this place.
    fn thing(&self, place: u32) -> Found
        ensures { result ≡ thing_at self.now place }
    {
        if place < self.ports {
            Found::Instance(place)
        } else if place < self.actions {
            Found::Port(place - self.ports)
        } else if place < self.timers {
            Found::Action(place - self.actions)
        } else if place < self.reactions {
            Found::Timer(place - self.timers)
        } else {
            Found::Reaction(place - self.reactions)
        }
    }
}

/// The name of each thing of a program: the names of the instances, ports, actions, timers and
/// reactions one after another, each kind in the order of its numbers.
// One table for all kinds, so that a text is found in one look-up, whatever it names.
#[derive(Debug, Drop)]
pub struct NameTable {
    texts: Texts,
    starts: Starts,
}

impl Model for NameTable {
    ghost use Rattle.std.specs.Prelude.{length};
    ghost use Rattle.lft_ir.specs.{Names.ThingNames, inner.{Names.HasNoTwice, Places.{names_from, AreStarts, AreUtf8}}};

    ghost Value = { ThingNames };

    ghost view = { λ a. names_from a.texts a.starts };

    ghost invariant = { λ a. AreStarts a.starts (length a.texts) × HasNoTwice a.texts × AreUtf8 a.texts };
}

impl NameTable {
    ghost use Rattle.lft_ir.specs.{Names.{IsNamed, AreDistinct}, inner.Places.{names_from, AreStarts}, declared.found.Found.Found};

    /// The table of these names, of which each kind begins where `starts` says.
    pub fn new(texts: Texts, starts: Starts) -> NameTable
        requires { AreStarts starts (length texts) }
        ensures value { result ≡ names_from texts starts }
        ensures distinct { AreDistinct result }
    {
        // Asked for what every list of texts keeps: none stands there twice, so no text names two
        // things.
        texts.keeps();
        NameTable { texts, starts }
    }

    /// What the text names, if it names a thing.
    pub fn find(&self, text: &str) -> Option<Found>
        ensures some { IfSome result (λ f. IsNamed self.now f text.now) }
        ensures none { IfNone result ((f : Found) → IsNamed self.now f text.now → ⊥) }
    {
        let place = self.texts.find(text)?;
        Some(self.starts.thing(place as u32))
    }

    /// What the bytes name, if they name a thing.
    pub fn find_bytes(&self, name: &[u8]) -> Option<Found>
        ensures some { IfSome result (λ f. IsNamed self.now f name.now) }
        ensures none { IfNone result ((f : Found) → IsNamed self.now f name.now → ⊥) }
    {
        // Read for what every table keeps: each name is UTF-8, so bytes that aren't name nothing.
        let _ = &self.starts;
        match std::str::from_utf8(name) {
            Ok(text) => self.find(text),
            Err(_) => None,
        }
    }

    /// How many instances have a name.
    pub fn instances(&self) -> usize
        ensures { result ≡ length self.now.instances }
    {
        self.starts.ports as usize
    }

    /// The name of this instance.
    pub fn instance(&self, number: u32) -> &str
        requires { number < length self.now.instances }
        ensures { slice_get self.now.instances number ≡ Some result.now }
    {
        self.texts.get(number as usize)
    }

    /// The name of this port.
    pub fn port(&self, number: u32) -> &str
        requires { number < length self.now.ports }
        ensures { slice_get self.now.ports number ≡ Some result.now }
    {
        self.texts.get((self.starts.ports + number) as usize)
    }

    /// The name of this action.
    pub fn action(&self, number: u32) -> &str
        requires { number < length self.now.actions }
        ensures { slice_get self.now.actions number ≡ Some result.now }
    {
        self.texts.get((self.starts.actions + number) as usize)
    }

    /// The name of this timer.
    pub fn timer(&self, number: u32) -> &str
        requires { number < length self.now.timers }
        ensures { slice_get self.now.timers number ≡ Some result.now }
    {
        self.texts.get((self.starts.timers + number) as usize)
    }

    /// The name of this reaction.
    pub fn reaction(&self, number: u32) -> &str
        requires { number < length self.now.reactions }
        ensures { slice_get self.now.reactions number ≡ Some result.now }
    {
        self.texts.get((self.starts.reactions + number) as usize)
    }

    /// Whether the two have the same names for the same things.
    pub fn same(&self, other: &NameTable) -> bool
        ensures { Decides result (self.now ≡ other.now) }
    {
        if !self.starts.same(other.starts) {
            return false;
        }
        self.texts.same(&other.texts)
    }

    /// The same names.
    pub fn copy(&self, alloc: Global) -> Result<NameTable, NoMemory>
        ensures { IfOk result (λ copy. copy ≡ self.now) }
    {
        let starts = self.starts;
        let texts = self.texts.copy(alloc)?;
        Ok(NameTable { texts, starts })
    }
}
