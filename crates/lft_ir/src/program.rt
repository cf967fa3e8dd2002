//! A flat program.

ghost use Rattle.std.specs.Prelude.{◌≡◌, ◌<◌, length, slice_get, Some, IfSome, IfNone, IfOk, IsTrue, ◌↔◌};

use crate::copies::copy_reactions;
use crate::found::Found;
use crate::names::NameTable;
use crate::parts::{Action, Port, Reaction, Timer};
use crate::same::{same_actions, same_ports, same_reactions, same_timers};
use lft_tag::NoMemory;
use std::alloc::Global;
use std::marker::Model;

/// A flat program: numbered instances, ports, actions, timers and reactions with their names.
#[derive(Debug, Drop)]
pub struct Program {
    ports: Vec<Port>,
    actions: Vec<Action>,
    timers: Vec<Timer>,
    reactions: Vec<Reaction>,
    names: NameTable,
}

impl Model for Program {
    ghost use Rattle.lft_ir.specs.Parts.{Parts};

    ghost Value = { Parts };

    ghost view = { λ a. record { ports = a.ports.items; actions = a.actions.items; timers = a.timers.items; reactions = a.reactions.items; names = a.names } };

    ghost use Rattle.lft_ir.specs.Sound.{IsSound};

    ghost invariant = { λ a. IsSound (record { ports = a.ports.items; actions = a.actions.items; timers = a.timers.items; reactions = a.reactions.items; names = a.names }) };
}

impl Program {
    ghost use Rattle.lft_ir.specs.{Names.IsNamed, Sound.IsSound, declared.found.Found.Found};

    /// The program of the given parts.
    pub fn from_parts(
        ports: Vec<Port>,
        actions: Vec<Action>,
        timers: Vec<Timer>,
        reactions: Vec<Reaction>,
        names: NameTable,
    ) -> Program
        requires { IsSound (record { ports = ports.items; actions = actions.items; timers = timers.items; reactions = reactions.items; names = names }) }
        ensures { result ≡ record { ports = ports.items; actions = actions.items; timers = timers.items; reactions = reactions.items; names = names } }
    {
        // It is public, since another crate makes programs. It asks for sound parts, so none is tested again.
        Program {
            ports,
            actions,
            timers,
            reactions,
            names,
        }
    }

    /// Does nothing. It is called for its clause, where code has the program and a proof needs what
    /// every program keeps: it is sound.
    pub fn keeps(&self)
        ensures sound { IsSound self.now }
    {
        let _ = &self.names;
    }

    /// How many instances there are.
    pub fn instances(&self) -> usize
        ensures count { result ≡ length self.now.names.instances }
        ensures sound { IsSound self.now }
    {
        self.names.instances()
    }

    /// How many ports there are.
    pub fn ports(&self) -> usize
        ensures count { result ≡ length self.now.ports }
        ensures sound { IsSound self.now }
    {
        self.ports.len()
    }

    /// How many actions there are.
    pub fn actions(&self) -> usize
        ensures count { result ≡ length self.now.actions }
        ensures sound { IsSound self.now }
    {
        self.actions.len()
    }

    /// How many timers there are.
    pub fn timers(&self) -> usize
        ensures count { result ≡ length self.now.timers }
        ensures sound { IsSound self.now }
    {
        self.timers.len()
    }

    /// How many reactions there are.
    pub fn reactions(&self) -> usize
        ensures count { result ≡ length self.now.reactions }
        ensures sound { IsSound self.now }
    {
        self.reactions.len()
    }

    /// The port of this number.
    pub fn port(&self, number: u32) -> &Port
        requires { number < length self.now.ports }
        ensures value { slice_get self.now.ports number ≡ Some result.now }
        ensures sound { IsSound self.now }
    {
        &self.ports[number as usize]
    }

    /// The action of this number.
    pub fn action(&self, number: u32) -> &Action
        requires { number < length self.now.actions }
        ensures value { slice_get self.now.actions number ≡ Some result.now }
        ensures sound { IsSound self.now }
    {
        &self.actions[number as usize]
    }

    /// The timer of this number.
    pub fn timer(&self, number: u32) -> &Timer
        requires { number < length self.now.timers }
        ensures value { slice_get self.now.timers number ≡ Some result.now }
        ensures sound { IsSound self.now }
    {
        &self.timers[number as usize]
    }

    /// The reaction of this number.
    pub fn reaction(&self, number: u32) -> &Reaction
        requires { number < length self.now.reactions }
        ensures value { slice_get self.now.reactions number ≡ Some result.now }
        ensures sound { IsSound self.now }
    {
        &self.reactions[number as usize]
    }

    /// The name of the instance of this number.
    pub fn name_of_instance(&self, number: u32) -> &str
        requires { number < length self.now.names.instances }
        ensures value { slice_get self.now.names.instances number ≡ Some result.now }
        ensures sound { IsSound self.now }
    {
        self.names.instance(number)
    }

    /// The name of the port of this number.
    pub fn name_of_port(&self, number: u32) -> &str
        requires { number < length self.now.ports }
        ensures value { slice_get self.now.names.ports number ≡ Some result.now }
        ensures sound { IsSound self.now }
    {
        self.names.port(number)
    }

    /// The name of the action of this number.
    pub fn name_of_action(&self, number: u32) -> &str
        requires { number < length self.now.actions }
        ensures value { slice_get self.now.names.actions number ≡ Some result.now }
        ensures sound { IsSound self.now }
    {
        self.names.action(number)
    }

    /// The name of the timer of this number.
    pub fn name_of_timer(&self, number: u32) -> &str
        requires { number < length self.now.timers }
        ensures value { slice_get self.now.names.timers number ≡ Some result.now }
        ensures sound { IsSound self.now }
    {
        self.names.timer(number)
    }

    /// The name of the reaction of this number.
    pub fn name_of_reaction(&self, number: u32) -> &str
        requires { number < length self.now.reactions }
        ensures value { slice_get self.now.names.reactions number ≡ Some result.now }
        ensures sound { IsSound self.now }
    {
        self.names.reaction(number)
    }

    /// What the text names: `main` and `main.a` are instances, `main.a.out` a port, action or
    /// timer, `main.a#1` the first reaction of `main.a`.
    pub fn find(&self, text: &str) -> Option<Found>
        ensures some { IfSome result (λ f. IsNamed self.now.names f text.now) }
        ensures none { IfNone result ((f : Found) → IsNamed self.now.names f text.now → ⊥) }
        ensures sound { IsSound self.now }
    {
        self.names.find(text)
    }

    /// What the bytes name, as `find` of their text. Bytes that aren't UTF-8 name nothing.
    pub fn find_bytes(&self, name: &[u8]) -> Option<Found>
        ensures some { IfSome result (λ f. IsNamed self.now.names f name.now) }
        ensures none { IfNone result ((f : Found) → IsNamed self.now.names f name.now → ⊥) }
        ensures sound { IsSound self.now }
    {
        self.names.find_bytes(name)
    }

    /// Whether the two programs have the same parts and names.
    pub fn same(&self, other: &Program) -> bool
        ensures { IsTrue result ↔ (self.now ≡ other.now) }
    {
        same_ports(self.ports.as_slice(), other.ports.as_slice())
            && same_actions(self.actions.as_slice(), other.actions.as_slice())
            && same_timers(self.timers.as_slice(), other.timers.as_slice())
            && same_reactions(self.reactions.as_slice(), other.reactions.as_slice())
            && self.names.same(&other.names)
    }

    /// The same program.
    pub fn copy(&self, alloc: Global) -> Result<Program, NoMemory>
        ensures { IfOk result (λ copy. copy ≡ self.now) }
    {
        let ports = Vec::from_slice(alloc, self.ports.as_slice())?;
        let actions = Vec::from_slice(alloc, self.actions.as_slice())?;
        let timers = Vec::from_slice(alloc, self.timers.as_slice())?;
        let reactions = copy_reactions(alloc, self.reactions.as_slice())?;
        let names = self.names.copy(alloc)?;
        Ok(Program::from_parts(ports, actions, timers, reactions, names))
    }
}
