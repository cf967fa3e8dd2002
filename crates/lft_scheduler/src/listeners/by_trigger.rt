//! A list of reactions for each trigger.

ghost use Rattle.std.specs.Prelude.{◌≡◌, [], IfOk, OnOk};
ghost use Rattle.lft_ir.specs.{declared.parts.Trigger.Trigger as TriggerOf, Sound.IsTriggerOf};
ghost use Rattle.lft_scheduler.specs.inner.Lists.{list_of_trigger, HasList, IsPushed};

use lft_ir::{Name, Program, Trigger};
use lft_queue::coming::NumberLists;
use lft_tag::NoMemory;
use std::alloc::Global;
use std::marker::Model;

/// A list of reactions for each trigger of a program.
#[derive(Drop)]
pub(crate) struct ByTrigger {
    startup: Vec<u32>,
    shutdown: Vec<u32>,
    timers: NumberLists,
    ports: NumberLists,
    actions: NumberLists,
}

impl Model for ByTrigger {
    ghost use Rattle.lft_scheduler.specs.inner.Lists.{TriggerLists};

    ghost Value = { TriggerLists };

    ghost view = { λ a. record { startup = a.startup.items; shutdown = a.shutdown.items; timers = a.timers; ports = a.ports; actions = a.actions } };
}

impl ByTrigger {
    // an empty list for each trigger of the program
    pub(crate) fn new(alloc: Global, program: &Program) -> Result<ByTrigger, NoMemory>
        ensures room { IfOk result (λ lists. (t : TriggerOf) → IsTriggerOf program.now t → HasList lists t) }
        ensures empty { IfOk result (λ lists. (t : TriggerOf) → list_of_trigger lists t ≡ []) }
    {
        Ok(ByTrigger {
            startup: Vec::new(alloc),
            shutdown: Vec::new(alloc),
            timers: NumberLists::empty(alloc, program.timers())?,
            ports: NumberLists::empty(alloc, program.ports())?,
            actions: NumberLists::empty(alloc, program.actions())?,
        })
    }

    // one more reaction in the list of a trigger
    pub(crate) fn push(&mut self, trigger: Trigger, reaction: u32) -> Result<(), NoMemory>
        requires { HasList self.old trigger }
        ensures { OnOk result (IsPushed trigger reaction self.old self.new) }
    {
        match trigger {
            Trigger::Startup => self.startup.push(reaction)?,
            Trigger::Shutdown => self.shutdown.push(reaction)?,
            Trigger::Timer(timer) => self.timers.push(timer, reaction)?,
            Trigger::On(Name::Port(port)) => self.ports.push(port, reaction)?,
            Trigger::On(Name::Action(action)) => self.actions.push(action, reaction)?,
        }
        Ok(())
    }

    // the list of a trigger, empty for one of another program
    pub(crate) fn at(&self, trigger: Trigger) -> &[u32]
        ensures { result.now ≡ list_of_trigger self.now trigger }
    {
        match trigger {
            Trigger::Startup => self.startup.as_slice(),
            Trigger::Shutdown => self.shutdown.as_slice(),
            Trigger::Timer(timer) => self.timers.at(timer),
            Trigger::On(Name::Port(port)) => self.ports.at(port),
            Trigger::On(Name::Action(action)) => self.actions.at(action),
        }
    }
}
