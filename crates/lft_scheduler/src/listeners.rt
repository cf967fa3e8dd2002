//! The listeners of a program.

ghost use Rattle.std.specs.Prelude.{◌↔◌, ℕ, length, Contains, IfOk, OnOk};
ghost use Rattle.lft_ir.specs.{Parts.Parts, declared.parts.Trigger.Trigger as TriggerOf};
ghost use Rattle.lft_scheduler.specs.inner.{Listeners.{IsListener, IsLive, AreListeners}, Lists.{HasList, ArePushed}, Filling.AreListed};

mod arrivals;
mod by_trigger;
mod leading;
mod watched;

use crate::listeners::by_trigger::ByTrigger;
use crate::listeners::leading::live_timers;
pub(crate) use arrivals::Arrivals;
use lft_ir::{Program, Trigger};
use lft_lists::item_at;
use lft_tag::NoMemory;
use std::alloc::Global;
use std::marker::Model;

/// The listeners of each trigger of a program: the reactions that it triggers.
#[derive(Drop)]
pub(crate) struct Listeners {
    by_trigger: ByTrigger,
    live_timers: Vec<u32>,
}

impl Model for Listeners {
    ghost use Rattle.lft_scheduler.specs.inner.Listeners.{ListenerParts};

    ghost Value = { ListenerParts };

    ghost view = { λ a. record { by_trigger = a.by_trigger; live_timers = a.live_timers.items } };
}

// the reaction is put into the list of each of its triggers
fn push_all(lists: &mut ByTrigger, triggers: &[Trigger], reaction: u32) -> Result<(), NoMemory>
    requires { (t : TriggerOf) → Contains triggers.now t → HasList lists.old t }
    ensures { OnOk result (ArePushed triggers.now reaction lists.old lists.new) }
{
    'triggers: for place in 0..triggers.len() {
        lists.push(item_at(triggers, place), reaction)?;
    }
    Ok(())
}

// the reactions that each trigger triggers
fn reactions_by_trigger(alloc: Global, program: &Program) -> Result<ByTrigger, NoMemory>
    ensures { IfOk result (λ lists. AreListed program.now (length program.now.reactions) lists) }
{
    let mut lists = ByTrigger::new(alloc, program)?;
    'reactions: for number in 0..program.reactions() {
        let triggers = program.reaction(number as u32).triggers.as_slice();
        push_all(&mut lists, triggers, number as u32)?;
    }
    Ok(lists)
}

impl Listeners {
    /// The listeners of the program. It costs what the program's triggers, timers, ports and
    /// actions are.
    pub(crate) fn new(alloc: Global, program: &Program) -> Result<Listeners, NoMemory>
        ensures { IfOk result (λ listeners. AreListeners program.now listeners) }
    {
        // Asked for what every program keeps: a timer that a reaction names is one of the program.
        program.keeps();
        let by_trigger = reactions_by_trigger(alloc, program)?;
        let live_timers = live_timers(alloc, program)?;
        Ok(Listeners {
            by_trigger,
            live_timers,
        })
    }

    /// The reactions that the trigger triggers; none where it is of another program.
    pub(crate) fn of(&self, trigger: Trigger) -> &[u32]
        ensures { (program : Parts) → AreListeners program self.now → (r : ℕ) → Contains result.now r ↔ IsListener program trigger r }
    {
        self.by_trigger.at(trigger)
    }

    /// The timers that trigger a reaction and lead there: where others among its triggers fire only
    /// when one of them does, that one alone.
    pub(crate) fn live_timers(&self) -> &[u32]
        ensures { (program : Parts) → AreListeners program self.now → (n : ℕ) → Contains result.now n ↔ IsLive program n }
    {
        self.live_timers.as_slice()
    }
}
