//! The parts of a flat program. Each port, action, timer and reaction is known by its number among
//! its kind, and each instance by its number in pre-order.

ghost use Rattle.std.specs.Prelude.{◌≡◌, IfOk};
ghost use Rattle.lft_ir.specs.Parts.{inputs};

use crate::lists::{Names, Triggers};
use lft_tag::{NoMemory, Shift, Source};
use std::alloc::Global;

/// What a port or an action carries: nothing beside its presence, or a number.
#[derive(Clone, Copy, PartialEq, Eq, Debug, Drop)]
pub enum Value {
    Bare,
    Int(i64),
}

/// What a reaction reads, writes or schedules.
#[derive(Clone, Copy, PartialEq, Eq, Debug, Drop)]
pub enum Name {
    Port(u32),
    Action(u32),
}

/// What makes a reaction run.
#[derive(Clone, Copy, PartialEq, Eq, Debug, Drop)]
pub enum Trigger {
    Startup,
    Shutdown,
    Timer(u32),
    On(Name),
}

/// A port, with the end of its chain of connections walked backwards and the delays of that chain.
#[derive(Clone, Copy, PartialEq, Eq, Debug, Drop)]
pub struct Port {
    pub instance: u32,
    pub is_input: bool,
    pub source: Option<Source>,
    pub origin: u32,
    pub shift: Shift,
}

/// An action; its minimum delay is in nanoseconds, 0 where none is written.
#[derive(Clone, Copy, PartialEq, Eq, Debug, Drop)]
pub struct Action {
    pub instance: u32,
    pub physical: bool,
    pub min_delay: u64,
}

/// A timer; offset and period are in nanoseconds, 0 where none is written. It fires once where the
/// period is 0.
#[derive(Clone, Copy, PartialEq, Eq, Debug, Drop)]
pub struct Timer {
    pub instance: u32,
    pub offset: u64,
    pub period: u64,
}

/// A reaction: its place among those of its instance, counted from 0, and what it names, each list
/// in order of declaration. A timer as a use isn't kept.
// Nothing is read of a timer. So as a use it has no row, and isn't kept.
#[derive(Debug, Drop)]
pub struct Reaction {
    pub instance: u32,
    pub place: u32,
    pub triggers: Triggers,
    pub uses: Names,
    pub effects: Names,
}

impl Reaction {
    /// The ports and actions that it reads, triggers before uses.
    pub fn inputs(&self, alloc: Global) -> Result<Vec<Name>, NoMemory>
        ensures { IfOk result (λ names. names.items ≡ inputs self.now) }
    {
        let mut names = Vec::from_slice(alloc, self.triggers.names())?;
        names.extend_from_slice(self.uses.as_slice())?;
        Ok(names)
    }
}
