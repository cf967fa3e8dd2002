//! What some steps read last of each port and of each action.

ghost use Rattle.std.specs.Prelude.{◌≡◌, None, IfOk, OnOk};
ghost use Rattle.lft_model.specs.Runs.{value_read as the_value_read};
ghost use Rattle.lft_ir.specs.declared.parts.Name.{Name as TheName};
ghost use Rattle.lft_rows.specs.inner.Answers.Readings.{last_of, read_as, AreReadBy, IsPut};

use lft_ir::steps::Step;
use lft_ir::{Name, Value};
use lft_lists::item_at;
use lft_tag::NoMemory;
use std::alloc::Global;
use std::collections::BTreeMap;

/// What some steps read last of each port and of each action.
// A run may read as many ports as its reaction has inputs, so each input is looked up here, and the
// steps are gone through once.
#[derive(Drop)]
pub(crate) struct Readings {
    ports: BTreeMap<u32, Value>,
    actions: BTreeMap<u32, Value>,
}

impl Readings {
    /// Nothing is kept.
    fn new(alloc: Global) -> Readings
        ensures { (n : TheName) → last_of result n ≡ None }
    {
        Readings {
            ports: BTreeMap::new(alloc),
            actions: BTreeMap::new(alloc),
        }
    }

    /// Keeps the value of the port or action, in place of one before.
    fn put(&mut self, name: Name, value: Value) -> Result<(), NoMemory>
        ensures { OnOk result (IsPut name value self.old self.new) }
    {
        match name {
            Name::Port(port) => {
                let _before = self.ports.insert(port, value)?;
            }
            Name::Action(action) => {
                let _before = self.actions.insert(action, value)?;
            }
        }
        Ok(())
    }

    /// What is kept of the port or action.
    pub(crate) fn get(&self, name: Name) -> Option<Value>
        ensures { result ≡ last_of self.now name }
    {
        match name {
            Name::Port(port) => self.ports.get(&port).copied(),
            Name::Action(action) => self.actions.get(&action).copied(),
        }
    }
}

/// The port or action that the step reads and the value, if it reads one.
fn reading(step: Step) -> Option<(Name, Value)>
    ensures { (n : TheName) → the_value_read n step ≡ read_as n result }
{
    match step {
        Step::Read(name, value) => Some((name, value)),
        _ => None,
    }
}

/// What the steps read last of each port and of each action.
pub(crate) fn readings_of(alloc: Global, steps: &[Step]) -> Result<Readings, NoMemory>
    ensures { IfOk result (AreReadBy steps.now) }
{
    let mut readings = Readings::new(alloc);
    for place in 0..steps.len() {
        if let Some(read) = reading(item_at(steps, place)) {
            readings.put(read.0, read.1)?;
        }
    }
    Ok(readings)
}
