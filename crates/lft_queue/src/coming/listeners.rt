//! Which reactions each port and each action triggers.

ghost use Rattle.std.specs.Prelude.{◌≡◌, ℕ, List, ◌<◌, length, Some, None, IfSome, IfNone, IfOk, OnOk, IsTrue, Contains, slice_get};
ghost use Rattle.lft_ir.specs.{Sound.IsNameOf, declared.parts.Name.Name as TheName};
ghost use Rattle.lft_queue.specs.inner.Coming.AtOnce.{is_undelayed};
ghost use Rattle.lft_queue.specs.inner.Coming.Listeners.{list_of, heard_at as is_heard_at, HasListOf, BothGrow, IsListed, IsUnheard, AreNameListeners};

use crate::coming::at_once::is_undelayed;
use crate::coming::number_lists::NumberLists;
use lft_ir::{Name, Program};
use lft_lists::item_at;
use lft_model::Plan;
use lft_tag::NoMemory;
use std::alloc::Global;

/// For each port and each action the reactions that it triggers. Those of a port that is reached
/// without a delay are its origin's.
// Rows that write name origins, so a write finds its listeners in one look-up.
#[derive(Drop)]
pub struct NameListeners {
    ports: NumberLists,
    actions: NumberLists,
}

/// The name whose list has the listeners of the name.
fn heard_at(program: &Program, name: Name) -> Name
    requires { IsNameOf program.now name }
    ensures is { result ≡ is_heard_at program.now name }
    ensures known { IsNameOf program.now result }
{
    match name {
        Name::Port(number) => {
            if is_undelayed(program, number) {
                Name::Port(program.port(number).origin)
            } else {
                Name::Port(number)
            }
        }
        Name::Action(number) => Name::Action(number),
    }
}

impl NameListeners {
    /// Names that trigger nothing.
    fn empty(alloc: Global, program: &Program) -> Result<NameListeners, NoMemory>
        ensures ports { IfOk result (λ listeners. length listeners.ports ≡ length program.now.ports) }
        ensures actions { IfOk result (λ listeners. length listeners.actions ≡ length program.now.actions) }
    {
        Ok(NameListeners {
            ports: NumberLists::empty(alloc, program.ports())?,
            actions: NumberLists::empty(alloc, program.actions())?,
        })
    }

    /// The listeners of the port, as an origin of others.
    pub fn of(&self, port: u32) -> &[u32]
        requires { port < length self.now.ports }
        ensures { slice_get self.now.ports port ≡ Some result.now }
    {
        self.ports.of(port)
    }

    /// The list of the name, if there is one.
    pub fn get(&self, name: Name) -> Option<&[u32]>
        ensures some { IfSome result (λ list. list_of self.now name ≡ Some list.now) }
        ensures none { IfNone result (list_of self.now name ≡ None) }
    {
        match name {
            Name::Port(number) => self.ports.get(number),
            Name::Action(number) => self.actions.get(number),
        }
    }

    /// Whether the name has a list, and it is empty.
    pub(crate) fn is_unheard(&self, name: Name) -> bool
        ensures { IsTrue result → IsUnheard self.now name }
    {
        match self.get(name) {
            Some(list) => list.is_empty(),
            // Of a name without a list nothing is known.
            None => false,
        }
    }

    /// Adds a listener to the list of the name.
    fn push(&mut self, name: Name, reaction: u32) -> Result<(), NoMemory>
        requires { HasListOf self.old name }
        ensures grown { OnOk result (BothGrow self.old self.new) }
        ensures listed { OnOk result ((list : List ℕ) → list_of self.new name ≡ Some list → Contains list reaction) }
    {
        match name {
            Name::Port(number) => self.ports.push(number, reaction),
            Name::Action(number) => self.actions.push(number, reaction),
        }
    }

    /// Adds the reaction for each of the names.
    fn add(&mut self, program: &Program, names: &[Name], reaction: u32) -> Result<(), NoMemory>
        requires names { (k : ℕ) (n : TheName) → slice_get names.now k ≡ Some n → IsNameOf program.now n }
        requires ports { length self.old.ports ≡ length program.now.ports }
        requires actions { length self.old.actions ≡ length program.now.actions }
        ensures grown { OnOk result (BothGrow self.old self.new) }
        ensures listed { OnOk result (IsListed program.now names.now reaction self.new) }
    {
        for place in 0..names.len() {
            self.push(heard_at(program, item_at(names, place)), reaction)?;
        }
        Ok(())
    }

    /// The listeners of each name.
    pub fn new(alloc: Global, plan: &Plan) -> Result<NameListeners, NoMemory>
        ensures { IfOk result (AreNameListeners plan.now) }
    {
        let program = plan.program();
        let mut listeners = NameListeners::empty(alloc, program)?;
        for number in 0..program.reactions() as u32 {
            let names = program.reaction(number).triggers.names();
            listeners.add(program, names, number)?;
        }
        Ok(listeners)
    }
}
