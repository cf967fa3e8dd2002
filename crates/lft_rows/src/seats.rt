//! The inputs of a reaction, to be looked up one by one.

ghost use Rattle.std.specs.Prelude.{◌≡◌, ℕ, Some, IfOk, MatchOption, slice_get};

use lft_ir::{Name, Names};
use lft_lists::item_at;
use lft_tag::NoMemory;
use std::alloc::Global;
use std::collections::BTreeMap;
use std::marker::Model;

/// The inputs of one reaction in order, and the place of each by its number, the ports apart from
/// the actions. A run may read thousands, in any order.
// So a walk over the inputs at each row would cost by both.
#[derive(Drop)]
pub(crate) struct Inputs {
    names: Names,
    ports: BTreeMap<u32, usize>,
    actions: BTreeMap<u32, usize>,
}

impl Model for Inputs {
    ghost use Rattle.std.specs.Prelude.{List};
    ghost use Rattle.lft_ir.specs.declared.parts.Name.{Name};
    ghost use Rattle.lft_rows.specs.inner.Seats.{AreSeats};

    ghost Value = { List Name };

    ghost view = { λ a. a.names };

    ghost invariant = { λ a. AreSeats a.names a.ports a.actions };
}

impl Inputs {
    /// The inputs of these names.
    pub(crate) fn new(alloc: Global, names: Names) -> Result<Inputs, NoMemory>
        ensures { IfOk result (λ inputs. inputs ≡ names) }
    {
        let mut ports = BTreeMap::new(alloc);
        let mut actions = BTreeMap::new(alloc);
        let list = names.as_slice();
        for place in 0..list.len() {
            let _before = match item_at(list, place) {
                Name::Port(port) => ports.insert(port, place)?,
                Name::Action(action) => actions.insert(action, place)?,
            };
        }
        Ok(Inputs {
            names,
            ports,
            actions,
        })
    }

    /// The names in order.
    pub(crate) fn as_slice(&self) -> &[Name]
        ensures { result.now ≡ self.now }
    {
        self.names.as_slice()
    }

    /// The place of the name, if it is an input. The place that is guessed is asked first, and in
    /// place of one past the last that of the first name.
    pub(crate) fn seat(&self, name: Name, guess: usize) -> Option<usize>
        ensures { MatchOption result ((k : ℕ) → ¬ (slice_get self.now k ≡ Some name)) (λ k. slice_get self.now k ≡ Some name) }
    {
        let names = self.names.as_slice();
        let first = if guess < names.len() { guess } else { 0 };
        if first < names.len() && item_at(names, first) == name {
            return Some(first);
        }
        match name {
            Name::Port(port) => self.ports.get(&port).copied(),
            Name::Action(action) => self.actions.get(&action).copied(),
        }
    }
}
