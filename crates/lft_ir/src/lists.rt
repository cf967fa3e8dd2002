//! The lists that a reaction holds, seen as lists.

ghost use Rattle.std.specs.Prelude.{◌≡◌, filter_map, IfOk};
ghost use Rattle.lft_ir.specs.Naming.{named};

use crate::parts::{Name, Trigger};
use lft_lists::List;
use lft_tag::NoMemory;
use std::alloc::Global;
use std::marker::Model;

/// Some ports and actions in order.
pub type Names = List<Name>;

// The ports and actions among the triggers, in order.
fn names_of(alloc: Global, triggers: &[Trigger]) -> Result<Vec<Name>, NoMemory>
    ensures { IfOk result (λ names. names.items ≡ filter_map named triggers.now) }
{
    let mut names = Vec::new(alloc);
    for place in 0..triggers.len() {
        if let Trigger::On(name) = triggers[place] {
            names.push(name)?;
        }
    }
    Ok(names)
}

/// Some triggers in order. The ports and actions among them stand in a list of their own, so that
/// a reaction with many timers is asked for its few inputs alone.
// A pass over all triggers would go through thousands of timers at each tag.
#[derive(Debug, Drop)]
pub struct Triggers {
    items: Vec<Trigger>,
    names: Vec<Name>,
}

impl Model for Triggers {
    ghost use Rattle.std.specs.Prelude.{◌≡◌, List, filter_map};
    ghost use Rattle.lft_ir.specs.{declared.parts.Trigger.Trigger, Naming.named};

    ghost Value = { List Trigger };

    ghost view = { λ a. a.items.items };

    ghost invariant = { λ a. a.names.items ≡ filter_map named a.items.items };
}

impl Triggers {
    /// The list of these items.
    pub fn new(alloc: Global, items: Vec<Trigger>) -> Result<Triggers, NoMemory>
        ensures { IfOk result (λ triggers. triggers ≡ items.items) }
    {
        let names = names_of(alloc, items.as_slice())?;
        Ok(Triggers { items, names })
    }

    /// The items in order.
    pub fn as_slice(&self) -> &[Trigger]
        ensures { result.now ≡ self.now }
    {
        self.items.as_slice()
    }

    /// The ports and actions among them, in order.
    pub fn names(&self) -> &[Name]
        ensures { result.now ≡ filter_map named self.now }
    {
        self.names.as_slice()
    }

    /// The same list.
    pub(crate) fn copy(&self, alloc: Global) -> Result<Triggers, NoMemory>
        ensures { IfOk result (λ copy. copy ≡ self.now) }
    {
        let items = Vec::from_slice(alloc, self.items.as_slice())?;
        Triggers::new(alloc, items)
    }
}
