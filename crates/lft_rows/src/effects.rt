//! The effects of each reaction, to be looked up one by one.

ghost use Rattle.std.specs.Prelude.{◌≡◌, ◌<◌, ◌↔◌, length, IsTrue, IfOk, Contains};
ghost use Rattle.lft_ir.specs.declared.parts.Name.TheVariants.{Port, Action};
ghost use Rattle.lft_model.specs.Runs.{effects_of};
ghost use Rattle.lft_rows.specs.inner.Effects.{AreSetsOf, AreEffects};

use lft_ir::{Name, Program};
use lft_lists::item_at;
use lft_tag::NoMemory;
use std::alloc::Global;
use std::collections::BTreeSet;

/// The effects of one reaction, the ports apart from the actions. Each row that writes or schedules
/// looks one up, and a reaction may have thousands.
// A walk over the effects at each row would cost by both. The sets are trees, since std's hash sets have a fixed
// seed.
#[derive(Drop)]
struct EffectSets {
    ports: BTreeSet<u32>,
    actions: BTreeSet<u32>,
}

impl EffectSets {
    /// Those among the names.
    fn new(alloc: Global, names: &[Name]) -> Result<EffectSets, NoMemory>
        ensures { IfOk result (AreSetsOf names.now) }
    {
        let mut ports = BTreeSet::new(alloc);
        let mut actions = BTreeSet::new(alloc);
        for place in 0..names.len() {
            let _is_new = match item_at(names, place) {
                Name::Port(port) => ports.insert(port)?,
                Name::Action(action) => actions.insert(action)?,
            };
        }
        Ok(EffectSets { ports, actions })
    }
}

/// The effects of each reaction of a program, in the order of the reactions.
#[derive(Drop)]
pub(crate) struct Effects {
    sets: Vec<EffectSets>,
}

impl Effects {
    /// Those of the program.
    pub(crate) fn new(alloc: Global, program: &Program) -> Result<Effects, NoMemory>
        ensures { IfOk result (AreEffects program.now) }
    {
        let mut sets = Vec::new(alloc);
        for number in 0..program.reactions() {
            let names = program.reaction(number as u32).effects.as_slice();
            sets.push(EffectSets::new(alloc, names)?)?;
        }
        Ok(Effects { sets })
    }

    /// Whether the port is among the reaction's effects.
    pub(crate) fn writes(&self, program: &Program, reaction: u32, port: u32) -> bool
        requires effects { AreEffects program.now self.now }
        requires reaction { reaction < length program.now.reactions }
        ensures { IsTrue result ↔ Contains (effects_of program.now reaction) (Port port) }
    {
        self.sets[reaction as usize].ports.contains(&port)
    }

    /// Whether the action is among the reaction's effects.
    pub(crate) fn schedules(&self, program: &Program, reaction: u32, action: u32) -> bool
        requires effects { AreEffects program.now self.now }
        requires reaction { reaction < length program.now.reactions }
        ensures { IsTrue result ↔ Contains (effects_of program.now reaction) (Action action) }
    {
        self.sets[reaction as usize].actions.contains(&action)
    }
}
