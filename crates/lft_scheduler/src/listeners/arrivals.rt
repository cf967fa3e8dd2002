//! Where writes arrive.

ghost use Rattle.std.specs.Prelude.{◌≢◌, ◌↔◌, ℕ, Contains, AllPairs, IfOk};
ghost use Rattle.lft_ir.specs.Parts.{Parts};
ghost use Rattle.lft_scheduler.specs.inner.Listeners.{IsArrival, IsWatched, AreArrivals};

use crate::listeners::watched::Watched;
use lft_ir::Program;
use lft_queue::coming::NumberLists;
use lft_tag::NoMemory;
use std::alloc::Global;
use std::marker::Model;

/// For each port of a program the watched ports at which a write of it arrives: those of them whose
/// origin it is. A port that no reaction reads costs nothing while the program runs, but for one
/// delayed port of each origin.
#[derive(Drop)]
pub(crate) struct Arrivals {
    lists: NumberLists,
}

impl Model for Arrivals {
    ghost use Rattle.std.specs.Prelude.{List, ℕ};

    ghost Value = { List (List ℕ) };

    ghost view = { λ a. a.lists };
}

impl Arrivals {
    /// The arrivals of the program. It costs what the program's ports and inputs are.
    pub(crate) fn new(alloc: Global, program: &Program) -> Result<Arrivals, NoMemory>
        ensures { IfOk result (λ arrivals. AreArrivals program.now arrivals) }
    {
        let watched = Watched::new(alloc, program)?;
        let mut lists = NumberLists::empty(alloc, program.ports())?;
        'ports: for number in 0..program.ports() {
            if watched.has(program, number as u32) {
                lists.push(program.port(number as u32).origin, number as u32)?;
            }
        }
        Ok(Arrivals { lists })
    }

    /// The watched ports at which a write of the origin arrives, each once; none where the number is
    /// no port's or the port isn't an origin.
    pub(crate) fn of(&self, origin: u32) -> &[u32]
        ensures each { (program : Parts) → AreArrivals program self.now → (p : ℕ) → Contains result.now p ↔ (IsArrival program origin p × IsWatched program p) }
        ensures once { (program : Parts) → AreArrivals program self.now → AllPairs (λ p q. p ≢ q) result.now }
    {
        self.lists.at(origin)
    }
}
