//! The ports whose events are watched.

ghost use Rattle.std.specs.Prelude.{◌≡◌, ◌↔◌, ◌<◌, length, IfOk, IfSome, IsTrue};
ghost use Rattle.lft_scheduler.specs.inner.{Listeners.{IsWatched, arrival as arrival_of}, Filling.{AreFirstDelayedPorts, ArrivesSooner, AreWatched}};

use lft_ir::{Port, Program};
use lft_queue::read_ports;
use lft_tag::{NoMemory, Tag};
use std::alloc::Global;
use std::marker::Model;

// Where a write of its origin at (0, 0) arrives at the port.
fn arrival(port: &Port) -> Tag
    ensures { result ≡ arrival_of port.now }
{
    Tag {
        time: port.shift.time,
        micro: port.shift.steps,
    }
}

// Whether the port is delayed, and a write arrives there sooner than at the other one, if there is one.
fn precedes(program: &Program, port: &Port, other: Option<u32>) -> bool
    requires { IfSome other (λ p. p < length program.now.ports) }
    ensures { IsTrue result ↔ ArrivesSooner program.now port.now other }
{
    if port.shift.time == 0 {
        return false;
    }
    let Some(number) = other else {
        return true;
    };
    arrival(port).is_before(arrival(program.port(number)))
}

// The first delayed port of each origin, where it has one.
fn first_delayed(alloc: Global, program: &Program) -> Result<Vec<Option<u32>>, NoMemory>
    ensures { IfOk result (λ firsts. AreFirstDelayedPorts program.now (length program.now.ports) firsts.items) }
{
    let mut firsts = vec![in alloc; None; program.ports()]?;
    'ports: for number in 0..program.ports() {
        let port = program.port(number as u32);
        let origin = port.origin as usize;
        if precedes(program, port, firsts[origin]) {
            firsts[origin] = Some(number as u32);
        }
    }
    Ok(firsts)
}

// Two writes meet at some port only if they are of one time and the port is delayed. Then they meet at the
// first delayed port of their origin too, and no later: so each collision is found. An event for each port would
// be one for each write and each port behind it. A port that a reaction names has one for each write all the same,
// though the reaction may never run.

/// Which ports of a program are watched.
#[derive(Drop)]
pub(crate) struct Watched {
    read: Vec<bool>,
    firsts: Vec<Option<u32>>,
}

impl Model for Watched {
    ghost use Rattle.lft_scheduler.specs.inner.Filling.{WatchedParts};

    ghost Value = { WatchedParts };

    ghost view = { λ a. record { read = a.read.items; firsts = a.firsts.items } };
}

impl Watched {
    // the watched ports of the program
    pub(crate) fn new(alloc: Global, program: &Program) -> Result<Watched, NoMemory>
        ensures { IfOk result (AreWatched program.now) }
    {
        Ok(Watched {
            read: read_ports(alloc, program)?,
            firsts: first_delayed(alloc, program)?,
        })
    }

    // whether the port with this number is watched
    pub(crate) fn has(&self, program: &Program, number: u32) -> bool
        requires number { number < length program.now.ports }
        requires watched { AreWatched program.now self.now }
        ensures { IsTrue result ↔ IsWatched program.now number }
    {
        let origin = program.port(number).origin;
        if self.read[number as usize] || origin == number {
            return true;
        }
        match self.firsts[origin as usize] {
            Some(first) => return first == number,
            None => return false,
        }
    }
}
