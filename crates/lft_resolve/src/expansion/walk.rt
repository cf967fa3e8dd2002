//! The instances, in pre-order, by an explicit stack.

ghost use Rattle.std.specs.Prelude.{◌≡◌, ◌+◌, ◌<◌, ◌≤◌, ◌^◌, length, IfOk, IfSome, OnOk, Err};
ghost use Rattle.lft_resolve.specs.{inner.Expansion.Contents.{IsWalk, contained}, Expansion.Paths.{Exists, IsMoreThan}};

use lft_tag::MAX_INSTANCES;
use std::alloc::{AllocError, AllocFailed, Global};

/// What a reactor contains: the numbers of the reactors of its instances, in order of declaration.
#[derive(Drop)]
pub struct Contents {
    pub instances: Vec<u32>,
}

/// An instance: the number of its reactor, the number of the instance that contains it, and its
/// place among the instances there, counted from 0. The last two are 0 for the main instance.
#[derive(Clone, Copy, PartialEq, Eq, Drop)]
pub struct Instance {
    pub reactor: u32,
    pub parent: u32,
    pub place: usize,
}

/// Why there is no list of the instances.
#[derive(Clone, Copy, PartialEq, Eq, Drop)]
pub enum WalkFault {
    /// There are more than `MAX_INSTANCES`.
    TooMany,
    /// A growth of memory was refused.
    NoMemory,
}

impl From<AllocError> for WalkFault {
    ghost use Rattle.std.specs.Prelude.{◌≡◌};
    ghost use Rattle.lft_resolve.specs.declared.expansion.walk.WalkFault.TheVariants.{NoMemory};

    ghost from_gives = { λ e r. r ≡ NoMemory };

    fn from(_error: AllocError) -> WalkFault {
        WalkFault::NoMemory
    }
}

impl<T: Drop> From<AllocFailed<T>> for WalkFault {
    ghost use Rattle.std.specs.Prelude.{◌≡◌};
    ghost use Rattle.lft_resolve.specs.declared.expansion.walk.WalkFault.TheVariants.{NoMemory};

    ghost from_gives = { λ e r. r ≡ NoMemory };

    fn from(_error: AllocFailed<T>) -> WalkFault {
        WalkFault::NoMemory
    }
}

/// An instance whose own instances are being made: its number, its reactor, and the place of the
/// next one to make.
#[derive(Clone, Copy, Drop)]
pub struct Frame {
    pub number: u32,
    pub reactor: u32,
    pub next: usize,
}

// the reactor of the instance at this place of a reactor
pub(crate) fn child(reactors: &[Contents], reactor: usize, place: usize) -> Option<u32>
    ensures value { result ≡ contained reactors.now reactor place }
    ensures room { IfSome result (λ _. place + 1 < 2 ^ 64) }
{
    if reactor < reactors.len() {
        let contents = &reactors[reactor];
        if place < contents.instances.len() {
            Some(contents.instances[place])
        } else {
            None
        }
    } else {
        None
    }
}

/// All instances of the main reactor in pre-order, of which the main one is the first. The table
/// has what each reactor contains, by number; a number past its end stands for a reactor without
/// instances. No instance past the limit is made, so reactors may contain themselves.
pub fn all_instances(
    alloc: Global,
    reactors: &[Contents],
    main: u32,
) -> Result<Vec<Instance>, WalkFault>
    ensures made { IfOk result (λ v. IsWalk reactors.now main v.items × (length v.items ≤ 10000)) }
    ensures within { OnOk result (IsMoreThan (Exists (contained reactors.now) main) 10000 → ⊥) }
    ensures too_many { result ≡ Err WalkFault.TooMany → IsMoreThan (Exists (contained reactors.now) main) 10000 }
{
    let mut made = Vec::new(alloc);
    let mut open = Vec::new(alloc);
    made.push(Instance {
        reactor: main,
        parent: 0,
        place: 0,
    })?;
    open.push(Frame {
        number: 0,
        reactor: main,
        next: 0,
    })?;
    'walk: while let Some(top) = open.pop() {
        if let Some(reactor) = child(reactors, top.reactor as usize, top.next) {
            if made.len() >= MAX_INSTANCES {
                return Err(WalkFault::TooMany);
            }
            let number = made.len() as u32;
            made.push(Instance {
                reactor,
                parent: top.number,
                place: top.next,
            })?;
            open.push(Frame {
                number: top.number,
                reactor: top.reactor,
                next: top.next + 1,
            })?;
            open.push(Frame {
                number,
                reactor,
                next: 0,
            })?;
        }
    }
    Ok(made)
}
