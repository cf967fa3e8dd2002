//! The names of reactions, close together.

ghost use Rattle.std.specs.Prelude.{◌≡◌, IfOk, IfSome, IsTrue};
ghost use Rattle.lft_ir.specs.{Names.IsNamed, Sound.IsSound};
ghost use Rattle.lft_trace.specs.inner.ShortNames.{AreShort};

use crate::kind::RowKind;
use crate::names::names_reaction;
use crate::short_name::{ShortName, is_long};
use lft_ir::{Found, Program};
use lft_tag::NoMemory;
use std::alloc::Global;
use std::hash::{FoldHasher, Hasher};
use std::marker::Model;

/// By hash there are so many places for each name, and a few more.
const PLACES: usize = 4;

/// A program, with the names of its reactions side by side, unless they are long, and their numbers by hashes.
// What is found by a number or a hash is compared with the name. So nothing that is read depends on a hash.
#[derive(Drop)]
pub struct ReactionNames<'a> {
    program: &'a Program,
    names: Vec<ShortName>,
    numbers: Vec<u16>,
}

/// Numbers of the reactions of a program by hashes of their names, for many texts.
#[derive(Drop)]
pub struct ReactionNumbers {
    pub(crate) by_hash: Vec<u16>,
}

impl ReactionNumbers {
    /// Those of the program.
    pub fn new(alloc: Global, program: &Program) -> Result<ReactionNumbers, NoMemory> {
        Ok(ReactionNumbers {
            by_hash: numbers_by_hash(alloc, program)?,
        })
    }
}

impl<'a> Model for ReactionNames<'a> {
    ghost use Rattle.lft_ir.specs.Parts.{Parts};

    ghost Value = { Parts };

    ghost view = { λ a. a.program.now };

    ghost use Rattle.lft_trace.specs.inner.ShortNames.{AreShort};

    ghost invariant = { λ a. AreShort a.program.now.names.reactions a.names.items };
}

impl<'a> ReactionNames<'a> {
    /// The names of the program's reactions.
    pub fn new(alloc: Global, program: &'a Program) -> Result<ReactionNames<'a>, NoMemory>
        ensures { IfOk result (λ names. names ≡ program.now) }
    {
        let names = short_names(alloc, program)?;
        let numbers = numbers_by_hash(alloc, program)?;
        Ok(ReactionNames {
            program,
            names,
            numbers,
        })
    }

    /// The program, and these numbers by hashes of names.
    pub(crate) fn with(alloc: Global, program: &'a Program, numbers: Vec<u16>) -> ReactionNames<'a>
        ensures { result ≡ program.now }
    {
        ReactionNames {
            program,
            names: Vec::new(alloc),
            numbers,
        }
    }

    /// Its numbers by hashes of names.
    pub(crate) fn into_numbers(self) -> Vec<u16> {
        self.numbers
    }

    /// The program.
    #[inline(always)]
    pub(crate) fn program(&self) -> &Program
        ensures value { result.now ≡ self.now }
        ensures sound { IsSound self.now }
    {
        self.program.keeps();
        self.program
    }

    /// The reaction that has this name, if it is one of those that a row of this event mostly has: that of the
    /// row before, the one behind it where a run starts, or, where names are kept, that to which its hash leads.
    #[inline(always)]
    pub(crate) fn guess(&self, last: Option<u32>, kind: RowKind, name: &[u8]) -> Option<u32>
        ensures { IfSome result (λ r. IsNamed self.now.names (Found.Reaction r) name.now) }
    {
        if let Some(number) = last {
            if self.is_of(number, name) {
                return Some(number);
            }
            let next = number.saturating_add(1);
            if kind == RowKind::Start && self.is_of(next, name) {
                return Some(next);
            }
        }
        self.find(name)
    }

    /// Whether the reaction of this number has this name. Where names are kept, it is one of these.
    #[inline(always)]
    fn is_of(&self, number: u32, name: &[u8]) -> bool
        ensures { IsTrue result → IsNamed self.now.names (Found.Reaction number) name.now }
    {
        match self.names.get(number as usize) {
            Some(short) => short.is(name),
            None => {
                (number as usize) < self.program.reactions()
                    && names_reaction(self.program, number, name)
            }
        }
    }

    /// The reaction of this name, if it is kept and its hash leads there.
    fn find(&self, name: &[u8]) -> Option<u32>
        ensures { IfSome result (λ r. IsNamed self.now.names (Found.Reaction r) name.now) }
    {
        if self.numbers.is_empty() || is_long(name) {
            return None;
        }
        match self.numbers.get(place_of(self.numbers.len(), name)) {
            Some(number) => {
                let number = *number as u32;
                self.is_of(number, name).then_some(number)
            }
            None => None,
        }
    }
}

/// The names of a program's reactions by number.
fn short_names(alloc: Global, program: &Program) -> Result<Vec<ShortName>, NoMemory>
    ensures { IfOk result (λ names. AreShort program.now.names.reactions names.items) }
{
    let mut names = Vec::new(alloc);
    for number in 0..program.reactions() {
        names.push(ShortName::of(program.name_of_reaction(number as u32).as_bytes()))?;
    }
    Ok(names)
}

/// Numbers of reactions by hashes of names. Where hashes meet, one of the numbers is kept.
fn numbers_by_hash(alloc: Global, program: &Program) -> Result<Vec<u16>, NoMemory> {
    let places = (PLACES * program.reactions()).next_power_of_two();
    let mut numbers = vec![in alloc; 0; places]?;
    for number in 0..program.reactions() {
        let name = program.name_of_reaction(number as u32).as_bytes();
        if let Some(kept) = numbers.get_mut(place_of(places, name)) {
            *kept = number as u16;
        }
    }
    Ok(numbers)
}

/// Where a name's number is among those by hash.
fn place_of(places: usize, name: &[u8]) -> usize {
    let mut hasher = FoldHasher::default();
    hasher.write(name);
    let hash = hasher.finish();
    (hash ^ hash >> 32) as usize & places.wrapping_sub(1)
}
