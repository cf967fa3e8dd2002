//! The names of the reactors of a file, and what the names in them are.

ghost use Rattle.std.specs.Prelude.{◌≡◌, List, IfOk, MatchOption, Some, None, find, option_and_then, slice_get, bytes_eq};
ghost use Rattle.std.specs.List.{AllZip};
ghost use Rattle.lft_tree.specs.{Tree.{ReactorTree, instances_of}, View.ref_view};
ghost use Rattle.lft_resolve.specs.{Instances.reactor_named, Kinds.kind_of};
ghost use Rattle.lft_resolve.specs.inner.{Numbers.numbers_of, References.reactor_trees, Tables.{IsFile, IsInstanceTable, IsOwn}};

use crate::index::Index;
use crate::kinds::Kind;
use crate::names::reactor_names;
use crate::own::Own;
use lft_tag::NoMemory;
use lft_tree::{Reactor, Reference};
use std::alloc::Global;

/// What the reactors of a file declare, by number, and the numbers of those that have a name.
/// Reactors are numbered from 0 in the order of the file.
#[derive(Drop)]
pub struct ReactorTable<'a> {
    names: Index<'a>,
    numbers: Vec<u32>,
    pub owns: Vec<Own<'a>>,
}

/// The numbers of the reactors that have a name.
fn numbers_of(alloc: Global, reactors: &[&Reactor]) -> Result<Vec<u32>, NoMemory>
    ensures { IfOk result (λ v. v.items ≡ numbers_of 0 (reactor_trees reactors.now)) }
{
    // No text within the limit has so many, but a tree alone doesn't say so.
    if reactors.len() > u32::MAX as usize {
        return Err(NoMemory);
    }
    let mut numbers = Vec::new(alloc);
    for (number, reactor) in reactors.iter().enumerate() {
        if reactor.name.is_some() {
            numbers.push(number as u32)?;
        }
    }
    Ok(numbers)
}

/// What each reactor declares.
fn owns_of<'a>(alloc: Global, reactors: &[&'a Reactor]) -> Result<Vec<Own<'a>>, NoMemory>
    ensures { IfOk result (λ v. AllZip IsOwn (reactor_trees reactors.now) v.items) }
{
    let mut owns = Vec::new(alloc);
    for reactor in reactors {
        owns.push(Own::of(alloc, reactor)?)?;
    }
    Ok(owns)
}

impl<'a> ReactorTable<'a> {
    /// The table of the reactors of a file.
    pub(crate) fn of(alloc: Global, reactors: &[&'a Reactor]) -> Result<ReactorTable<'a>, NoMemory>
        ensures { IfOk result (IsFile (reactor_trees reactors.now)) }
    {
        let names = reactor_names(alloc, reactors)?;
        Ok(ReactorTable {
            names: Index::of(alloc, &names)?,
            numbers: numbers_of(alloc, reactors)?,
            owns: owns_of(alloc, reactors)?,
        })
    }

    /// The number of the reactor of this name.
    pub(crate) fn number(&self, name: &str) -> Option<u32>
        ensures { (rs : List ReactorTree) → IsFile rs self.now → MatchOption result (reactor_named rs name.now ≡ None) (λ n. (r : ReactorTree) × (reactor_named rs name.now ≡ Some r) × (slice_get rs n ≡ Some r)) }
    {
        match self.names.get(name) {
            Some(place) => self.numbers.get(place).copied(),
            None => None,
        }
    }

    /// What the reactor of this name declares.
    pub fn reactor(&self, name: &str) -> Option<&Own<'a>>
        ensures { (rs : List ReactorTree) → IsFile rs self.now → MatchOption result (reactor_named rs name.now ≡ None) (λ o. (r : ReactorTree) × (reactor_named rs name.now ≡ Some r) × IsOwn r o.now) }
    {
        match self.number(name) {
            Some(number) => self.owns.get(number as usize),
            None => None,
        }
    }

    /// The place of the instance of this name in a reactor, and what the reactor of that instance
    /// declares.
    pub(crate) fn inside(&self, own: &Own, name: &str) -> Option<(usize, &Own<'a>)>
        ensures { (rs : List ReactorTree) (r : ReactorTree) → IsFile rs self.now → IsOwn r own.now → MatchOption result (option_and_then (λ i. reactor_named rs i.reactor) (find (λ i. bytes_eq name.now i.name) (instances_of r)) ≡ None) (λ p. IsInstanceTable rs r name.now p.0 p.1.now) }
    {
        match own.instances.get(name) {
            Some(place) => match own.contained.get(place) {
                Some(instance) => match self.reactor(instance.reactor.as_str()) {
                    Some(inner) => Some((place, inner)),
                    None => None,
                },
                None => None,
            },
            None => None,
        }
    }
}

/// What a name is in a reactor of the file.
pub fn kind_of(file: &ReactorTable, own: &Own, reference: &Reference) -> Option<Kind>
    ensures { (rs : List ReactorTree) (r : ReactorTree) → IsFile rs file.now → IsOwn r own.now → result ≡ kind_of rs r (ref_view reference.now) }
{
    match &reference.port {
        None => own.kind(reference.head.as_str()),
        Some(port) => match file.inside(own, reference.head.as_str()) {
            Some((_, inner)) => inner.shown(port.as_str()),
            None => None,
        },
    }
}
