//! Where names stand in a list.

ghost use Rattle.std.specs.Prelude.{◌≡◌, ℕ, List, Some, None, cond, map, IfOk, OnOk, bytes_eq};
ghost use Rattle.lft_tree.specs.View.{reactor_view};
ghost use Rattle.lft_resolve.specs.inner.{Tests.{member_names, texts}, Places.{IsIndexOf, place_in}};

use crate::hashing::NameHash;
use crate::names::{Declared, parameter_names, push_names};
use lft_tag::NoMemory;
use lft_tree::Reactor;
use std::alloc::Global;
use std::collections::HashMap;

/// Where each name of a list stands in it first.
#[derive(Drop)]
pub struct Index<'a> {
    places: HashMap<&'a str, usize, NameHash>,
}

impl<'a> Index<'a> {
    /// An index of no names.
    fn new(alloc: Global, hash: NameHash) -> Index<'a>
        ensures { (q : List ℕ) → place_in result q ≡ None }
    {
        Index {
            places: HashMap::with_hasher(alloc, hash),
        }
    }

    /// Where the name stands first.
    pub fn get(&self, name: &str) -> Option<usize>
        ensures { result ≡ place_in self.now name.now }
    {
        self.places.get(name).copied()
    }

    /// Notes that the name stands at the place.
    fn put(&mut self, name: &'a str, place: usize) -> Result<(), NoMemory>
        ensures { OnOk result ((q : List ℕ) → place_in self.new q ≡ cond (bytes_eq name.now q) (Some place) (place_in self.old q)) }
    {
        self.places.insert(name, place)?;
        Ok(())
    }

    /// The index of a list of names.
    pub fn of(alloc: Global, names: &[&'a str]) -> Result<Index<'a>, NoMemory>
        ensures { IfOk result (λ index. IsIndexOf index (texts names.now)) }
    {
        let mut index = Index::new(alloc, NameHash::of(names));
        for place in 0..names.len() {
            let name = names[place];
            if index.get(name).is_none() {
                index.put(name, place)?;
            }
        }
        Ok(index)
    }

    /// Where the names of the parameters of a reactor stand.
    pub fn of_parameters(alloc: Global, reactor: &'a Reactor) -> Result<Index<'a>, NoMemory>
        ensures { IfOk result (λ index. IsIndexOf index (map (λ x. x.name) (reactor_view reactor.now).parameters)) }
    {
        let names = parameter_names(alloc, &reactor.parameters)?;
        Index::of(alloc, &names)
    }

    /// Where the names of the members of this kind stand.
    pub fn of_members(
        alloc: Global,
        reactor: &'a Reactor,
        kind: Declared,
    ) -> Result<Index<'a>, NoMemory>
        ensures { IfOk result (λ index. IsIndexOf index (member_names kind (reactor_view reactor.now))) }
    {
        let mut names = Vec::new(alloc);
        push_names(&mut names, &reactor.members, kind)?;
        Index::of(alloc, &names)
    }
}
