//! Names that a reactor has, of which one was probably meant.

use crate::near::nearest;
use crate::refused::Refused;
use lft_resolve::hashing::NameHash;
use lft_resolve::names::{Declared, declared_names, parameter_names, push_names, reactor_names};
use lft_tag::NoMemory;
use lft_tree::{Member, Reactor};
use std::collections::HashSet;

impl<'a> Refused<'a> {
    /// The reactor that was probably meant.
    pub(crate) fn near_reactor(&self, wanted: &str) -> Result<Option<&'a str>, NoMemory> {
        let names = reactor_names(self.alloc, self.reactors)?;
        Ok(nearest(&names, wanted))
    }

    /// What was probably meant, of all that the reactor declares.
    pub(crate) fn near_declared(
        &self,
        reactor: &'a Reactor,
        wanted: &str,
    ) -> Result<Option<&'a str>, NoMemory> {
        let names = declared_names(self.alloc, reactor)?;
        Ok(nearest(&names, wanted))
    }

    /// The parameter that was probably meant.
    pub(crate) fn near_parameter(
        &self,
        reactor: &'a Reactor,
        wanted: &str,
    ) -> Result<Option<&'a str>, NoMemory> {
        let names = parameter_names(self.alloc, &reactor.parameters)?;
        Ok(nearest(&names, wanted))
    }

    /// The port that was probably meant.
    pub(crate) fn near_port(
        &self,
        reactor: &'a Reactor,
        wanted: &str,
    ) -> Result<Option<&'a str>, NoMemory> {
        let mut names = Vec::new(self.alloc);
        push_names(&mut names, &reactor.members, Declared::Port)?;
        Ok(nearest(&names, wanted))
    }

    /// The names of the reactors that have a port of that name.
    fn with_port(&self, wanted: &str) -> Result<HashSet<&'a str, NameHash>, NoMemory> {
        let names = reactor_names(self.alloc, self.reactors)?;
        // A set, as each instance asks for its reactor: a list of these would
        // cost instances times reactors.
        let mut found = HashSet::with_hasher(self.alloc, NameHash::of(&names));
        for reactor in self.reactors {
            if let Some(name) = &reactor.name {
                if has_port(reactor, wanted) {
                    found.insert(name.as_str())?;
                }
            }
        }
        Ok(found)
    }

    /// The instances in the reactor that have a port of that name.
    fn instances_with(&self, reactor: &'a Reactor, port: &str) -> Result<Vec<&'a str>, NoMemory> {
        let found = self.with_port(port)?;
        let mut names = Vec::new(self.alloc);
        for member in &reactor.members {
            if let Member::Instance(instance) = member {
                if found.contains(instance.reactor.as_str()) {
                    names.push(instance.name.as_str())?;
                }
            }
        }
        Ok(names)
    }

    /// The first instance in the reactor that has a port of that name.
    pub(crate) fn with_that_port(
        &self,
        reactor: &'a Reactor,
        wanted: &str,
    ) -> Result<Option<&'a str>, NoMemory> {
        let names = self.instances_with(reactor, wanted)?;
        Ok(names.first().copied())
    }

    /// The instance that was probably meant, of those that have the port.
    pub(crate) fn near_instance(
        &self,
        reactor: &'a Reactor,
        wanted: &str,
        port: &str,
    ) -> Result<Option<&'a str>, NoMemory> {
        // One without the port wasn't meant, however near its name is.
        let names = self.instances_with(reactor, port)?;
        Ok(nearest(&names, wanted))
    }
}

/// Whether the reactor declares a port of that name.
fn has_port(reactor: &Reactor, wanted: &str) -> bool {
    for member in &reactor.members {
        if let Member::Port(port) = member {
            if port.name.as_str() == wanted {
                return true;
            }
        }
    }
    false
}
