//! What a reactor declares, by name.

ghost use Rattle.std.specs.Prelude.{◌≡◌, IfOk, find, is_some, option_map, bytes_eq};
ghost use Rattle.lft_tree.specs.{Tree.{ReactorTree, ports_of}, View.{port_view, reactor_view}};
ghost use Rattle.lft_resolve.specs.{inner.Tables.IsOwn, Kinds.{inner_port, own_kind}};

use crate::index::Index;
use crate::kinds::Kind;
use crate::members;
use crate::names::Declared;
use lft_tag::NoMemory;
use lft_tree::{Instance, Port, Reactor};
use std::alloc::Global;

/// A reactor, where the names of what it declares stand, by kind, and its ports and instances.
#[derive(Drop)]
pub struct Own<'a> {
    pub(crate) reactor: &'a Reactor,
    pub(crate) parameters: Index<'a>,
    pub(crate) ports: Index<'a>,
    pub(crate) timers: Index<'a>,
    pub(crate) actions: Index<'a>,
    pub(crate) instances: Index<'a>,
    pub(crate) declared_ports: Vec<&'a Port>,
    pub(crate) contained: Vec<&'a Instance>,
}

impl<'a> Own<'a> {
    /// The table of a reactor.
    pub(crate) fn of(alloc: Global, reactor: &'a Reactor) -> Result<Own<'a>, NoMemory>
        ensures { IfOk result (IsOwn (reactor_view reactor.now)) }
    {
        Ok(Own {
            reactor,
            parameters: Index::of_parameters(alloc, reactor)?,
            ports: Index::of_members(alloc, reactor, Declared::Port)?,
            timers: Index::of_members(alloc, reactor, Declared::Timer)?,
            actions: Index::of_members(alloc, reactor, Declared::Action)?,
            instances: Index::of_members(alloc, reactor, Declared::Instance)?,
            declared_ports: members::ports(alloc, &reactor.members)?,
            contained: members::instances(alloc, &reactor.members)?,
        })
    }

    /// Whether there is a parameter of this name.
    pub fn has_parameter(&self, name: &str) -> bool
        ensures { (r : ReactorTree) → IsOwn r self.now → result ≡ is_some (find (λ p. bytes_eq name.now p.name) r.parameters) }
    {
        self.parameters.get(name).is_some()
    }

    /// The port of this name.
    fn port(&self, name: &str) -> Option<&'a Port>
        ensures { (r : ReactorTree) → IsOwn r self.now → option_map (λ p. port_view p.now) result ≡ find (λ x. bytes_eq name.now x.name) (ports_of r) }
    {
        match self.ports.get(name) {
            Some(place) => self.declared_ports.get(place).copied(),
            None => None,
        }
    }

    /// What a plain name is in the reactor.
    pub fn kind(&self, name: &str) -> Option<Kind>
        ensures { (r : ReactorTree) → IsOwn r self.now → result ≡ own_kind r name.now }
    {
        if self.has_parameter(name) {
            return Some(Kind::OwnParameter);
        }
        match self.port(name) {
            Some(port) if port.is_input => return Some(Kind::OwnInput),
            Some(_) => return Some(Kind::OwnOutput),
            None => {}
        }
        if self.timers.get(name).is_some() {
            return Some(Kind::OwnTimer);
        }
        if self.actions.get(name).is_some() {
            return Some(Kind::OwnAction);
        }
        if self.instances.get(name).is_some() {
            return Some(Kind::OwnInstance);
        }
        None
    }

    /// What the port of this name is to a reactor that contains an instance.
    pub(crate) fn shown(&self, name: &str) -> Option<Kind>
        ensures { (r : ReactorTree) → IsOwn r self.now → result ≡ option_map (λ x. inner_port x.is_input) (find (λ x. bytes_eq name.now x.name) (ports_of r)) }
    {
        match self.port(name) {
            Some(port) if port.is_input => Some(Kind::InnerInput),
            Some(_) => Some(Kind::InnerOutput),
            None => None,
        }
    }
}
