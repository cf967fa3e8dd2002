//! Connections of instances on a way, as they are told.

use crate::refused::Refused;
use crate::singles::single_in;
use crate::words::push_name;
use lft_program::Way;
use lft_resolve::expansion::{Instance, Site};
use lft_tag::NoMemory;
use lft_tree::{Connection, Member, Reactor, Reference};

/// A single connection of an instance: the place of both its names in the lists of a connection.
#[derive(Clone, Copy)]
pub(crate) struct Single<'a> {
    /// The number of the instance.
    pub number: usize,
    pub connection: &'a Connection,
    pub place: usize,
}

/// The name of the reactor's instance with that number.
fn instance_name(reactor: &Reactor, number: usize) -> Option<&str> {
    let mut left = number;
    for member in &reactor.members {
        if let Member::Instance(instance) = member {
            if left == 0 {
                return Some(instance.name.as_str());
            }
            left -= 1;
        }
    }
    None
}

/// Whether one site stands before the other, by the instances and then by the text.
fn is_before(one: Site, other: Site) -> bool {
    one.number < other.number || (one.number == other.number && one.place < other.place)
}

/// The place of the site that stands first.
pub(crate) fn first_place(joins: &[Site]) -> Option<usize> {
    let mut least = joins.first().copied()?;
    let mut found = 0;
    for (place, site) in joins.iter().enumerate() {
        if is_before(*site, least) {
            least = *site;
            found = place;
        }
    }
    Some(found)
}

impl<'a> Refused<'a> {
    /// The reactor of an instance.
    fn reactor_of(&self, instance: Instance) -> Option<&'a Reactor> {
        self.reactor(instance.reactor as usize)
    }

    /// The single connection with that place on the way.
    pub(crate) fn single(&self, way: &Way, place: usize) -> Option<Single<'a>> {
        let site = way.joins.get(place).copied()?;
        let instance = way.instances.get(site.number as usize).copied()?;
        let (connection, place) = single_in(self.reactor_of(instance)?, site.place)?;
        Some(Single {
            number: site.number as usize,
            connection,
            place,
        })
    }

    /// The name of an instance in the one that contains it.
    fn own_name(&self, way: &Way, instance: Instance) -> Option<&'a str> {
        let outer = way.instances.get(instance.parent as usize).copied()?;
        instance_name(self.reactor_of(outer)?, instance.place)
    }

    /// The names of an instance and of those around it, from its own up to `main`.
    fn path(&self, way: &Way, number: usize) -> Result<Vec<&'a str>, NoMemory> {
        let mut names = Vec::new(self.alloc);
        let mut at = number;
        // None stands deeper than there are instances.
        for _ in 0..way.instances.len() {
            match way.instances.get(at).copied() {
                // The main instance has no name in another one.
                Some(instance) if at > 0 => {
                    if let Some(name) = self.own_name(way, instance) {
                        names.push(name)?;
                    }
                    at = instance.parent as usize;
                }
                _ => break,
            }
        }
        names.push("main")?;
        Ok(names)
    }

    /// Puts the full name of a port behind the text: the instance with that number calls it so.
    pub(crate) fn push_port(
        &self,
        out: &mut String,
        way: &Way,
        number: usize,
        name: &Reference,
    ) -> Result<(), NoMemory> {
        // The path leads outwards, and a full name begins with `main`.
        for instance in self.path(way, number)?.iter().rev() {
            out.push_str(*instance)?;
            out.push_str(".")?;
        }
        push_name(out, name)
    }
}
