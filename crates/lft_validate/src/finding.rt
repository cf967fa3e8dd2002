//! What shows a cause of refusal in one member.

ghost use Rattle.std.specs.Prelude.{◌≡◌};
ghost use Rattle.lft_validate.specs.Findings.{fault_found};

use crate::placed::NameAt;
use lft_resolve::ProgramFault;
use lft_resolve::kinds::{Kind, Role};
use lft_tree::{Assignment, Connection, Instance, Port, Reaction, Reference, TimeExpression};

/// The roles in the order in which they stand in a member.
pub const ROLES: [Role; 4] = [Role::Read, Role::Effect, Role::Source, Role::Destination];

/// What is wrong with one member of a reactor.
#[derive(Clone, Copy, Drop)]
pub enum Finding<'a> {
    /// One `new` gives a parameter two values.
    GivenTwice {
        instance: &'a Instance,
        first: NameAt<'a>,
        second: NameAt<'a>,
    },
    /// `new` of a name that no reactor has.
    UnknownReactor {
        instance: &'a Instance,
    },
    /// A name that is nothing.
    UnknownName {
        name: &'a Reference,
    },
    /// The name of a time is nothing.
    UnknownTime {
        time: &'a TimeExpression,
    },
    /// A value for what isn't a parameter of the new reactor.
    UnknownParameter {
        instance: &'a Instance,
        value: &'a Assignment,
    },
    /// A name that may not stand where it does, and what it is.
    WrongPlace {
        role: Role,
        name: &'a Reference,
        kind: Kind,
    },
    /// The name of a time is no parameter, and what it is.
    WrongTime {
        time: &'a TimeExpression,
        kind: Kind,
    },
    /// A port of the main reactor.
    MainHasPort {
        port: &'a Port,
    },
    /// The two lists of a connection differ in length.
    WidthMismatch {
        connection: &'a Connection,
    },
    /// A reaction has no trigger.
    NoTrigger {
        reaction: &'a Reaction,
    },
    /// A name stands twice in one role of a reaction.
    NamedTwice {
        role: Role,
        first: &'a Reference,
        second: &'a Reference,
    },
    /// A time past the greatest.
    LongTime {
        time: &'a TimeExpression,
    },
}

impl<'a> Finding<'a> {
    /// The cause that it shows.
    pub fn fault(self) -> ProgramFault
        ensures { result ≡ fault_found self.entry }
    {
        match self {
            Finding::GivenTwice { .. } => ProgramFault::DuplicateName,
            Finding::UnknownReactor { .. } => ProgramFault::UnknownReactor,
            Finding::UnknownName { .. } => ProgramFault::UnknownName,
            Finding::UnknownTime { .. } => ProgramFault::UnknownName,
            Finding::UnknownParameter { .. } => ProgramFault::UnknownName,
            Finding::WrongPlace { .. } => ProgramFault::WrongPlace,
            Finding::WrongTime { .. } => ProgramFault::WrongPlace,
            Finding::MainHasPort { .. } => ProgramFault::MainHasPorts,
            Finding::WidthMismatch { .. } => ProgramFault::WidthMismatch,
            Finding::NoTrigger { .. } => ProgramFault::NoTrigger,
            Finding::NamedTwice { .. } => ProgramFault::DuplicateInput,
            Finding::LongTime { .. } => ProgramFault::DelayTooLong,
        }
    }
}
