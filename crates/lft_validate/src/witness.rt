//! What shows a cause of refusal: parts of the tree, which know where they stand.

ghost use Rattle.std.specs.Prelude.{◌≡◌};
ghost use Rattle.lft_validate.specs.Witnesses.{fault_shown};

use crate::finding::Finding;
use crate::placed::NameAt;
use lft_resolve::ProgramFault;
use lft_tree::{Parameter, Reactor, Reference};

/// What shows a cause of refusal.
#[derive(Clone, Copy, Drop)]
pub enum Witness<'a> {
    /// No reactor is a main one.
    NoMain,
    /// Two main reactors.
    TwoMains {
        first: &'a Reactor,
        second: &'a Reactor,
    },
    /// Two reactors have one name.
    SameReactors {
        first: NameAt<'a>,
        second: NameAt<'a>,
    },
    /// A reactor declares two things of one name.
    DeclaredTwice {
        reactor: &'a Reactor,
        first: NameAt<'a>,
        second: NameAt<'a>,
    },
    /// Something is wrong with a member of a reactor.
    Member {
        reactor: &'a Reactor,
        finding: Finding<'a>,
    },
    /// Two connections of a reactor end at one port.
    JoinedTwice {
        reactor: &'a Reactor,
        first: &'a Reference,
        second: &'a Reference,
    },
    /// A connection of a reactor ends at a port that a reaction of it writes.
    JoinedAndWritten {
        reactor: &'a Reactor,
        joined: &'a Reference,
        written: &'a Reference,
    },
    /// The default of a parameter is past the greatest time.
    LongDefault {
        reactor: &'a Reactor,
        parameter: &'a Parameter,
    },
}

impl<'a> Witness<'a> {
    /// The cause that it shows.
    pub fn fault(self) -> ProgramFault
        ensures { result ≡ fault_shown self.entry }
    {
        match self {
            Witness::NoMain => ProgramFault::NoMain,
            Witness::TwoMains { .. } => ProgramFault::TwoMains,
            Witness::SameReactors { .. } => ProgramFault::DuplicateName,
            Witness::DeclaredTwice { .. } => ProgramFault::DuplicateName,
            Witness::Member { finding, .. } => finding.fault(),
            Witness::JoinedTwice { .. } => ProgramFault::TwoSources,
            Witness::JoinedAndWritten { .. } => ProgramFault::TwoSources,
            Witness::LongDefault { .. } => ProgramFault::DelayTooLong,
        }
    }
}
