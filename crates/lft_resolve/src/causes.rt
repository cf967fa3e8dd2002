//! The causes for which a tree has no flat program: numbers, names and order.

ghost use Rattle.std.specs.Prelude.{◌≡◌};
ghost use Rattle.lft_resolve.specs.Causes.{number_of};

/// Why a tree has no flat program.
#[derive(Clone, Copy, PartialEq, Eq, Debug, Drop)]
pub enum ProgramFault {
    /// No reactor is the main one.
    NoMain,
    /// More than one reactor is the main one.
    TwoMains,
    /// Two reactors, or two things that one reactor declares, have one name.
    DuplicateName,
    /// `new` of a name that no reactor has.
    UnknownReactor,
    /// A reactor contains itself, at any depth.
    RecursiveReactor,
    /// A name that stands for nothing.
    UnknownName,
    /// A name of something that may not stand in its place.
    WrongPlace,
    /// The main reactor declares a port.
    MainHasPorts,
    /// A port has two connections into it, or a connection and a reaction that writes it.
    TwoSources,
    /// Connections alone form a cycle.
    ConnectionCycle,
    /// The two lists of a connection differ in length.
    WidthMismatch,
    /// A reaction has no trigger.
    NoTrigger,
    /// A name stands twice among a reaction's triggers and uses, or twice among its effects.
    DuplicateInput,
    /// A time, or the delays of a chain of connections together, pass 10^18 nanoseconds.
    DelayTooLong,
    /// A limit on how many things a program has is passed.
    TooMany,
    /// A growth of memory was refused.
    NoMemory,
}

/// The causes of the names of reactors and of what they declare, in the order in which they are answered.
pub const FIRST_CAUSES: [ProgramFault; 4] = [
    ProgramFault::NoMain,
    ProgramFault::TwoMains,
    ProgramFault::DuplicateName,
    ProgramFault::UnknownReactor,
];

/// The causes of what stands in each reactor, which are answered after `RecursiveReactor`.
pub const LATER_CAUSES: [ProgramFault; 7] = [
    ProgramFault::UnknownName,
    ProgramFault::WrongPlace,
    ProgramFault::MainHasPorts,
    ProgramFault::TwoSources,
    ProgramFault::WidthMismatch,
    ProgramFault::NoTrigger,
    ProgramFault::DuplicateInput,
];

impl ProgramFault {
    /// The number and the name of the cause. Want of memory is told so too.
    pub fn cause(self) -> (u32, &'static str)
        ensures { result.0 ≡ number_of self }
    {
        match self {
            ProgramFault::NoMain => (1, "NoMain"),
            ProgramFault::TwoMains => (2, "TwoMains"),
            ProgramFault::DuplicateName => (3, "DuplicateName"),
            ProgramFault::UnknownReactor => (4, "UnknownReactor"),
            ProgramFault::RecursiveReactor => (5, "RecursiveReactor"),
            ProgramFault::UnknownName => (6, "UnknownName"),
            ProgramFault::WrongPlace => (7, "WrongPlace"),
            ProgramFault::MainHasPorts => (8, "MainHasPorts"),
            ProgramFault::TwoSources => (9, "TwoSources"),
            ProgramFault::ConnectionCycle => (10, "ConnectionCycle"),
            ProgramFault::WidthMismatch => (11, "WidthMismatch"),
            ProgramFault::NoTrigger => (12, "NoTrigger"),
            ProgramFault::DuplicateInput => (13, "DuplicateInput"),
            ProgramFault::DelayTooLong => (14, "DelayTooLong"),
            ProgramFault::TooMany => (15, "TooMany"),
            ProgramFault::NoMemory => (16, "NoMemory"),
        }
    }
}
