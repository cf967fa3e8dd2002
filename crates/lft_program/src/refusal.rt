//! Why a tree has no flat program, with what shows it.

ghost use Rattle.std.specs.Prelude.{◌≡◌};
ghost use Rattle.lft_program.specs.inner.Refusals.{fault_of};
ghost use Rattle.lft_program.specs.declared.refusal.Refusal.TheVariants as refusals;

use crate::nesting::{Excess, NestFault, Way};
use lft_resolve::ProgramFault;
use lft_validate::Witness;

/// Why a tree has no flat program, with what shows it.
#[derive(Drop)]
pub enum Refusal<'a> {
    /// What shows the cause in a reactor, or among the reactors of the file.
    Shown(Witness<'a>),
    /// Reactors by their places in the file, of which each has an instance of the next, and the last of
    /// the first.
    Recursive(Vec<usize>),
    /// A limit on how many things a program has is passed.
    TooMany(Excess),
    /// Connections alone form a cycle.
    ConnectionCycle(Way),
    /// The delays of a chain of connections together pass 10^18 nanoseconds.
    LongChain(Way),
    /// A growth of memory was refused.
    NoMemory,
}

impl<'a> From<lft_tag::NoMemory> for Refusal<'a> {
    ghost from_gives = { λ _ e. e ≡ refusals.NoMemory };

    fn from(_error: lft_tag::NoMemory) -> Refusal<'a> {
        Refusal::NoMemory
    }
}

impl<'a> From<NestFault> for Refusal<'a> {
    ghost use Rattle.lft_program.specs.inner.Refusals.{of_nest};

    ghost from_gives = { λ f e. e ≡ of_nest f };

    fn from(fault: NestFault) -> Refusal<'a> {
        match fault {
            NestFault::TooMany(excess) => Refusal::TooMany(excess),
            NestFault::NoMemory => Refusal::NoMemory,
        }
    }
}

impl<'a> Refusal<'a> {
    /// The fault, without what shows it.
    pub fn fault(&self) -> ProgramFault
        ensures { result ≡ fault_of self.now }
    {
        match self {
            Refusal::Shown(witness) => witness.fault(),
            Refusal::Recursive(_) => ProgramFault::RecursiveReactor,
            Refusal::TooMany(_) => ProgramFault::TooMany,
            Refusal::ConnectionCycle(_) => ProgramFault::ConnectionCycle,
            Refusal::LongChain(_) => ProgramFault::DelayTooLong,
            Refusal::NoMemory => ProgramFault::NoMemory,
        }
    }
}
