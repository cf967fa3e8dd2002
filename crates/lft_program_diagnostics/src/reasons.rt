//! What is said of a witness.

ghost use Rattle.std.specs.Prelude.{◌≡◌, IfOk};
ghost use Rattle.lft_validate.specs.Witnesses.{fault_shown};
ghost use Rattle.lft_program_diagnostics.specs.inner.Sentences.{IsOf};
ghost use Rattle.lft_resolve.specs.declared.causes.ProgramFault.TheVariants as faults;

use crate::reason::WhyRefused;
use crate::refused::Refused;
use crate::sentence::Sentence;
use crate::words::{name_words, reactor_words};
use lft_tag::NoMemory;
use lft_tree::{Reactor, Reference};
use lft_validate::Witness;

impl<'a> Refused<'a> {
    /// The sentence without names.
    pub(crate) fn plain(&self, sentence: Sentence) -> Result<WhyRefused, NoMemory>
        ensures { IfOk result (λ r. r.sentence ≡ sentence) }
    {
        WhyRefused::of(self.alloc, sentence, &[])
    }

    /// A reactor declares two things of one name.
    fn same_things(&self, reactor: &Reactor, name: &str) -> Result<WhyRefused, NoMemory>
        ensures { IfOk result (IsOf faults.DuplicateName) }
    {
        let owner = reactor_words(self.alloc, reactor)?;
        let names = [owner.as_str(), name];
        WhyRefused::of(self.alloc, Sentence::SameThings, &names)
    }

    /// A port is written at two places.
    fn two_sources(
        &self,
        reactor: &Reactor,
        name: &Reference,
        writers: &str,
    ) -> Result<WhyRefused, NoMemory>
        ensures { IfOk result (IsOf faults.TwoSources) }
    {
        let owner = reactor_words(self.alloc, reactor)?;
        let name = name_words(self.alloc, name)?;
        let names = [owner.as_str(), name.as_str(), writers];
        WhyRefused::of(self.alloc, Sentence::TwoSources, &names)
    }

    /// The default of a parameter is too long.
    fn long_default(&self, reactor: &Reactor, name: &str) -> Result<WhyRefused, NoMemory>
        ensures { IfOk result (IsOf faults.DelayTooLong) }
    {
        let owner = reactor_words(self.alloc, reactor)?;
        let names = [name, owner.as_str()];
        WhyRefused::of(self.alloc, Sentence::LongDefault, &names)
    }

    /// What is said of a witness.
    pub(crate) fn of_witness(&self, witness: Witness<'a>) -> Result<WhyRefused, NoMemory>
        ensures { IfOk result (IsOf (fault_shown witness.entry)) }
    {
        match witness {
            Witness::NoMain => self.plain(Sentence::NoMain),
            Witness::TwoMains { .. } => self.plain(Sentence::TwoMains),
            Witness::SameReactors { second, .. } => {
                WhyRefused::of(self.alloc, Sentence::SameReactors, &[second.name])
            }
            Witness::DeclaredTwice {
                reactor,
                second,
                ..
            } => self.same_things(reactor, second.name),
            Witness::Member { reactor, finding } => self.of_finding(reactor, finding),
            Witness::JoinedTwice {
                reactor,
                second,
                ..
            } => self.two_sources(reactor, second, "two connections"),
            Witness::JoinedAndWritten {
                reactor,
                joined,
                ..
            } => self.two_sources(reactor, joined, "a connection and an effect"),
            Witness::LongDefault { reactor, parameter } => {
                self.long_default(reactor, parameter.name.as_str())
            }
        }
    }
}
