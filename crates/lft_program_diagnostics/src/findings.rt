//! What is said of a finding in one member of a reactor.

ghost use Rattle.std.specs.Prelude.{◌≡◌, IfOk};
ghost use Rattle.lft_validate.specs.Findings.{fault_found};
ghost use Rattle.lft_program_diagnostics.specs.inner.Sentences.{IsOf};
ghost use Rattle.lft_resolve.specs.declared.causes.ProgramFault.TheVariants as faults;

use crate::reason::WhyRefused;
use crate::refused::Refused;
use crate::sentence::Sentence;
use crate::words::{kind_words, list_words, name_words, reactor_words, role_way, role_words};
use itoa::Buffer;
use lft_resolve::kinds::{Kind, Role};
use lft_tag::NoMemory;
use lft_tree::{Connection, Reactor, Reference, TimeExpression};
use lft_validate::Finding;

impl<'a> Refused<'a> {
    /// What the name is, and why it may not stand there.
    fn not_there(
        &self,
        reactor: &Reactor,
        name: String,
        kind: Kind,
        why: &'static str,
    ) -> Result<WhyRefused, NoMemory>
        ensures { IfOk result (IsOf faults.WrongPlace) }
    {
        let owner = reactor_words(self.alloc, reactor)?;
        let names = [owner.as_str(), name.as_str(), kind_words(kind), why];
        WhyRefused::of(self.alloc, Sentence::WrongPlace, &names)
    }

    /// A name may not stand there.
    fn wrong_place(
        &self,
        reactor: &Reactor,
        role: Role,
        name: &Reference,
        kind: Kind,
    ) -> Result<WhyRefused, NoMemory>
        ensures { IfOk result (IsOf faults.WrongPlace) }
    {
        let name = name_words(self.alloc, name)?;
        let reason = self.not_there(reactor, name, kind, role_words(role))?;
        reason.way(role_way(role))
    }

    /// A time names what is no parameter.
    fn wrong_time(
        &self,
        reactor: &Reactor,
        time: &TimeExpression,
        kind: Kind,
    ) -> Result<WhyRefused, NoMemory>
        ensures { IfOk result (IsOf faults.WrongPlace) }
    {
        // What is written names nothing, and is never found.
        let TimeExpression::Parameter { name, .. } = time else {
            return self.plain(Sentence::WrongPlace);
        };
        let reason = self.not_there(reactor, name.clone()?, kind, "no time")?;
        let way = "A time is a number with a unit, or a parameter of the reactor.";
        reason.way(way)
    }

    /// The two lists of a connection differ in length.
    fn widths(&self, reactor: &Reactor, connection: &Connection) -> Result<WhyRefused, NoMemory>
        ensures { IfOk result (IsOf faults.WidthMismatch) }
    {
        let owner = reactor_words(self.alloc, reactor)?;
        // A buffer for each, as both texts stand in the sentence at once.
        let (mut from, mut to) = (Buffer::new(), Buffer::new());
        let from = from.format(connection.sources.len() as u64);
        let to = to.format(connection.destinations.len() as u64);
        let names = [owner.as_str(), from, to];
        WhyRefused::of(self.alloc, Sentence::Widths, &names)
    }

    /// A name stands twice in one role of a reaction.
    fn named_twice(
        &self,
        reactor: &Reactor,
        role: Role,
        name: &Reference,
    ) -> Result<WhyRefused, NoMemory>
        ensures { IfOk result (IsOf faults.DuplicateInput) }
    {
        let owner = reactor_words(self.alloc, reactor)?;
        let name = name_words(self.alloc, name)?;
        let names = [owner.as_str(), name.as_str(), list_words(role)];
        WhyRefused::of(self.alloc, Sentence::NamedTwice, &names)
    }

    /// What is said of the finding in a member of the reactor.
    pub(crate) fn of_finding(
        &self,
        reactor: &'a Reactor,
        finding: Finding<'a>,
    ) -> Result<WhyRefused, NoMemory>
        ensures { IfOk result (IsOf (fault_found finding.entry)) }
    {
        match finding {
            Finding::GivenTwice {
                instance,
                second,
                ..
            } => {
                let names = [instance.name.as_str(), second.name];
                WhyRefused::of(self.alloc, Sentence::GivenTwice, &names)
            }
            Finding::UnknownReactor { instance } => self.unknown_reactor(reactor, instance),
            Finding::UnknownName { name } => self.unknown_name(reactor, name),
            Finding::UnknownTime { time } => self.unknown_time(reactor, time),
            Finding::UnknownParameter { instance, value } => {
                self.unknown_parameter(reactor, instance, value)
            }
            Finding::WrongPlace { role, name, kind } => self.wrong_place(reactor, role, name, kind),
            Finding::WrongTime { time, kind } => self.wrong_time(reactor, time, kind),
            Finding::MainHasPort { port } => {
                WhyRefused::of(self.alloc, Sentence::MainPort, &[port.name.as_str()])
            }
            Finding::WidthMismatch { connection } => self.widths(reactor, connection),
            Finding::NoTrigger { .. } => self.of_reactor(Sentence::NoTrigger, reactor),
            Finding::NamedTwice { role, second, .. } => self.named_twice(reactor, role, second),
            Finding::LongTime { .. } => self.of_reactor(Sentence::LongTime, reactor),
        }
    }

    /// A sentence that names the reactor alone.
    fn of_reactor(&self, sentence: Sentence, reactor: &Reactor) -> Result<WhyRefused, NoMemory>
        ensures { IfOk result (λ r. r.sentence ≡ sentence) }
    {
        let owner = reactor_words(self.alloc, reactor)?;
        WhyRefused::of(self.alloc, sentence, &[owner.as_str()])
    }
}
