//! What is said of names that are nothing.

ghost use Rattle.std.specs.Prelude.{◌≡◌, IfOk, IfSome, codes};
ghost use Rattle.lft_program_diagnostics.specs.inner.{Codes.HasCodeWith, Sentences.IsOf};
ghost use Rattle.lft_resolve.specs.declared.causes.ProgramFault.TheVariants as faults;

use crate::code::has_code_with;
use crate::reason::WhyRefused;
use crate::refused::Refused;
use crate::sentence::Sentence;
use crate::words::reactor_words;
use lft_syntax::Token;
use lft_tag::NoMemory;
use lft_tree::{Assignment, Instance, Member, Reactor, Reference, TimeExpression};

/// What helps where code reaches too far, so that a reactor is in it.
pub fn way_of_code(text: &[u8], tokens: &[Token]) -> Option<&'static str>
    ensures { IfSome result (λ _. HasCodeWith text.now tokens.now (codes "reaction")) }
{
    if has_code_with(text, tokens, b"reaction") {
        Some("Some code has the word `reaction`: is the `=}` before that missing?")
    } else {
        None
    }
}

/// The reason with a question, where some name was probably meant.
fn meant(reason: WhyRefused, near: Option<&str>) -> Result<WhyRefused, NoMemory>
    ensures { IfOk result (λ r. r.sentence ≡ reason.sentence) }
{
    match near {
        Some(name) => reason.ask(name, None),
        None => Ok(reason),
    }
}

impl<'a> Refused<'a> {
    /// An instance is of a reactor that isn't there.
    pub(crate) fn unknown_reactor(
        &self,
        reactor: &Reactor,
        instance: &Instance,
    ) -> Result<WhyRefused, NoMemory>
        ensures { IfOk result (IsOf faults.UnknownReactor) }
    {
        let wanted = instance.reactor.as_str();
        let owner = reactor_words(self.alloc, reactor)?;
        let names = [owner.as_str(), wanted];
        let reason = WhyRefused::of(self.alloc, Sentence::UnknownReactor, &names)?;
        let reason = meant(reason, self.near_reactor(wanted)?)?;
        // Code without its end goes on into the next reactors, and then these aren't there.
        match way_of_code(self.text, self.tokens) {
            Some(way) => reason.way(way),
            None => Ok(reason),
        }
    }

    /// A name without a port is nothing.
    fn unknown_plain(&self, reactor: &'a Reactor, wanted: &str) -> Result<WhyRefused, NoMemory>
        ensures { IfOk result (IsOf faults.UnknownName) }
    {
        let owner = reactor_words(self.alloc, reactor)?;
        let names = [owner.as_str(), wanted];
        let reason = WhyRefused::of(self.alloc, Sentence::UnknownName, &names)?;
        let reason = meant(reason, self.near_declared(reactor, wanted)?)?;
        // A port of an instance may be meant, with the instance left out.
        match self.with_that_port(reactor, wanted)? {
            Some(instance) => reason.ask(instance, Some(wanted)),
            None => Ok(reason),
        }
    }

    /// An instance is nothing whose port is named.
    fn unknown_instance(
        &self,
        reactor: &'a Reactor,
        head: &str,
        port: &str,
    ) -> Result<WhyRefused, NoMemory>
        ensures { IfOk result (IsOf faults.UnknownName) }
    {
        let owner = reactor_words(self.alloc, reactor)?;
        let names = [owner.as_str(), head];
        let reason = WhyRefused::of(self.alloc, Sentence::UnknownInstance, &names)?;
        match self.near_instance(reactor, head, port)? {
            Some(near) => reason.ask(near, Some(port)),
            None => Ok(reason),
        }
    }

    /// A port of an instance is nothing.
    fn unknown_port(
        &self,
        reactor: &'a Reactor,
        instance: &Instance,
        port: &str,
    ) -> Result<WhyRefused, NoMemory>
        ensures { IfOk result (IsOf faults.UnknownName) }
    {
        let owner = reactor_words(self.alloc, reactor)?;
        let (head, inner) = (instance.name.as_str(), instance.reactor.as_str());
        let names = [owner.as_str(), head, inner, port];
        let reason = WhyRefused::of(self.alloc, Sentence::UnknownPort, &names)?;
        let Some(inner) = self.named(inner) else {
            return Ok(reason);
        };
        match self.near_port(inner, port)? {
            Some(near) => Ok(reason.ask(head, Some(near))?),
            None => Ok(reason),
        }
    }

    /// The instance of that name in the reactor of the site.
    fn instance(&self, reactor: &'a Reactor, wanted: &str) -> Option<&'a Instance> {
        for member in &reactor.members {
            if let Member::Instance(instance) = member {
                if instance.name.as_str() == wanted {
                    return Some(instance);
                }
            }
        }
        None
    }

    /// A name is nothing.
    pub(crate) fn unknown_name(
        &self,
        reactor: &'a Reactor,
        name: &Reference,
    ) -> Result<WhyRefused, NoMemory>
        ensures { IfOk result (IsOf faults.UnknownName) }
    {
        let head = name.head.as_str();
        let Some(port) = &name.port else {
            return self.unknown_plain(reactor, head);
        };
        match self.instance(reactor, head) {
            Some(instance) => self.unknown_port(reactor, instance, port.as_str()),
            None => self.unknown_instance(reactor, head, port.as_str()),
        }
    }

    /// A time names nothing.
    pub(crate) fn unknown_time(
        &self,
        reactor: &'a Reactor,
        time: &TimeExpression,
    ) -> Result<WhyRefused, NoMemory>
        ensures { IfOk result (IsOf faults.UnknownName) }
    {
        // What is written names nothing, and is never found.
        let TimeExpression::Parameter { name, .. } = time else {
            return self.plain(Sentence::UnknownName);
        };
        let wanted = name.as_str();
        let owner = reactor_words(self.alloc, reactor)?;
        let names = [owner.as_str(), wanted];
        let reason = WhyRefused::of(self.alloc, Sentence::UnknownName, &names)?;
        let reason = meant(reason, self.near_parameter(reactor, wanted)?)?;
        let way = "A time is a number with a unit, or a parameter of the reactor.";
        reason.way(way)
    }

    /// A value is for what isn't a parameter.
    pub(crate) fn unknown_parameter(
        &self,
        reactor: &Reactor,
        instance: &Instance,
        value: &Assignment,
    ) -> Result<WhyRefused, NoMemory>
        ensures { IfOk result (IsOf faults.UnknownName) }
    {
        let (wanted, inner) = (value.name.as_str(), instance.reactor.as_str());
        let owner = reactor_words(self.alloc, reactor)?;
        let names = [owner.as_str(), inner, wanted];
        let reason = WhyRefused::of(self.alloc, Sentence::UnknownParameter, &names)?;
        match self.named(inner) {
            Some(inner) => meant(reason, self.near_parameter(inner, wanted)?),
            None => Ok(reason),
        }
    }
}
