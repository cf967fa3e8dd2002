//! What is said of a reactor that contains itself.

ghost use Rattle.std.specs.Prelude.{◌≡◌, IfOk};
ghost use Rattle.lft_program_diagnostics.specs.inner.Sentences.{IsOf};
ghost use Rattle.lft_resolve.specs.declared.causes.ProgramFault.TheVariants as faults;

use crate::reason::WhyRefused;
use crate::refused::Refused;
use crate::sentence::Sentence;
use crate::spans::{Span, token_spot};
use crate::words::reactor_words;
use lft_tag::NoMemory;
use lft_tree::{Instance, Member, Reactor};

/// The first instance in the reactor of one with that name.
fn first_instance<'a>(reactor: &'a Reactor, name: &str) -> Option<&'a Instance> {
    for member in &reactor.members {
        if let Member::Instance(instance) = member {
            if instance.reactor.as_str() == name {
                return Some(instance);
            }
        }
    }
    None
}

/// The name of a reactor; nothing where it has none.
fn own_name(reactor: &Reactor) -> &str {
    match &reactor.name {
        Some(name) => name.as_str(),
        None => "",
    }
}

impl<'a> Refused<'a> {
    /// Where the first reactor has an instance of the second.
    fn instance_spot(&self, first: usize, second: usize) -> Option<Span> {
        let name = own_name(self.reactor(second)?);
        let instance = first_instance(self.reactor(first)?, name)?;
        token_spot(self.tokens, instance.reactor_at)
    }

    /// The reason with that the first reactor has an instance of the second.
    fn with_step(
        &self,
        reason: WhyRefused,
        first: usize,
        second: usize,
    ) -> Result<WhyRefused, NoMemory>
        ensures { IfOk result (λ r. r.sentence ≡ reason.sentence) }
    {
        let (Some(outer), Some(inner)) = (self.reactor(first), self.reactor(second)) else {
            return Ok(reason);
        };
        reason.link(own_name(outer), own_name(inner))
    }

    /// A reactor contains itself. Each of the circle has an instance of the next, and the last of the first.
    pub(crate) fn recursive(&self, circle: &[usize]) -> Result<WhyRefused, NoMemory>
        ensures { IfOk result (IsOf faults.RecursiveReactor) }
    {
        if circle.is_empty() {
            return self.plain(Sentence::Recursive);
        }
        let first = circle[0];
        let Some(reactor) = self.reactor(first) else {
            return self.plain(Sentence::Recursive);
        };
        let owner = reactor_words(self.alloc, reactor)?;
        // A circle of one reactor has an instance of itself.
        let second = if circle.len() > 1 { circle[1] } else { first };
        let mut reason = WhyRefused::of(self.alloc, Sentence::Recursive, &[owner.as_str()])?.at(
            self.instance_spot(first, second),
        );
        for place in 0..circle.len() {
            let next = if place + 1 < circle.len() {
                place + 1
            } else {
                0
            };
            reason = self.with_step(reason, circle[place], circle[next])?;
        }
        Ok(reason)
    }
}
