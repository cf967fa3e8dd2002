//! What helps where a whole program is refused at a name: which one was probably meant, and where the first of two stands.

use crate::could::push_unit;
use crate::names::{DeclaredName, FileNames, MOST_COMPARED, NameKind, ReactorSite};
use lft_program_diagnostics::{Sentence, nearest, push_link, push_question, way_of_code};
use lft_tag::NoMemory;
use lft_text_diagnostics::words::push_way;
use lft_whole::sources::{Place, SourceFile, Why};
use lft_whole::{Instance, Member, TokenKind, Tokens};
use std::alloc::Global;
use std::str::from_utf8;

/// The names of one kind.
fn names_of<'a>(
    alloc: Global,
    declared: &[DeclaredName<'a>],
    kind: NameKind,
) -> Result<Vec<&'a str>, NoMemory> {
    let mut names = Vec::new(alloc);
    for one in declared {
        if one.is(kind) {
            names.push(one.name.text.as_str())?;
        }
    }
    Ok(names)
}

/// Asks whether that of the names was meant that is near.
fn ask(out: &mut String, names: &[&str], wanted: &str) -> Result<(), NoMemory> {
    match nearest(names, wanted) {
        Some(name) => push_question(out, name, None),
        None => Ok(()),
    }
}

/// The first of two that are given to one parameter.
fn given_before(instance: &Instance, token: usize) -> Option<usize> {
    let second = instance.given.iter().find(|given| given.name.at == token)?;
    let wanted = second.name.text.as_str();
    let first = instance
        .given
        .iter()
        .find(|given| given.name.text.as_str() == wanted)?;
    Some(first.name.at)
}

/// The name at the place of a refusal, in its file.
#[derive(Clone, Copy)]
pub(crate) struct SoughtName<'a> {
    pub names: FileNames<'a>,
    pub file: &'a SourceFile,
    pub tokens: &'a Tokens,
    pub place: Place,
}

impl<'a> SoughtName<'a> {
    /// The letters of the token so many behind it.
    fn word(self, behind: usize) -> Option<&'a str> {
        let number = self.place.token.checked_add(behind)?;
        let token = self.tokens.as_slice().get(number)?;
        from_utf8(self.file.text.get(token.start..token.end)?).ok()
    }

    /// The port behind it, if there is one.
    fn port(self) -> Option<&'a str> {
        if self.word(1)? == "." {
            self.word(2)
        } else {
            None
        }
    }

    /// What the reactor declares in which it stands.
    fn declared(self) -> Result<Vec<DeclaredName<'a>>, NoMemory> {
        match self.names.around(self.place) {
            Some(site) => self.names.declared(site),
            None => Ok(Vec::new(self.names.alloc)),
        }
    }

    /// What the reactor of an instance declares.
    fn inside(self, file: usize, instance: &Instance) -> Result<Vec<DeclaredName<'a>>, NoMemory> {
        match self.names.named(file, instance.reactor.text.as_str()) {
            Some(site) => self.names.declared(site),
            None => Ok(Vec::new(self.names.alloc)),
        }
    }

    /// The instances that have a port of this name.
    fn with_port(
        self,
        declared: &[DeclaredName<'a>],
        port: &str,
    ) -> Result<Vec<&'a str>, NoMemory> {
        let mut found = Vec::new(self.names.alloc);
        // Each instance may be of a reactor with many names, two lengths that a
        // text chooses. So what is compared has a limit.
        let mut left = MOST_COMPARED;
        for one in declared {
            if let Some(instance) = one.instance
                && left > 0
            {
                let inner = self.inside(one.file, instance)?;
                left = left
                    .saturating_sub(inner.len())
                    .saturating_sub(self.names.cost(one.file));
                let has = inner.iter().any(|other| other.is(NameKind::Port)
                    && other.name.text.as_str() == port);
                if has {
                    found.push(one.name.text.as_str())?;
                }
            }
        }
        Ok(found)
    }

    /// Asks for a name alone: one of the reactor, or a port of an instance.
    fn ask_name(self, out: &mut String, wanted: &str) -> Result<(), NoMemory> {
        let declared = self.declared()?;
        let names = names_of(self.names.alloc, &declared, NameKind::Any)?;
        ask(out, &names, wanted)?;
        let instances = self.with_port(&declared, wanted)?;
        match instances.first() {
            Some(instance) => push_question(out, *instance, Some(wanted)),
            None => Ok(()),
        }
    }

    /// Asks for an instance that has the port behind it.
    fn ask_instance(self, out: &mut String, wanted: &str) -> Result<(), NoMemory> {
        let Some(port) = self.port() else {
            return Ok(());
        };
        let declared = self.declared()?;
        let instances = self.with_port(&declared, port)?;
        match nearest(&instances, wanted) {
            Some(near) => push_question(out, near, Some(port)),
            None => Ok(()),
        }
    }

    /// Asks for a port of the instance.
    fn ask_port(self, out: &mut String, head: &str) -> Result<(), NoMemory> {
        let Some(port) = self.port() else {
            return Ok(());
        };
        let declared = self.declared()?;
        let Some(one) = declared.iter().find(|one| one.name.text.as_str() == head) else {
            return Ok(());
        };
        let Some(instance) = one.instance else {
            return Ok(());
        };
        let inner = self.inside(one.file, instance)?;
        let ports = names_of(self.names.alloc, &inner, NameKind::Port)?;
        match nearest(&ports, port) {
            Some(near) => push_question(out, head, Some(near)),
            None => Ok(()),
        }
    }

    /// Asks for something of one kind that the reactor declares.
    fn ask_own(self, out: &mut String, kind: NameKind, wanted: &str) -> Result<(), NoMemory> {
        let declared = self.declared()?;
        let names = names_of(self.names.alloc, &declared, kind)?;
        ask(out, &names, wanted)
    }

    /// The instance that gives something at the place.
    fn giving(self, declared: &[DeclaredName<'a>]) -> Option<&'a Instance> {
        for one in declared {
            if let Some(instance) = one.instance
                && one.file == self.place.file
                && given_before(instance, self.place.token).is_some()
            {
                return Some(instance);
            }
        }
        None
    }

    /// Asks for a parameter to which an instance gives something.
    fn ask_given(self, out: &mut String, wanted: &str) -> Result<(), NoMemory> {
        let declared = self.declared()?;
        let Some(instance) = self.giving(&declared) else {
            return Ok(());
        };
        let inner = self.inside(self.place.file, instance)?;
        let names = names_of(self.names.alloc, &inner, NameKind::Parameter)?;
        ask(out, &names, wanted)
    }

    /// Asks for a reactor of the file that an import names.
    fn ask_imported(self, out: &mut String, wanted: &str) -> Result<(), NoMemory> {
        match self.names.import_at(self.place) {
            Some(file) => {
                let names = self.names.of_file(file)?;
                ask(out, &names, wanted)
            }
            None => Ok(()),
        }
    }

    /// What to write for a cause, where the same is said of a core program.
    fn way(self, why: Why) -> Option<&'static str> {
        match why {
            Why::NoReactor => way_of_code(&self.file.text, self.tokens.as_slice()),
            Why::NoMain => Sentence::NoMain.way(),
            Why::TwoMains => Sentence::TwoMains.way(),
            Why::TwoReactors => Sentence::SameReactors.way(),
            Why::TwoNames => Sentence::SameThings.way(),
            Why::NoTrigger => Sentence::NoTrigger.way(),
            Why::TimeTooLong => Sentence::LongTime.way(),
            _ => None,
        }
    }

    /// Puts behind the text what was probably meant by the name, and what to write.
    pub(crate) fn push(self, out: &mut String, why: Why) -> Result<(), NoMemory> {
        self.ask(out, why)?;
        self.push_lines(out, why)?;
        push_way(out, self.way(why))
    }

    /// Asks for what was probably meant by the name.
    fn ask(self, out: &mut String, why: Why) -> Result<(), NoMemory> {
        match self.word(0) {
            Some(wanted) => self.ask_for(out, why, wanted),
            None => Ok(()),
        }
    }

    /// Puts lines behind the text that belong to one cause.
    fn push_lines(self, out: &mut String, why: Why) -> Result<(), NoMemory> {
        match why {
            Why::ContainsItself => self.push_circle(out),
            Why::NoTime => self.push_unit(out),
            _ => Ok(()),
        }
    }

    /// The reactor of the instance that is declared at the place.
    fn inner(self, outer: ReactorSite<'a>) -> Option<ReactorSite<'a>> {
        for member in &outer.reactor.members {
            if let Member::Instance(instance) = member
                && instance.name.at == self.place.token
            {
                return self
                    .names
                    .named(self.place.file, instance.reactor.text.as_str());
            }
        }
        None
    }

    /// Puts behind the text by which reactors the one around the place contains itself.
    fn push_circle(self, out: &mut String) -> Result<(), NoMemory> {
        let Some(around) = self.names.around(self.place) else {
            return Ok(());
        };
        let Some(inner) = self.inner(around) else {
            return Ok(());
        };
        let way = self.names.way(inner, around)?;
        let mut outer = around;
        // The way comes from its end back, and is told from the instance at the place on.
        for site in way.iter().rev() {
            push_link(out, outer.name(), site.name())?;
            outer = *site;
        }
        Ok(())
    }

    /// Puts behind the text that a number that is no time may have a unit.
    fn push_unit(self, out: &mut String) -> Result<(), NoMemory> {
        match self.tokens.as_slice().get(self.place.token) {
            Some(token) if matches!(token.kind, TokenKind::Number(_)) => push_unit(
                self.names.alloc,
                out,
                &self.file.text,
                token.end,
                self.place.token,
            ),
            _ => Ok(()),
        }
    }

    /// Asks for a reactor of the file, or one that it imports.
    fn ask_reactor(self, out: &mut String, wanted: &str) -> Result<(), NoMemory> {
        let names = self.names.in_file(self.place.file)?;
        ask(out, &names, wanted)
    }

    /// Asks for the name in the place of the one that is wanted.
    fn ask_for(self, out: &mut String, why: Why, wanted: &str) -> Result<(), NoMemory> {
        match why {
            Why::NoReactor => self.ask_reactor(out, wanted),
            Why::NotImported => self.ask_imported(out, wanted),
            Why::UnknownName => self.ask_name(out, wanted),
            Why::UnknownInstance => self.ask_instance(out, wanted),
            Why::UnknownPort => self.ask_port(out, wanted),
            Why::UnknownParameter => self.ask_own(out, NameKind::Parameter, wanted),
            Why::GivesNoParameter => self.ask_given(out, wanted),
            Why::NoTime => self.ask_own(out, NameKind::Time, wanted),
            _ => Ok(()),
        }
    }

    /// The first thing of its name that the reactor declares, if that is another one.
    fn declared_before(self) -> Result<Option<Place>, NoMemory> {
        let declared = self.declared()?;
        let Some(wanted) = self.word(0) else {
            return Ok(None);
        };
        for one in &declared {
            let place = Place {
                file: one.file,
                token: one.name.at,
            };
            if one.name.text.as_str() == wanted && place != self.place {
                return Ok(Some(place));
            }
        }
        Ok(None)
    }

    /// Where the first of two stands of which the second is refused.
    pub(crate) fn before(self, why: Why) -> Result<Option<Place>, NoMemory> {
        match why {
            Why::TwoNames => self.declared_before(),
            Why::GivenTwice => {
                let declared = self.declared()?;
                let Some(instance) = self.giving(&declared) else {
                    return Ok(None);
                };
                Ok(given_before(instance, self.place.token).map(|token| Place {
                    file: self.place.file,
                    token,
                }))
            }
            Why::TwoMains => Ok(self.names.first_main(self.place.file)),
            Why::TwoReactors => Ok(self.names.reactor_before(self.place)),
            _ => Ok(None),
        }
    }
}
