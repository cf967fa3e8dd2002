//! The names that files declare, of which one may have been meant.

ghost use Rattle.std.specs.Prelude.{◌<◌};

use lft_tag::NoMemory;
use lft_whole::sources::{Place, SourceFile};
use lft_whole::{Import, Instance, Member, Name, Parameter, Reactor};
use std::alloc::Global;

/// Of a reactor with more bases the others aren't looked at.
// A refused program has no tables of names: each is looked for one by
// one, for a hint alone. So there are limits.
const MOST_BASES: usize = 16;

/// Where more reactors contain one another the others aren't looked at.
const MOST_INNER: usize = 100;

/// How many names may be compared in search of reactors.
pub(crate) const MOST_COMPARED: usize = 1 << 20;

/// What is declared, or asked for.
#[derive(Clone, Copy, PartialEq, Eq)]
pub(crate) enum NameKind {
    /// Anything at all.
    Any,
    Parameter,
    /// A parameter that is a time.
    Time,
    Port,
}

/// A name that a reactor declares, and the number of its file.
#[derive(Clone, Copy)]
pub(crate) struct DeclaredName<'a> {
    pub name: &'a Name,
    pub kind: NameKind,
    pub file: usize,
    pub instance: Option<&'a Instance>,
}

impl DeclaredName<'_> {
    /// Whether it is of a kind. A time is a parameter too.
    pub(crate) fn is(self, kind: NameKind) -> bool {
        match kind {
            NameKind::Any => true,
            NameKind::Parameter => matches!(self.kind, NameKind::Parameter | NameKind::Time),
            NameKind::Time | NameKind::Port => self.kind == kind,
        }
    }
}

/// A reactor, and the number of its file.
#[derive(Clone, Copy)]
pub(crate) struct ReactorSite<'a> {
    pub file: usize,
    pub reactor: &'a Reactor,
}

/// What the parameter declares.
fn of_parameter(file: usize, parameter: &Parameter) -> DeclaredName<'_> {
    let kind = if parameter.is_time {
        NameKind::Time
    } else {
        NameKind::Parameter
    };
    DeclaredName {
        name: &parameter.name,
        kind,
        file,
        instance: None,
    }
}

/// What the member declares, if it has a name.
fn of_member(file: usize, member: &Member) -> Option<DeclaredName<'_>> {
    let (name, kind, instance) = match member {
        Member::Port(port) => (&port.name, NameKind::Port, None),
        Member::Instance(instance) => (&instance.name, NameKind::Any, Some(instance)),
        Member::Timer(timer) => (&timer.name, NameKind::Any, None),
        Member::Action(action) => (&action.name, NameKind::Any, None),
        Member::Reaction(_) | Member::Connection(_) | Member::Foreign { .. } => return None,
    };
    Some(DeclaredName {
        name,
        kind,
        file,
        instance,
    })
}

impl<'a> ReactorSite<'a> {
    /// The name of the reactor; nothing where it has none.
    pub(crate) fn name(self) -> &'a str {
        match &self.reactor.name {
            Some(name) => name.text.as_str(),
            None => "",
        }
    }

    /// Whether it is that of the other one, by its place.
    fn is(self, other: ReactorSite<'a>) -> bool {
        self.file == other.file && self.reactor.at == other.reactor.at
    }

    /// Puts what it declares at the end of a list.
    fn push_declared(self, found: &mut Vec<DeclaredName<'a>>) -> Result<(), NoMemory> {
        for parameter in &self.reactor.parameters {
            found.push(of_parameter(self.file, parameter))?;
        }
        for member in &self.reactor.members {
            if let Some(declared) = of_member(self.file, member) {
                found.push(declared)?;
            }
        }
        Ok(())
    }
}

/// A reactor on a way of instances, and the number of the one that has an instance of it.
#[derive(Clone, Copy)]
struct WayStep<'a> {
    site: ReactorSite<'a>,
    outer: usize,
}

/// The reactors up to the one of this number, from that on outwards.
fn outwards<'a>(
    alloc: Global,
    steps: &[WayStep<'a>],
    last: usize,
) -> Result<Vec<ReactorSite<'a>>, NoMemory> {
    let mut sites = Vec::new(alloc);
    let mut at = last;
    for _ in 0..steps.len() {
        if at < steps.len() {
            sites.push(steps[at].site)?;
            at = steps[at].outer;
        }
    }
    Ok(sites)
}

/// The reactor of this name in a file.
fn own_named<'a>(file: &'a SourceFile, name: &str) -> Option<&'a Reactor> {
    for reactor in &file.tree.reactors {
        if let Some(other) = &reactor.name
            && other.text.as_str() == name
        {
            return Some(reactor);
        }
    }
    None
}

/// The name in its file of what is called so behind an import.
fn name_behind<'a>(import: &'a Import, alias: &str) -> Option<&'a str> {
    for imported in &import.names {
        if imported.alias.text.as_str() == alias {
            return Some(imported.name.text.as_str());
        }
    }
    None
}

/// The files of a program.
#[derive(Clone, Copy)]
pub(crate) struct FileNames<'a> {
    pub alloc: Global,
    pub files: &'a [SourceFile],
}

impl<'a> FileNames<'a> {
    /// The reactor in which a token stands.
    pub(crate) fn around(self, place: Place) -> Option<ReactorSite<'a>> {
        let file = place.file;
        let mut found = None;
        for reactor in &self.files.get(file)?.tree.reactors {
            // A reactor keeps no end. So a token stands in the last one that begins up to it.
            if reactor.at <= place.token {
                found = Some(ReactorSite { file, reactor });
            }
        }
        found
    }

    /// What it costs to find a reactor by its name in a file: one for each that is compared, and 1.
    pub(crate) fn cost(self, file: usize) -> usize
        ensures { 0 < result }
    {
        match self.files.get(file) {
            Some(file) => file.tree.reactors.len().saturating_add(1),
            None => 1,
        }
    }

    /// The number of the file that an import of this number names.
    fn target(self, file: usize, import: usize) -> Option<usize> {
        self.files.get(file)?.imports.get(import).copied()
    }

    /// The reactor that an import of this number gives under a name.
    fn imported(self, file: usize, import: usize, alias: &str) -> Option<ReactorSite<'a>> {
        let name = name_behind(self.files.get(file)?.tree.imports.get(import)?, alias)?;
        let file = self.target(file, import)?;
        let reactor = own_named(self.files.get(file)?, name)?;
        Some(ReactorSite { file, reactor })
    }

    /// The reactor that a name means in a file.
    pub(crate) fn named(self, file: usize, name: &str) -> Option<ReactorSite<'a>> {
        let here = self.files.get(file)?;
        if let Some(reactor) = own_named(here, name) {
            return Some(ReactorSite { file, reactor });
        }
        for import in 0..here.tree.imports.len() {
            if let Some(found) = self.imported(file, import, name) {
                return Some(found);
            }
        }
        None
    }

    /// Puts the bases of a reactor that aren't in a list at its end.
    fn push_bases(
        self,
        found: &mut Vec<ReactorSite<'a>>,
        site: ReactorSite<'a>,
    ) -> Result<(), NoMemory> {
        for place in 0..MOST_BASES {
            let Some(base) = site.reactor.bases.get(place) else {
                return Ok(());
            };
            if let Some(next) = self.named(site.file, base.text.as_str())
                && !found.iter().any(|other| other.is(next))
            {
                found.push(next)?;
            }
        }
        Ok(())
    }

    /// What a reactor declares, and then its bases.
    pub(crate) fn declared(self, site: ReactorSite<'a>) -> Result<Vec<DeclaredName<'a>>, NoMemory> {
        let mut found = Vec::new(self.alloc);
        let mut sites = Vec::new(self.alloc);
        sites.push(site)?;
        for place in 0..MOST_BASES {
            let Some(next) = sites.get(place).copied() else {
                return Ok(found);
            };
            next.push_declared(&mut found)?;
            self.push_bases(&mut sites, next)?;
        }
        Ok(found)
    }

    /// Puts the reactors of which one has an instance, and that aren't in a list, at its end.
    fn push_inner(self, steps: &mut Vec<WayStep<'a>>, outer: usize) -> Result<(), NoMemory> {
        let Some(step) = steps.get(outer).copied() else {
            return Ok(());
        };
        let declared = self.declared(step.site)?;
        // Each look-up costs as much as its file has reactors, so in a large file there are fewer.
        for place in 0..MOST_COMPARED / self.cost(step.site.file) {
            let Some(one) = declared.get(place).copied() else {
                return Ok(());
            };
            if let Some(instance) = one.instance
                && let Some(site) = self.named(one.file, instance.reactor.text.as_str())
                && !steps.iter().any(|other| other.site.is(site))
            {
                steps.push(WayStep { site, outer })?;
            }
        }
        Ok(())
    }

    /// The reactors on a way of instances from the first to the second, that one first; nothing where there is none.
    pub(crate) fn way(
        self,
        first: ReactorSite<'a>,
        second: ReactorSite<'a>,
    ) -> Result<Vec<ReactorSite<'a>>, NoMemory> {
        let mut steps = Vec::new(self.alloc);
        steps.push(WayStep {
            site: first,
            outer: usize::MAX,
        })?;
        // In the order in which they are found, so the way that is told is a shortest one.
        for place in 0..MOST_INNER {
            match steps.get(place).copied() {
                Some(step) if step.site.is(second) => {
                    return outwards(self.alloc, &steps, place);
                }
                Some(_) => self.push_inner(&mut steps, place)?,
                None => return Ok(Vec::new(self.alloc)),
            }
        }
        Ok(Vec::new(self.alloc))
    }

    /// The names that the reactors of a file have.
    pub(crate) fn of_file(self, file: usize) -> Result<Vec<&'a str>, NoMemory> {
        let mut names = Vec::new(self.alloc);
        let Some(file) = self.files.get(file) else {
            return Ok(names);
        };
        for reactor in &file.tree.reactors {
            if let Some(name) = &reactor.name {
                names.push(name.text.as_str())?;
            }
        }
        Ok(names)
    }

    /// The same, and those that its imports give.
    pub(crate) fn in_file(self, number: usize) -> Result<Vec<&'a str>, NoMemory> {
        let mut names = self.of_file(number)?;
        let Some(file) = self.files.get(number) else {
            return Ok(names);
        };
        for import in &file.tree.imports {
            for imported in &import.names {
                names.push(imported.alias.text.as_str())?;
            }
        }
        Ok(names)
    }

    /// Where the first main reactor of a file stands.
    pub(crate) fn first_main(self, file: usize) -> Option<Place> {
        for reactor in &self.files.get(file)?.tree.reactors {
            if reactor.is_main {
                return Some(Place {
                    file,
                    token: reactor.at,
                });
            }
        }
        None
    }

    /// Where the first reactor of a file stands that has the name of the one at a place.
    pub(crate) fn reactor_before(self, place: Place) -> Option<Place> {
        let file = place.file;
        let name = self.around(place)?.reactor.name.as_ref()?;
        let first = own_named(self.files.get(file)?, name.text.as_str())?;
        Some(Place {
            file,
            token: first.at,
        })
    }

    /// The file of which the import at a token gives something.
    pub(crate) fn import_at(self, place: Place) -> Option<usize> {
        let file = self.files.get(place.file)?;
        for number in 0..file.tree.imports.len() {
            for imported in &file.tree.imports[number].names {
                if imported.name.at == place.token {
                    return self.target(place.file, number);
                }
            }
        }
        None
    }
}
