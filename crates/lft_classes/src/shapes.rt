//! A reactor with the members of its bases before its own, and what its names are.

ghost use Rattle.std.specs.Prelude.{◌≡◌, ◌≢◌, ◌++◌, ◌↔◌, ℕ, List, [], Some, IfErr, IfOk, IfSome, IfNone, OnOk, IsTrue, flat_map, map, slice_get, option_map, string_bytes, true};
ghost use Rattle.lft_resolve.specs.inner.{Places.{IsIndexOf, place_in}, Tests.texts};
ghost use Rattle.lft_whole.specs.declared.tree.{Foreign.Foreign, Instance.Instance, Name.Name, Port.Port};
ghost use Rattle.lft_classes.specs.inner.Shapes.{thing_named, child_at, name_token};
ghost use Rattle.lft_classes.specs.inner.Built.{HasName, HasNoForeign, IsBuilt, core, located, located_parameters, declared_members, members_at, declared_parameters, parameters_at};
ghost use Rattle.lft_classes.specs.inner.{Naming.{EachNamed, HasNamed}, Refused.{IsTooMuch, why_of}};
ghost use Rattle.lft_classes.specs.Shapes.{name_of, width_of};

use crate::chains::chain;
use crate::scopes::{Class, ReactorNames};
use crate::weights::{of_member, of_parameter};
use crate::work::Work;
use lft_lists::item_at;
use lft_resolve::index::Index;
use lft_tag::NoMemory;
use lft_whole::sources::{NoProgram, Why};
use lft_whole::{Expression, Foreign, Instance, Member, Name, Parameter, Port, Width};
use std::alloc::Global;

/// A member, and the number of the file in which it stands.
// With its file: a name in it means what it means there, whoever inherits it.
#[derive(Clone, Copy)]
pub struct Inherited<'a> {
    pub file: usize,
    pub member: &'a Member,
}

/// A parameter, and the number of the file in which it stands.
#[derive(Clone, Copy)]
pub struct InheritedParameter<'a> {
    pub file: usize,
    pub parameter: &'a Parameter,
}

/// What a name is: a parameter or a member, by its number.
#[derive(Clone, Copy, PartialEq, Eq, Debug)]
pub enum OwnThing {
    Parameter(usize),
    Member(usize),
}

/// What `new` gives to the parameter of this number.
#[derive(Clone, Copy)]
pub struct GivenValue<'a> {
    pub parameter: usize,
    pub value: &'a Expression,
}

/// What is in an instance: the number of the shape of its reactor, and what the parameters are given, in
/// the order of the parameters.
#[derive(Drop)]
pub struct Child<'a> {
    pub shape: usize,
    pub given: Vec<GivenValue<'a>>,
}

/// A name, what it is, and the token of a file that gives it.
#[derive(Clone, Copy)]
struct Named<'a> {
    name: &'a str,
    thing: OwnThing,
    file: usize,
    at: usize,
}

/// A reactor with all that it inherits.
// One for each reactor, however its parameters are set: what it inherits is listed once.
#[derive(Drop)]
pub struct Shape<'a> {
    pub class: Class<'a>,
    pub members: Vec<Inherited<'a>>,
    pub parameters: Vec<InheritedParameter<'a>>,
    names: Index<'a>,
    named: Vec<Named<'a>>,
    /// For each member what is in it, if it is an instance.
    pub children: Vec<Option<Child<'a>>>,
    /// For each parameter whether a width needs it.
    pub sized: Vec<bool>,
    /// For each parameter whether a timer, an action or a connection needs it.
    pub timed: Vec<bool>,
    pub weight: u64,
}

/// The name of a member that has one.
fn name_of(member: &Member) -> Option<&Name>
    ensures { option_map (λ name. name.now) result ≡ name_of member.now }
{
    match member {
        Member::Port(port) => Some(&port.name),
        Member::Timer(timer) => Some(&timer.name),
        Member::Action(action) => Some(&action.name),
        Member::Instance(instance) => Some(&instance.name),
        Member::Reaction(_) | Member::Connection(_) | Member::Foreign { .. } => None,
    }
}

/// Why a mode, a mutation or a watchdog is refused.
pub fn why_of(what: Foreign) -> Why
    ensures { result ≡ why_of what }
{
    match what {
        Foreign::Mode => Why::Mode,
        Foreign::Mutation => Why::Mutation,
        Foreign::Watchdog => Why::Watchdog,
    }
}

/// Why a member can't be in a core program at all, and its token.
pub fn foreign(member: &Member) -> Option<(Why, usize)>
    ensures some { IfSome result (λ found. (what : Foreign) × (member.now ≡ Member.Foreign what found.1) × (found.0 ≡ why_of what)) }
    ensures none { IfNone result ((what : Foreign) (at : ℕ) → member.now ≢ Member.Foreign what at) }
{
    match member {
        Member::Foreign { what, at } => Some((why_of(*what), *at)),
        _ => None,
    }
}

impl<'a> Inherited<'a> {
    /// The port that it is.
    pub fn port(self) -> Option<&'a Port>
        ensures some { IfSome result (λ port. self.entry.member.now ≡ Member.Port port.now) }
        ensures none { IfNone result ((port : Port) → self.entry.member.now ≢ Member.Port port) }
    {
        match self.member {
            Member::Port(port) => Some(port),
            _ => None,
        }
    }

    /// The instance that it is.
    pub fn instance(self) -> Option<&'a Instance>
        ensures some { IfSome result (λ instance. self.entry.member.now ≡ Member.Instance instance.now) }
        ensures none { IfNone result ((instance : Instance) → self.entry.member.now ≢ Member.Instance instance) }
    {
        match self.member {
            Member::Instance(instance) => Some(instance),
            _ => None,
        }
    }

    /// Its width, if it has one.
    pub fn width(self) -> Option<&'a Width>
        ensures { option_map (λ width. width.now) result ≡ width_of self.entry.member.now }
    {
        match self.member {
            Member::Port(port) => port.width.as_ref(),
            Member::Instance(instance) => instance.width.as_ref(),
            _ => None,
        }
    }

    /// The token of its name, or 0 if it has none.
    pub fn at(self) -> usize
        ensures { result ≡ name_token self.entry.member.now }
    {
        match self.member {
            Member::Port(port) => port.name.at,
            Member::Timer(timer) => timer.name.at,
            Member::Action(action) => action.name.at,
            Member::Instance(instance) => instance.name.at,
            Member::Reaction(_) | Member::Connection(_) | Member::Foreign { .. } => 0,
        }
    }
}

/// The members and parameters of reactors, one reactor after another.
#[derive(Drop)]
struct Parts<'a> {
    members: Vec<Inherited<'a>>,
    parameters: Vec<InheritedParameter<'a>>,
    weight: u64,
}

/// Puts the members of a reactor behind those of others; how much there is to them.
fn push_members<'a>(
    members: &mut Vec<Inherited<'a>>,
    work: &mut Work,
    class: Class<'a>,
) -> Result<u64, NoProgram>
    ensures members { OnOk result (located members.new.items ≡ located members.old.items ++ declared_members class.entry) }
    ensures main { OnOk result (work.new.main ≡ work.old.main) }
    ensures cause { IfErr result IsTooMuch }
{
    let mut all: u64 = 0;
    for member in &class.reactor.members {
        let weight = of_member(member);
        // Spent before it is listed: in a chain of bases each reactor lists the members of all before it.
        work.spend(weight)?;
        // It never saturates, as all of it was spent before.
        all = all.saturating_add(weight);
        members.push(Inherited {
            file: class.file,
            member,
        })?;
    }
    Ok(all)
}

/// Puts the parameters of a reactor behind those of others; how much there is to them.
fn push_parameters<'a>(
    parameters: &mut Vec<InheritedParameter<'a>>,
    work: &mut Work,
    class: Class<'a>,
) -> Result<u64, NoProgram>
    ensures parameters { OnOk result (located_parameters parameters.new.items ≡ located_parameters parameters.old.items ++ declared_parameters class.entry) }
    ensures main { OnOk result (work.new.main ≡ work.old.main) }
    ensures cause { IfErr result IsTooMuch }
{
    let mut all: u64 = 0;
    for parameter in &class.reactor.parameters {
        let weight = of_parameter(parameter);
        work.spend(weight)?;
        all = all.saturating_add(weight);
        parameters.push(InheritedParameter {
            file: class.file,
            parameter,
        })?;
    }
    Ok(all)
}

/// Puts what the reactor of this number has behind that of others.
fn push_class<'a>(
    parts: &mut Parts<'a>,
    work: &mut Work,
    scopes: &ReactorNames<'a>,
    number: usize,
) -> Result<(), NoProgram>
    ensures members { OnOk result (located parts.new.members.items ≡ located parts.old.members.items ++ members_at scopes.now number) }
    ensures parameters { OnOk result (located_parameters parts.new.parameters.items ≡ located_parameters parts.old.parameters.items ++ parameters_at scopes.now number) }
    ensures main { OnOk result (work.new.main ≡ work.old.main) }
    ensures cause { IfErr result IsTooMuch }
{
    let Some(class) = scopes.class(number) else {
        return Ok(());
    };
    let parameters = push_parameters(&mut parts.parameters, work, class)?;
    let members = push_members(&mut parts.members, work, class)?;
    parts.weight = parts
        .weight
        .saturating_add(parameters)
        .saturating_add(members);
    Ok(())
}

/// What the reactors of a chain have.
fn parts_of<'a>(
    alloc: Global,
    scopes: &ReactorNames<'a>,
    work: &mut Work,
    chain: &[usize],
) -> Result<Parts<'a>, NoProgram>
    ensures members { IfOk result (λ parts. located parts.members.items ≡ flat_map (members_at scopes.now) chain.now) }
    ensures parameters { IfOk result (λ parts. located_parameters parts.parameters.items ≡ flat_map (parameters_at scopes.now) chain.now) }
    ensures main { OnOk result (work.new.main ≡ work.old.main) }
    ensures cause { IfErr result IsTooMuch }
{
    let mut parts = Parts {
        members: Vec::new(alloc),
        parameters: Vec::new(alloc),
        // A reactor of nothing counts too, since each of its settings has a place in lists.
        weight: 1,
    };
    for place in 0..chain.len() {
        let number = item_at(chain, place);
        push_class(&mut parts, work, scopes, number)?;
    }
    Ok(parts)
}

/// Puts the name of the member of this number behind others, if it has one.
fn push_named<'a>(
    named: &mut Vec<Named<'a>>,
    number: usize,
    inherited: Inherited<'a>,
) -> Result<(), NoMemory>
    ensures each { OnOk result ((ps : List InheritedParameter) (ms : List Inherited) → slice_get ms number ≡ Some inherited.entry → EachNamed ps ms named.old.items → EachNamed ps ms named.new.items) }
    ensures kept { OnOk result ((q : List ℕ) (t : OwnThing) → HasNamed named.old.items q t → HasNamed named.new.items q t) }
    ensures has { OnOk result ((q : List ℕ) → option_map (λ n. string_bytes n.text) (name_of inherited.entry.member.now) ≡ Some q → HasNamed named.new.items q (OwnThing.Member number)) }
{
    let Some(name) = name_of(inherited.member) else {
        return Ok(());
    };
    named.push(Named {
        name: name.text.as_str(),
        thing: OwnThing::Member(number),
        file: inherited.file,
        at: name.at,
    })?;
    Ok(())
}

/// The names of parameters and then those of members.
fn all_named<'a>(
    alloc: Global,
    parameters: &[InheritedParameter<'a>],
    members: &[Inherited<'a>],
) -> Result<Vec<Named<'a>>, NoMemory>
    ensures each { IfOk result (λ named. EachNamed parameters.now members.now named.items) }
    ensures all { IfOk result (λ named. (q : List ℕ) (t : OwnThing) → HasName parameters.now members.now q t → HasNamed named.items q t) }
{
    let mut named = Vec::new(alloc);
    for number in 0..parameters.len() {
        let declared = item_at(parameters, number);
        named.push(Named {
            name: declared.parameter.name.text.as_str(),
            thing: OwnThing::Parameter(number),
            file: declared.file,
            at: declared.parameter.name.at,
        })?;
    }
    for number in 0..members.len() {
        let inherited = item_at(members, number);
        push_named(&mut named, number, inherited)?;
    }
    Ok(named)
}

/// The names alone.
fn names_of<'a>(alloc: Global, all: &[Named<'a>]) -> Result<Vec<&'a str>, NoMemory>
    ensures { IfOk result (λ v. texts v.items ≡ map (λ n. n.name.now) all.now) }
{
    let mut names = Vec::new(alloc);
    for place in 0..all.len() {
        let named = item_at(all, place);
        names.push(named.name)?;
    }
    Ok(names)
}

impl<'a> Shape<'a> {
    /// The reactor behind all that it extends.
    pub(crate) fn of(
        alloc: Global,
        scopes: &ReactorNames<'a>,
        work: &mut Work,
        class: Class<'a>,
    ) -> Result<Shape<'a>, NoProgram>
        ensures class { IfOk result (λ shape. shape.class ≡ class.entry) }
        ensures built { IfOk result (λ shape. IsBuilt scopes.now (core shape)) }
        ensures empty { IfOk result (λ shape. shape.children.items ≡ []) }
        ensures main { OnOk result (work.new.main ≡ work.old.main) }
    {
        let chain = chain(alloc, scopes, work, class.number)?;
        let parts = parts_of(alloc, scopes, work, &chain)?;
        let Parts {
            members,
            parameters,
            weight,
        } = parts;
        let named = all_named(alloc, &parameters, &members)?;
        let names = names_of(alloc, &named)?;
        let index = Index::of(alloc, &names)?;
        refuse_twice(&index, &named)?;
        refuse_foreign(&members)?;
        Ok(Shape {
            class,
            members,
            parameters,
            names: index,
            named,
            // These three are filled later, as they need the shapes of what the reactor contains.
            children: Vec::new(alloc),
            sized: Vec::new(alloc),
            timed: Vec::new(alloc),
            weight,
        })
    }

    /// What the name is in the reactor.
    pub fn find(&self, name: &str) -> Option<OwnThing>
        ensures { result ≡ thing_named self.now name.now }
    {
        match self.names.get(name) {
            Some(place) => match self.named.get(place) {
                Some(named) => Some(named.thing),
                None => None,
            },
            None => None,
        }
    }

    /// The parameter of this name, by its number.
    pub fn parameter(&self, name: &str) -> Option<usize>
        ensures some { IfSome result (λ number. thing_named self.now name.now ≡ Some (OwnThing.Parameter number)) }
        ensures none { IfNone result ((number : ℕ) → thing_named self.now name.now ≢ Some (OwnThing.Parameter number)) }
    {
        match self.find(name) {
            Some(OwnThing::Parameter(number)) => Some(number),
            _ => None,
        }
    }

    /// The member of this number.
    pub fn member(&self, number: usize) -> Option<Inherited<'a>>
        ensures { result ≡ slice_get self.now.members.items number }
    {
        self.members.get(number).copied()
    }

    /// What is in the instance of this number.
    pub fn child(&self, number: usize) -> Option<&Child<'a>>
        ensures { option_map (λ child. child.now) result ≡ child_at self.now.children.items number }
    {
        match self.children.get(number) {
            Some(Some(child)) => Some(child),
            _ => None,
        }
    }

    /// Whether a width needs the parameter of this number.
    pub fn is_sized(&self, parameter: usize) -> bool
        ensures { IsTrue result ↔ (slice_get self.now.sized.items parameter ≡ Some true) }
    {
        self.sized.get(parameter) == Some(&true)
    }

    /// Whether a time is read from the parameter of this number.
    pub fn is_timed(&self, parameter: usize) -> bool
        ensures { IsTrue result ↔ (slice_get self.now.timed.items parameter ≡ Some true) }
    {
        self.timed.get(parameter) == Some(&true)
    }
}

/// Refuses two things of one name.
fn refuse_twice(index: &Index, named: &[Named]) -> Result<(), NoProgram>
    ensures once { OnOk result (IsIndexOf index.now (map (λ n. n.name.now) named.now) → (k : ℕ) (n : Named) → slice_get named.now k ≡ Some n → place_in index.now n.name.now ≡ Some k) }
{
    // An index has the first place of each name: so one pass finds two of one name.
    for place in 0..named.len() {
        let found = item_at(named, place);
        if index.get(found.name).unwrap_or(place) != place {
            return Err(NoProgram::at(Why::TwoNames, found.file, found.at));
        }
    }
    Ok(())
}

/// Refuses what no core program has in its place.
fn refuse_foreign(members: &[Inherited]) -> Result<(), NoProgram>
    ensures none { OnOk result (HasNoForeign members.now) }
{
    for inherited in members {
        if let Some((why, at)) = foreign(inherited.member) {
            return Err(NoProgram::at(why, inherited.file, at));
        }
    }
    Ok(())
}
