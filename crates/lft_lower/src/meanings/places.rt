//! What references become: a reference for each place.

ghost use Rattle.std.specs.Prelude.{◌≡◌, ◌+◌, ◌*◌, ◌++◌, ◌⊎◌, Bool, Some, IfErr, IfOk, OnOk, is_some, length, option_map, string_bytes, take};
ghost use Rattle.std.specs.List.{All};
ghost use Rattle.lft_tree.specs.View.{ref_view, ref_views};
ghost use Rattle.lft_elaborate.specs.inner.{Meanings.shape_inside, Names.spelled, Refused.IfRefused};
ghost use Rattle.lft_lower.specs.inner.Meanings.Meanings.{Means, all_places, inner_width, meaning_of_reference, member_with_width, named_in, parameter_alone, places_in, places_of, port_of, thing_in, here, is_wide, token_in};
ghost use Rattle.lft_lower.specs.inner.Meanings.Places.{count_of, inner_places, name_at, own_places, several, up_to};
ghost use Rattle.lft_lower.specs.inner.Meanings.{Standing.{all_tokens, ref_tokens, tokens_of, AddsAt}, Refused.{IsOfOne, IsOfReference, IsPassed}};
ghost use Rattle.lft_classes.specs.declared.shapes.OwnThing.TheVariants as things;

use crate::meanings::room::Room;
use lft_classes::{OwnThing, Shape, Work};
use lft_elaborate::channels::place_at;
use lft_elaborate::meanings::{Meaning, inner_shape, meaning_of};
use lft_elaborate::{Numbered, Settings, name_of};
use lft_tree::Reference;
use lft_whole::sources::{NoProgram, Place, SourceFile, Why, number_of};
use lft_whole::{Name, Reference as Written};
use std::alloc::Global;

/// A thing of a setting, with its width, if it has one.
#[derive(Clone, Copy)]
pub struct Wide<'a> {
    name: &'a str,
    width: Option<u64>,
}

impl<'a> Wide<'a> {
    /// How many it is.
    pub fn count(self) -> usize
        ensures { result ≡ count_of (several self.entry) }
    {
        self.width.unwrap_or(1) as usize
    }

    /// The one of this number.
    pub fn at(self, number: usize) -> Numbered<'a>
        ensures { spelled result ≡ name_at (several self.entry) number }
    {
        Numbered {
            name: self.name,
            number: match self.width {
                Some(_) => Some(number as u64),
                None => None,
            },
        }
    }

    /// Whether it has a width.
    fn is_wide(self) -> bool
        ensures { result ≡ is_some self.entry.width }
    {
        self.width.is_some()
    }
}

/// Where references are looked up: a setting, by its number, its shape, and the file in which they stand. The
/// widths of all that is used are known.
#[derive(Clone, Copy)]
pub struct Within<'s, 'a> {
    pub files: &'s [SourceFile],
    pub settings: &'s Settings<'a>,
    pub setting: usize,
    pub shape: &'s Shape<'a>,
    pub file: usize,
}

/// The member of this number of a shape, with its width.
fn wide_member<'a>(shape: &Shape<'a>, number: usize, width: Option<u64>) -> Wide<'a>
    ensures { several result ≡ member_with_width shape.now number width }
{
    let name = match shape.member(number) {
        Some(inherited) => name_of(inherited.member),
        None => "",
    };
    Wide { name, width }
}

/// The parameter of this number of a shape.
fn parameter<'a>(shape: &Shape<'a>, number: usize) -> Wide<'a>
    ensures { several result ≡ parameter_alone shape.now number }
{
    let name = match shape.parameters.get(number) {
        Some(found) => found.parameter.name.text.as_str(),
        None => "",
    };
    Wide { name, width: None }
}

impl<'s, 'a> Within<'s, 'a> {
    /// The number of a token of the file among those of all files.
    pub fn token(self, token: usize) -> usize
        ensures { result ≡ token_in self.entry token }
    {
        let file = self.file;
        number_of(self.files, Place { file, token })
    }

    /// The member of this number, which has this name.
    pub fn named<'n>(self, name: &'n Name, number: usize) -> Wide<'n>
        ensures { several result ≡ named_in (here self.entry) (string_bytes name.now.text) number }
    {
        Wide {
            name: name.text.as_str(),
            width: self.settings.known(self.setting, number),
        }
    }

    /// The member of this number.
    fn member(self, number: usize) -> Wide<'a>
        ensures { several result ≡ thing_in (here self.entry) (things.Member number) }
    {
        let width = self.settings.known(self.setting, number);
        wide_member(self.shape, number, width)
    }

    /// A thing of the reactor.
    fn thing(self, thing: OwnThing) -> Wide<'a>
        ensures { several result ≡ thing_in (here self.entry) thing }
    {
        match thing {
            OwnThing::Parameter(number) => parameter(self.shape, number),
            OwnThing::Member(number) => self.member(number),
        }
    }

    /// The width of a port of an instance, both by their numbers.
    fn inner_width(self, instance: usize, port: usize) -> Option<u64>
        ensures { result ≡ inner_width (here self.entry) instance port }
    {
        match self.settings.known_inside(self.setting, instance) {
            Some(inner) => self.settings.known(inner, port),
            None => None,
        }
    }

    /// The shape of the reactor of the instance of this number.
    pub fn inner_shape(self, instance: usize) -> Option<&'s Shape<'a>>
        ensures { option_map (λ shape. shape.now) result ≡ shape_inside self.entry.settings.now.shapes.items self.entry.shape.now instance }
    {
        inner_shape(&self.settings.shapes, self.shape, instance)
    }

    /// A port of an instance, both by their numbers.
    fn port(self, instance: usize, port: usize) -> Wide<'a>
        ensures { several result ≡ port_of (here self.entry) instance port }
    {
        let width = self.inner_width(instance, port);
        match self.inner_shape(instance) {
            Some(shape) => wide_member(shape, port, width),
            None => Wide { name: "", width },
        }
    }

    /// What a reference means.
    pub fn meaning(self, reference: &Written) -> Result<Meaning, NoProgram>
        ensures meaning { IfOk result (λ meaning. meaning_of_reference (here self.entry) reference.now ≡ Some meaning) }
        ensures cause { IfErr result (IfRefused (IsOfReference (here self.entry) self.entry.file reference.now)) }
    {
        let meaning = meaning_of(&self.settings.shapes, self.shape, self.file, reference)?;
        Ok(meaning)
    }

    /// How many places what is meant has. More than can be counted are refused.
    fn count(self, meaning: Meaning) -> Result<usize, NoProgram>
        ensures cause { IfErr result (IfRefused (IsPassed self.entry.settings.now.work.main)) }
        ensures count { IfOk result (λ count. (interleaved : Bool) → count ≡ length (places_of (here self.entry) interleaved meaning)) }
    {
        match meaning {
            Meaning::Own(thing) => Ok(self.thing(thing).count()),
            Meaning::Port { instance, port } => {
                let members = self.member(instance).count();
                let ports = self.port(instance, port).count();
                let count = product(&self.settings.work, members, ports)?;
                Ok(count)
            }
        }
    }

    /// Whether there is a width in it.
    pub fn is_wide(self, meaning: Meaning) -> bool
        ensures { result ≡ is_wide (here self.entry) meaning }
    {
        match meaning {
            Meaning::Own(thing) => self.thing(thing).is_wide(),
            Meaning::Port { instance, port } => {
                self.member(instance).is_wide() || self.port(instance, port).is_wide()
            }
        }
    }
}

/// The sum of two counts. One that can't be counted is refused.
fn sum(work: &Work, left: usize, right: usize) -> Result<usize, NoProgram>
    ensures sum { IfOk result (λ sum. sum ≡ left + right) }
    ensures cause { IfErr result (IfRefused (IsPassed work.now.main)) }
{
    match left.checked_add(right) {
        Some(sum) => Ok(sum),
        None => Err(work.refused(Why::TooMuch)),
    }
}

/// The product of two counts. One that can't be counted is refused.
fn product(work: &Work, left: usize, right: usize) -> Result<usize, NoProgram>
    ensures product { IfOk result (λ product. product ≡ left * right) }
    ensures cause { IfErr result (IfRefused (IsPassed work.now.main)) }
{
    match left.checked_mul(right) {
        Some(product) => Ok(product),
        None => Err(work.refused(Why::TooMuch)),
    }
}

/// The text of a name, which is counted.
pub fn counted(
    alloc: Global,
    room: &mut Room,
    work: &Work,
    name: Numbered,
) -> Result<String, NoProgram>
    ensures text { IfOk result (λ text. string_bytes text ≡ spelled name.entry) }
    ensures cause { IfErr result (IfRefused (IsPassed work.now.main)) }
{
    let text = name.spelled(alloc)?;
    room.spend(text.len(), work)?;
    Ok(text)
}

/// The same of a name, if there is one.
fn counted_if(
    alloc: Global,
    room: &mut Room,
    work: &Work,
    name: Option<Numbered>,
) -> Result<Option<String>, NoProgram>
    ensures text { IfOk result (λ text. option_map (λ t. string_bytes t) text ≡ option_map spelled name.entry) }
    ensures cause { IfErr result (IfRefused (IsPassed work.now.main)) }
{
    match name {
        Some(name) => Ok(Some(counted(alloc, room, work, name)?)),
        None => Ok(None),
    }
}

/// A core reference to a thing, or to a port of an instance. It stands at a token of all files.
fn made(
    alloc: Global,
    room: &mut Room,
    work: &Work,
    at: usize,
    head: Numbered,
    port: Option<Numbered>,
) -> Result<Reference, NoProgram>
    ensures made { IfOk result (λ made. ref_view made ≡ record { head = spelled head.entry; port = option_map spelled port.entry }) }
    ensures at { IfOk result (λ made. made.at ≡ at) }
    ensures cause { IfErr result (IfRefused (IsPassed work.now.main)) }
{
    let head = counted(alloc, room, work, head)?;
    let port = counted_if(alloc, room, work, port)?;
    Ok(Reference { head, port, at })
}

/// Puts the places of a thing of the reactor itself at the end of a list, until that has `most`.
fn push_own(
    alloc: Global,
    room: &mut Room,
    work: &Work,
    at: usize,
    thing: Wide,
    most: usize,
    list: &mut Vec<Reference>,
) -> Result<(), NoProgram>
    ensures places { OnOk result (ref_views list.new.items ≡ up_to most (ref_views list.old.items) (own_places (several thing.entry))) }
    ensures at { OnOk result (AddsAt list.old.items list.new.items at) }
    ensures cause { IfErr result (IfRefused (IsPassed work.now.main)) }
{
    let count = thing.count();
    for place in 0..count {
        if list.len() >= most {
            return Ok(());
        }
        let reference = made(alloc, room, work, at, thing.at(place), None)?;
        list.push(reference)?;
    }
    Ok(())
}

/// Puts the places of a port of an instance or a bank at the end of a list, until that has `most`.
fn push_inner(
    alloc: Global,
    room: &mut Room,
    work: &Work,
    at: usize,
    members: Wide,
    channels: Wide,
    is_interleaved: bool,
    most: usize,
    list: &mut Vec<Reference>,
) -> Result<(), NoProgram>
    ensures places { OnOk result (ref_views list.new.items ≡ up_to most (ref_views list.old.items) (inner_places (several members.entry) (several channels.entry) is_interleaved)) }
    ensures at { OnOk result (AddsAt list.old.items list.new.items at) }
    ensures cause { IfErr result (IfRefused (IsPassed work.now.main)) }
{
    let rows = members.count();
    let width = channels.count();
    // It never saturates: the caller has counted these places, and `product` refuses as many.
    let all = rows.saturating_mul(width);
    for place in 0..all {
        if list.len() >= most {
            return Ok(());
        }
        let spot = place_at(rows, width, is_interleaved, place);
        let head = members.at(spot.0);
        let port = channels.at(spot.1);
        let reference = made(alloc, room, work, at, head, Some(port))?;
        list.push(reference)?;
    }
    Ok(())
}

/// How many places references have together.
pub fn count(within: Within, references: &[Written]) -> Result<usize, NoProgram>
    ensures count { IfOk result (λ count. count ≡ length (all_places (here within.entry) references.now)) }
    ensures means { OnOk result (All (Means (here within.entry)) references.now) }
    ensures cause { IfErr result (IfRefused (λ r. IsPassed within.entry.settings.now.work.main r ⊎ IsOfOne (here within.entry) within.entry.file references.now r)) }
{
    let work = &within.settings.work;
    let mut all: usize = 0;
    for place in 0..references.len() {
        let meaning = within.meaning(&references[place])?;
        let count = within.count(meaning)?;
        all = sum(work, all, count)?;
    }
    Ok(all)
}

/// Puts the places of what a reference means at the end of a list, until that has `most`.
fn push_meant(
    alloc: Global,
    room: &mut Room,
    within: Within,
    at: usize,
    meaning: Meaning,
    is_interleaved: bool,
    most: usize,
    list: &mut Vec<Reference>,
) -> Result<(), NoProgram>
    ensures places { OnOk result (ref_views list.new.items ≡ up_to most (ref_views list.old.items) (places_of (here within.entry) is_interleaved meaning)) }
    ensures at { OnOk result (AddsAt list.old.items list.new.items at) }
    ensures cause { IfErr result (IfRefused (IsPassed within.entry.settings.now.work.main)) }
{
    let work = &within.settings.work;
    match meaning {
        Meaning::Own(thing) => {
            push_own(alloc, room, work, at, within.thing(thing), most, list)?;
            Ok(())
        }
        Meaning::Port { instance, port } => {
            push_inner(
                alloc,
                room,
                work,
                at,
                within.member(instance),
                within.port(instance, port),
                is_interleaved,
                most,
                list,
            )?;
            Ok(())
        }
    }
}

/// Puts the places of a reference at the end of a list, until that has `most`.
fn push_some(
    alloc: Global,
    room: &mut Room,
    within: Within,
    reference: &Written,
    most: usize,
    list: &mut Vec<Reference>,
) -> Result<(), NoProgram>
    ensures places { OnOk result (ref_views list.new.items ≡ up_to most (ref_views list.old.items) (places_in (here within.entry) reference.now)) }
    ensures tokens { OnOk result (ref_tokens list.new.items ≡ up_to most (ref_tokens list.old.items) (tokens_of (token_in within.entry) (here within.entry) reference.now)) }
    ensures cause { IfErr result (IfRefused (λ r. IsPassed within.entry.settings.now.work.main r ⊎ IsOfReference (here within.entry) within.entry.file reference.now r)) }
{
    let meaning = within.meaning(reference)?;
    let is_interleaved = reference.is_interleaved;
    push_meant(
        alloc,
        room,
        within,
        within.token(reference.head.at),
        meaning,
        is_interleaved,
        most,
        list,
    )?;
    Ok(())
}

/// The places of references one after another, as many as there are up to `most`.
pub fn some_places(
    alloc: Global,
    room: &mut Room,
    within: Within,
    references: &[Written],
    most: usize,
) -> Result<Vec<Reference>, NoProgram>
    ensures places { IfOk result (λ list. ref_views list.items ≡ take most (all_places (here within.entry) references.now)) }
    ensures tokens { IfOk result (λ list. ref_tokens list.items ≡ take most (all_tokens (token_in within.entry) (here within.entry) references.now)) }
    ensures cause { IfErr result (IfRefused (λ r. IsPassed within.entry.settings.now.work.main r ⊎ IsOfOne (here within.entry) within.entry.file references.now r)) }
{
    let mut list = Vec::new(alloc);
    for place in 0..references.len() {
        push_some(alloc, room, within, &references[place], most, &mut list)?;
    }
    Ok(list)
}

/// Puts all places of a reference at the end of a list.
pub fn push_places(
    alloc: Global,
    room: &mut Room,
    within: Within,
    reference: &Written,
    list: &mut Vec<Reference>,
) -> Result<(), NoProgram>
    ensures places { OnOk result (ref_views list.new.items ≡ ref_views list.old.items ++ places_in (here within.entry) reference.now) }
    ensures tokens { OnOk result (ref_tokens list.new.items ≡ ref_tokens list.old.items ++ tokens_of (token_in within.entry) (here within.entry) reference.now) }
    ensures means { OnOk result (Means (here within.entry) reference.now) }
    ensures cause { IfErr result (IfRefused (λ r. IsPassed within.entry.settings.now.work.main r ⊎ IsOfReference (here within.entry) within.entry.file reference.now r)) }
{
    let meaning = within.meaning(reference)?;
    let count = within.count(meaning)?;
    // All of them, so the bound is what the list has behind the last one.
    let most = sum(&within.settings.work, list.len(), count)?;
    let at = within.token(reference.head.at);
    let is_interleaved = reference.is_interleaved;
    push_meant(alloc, room, within, at, meaning, is_interleaved, most, list)?;
    Ok(())
}

/// All places of references, one after another.
pub fn places(
    alloc: Global,
    room: &mut Room,
    within: Within,
    references: &[Written],
) -> Result<Vec<Reference>, NoProgram>
    ensures places { IfOk result (λ list. ref_views list.items ≡ all_places (here within.entry) references.now) }
    ensures tokens { IfOk result (λ list. ref_tokens list.items ≡ all_tokens (token_in within.entry) (here within.entry) references.now) }
    ensures means { OnOk result (All (Means (here within.entry)) references.now) }
    ensures cause { IfErr result (IfRefused (λ r. IsPassed within.entry.settings.now.work.main r ⊎ IsOfOne (here within.entry) within.entry.file references.now r)) }
{
    let mut list = Vec::new(alloc);
    for place in 0..references.len() {
        push_places(alloc, room, within, &references[place], &mut list)?;
    }
    Ok(list)
}
