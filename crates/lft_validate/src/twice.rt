//! Names that stand twice.
//!
//! A set has the names that were met. Where a name stood before is looked for only once it was met.

ghost use Rattle.std.specs.Prelude.{◌≡◌, ◌<◌, ◌↔◌, ℕ, List, Some, Any, Contains, IfOk, IfSome, IfNone, IsSomeAnd, IsTrue, length, map, slice_get, string_bytes, take};
ghost use Rattle.lft_tree.specs.{Tree.{ReactorTree, RefTree, instance_in, reaction_in}, View.{instance_view, member_view, ref_view}};
ghost use Rattle.lft_tree.specs.declared.tree.Reaction.{Reaction};
ghost use Rattle.lft_resolve.specs.{Causes.{GivesTwice, IsTwice, NamesTwice}, inner.{References.ref_trees, Tests.texts}};
ghost use Rattle.lft_validate.specs.{Members.names_of, Findings.{IsFinding, StandsTwice, fault_found, name_at}, inner.Members.{IsTwiceAt, behind}};
ghost use Rattle.lft_resolve.specs.declared.causes.ProgramFault.TheVariants as faults;

use crate::finding::Finding;
use crate::names::names_of;
use crate::placed::NameAt;
use crate::seen::SeenNames;
use lft_resolve::hashing::NameHash;
use lft_resolve::kinds::Role;
use lft_tag::NoMemory;
use lft_tree::{Assignment, Instance, Member, Reference};
use std::alloc::Global;
use std::collections::HashSet;

/// Where a name stood before the place, with the place.
fn text_before(names: &[&str], place: usize) -> Option<(usize, usize)>
    requires { place < length names.now }
    ensures some { IfSome result (λ p. IsTwiceAt (texts names.now) p.0 p.1) }
    ensures none { IfNone result ((x : List ℕ) → slice_get (texts names.now) place ≡ Some x → ¬ Any (λ y. y ≡ x) (texts (take place names.now))) }
{
    for before in 0..place {
        if names[before] == names[place] {
            return Some((before, place));
        }
    }
    None
}

/// Where a name stands that stood before, and where that was.
fn first_twice(alloc: Global, names: &[&str]) -> Result<Option<(usize, usize)>, NoMemory>
    ensures some { IfOk result (λ found. IfSome found (λ p. IsTwiceAt (texts names.now) p.0 p.1)) }
    ensures none { IfOk result (λ found. IfNone found (¬ IsTwice (texts names.now))) }
{
    let mut seen = HashSet::with_hasher(alloc, NameHash::of(names));
    for place in 0..names.len() {
        if !seen.insert(names[place])? {
            return Ok(text_before(names, place));
        }
    }
    Ok(None)
}

/// Two of the names that are called the same, the first before the second.
pub(crate) fn two_named<'a>(
    alloc: Global,
    names: &[NameAt<'a>],
) -> Result<Option<(NameAt<'a>, NameAt<'a>)>, NoMemory>
    ensures some { IfOk result (λ found. IfSome found (λ p. StandsTwice (λ q. q.0) (map name_at names.now) (name_at p.0) (name_at p.1))) }
    ensures none { IfOk result (λ found. IfNone found (¬ IsTwice (map (λ n. n.name.now) names.now))) }
{
    let mut texts = Vec::new(alloc);
    for name in names {
        texts.push(name.name)?;
    }
    match first_twice(alloc, &texts)? {
        Some((first, second)) => Ok(Some((names[first], names[second]))),
        None => Ok(None),
    }
}

/// Whether two names are the same.
pub(crate) fn is_same(a: &Reference, b: &Reference) -> bool
    ensures { IsTrue result ↔ (ref_view a.now ≡ ref_view b.now) }
{
    if a.head.as_str() != b.head.as_str() {
        return false;
    }
    match (&a.port, &b.port) {
        (None, None) => true,
        (Some(one), Some(other)) => one.as_str() == other.as_str(),
        _ => false,
    }
}

/// The first name in the list that is the same as that one.
pub(crate) fn same_among<'a>(names: &[&'a Reference], name: &Reference) -> Option<&'a Reference>
    ensures some { IfSome result (λ x. Contains (behind names.now) x.now × (ref_view x.now ≡ ref_view name.now)) }
    ensures none { IfNone result (¬ Any (λ y. y ≡ ref_view name.now) (ref_trees names.now)) }
{
    for other in names {
        if is_same(other, name) {
            return Some(*other);
        }
    }
    None
}

/// Where a name stood before the place, with the place.
fn name_before(names: &[&Reference], place: usize) -> Option<(usize, usize)>
    requires { place < length names.now }
    ensures some { IfSome result (λ p. IsTwiceAt (ref_trees names.now) p.0 p.1) }
    ensures none { IfNone result ((x : RefTree) → slice_get (ref_trees names.now) place ≡ Some x → ¬ Any (λ y. y ≡ x) (ref_trees (take place names.now))) }
{
    for before in 0..place {
        if is_same(names[before], names[place]) {
            return Some((before, place));
        }
    }
    None
}

/// Where a name stands that stood before, and where that was.
pub(crate) fn first_named_twice(
    alloc: Global,
    names: &[&Reference],
) -> Result<Option<(usize, usize)>, NoMemory>
    ensures some { IfOk result (λ found. IfSome found (λ p. IsTwiceAt (ref_trees names.now) p.0 p.1)) }
    ensures none { IfOk result (λ found. IfNone found (¬ IsTwice (ref_trees names.now))) }
{
    // The state of the hash hangs on all names, so that colliding ones can't be chosen beforehand.
    let mut seen = SeenNames::new(alloc, NameHash::of_references(names));
    for place in 0..names.len() {
        if !seen.add(names[place])? {
            return Ok(name_before(names, place));
        }
    }
    Ok(None)
}

/// Two of the member's names in that role that are the same, the first before the second.
fn twice_in_role<'a>(
    alloc: Global,
    member: &'a Member,
    role: Role,
) -> Result<Option<Finding<'a>>, NoMemory>
    requires { (x : Reaction) × (member.now ≡ Member.Reaction x) }
    ensures some { IfOk result (λ found. (rs : List ReactorTree) (r : ReactorTree) → IfSome found (IsFinding rs r member.now)) }
    ensures cause { IfOk result (λ found. IfSome found (λ f. fault_found f ≡ faults.DuplicateInput)) }
    ensures none { IfOk result (λ found. IfNone found (¬ IsTwice (map ref_view (names_of role member.now)))) }
{
    let names = names_of(alloc, member, role)?;
    match first_named_twice(alloc, &names)? {
        Some((first, second)) => Ok(Some(Finding::NamedTwice {
            role,
            first: names[first],
            second: names[second],
        })),
        None => Ok(None),
    }
}

/// Two of the reaction's names in one role that are the same.
pub(crate) fn named_twice<'a>(
    alloc: Global,
    member: &'a Member,
) -> Result<Option<Finding<'a>>, NoMemory>
    ensures some { IfOk result (λ found. (rs : List ReactorTree) (r : ReactorTree) → IfSome found (IsFinding rs r member.now)) }
    ensures cause { IfOk result (λ found. IfSome found (λ f. fault_found f ≡ faults.DuplicateInput)) }
    ensures none { IfOk result (λ found. IfNone found (¬ IsSomeAnd (reaction_in (member_view member.now)) NamesTwice)) }
{
    match member {
        Member::Reaction(_) => {
            // Triggers and uses are one role, so a name that is both stands twice.
            if let Some(found) = twice_in_role(alloc, member, Role::Read)? {
                return Ok(Some(found));
            }
            twice_in_role(alloc, member, Role::Effect)
        }
        Member::Port(_) | Member::Timer(_) | Member::Action(_) | Member::State(_) => Ok(None),
        Member::Preamble(_) | Member::Instance(_) | Member::Connection(_) => Ok(None),
    }
}

/// The names of the parameters of these values.
fn given_names(alloc: Global, given: &[Assignment]) -> Result<Vec<NameAt<'_>>, NoMemory>
    ensures { IfOk result (λ v. map name_at v.items ≡ map (λ a. (string_bytes a.name, a.at)) given.now) }
{
    let mut names = Vec::new(alloc);
    for assignment in given {
        names.push(NameAt {
            name: assignment.name.as_str(),
            at: assignment.at,
        })?;
    }
    Ok(names)
}

/// Two values that the instance gives to one parameter.
fn instance_gives_twice<'a>(
    alloc: Global,
    instance: &'a Instance,
) -> Result<Option<Finding<'a>>, NoMemory>
    ensures some { IfOk result (λ found. (rs : List ReactorTree) (r : ReactorTree) → IfSome found (IsFinding rs r (Member.Instance instance.now))) }
    ensures cause { IfOk result (λ found. IfSome found (λ f. fault_found f ≡ faults.DuplicateName)) }
    ensures none { IfOk result (λ found. IfNone found (¬ GivesTwice (instance_view instance.now))) }
{
    let names = given_names(alloc, &instance.given)?;
    match two_named(alloc, &names)? {
        Some((first, second)) => Ok(Some(Finding::GivenTwice {
            instance,
            first,
            second,
        })),
        None => Ok(None),
    }
}

/// Two values that the member, if it is an instance, gives to one parameter.
pub(crate) fn given_twice<'a>(
    alloc: Global,
    member: &'a Member,
) -> Result<Option<Finding<'a>>, NoMemory>
    ensures some { IfOk result (λ found. (rs : List ReactorTree) (r : ReactorTree) → IfSome found (IsFinding rs r member.now)) }
    ensures cause { IfOk result (λ found. IfSome found (λ f. fault_found f ≡ faults.DuplicateName)) }
    ensures none { IfOk result (λ found. IfNone found (¬ IsSomeAnd (instance_in (member_view member.now)) GivesTwice)) }
{
    match member {
        Member::Instance(instance) => instance_gives_twice(alloc, instance),
        Member::Port(_) | Member::Timer(_) | Member::Action(_) | Member::State(_) => Ok(None),
        Member::Preamble(_) | Member::Reaction(_) | Member::Connection(_) => Ok(None),
    }
}
