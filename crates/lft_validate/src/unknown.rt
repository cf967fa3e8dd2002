//! Names that are nothing, in one member.

ghost use Rattle.std.specs.Prelude.{◌≡◌, ◌↔◌, List, None, Any, Contains, IfOk, IfSome, IfNone, IsTrue, IsSomeAnd, map};
ghost use Rattle.lft_tree.specs.{Tree.{ReactorTree, instance_in}, View.{assignment_view, instance_view, member_view, ref_view, time_view}};
ghost use Rattle.lft_resolve.specs.{Causes.{GivesUnknown, IsUnknownTime, LacksParameter}, Kinds.kind_of, inner.Tables.{IsFile, IsOwn}};
ghost use Rattle.lft_validate.specs.{Members.{names_of, times_of}, inner.{Members.behind, Shown.{ShowsUnknown, SomeName}}};
ghost use Rattle.lft_validate.specs.Findings.{IsFinding, IsForNone, IsNothing, fault_found};
ghost use Rattle.lft_resolve.specs.declared.causes.ProgramFault.TheVariants as faults;

use crate::finding::{Finding, ROLES};
use crate::names::{names_of, times_of};
use lft_resolve::file::{ReactorTable, kind_of};
use lft_resolve::kinds::Role;
use lft_resolve::own::Own;
use lft_tag::NoMemory;
use lft_tree::{Assignment, Instance, Member, Reference, TimeExpression};
use std::alloc::Global;

/// The first of the names that is nothing.
fn first_nothing<'a>(
    file: &ReactorTable,
    own: &Own,
    names: &[&'a Reference],
) -> Option<&'a Reference>
    ensures some { (rs : List ReactorTree) (r : ReactorTree) → IsFile rs file.now → IsOwn r own.now → IfSome result (λ x. Contains (behind names.now) x.now × IsNothing rs r x.now) }
    ensures none { (rs : List ReactorTree) (r : ReactorTree) → IsFile rs file.now → IsOwn r own.now → IfNone result (¬ Any (IsNothing rs r) (behind names.now)) }
{
    for name in names {
        if kind_of(file, own, name).is_none() {
            return Some(*name);
        }
    }
    None
}

/// The first of the member's names in that role that is nothing.
fn unknown_in_role<'a>(
    alloc: Global,
    file: &ReactorTable,
    own: &Own,
    member: &'a Member,
    role: Role,
) -> Result<Option<Finding<'a>>, NoMemory>
    ensures some { IfOk result (λ found. (rs : List ReactorTree) (r : ReactorTree) → IsFile rs file.now → IsOwn r own.now → IfSome found (IsFinding rs r member.now)) }
    ensures cause { IfOk result (λ found. IfSome found (λ f. fault_found f ≡ faults.UnknownName)) }
    ensures none { IfOk result (λ found. (rs : List ReactorTree) (r : ReactorTree) → IsFile rs file.now → IsOwn r own.now → IfNone found (¬ Any (IsNothing rs r) (names_of role member.now))) }
{
    let names = names_of(alloc, member, role)?;
    match first_nothing(file, own, &names) {
        Some(name) => Ok(Some(Finding::UnknownName { name })),
        None => Ok(None),
    }
}

/// The first of the member's names that is nothing.
fn unknown_name<'a>(
    alloc: Global,
    file: &ReactorTable,
    own: &Own,
    member: &'a Member,
) -> Result<Option<Finding<'a>>, NoMemory>
    ensures some { IfOk result (λ found. (rs : List ReactorTree) (r : ReactorTree) → IsFile rs file.now → IsOwn r own.now → IfSome found (IsFinding rs r member.now)) }
    ensures cause { IfOk result (λ found. IfSome found (λ f. fault_found f ≡ faults.UnknownName)) }
    ensures none { IfOk result (λ found. (rs : List ReactorTree) (r : ReactorTree) → IsFile rs file.now → IsOwn r own.now → IfNone found (¬ SomeName (λ n. kind_of rs r n.1 ≡ None) member.now)) }
{
    for role in ROLES {
        if let Some(found) = unknown_in_role(alloc, file, own, member, role)? {
            return Ok(Some(found));
        }
    }
    Ok(None)
}

/// Whether the name of the time, if it has one, is nothing.
fn is_unknown_time(own: &Own, time: &TimeExpression) -> bool
    ensures { (r : ReactorTree) → IsOwn r own.now → IsTrue result ↔ IsUnknownTime r (time_view time.now) }
{
    match time {
        TimeExpression::Written { .. } => false,
        TimeExpression::Parameter { name, .. } => own.kind(name.as_str()).is_none(),
    }
}

/// The first of the times that names nothing.
fn first_unknown_time<'a>(own: &Own, times: &[&'a TimeExpression]) -> Option<&'a TimeExpression>
    ensures some { (r : ReactorTree) → IsOwn r own.now → IfSome result (λ t. Contains (behind times.now) t.now × IsUnknownTime r (time_view t.now)) }
    ensures none { (r : ReactorTree) → IsOwn r own.now → IfNone result (¬ Any (λ t. IsUnknownTime r (time_view t)) (behind times.now)) }
{
    for time in times {
        if is_unknown_time(own, time) {
            return Some(*time);
        }
    }
    None
}

/// Whether the value is for what isn't a parameter.
fn is_for_none(inner: &Own, assignment: &Assignment) -> bool
    ensures { (r : ReactorTree) → IsOwn r inner.now → IsTrue result ↔ LacksParameter r (assignment_view assignment.now) }
{
    !inner.has_parameter(assignment.name.as_str())
}

/// The first of the values that is for what isn't a parameter.
fn first_for_none<'a>(inner: &Own, given: &'a [Assignment]) -> Option<&'a Assignment>
    ensures some { (r : ReactorTree) → IsOwn r inner.now → IfSome result (λ a. Contains given.now a.now × LacksParameter r (assignment_view a.now)) }
    ensures none { (r : ReactorTree) → IsOwn r inner.now → IfNone result (¬ Any (LacksParameter r) (map assignment_view given.now)) }
{
    for value in given {
        if is_for_none(inner, value) {
            return Some(value);
        }
    }
    None
}

/// The first value of a `new` that is for what isn't a parameter.
fn unknown_value<'a>(file: &ReactorTable, instance: &'a Instance) -> Option<&'a Assignment>
    ensures some { (rs : List ReactorTree) → IsFile rs file.now → IfSome result (λ a. Contains instance.now.given.items a.now × IsForNone rs instance.now a.now) }
    ensures none { (rs : List ReactorTree) → IsFile rs file.now → IfNone result (¬ GivesUnknown rs (instance_view instance.now)) }
{
    match file.reactor(instance.reactor.as_str()) {
        Some(inner) => first_for_none(inner, &instance.given),
        // `new` of a reactor that isn't there is another cause, which is looked for before this one.
        None => None,
    }
}

/// The first value of the member, if it is an instance, that is for what isn't a parameter.
fn unknown_parameter<'a>(
    file: &ReactorTable,
    member: &'a Member,
) -> Option<(&'a Instance, &'a Assignment)>
    ensures some { (rs : List ReactorTree) (r : ReactorTree) → IsFile rs file.now → IfSome result (λ p. IsFinding rs r member.now (Finding.UnknownParameter p.0 p.1)) }
    ensures none { (rs : List ReactorTree) → IsFile rs file.now → IfNone result (¬ IsSomeAnd (instance_in (member_view member.now)) (GivesUnknown rs)) }
{
    match member {
        Member::Instance(instance) => match unknown_value(file, instance) {
            Some(value) => Some((instance, value)),
            None => None,
        },
        Member::Port(_) | Member::Timer(_) | Member::Action(_) | Member::State(_) => None,
        Member::Preamble(_) | Member::Reaction(_) | Member::Connection(_) => None,
    }
}

/// The token at which the time begins.
fn token_of(time: &TimeExpression) -> usize {
    match time {
        TimeExpression::Written { at, .. } | TimeExpression::Parameter { at, .. } => *at,
    }
}

/// The first of the member's values and times in which a name is nothing.
fn unknown_value_or_time<'a>(
    alloc: Global,
    file: &ReactorTable,
    own: &Own,
    member: &'a Member,
) -> Result<Option<Finding<'a>>, NoMemory>
    ensures some { IfOk result (λ found. (rs : List ReactorTree) (r : ReactorTree) → IsFile rs file.now → IsOwn r own.now → IfSome found (IsFinding rs r member.now)) }
    ensures cause { IfOk result (λ found. IfSome found (λ f. fault_found f ≡ faults.UnknownName)) }
    ensures none { IfOk result (λ found. (rs : List ReactorTree) (r : ReactorTree) → IsFile rs file.now → IsOwn r own.now → IfNone found (¬ Any (λ t. IsUnknownTime r (time_view t)) (times_of member.now))) }
    ensures none_given { IfOk result (λ found. (rs : List ReactorTree) (r : ReactorTree) → IsFile rs file.now → IsOwn r own.now → IfNone found (¬ IsSomeAnd (instance_in (member_view member.now)) (GivesUnknown rs))) }
{
    let times = times_of(alloc, member)?;
    let Some((instance, value)) = unknown_parameter(file, member) else {
        return match first_unknown_time(own, &times) {
            Some(time) => Ok(Some(Finding::UnknownTime { time })),
            None => Ok(None),
        };
    };
    match first_unknown_time(own, &times) {
        // The times of an instance stand in what it gives. What stands first is told.
        Some(time) if token_of(time) < value.at => Ok(Some(Finding::UnknownTime { time })),
        _ => Ok(Some(Finding::UnknownParameter { instance, value })),
    }
}

/// The first place of the member where a name is nothing.
pub(crate) fn unknown<'a>(
    alloc: Global,
    file: &ReactorTable,
    own: &Own,
    member: &'a Member,
) -> Result<Option<Finding<'a>>, NoMemory>
    ensures some { IfOk result (λ found. (rs : List ReactorTree) (r : ReactorTree) → IsFile rs file.now → IsOwn r own.now → IfSome found (IsFinding rs r member.now)) }
    ensures cause { IfOk result (λ found. IfSome found (λ f. fault_found f ≡ faults.UnknownName)) }
    ensures none { IfOk result (λ found. (rs : List ReactorTree) (r : ReactorTree) → IsFile rs file.now → IsOwn r own.now → IfNone found (¬ ShowsUnknown rs r member.now)) }
{
    match unknown_name(alloc, file, own, member)? {
        Some(found) => Ok(Some(found)),
        None => unknown_value_or_time(alloc, file, own, member),
    }
}
