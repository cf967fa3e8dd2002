//! Names that may not stand where they do, in one member.

ghost use Rattle.std.specs.Prelude.{◌≡◌, List, Any, Contains, IfOk, IfSome, IfNone};
ghost use Rattle.lft_tree.specs.{Tree.ReactorTree, View.{ref_view, time_view}};
ghost use Rattle.lft_resolve.specs.{Causes.{IsMisplaced, IsMisplacedTime}, inner.Tables.{IsFile, IsOwn}};
ghost use Rattle.lft_validate.specs.{Members.names_of, inner.{Members.behind, Shown.{ShowsMisplaced, SomeName}}};
ghost use Rattle.lft_validate.specs.Findings.{IsFinding, IsWrongKind, IsWrongTime, fault_found};
ghost use Rattle.lft_resolve.specs.declared.causes.ProgramFault.TheVariants as faults;

use crate::finding::{Finding, ROLES};
use crate::names::{names_of, times_of};
use lft_resolve::file::{ReactorTable, kind_of};
use lft_resolve::kinds::{Kind, Role, may_stand};
use lft_resolve::own::Own;
use lft_tag::NoMemory;
use lft_tree::{Member, Reference, TimeExpression};
use std::alloc::Global;

/// What the name is, if it may not have that role.
fn wrong_kind(file: &ReactorTable, own: &Own, role: Role, name: &Reference) -> Option<Kind>
    ensures some { (rs : List ReactorTree) (r : ReactorTree) → IsFile rs file.now → IsOwn r own.now → IfSome result (λ kind. IsWrongKind rs r role kind name.now) }
    ensures none { (rs : List ReactorTree) (r : ReactorTree) → IsFile rs file.now → IsOwn r own.now → IfNone result (¬ IsMisplaced rs r (role, ref_view name.now)) }
{
    // A name that is nothing is another cause, which is looked for before this one.
    let kind = kind_of(file, own, name)?;
    if may_stand(role, kind) {
        None
    } else {
        Some(kind)
    }
}

/// The first of the names that may not have that role, and what it is.
fn first_wrong<'a>(
    file: &ReactorTable,
    own: &Own,
    role: Role,
    names: &[&'a Reference],
) -> Option<(&'a Reference, Kind)>
    ensures some { (rs : List ReactorTree) (r : ReactorTree) → IsFile rs file.now → IsOwn r own.now → IfSome result (λ p. Contains (behind names.now) p.0.now × IsWrongKind rs r role p.1 p.0.now) }
    ensures none { (rs : List ReactorTree) (r : ReactorTree) → IsFile rs file.now → IsOwn r own.now → IfNone result (¬ Any (λ x. IsMisplaced rs r (role, ref_view x)) (behind names.now)) }
{
    for name in names {
        if let Some(kind) = wrong_kind(file, own, role, name) {
            return Some((*name, kind));
        }
    }
    None
}

/// The first of the member's names in that role that may not have it.
fn misplaced_in_role<'a>(
    alloc: Global,
    file: &ReactorTable,
    own: &Own,
    member: &'a Member,
    role: Role,
) -> Result<Option<Finding<'a>>, NoMemory>
    ensures some { IfOk result (λ found. (rs : List ReactorTree) (r : ReactorTree) → IsFile rs file.now → IsOwn r own.now → IfSome found (IsFinding rs r member.now)) }
    ensures cause { IfOk result (λ found. IfSome found (λ f. fault_found f ≡ faults.WrongPlace)) }
    ensures none { IfOk result (λ found. (rs : List ReactorTree) (r : ReactorTree) → IsFile rs file.now → IsOwn r own.now → IfNone found (¬ Any (λ x. IsMisplaced rs r (role, ref_view x)) (names_of role member.now))) }
{
    let names = names_of(alloc, member, role)?;
    match first_wrong(file, own, role, &names) {
        Some((name, kind)) => Ok(Some(Finding::WrongPlace { role, name, kind })),
        None => Ok(None),
    }
}

/// The first of the member's names that may not stand where it does.
fn misplaced_name<'a>(
    alloc: Global,
    file: &ReactorTable,
    own: &Own,
    member: &'a Member,
) -> Result<Option<Finding<'a>>, NoMemory>
    ensures some { IfOk result (λ found. (rs : List ReactorTree) (r : ReactorTree) → IsFile rs file.now → IsOwn r own.now → IfSome found (IsFinding rs r member.now)) }
    ensures cause { IfOk result (λ found. IfSome found (λ f. fault_found f ≡ faults.WrongPlace)) }
    ensures none { IfOk result (λ found. (rs : List ReactorTree) (r : ReactorTree) → IsFile rs file.now → IsOwn r own.now → IfNone found (¬ SomeName (IsMisplaced rs r) member.now)) }
{
    for role in ROLES {
        if let Some(found) = misplaced_in_role(alloc, file, own, member, role)? {
            return Ok(Some(found));
        }
    }
    Ok(None)
}

/// What the time names, if that is no parameter.
fn wrong_time_kind(own: &Own, time: &TimeExpression) -> Option<Kind>
    ensures some { (r : ReactorTree) → IsOwn r own.now → IfSome result (λ kind. IsWrongTime r kind (time_view time.now)) }
    ensures none { (r : ReactorTree) → IsOwn r own.now → IfNone result (¬ IsMisplacedTime r (time_view time.now)) }
{
    match time {
        TimeExpression::Written { .. } => None,
        TimeExpression::Parameter { name, .. } => {
            // A name that is nothing is another cause, as above.
            let kind = own.kind(name.as_str())?;
            if kind == Kind::OwnParameter {
                None
            } else {
                Some(kind)
            }
        }
    }
}

/// The first of the times that names no parameter, and what it names.
fn first_wrong_time<'a>(
    own: &Own,
    times: &[&'a TimeExpression],
) -> Option<(&'a TimeExpression, Kind)>
    ensures some { (r : ReactorTree) → IsOwn r own.now → IfSome result (λ p. Contains (behind times.now) p.0.now × IsWrongTime r p.1 (time_view p.0.now)) }
    ensures none { (r : ReactorTree) → IsOwn r own.now → IfNone result (¬ Any (λ t. IsMisplacedTime r (time_view t)) (behind times.now)) }
{
    for time in times {
        if let Some(kind) = wrong_time_kind(own, time) {
            return Some((*time, kind));
        }
    }
    None
}

/// The first of the member's names and times that may not stand where it does.
pub(crate) fn misplaced<'a>(
    alloc: Global,
    file: &ReactorTable,
    own: &Own,
    member: &'a Member,
) -> Result<Option<Finding<'a>>, NoMemory>
    ensures some { IfOk result (λ found. (rs : List ReactorTree) (r : ReactorTree) → IsFile rs file.now → IsOwn r own.now → IfSome found (IsFinding rs r member.now)) }
    ensures cause { IfOk result (λ found. IfSome found (λ f. fault_found f ≡ faults.WrongPlace)) }
    ensures none { IfOk result (λ found. (rs : List ReactorTree) (r : ReactorTree) → IsFile rs file.now → IsOwn r own.now → IfNone found (¬ ShowsMisplaced rs r member.now)) }
{
    if let Some(found) = misplaced_name(alloc, file, own, member)? {
        return Ok(Some(found));
    }
    let times = times_of(alloc, member)?;
    match first_wrong_time(own, &times) {
        Some((time, kind)) => Ok(Some(Finding::WrongTime { time, kind })),
        None => Ok(None),
    }
}
