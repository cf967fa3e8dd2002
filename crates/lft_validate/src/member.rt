//! How one member of a reactor shows a cause.

ghost use Rattle.std.specs.Prelude.{◌≡◌, ◌↔◌, List, Any, Contains, IfOk, IfSome, IfNone, IsTrue};
ghost use Rattle.lft_tree.specs.{Tree.ReactorTree, View.{reactor_view, time_view}};
ghost use Rattle.lft_resolve.specs.{Causes.IsLongTime, inner.Tables.{IsFile, IsOwn}};
ghost use Rattle.lft_validate.specs.{inner.{Members.behind, Shown.ShowsCause}, Members.times_of, Findings.{IsFinding, fault_found}};
ghost use Rattle.lft_resolve.specs.declared.causes.ProgramFault.TheVariants as faults;

use crate::finding::Finding;
use crate::misplaced::misplaced;
use crate::names::times_of;
use crate::twice::{given_twice, named_twice};
use crate::unknown::unknown;
use lft_resolve::ProgramFault;
use lft_resolve::file::ReactorTable;
use lft_resolve::own::Own;
use lft_resolve::times::nanoseconds;
use lft_tag::NoMemory;
use lft_tree::{Member, Reactor, TimeExpression};
use std::alloc::Global;

/// Whether the member is an instance of a reactor that isn't in the file.
fn unknown_reactor<'a>(file: &ReactorTable, member: &'a Member) -> Option<Finding<'a>>
    ensures some { (rs : List ReactorTree) (r : ReactorTree) → IsFile rs file.now → IfSome result (IsFinding rs r member.now) }
    ensures cause { IfSome result (λ f. fault_found f ≡ faults.UnknownReactor) }
    ensures none { (rs : List ReactorTree) (r : ReactorTree) → IsFile rs file.now → IfNone result (¬ ShowsCause rs r member.now faults.UnknownReactor) }
{
    match member {
        Member::Instance(instance) => match file.reactor(instance.reactor.as_str()) {
            Some(_) => None,
            None => Some(Finding::UnknownReactor { instance }),
        },
        Member::Port(_) | Member::Timer(_) | Member::Action(_) | Member::State(_) => None,
        Member::Preamble(_) | Member::Reaction(_) | Member::Connection(_) => None,
    }
}

/// Whether the member is a port of a main reactor.
fn main_port<'a>(reactor: &Reactor, member: &'a Member) -> Option<Finding<'a>>
    ensures some { (rs : List ReactorTree) → IfSome result (IsFinding rs (reactor_view reactor.now) member.now) }
    ensures cause { IfSome result (λ f. fault_found f ≡ faults.MainHasPorts) }
    ensures none { (rs : List ReactorTree) → IfNone result (¬ ShowsCause rs (reactor_view reactor.now) member.now faults.MainHasPorts) }
{
    if !reactor.is_main {
        return None;
    }
    match member {
        Member::Port(port) => Some(Finding::MainHasPort { port }),
        Member::Timer(_) | Member::Action(_) | Member::State(_) | Member::Preamble(_) => None,
        Member::Instance(_) | Member::Reaction(_) | Member::Connection(_) => None,
    }
}

/// Whether the member is a connection whose two lists differ in length.
fn width(member: &Member) -> Option<Finding<'_>>
    ensures some { (rs : List ReactorTree) (r : ReactorTree) → IfSome result (IsFinding rs r member.now) }
    ensures cause { IfSome result (λ f. fault_found f ≡ faults.WidthMismatch) }
    ensures none { (rs : List ReactorTree) (r : ReactorTree) → IfNone result (¬ ShowsCause rs r member.now faults.WidthMismatch) }
{
    match member {
        Member::Connection(connection) => {
            if connection.sources.len() != connection.destinations.len() {
                Some(Finding::WidthMismatch { connection })
            } else {
                None
            }
        }
        Member::Port(_) | Member::Timer(_) | Member::Action(_) | Member::State(_) => None,
        Member::Preamble(_) | Member::Instance(_) | Member::Reaction(_) => None,
    }
}

/// Whether the member is a reaction without a trigger.
fn no_trigger(member: &Member) -> Option<Finding<'_>>
    ensures some { (rs : List ReactorTree) (r : ReactorTree) → IfSome result (IsFinding rs r member.now) }
    ensures cause { IfSome result (λ f. fault_found f ≡ faults.NoTrigger) }
    ensures none { (rs : List ReactorTree) (r : ReactorTree) → IfNone result (¬ ShowsCause rs r member.now faults.NoTrigger) }
{
    match member {
        Member::Reaction(reaction) => {
            if reaction.triggers.is_empty() {
                Some(Finding::NoTrigger { reaction })
            } else {
                None
            }
        }
        Member::Port(_) | Member::Timer(_) | Member::Action(_) | Member::State(_) => None,
        Member::Preamble(_) | Member::Instance(_) | Member::Connection(_) => None,
    }
}

/// Whether the time is written and past the greatest.
fn is_long(time: &TimeExpression) -> bool
    ensures { IsTrue result ↔ IsLongTime (time_view time.now) }
{
    match time {
        TimeExpression::Written { time: written, .. } => nanoseconds(*written).is_none(),
        // A default, or what is given in its place, is looked at where it is written.
        TimeExpression::Parameter { .. } => false,
    }
}

/// The first of the times that is past the greatest.
fn first_long<'a>(times: &[&'a TimeExpression]) -> Option<&'a TimeExpression>
    ensures some { IfSome result (λ t. Contains (behind times.now) t.now × IsLongTime (time_view t.now)) }
    ensures none { IfNone result (¬ Any (λ t. IsLongTime (time_view t)) (behind times.now)) }
{
    for time in times {
        if is_long(time) {
            return Some(*time);
        }
    }
    None
}

/// The first time of the member that is past the greatest.
fn long_time(alloc: Global, member: &Member) -> Result<Option<Finding<'_>>, NoMemory>
    ensures some { IfOk result (λ found. (rs : List ReactorTree) (r : ReactorTree) → IfSome found (IsFinding rs r member.now)) }
    ensures cause { IfOk result (λ found. IfSome found (λ f. fault_found f ≡ faults.DelayTooLong)) }
    ensures none { IfOk result (λ found. IfNone found (¬ Any (λ t. IsLongTime (time_view t)) (times_of member.now))) }
{
    let times = times_of(alloc, member)?;
    match first_long(&times) {
        Some(time) => Ok(Some(Finding::LongTime { time })),
        None => Ok(None),
    }
}

/// How the member shows the cause, if it does. Alone it shows no other than these.
pub(crate) fn in_member<'a>(
    alloc: Global,
    cause: ProgramFault,
    file: &ReactorTable,
    own: &Own,
    reactor: &Reactor,
    member: &'a Member,
) -> Result<Option<Finding<'a>>, NoMemory>
    ensures some { IfOk result (λ found. (rs : List ReactorTree) → IsFile rs file.now → IsOwn (reactor_view reactor.now) own.now → IfSome found (IsFinding rs (reactor_view reactor.now) member.now)) }
    ensures cause { IfOk result (λ found. IfSome found (λ f. fault_found f ≡ cause)) }
    ensures none { IfOk result (λ found. (rs : List ReactorTree) → IsFile rs file.now → IsOwn (reactor_view reactor.now) own.now → IfNone found (¬ ShowsCause rs (reactor_view reactor.now) member.now cause)) }
{
    match cause {
        ProgramFault::DuplicateName => given_twice(alloc, member),
        ProgramFault::UnknownReactor => Ok(unknown_reactor(file, member)),
        ProgramFault::UnknownName => unknown(alloc, file, own, member),
        ProgramFault::WrongPlace => misplaced(alloc, file, own, member),
        ProgramFault::MainHasPorts => Ok(main_port(reactor, member)),
        ProgramFault::WidthMismatch => Ok(width(member)),
        ProgramFault::NoTrigger => Ok(no_trigger(member)),
        ProgramFault::DuplicateInput => named_twice(alloc, member),
        ProgramFault::DelayTooLong => long_time(alloc, member),
        _ => Ok(None),
    }
}
