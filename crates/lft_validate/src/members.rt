//! The first member of a file that shows a cause.

ghost use Rattle.std.specs.Prelude.{◌≡◌, List, Any, IfOk, IfSome, IfNone, map};
ghost use Rattle.lft_tree.specs.{Tree.ReactorTree, View.reactor_view};
ghost use Rattle.lft_resolve.specs.inner.Tables.{IsFile, IsOwn};
ghost use Rattle.lft_validate.specs.{Findings.fault_found, inner.{Members.behind, Shown.{ShowsCause, SomeShows}}, Witnesses.{HasFinding, Shows, fault_shown}};

use crate::finding::Finding;
use crate::member::in_member;
use crate::witness::Witness;
use lft_resolve::ProgramFault;
use lft_resolve::file::ReactorTable;
use lft_resolve::own::Own;
use lft_tag::NoMemory;
use lft_tree::Reactor;
use std::alloc::Global;

/// How the first member of the reactor that shows the cause does so. The tables have the names of the file and
/// of the reactor.
fn first_finding<'a>(
    alloc: Global,
    cause: ProgramFault,
    file: &ReactorTable,
    own: &Own,
    reactor: &'a Reactor,
) -> Result<Option<Finding<'a>>, NoMemory>
    ensures some { IfOk result (λ found. (rs : List ReactorTree) → IsFile rs file.now → IsOwn (reactor_view reactor.now) own.now → IfSome found (HasFinding rs reactor.now)) }
    ensures cause { IfOk result (λ found. IfSome found (λ f. fault_found f ≡ cause)) }
    ensures none { IfOk result (λ found. (rs : List ReactorTree) → IsFile rs file.now → IsOwn (reactor_view reactor.now) own.now → IfNone found (¬ Any (λ m. ShowsCause rs (reactor_view reactor.now) m cause) reactor.now.members.items)) }
{
    for member in &reactor.members {
        if let Some(found) = in_member(alloc, cause, file, own, reactor, member)? {
            return Ok(Some(found));
        }
    }
    Ok(None)
}

/// The first member of the file that shows the cause. The table has the names of its reactors.
pub(crate) fn first_member<'a>(
    alloc: Global,
    cause: ProgramFault,
    reactors: &[&'a Reactor],
    file: &ReactorTable,
) -> Result<Option<Witness<'a>>, NoMemory>
    requires { IsFile (map reactor_view (behind reactors.now)) file.now }
    ensures shows { IfOk result (λ found. IfSome found (Shows (behind reactors.now))) }
    ensures cause { IfOk result (λ found. IfSome found (λ w. fault_shown w ≡ cause)) }
    ensures none { IfOk result (λ found. IfNone found (¬ SomeShows (behind reactors.now) cause)) }
{
    for place in 0..reactors.len() {
        let own = &file.owns[place];
        let reactor = reactors[place];
        if let Some(finding) = first_finding(alloc, cause, file, own, reactor)? {
            return Ok(Some(Witness::Member { reactor, finding }));
        }
    }
    Ok(None)
}
