//! A reactor behind all that it extends.

ghost use Rattle.std.specs.Prelude.{◌≡◌, ◌≤◌, ◌<◌, ℕ, Some, None, IfOk, OnOk, MatchOption, IsTrue, true, false};
ghost use Rattle.lft_classes.specs.inner.{Chains.{IsChain, base_of, bases_from}, Walks.{IsOrdered, IsWalkOver, IsWalk}};

use crate::scopes::ReactorNames;
use crate::walk::Traversal;
use crate::work::Work;
use lft_whole::sources::{NoProgram, Why};
use std::alloc::Global;

/// A base of a reactor, by number, and where its name stands.
#[derive(Clone, Copy)]
struct Base {
    class: usize,
    file: usize,
    at: usize,
}

/// The base of this number of a reactor.
fn base_at(
    scopes: &ReactorNames,
    work: &mut Work,
    class: usize,
    number: usize,
) -> Result<Option<Base>, NoProgram>
    ensures base { IfOk result (λ o. MatchOption o ((k : ℕ) → number ≤ k → base_of scopes.now class k ≡ None) (λ base. base_of scopes.now class number ≡ Some base.class)) }
    ensures main { OnOk result (work.new.main ≡ work.old.main) }
    ensures work { work.new.left ≤ work.old.left }
{
    let Some(here) = scopes.class(class) else {
        return Ok(None);
    };
    let Some(base) = here.reactor.bases.get(number) else {
        return Ok(None);
    };
    // The name is looked up once more for each reactor that extends this one, so its bytes count each time.
    work.spend(base.text.len() as u64)?;
    match scopes.get(here.file, base.text.as_str()) {
        Some(found) => Ok(Some(Base {
            class: found.number,
            file: here.file,
            at: base.at,
        })),
        None => Err(NoProgram::at(Why::NoReactor, here.file, base.at)),
    }
}

/// Goes on with the bases of the reactor that is gone over; whether there was one.
fn step(scopes: &ReactorNames, work: &mut Work, walk: &mut Traversal) -> Result<bool, NoProgram>
    ensures walk { OnOk result ((first : ℕ) → IsWalk (base_of scopes.now) first walk.old → IsWalk (base_of scopes.now) first walk.new) }
    ensures order { OnOk result ((first : ℕ) → IsWalk (base_of scopes.now) first walk.old → IsOrdered (bases_from scopes.now) first walk.old → IsOrdered (bases_from scopes.now) first walk.new) }
    ensures over { IfOk result (λ more. more ≡ false → IsWalkOver walk.new) }
    ensures main { OnOk result (work.new.main ≡ work.old.main) }
    ensures work { IfOk result (λ more. IsTrue more → work.new.left < work.old.left) }
{
    let Some(visit) = walk.top() else {
        return Ok(false);
    };
    // Each step counts, also one that passes a base: bases of bases may be met far more often than listed.
    work.spend(1)?;
    let Some(base) = base_at(scopes, work, visit.node, visit.next)? else {
        walk.end()?;
        return Ok(true);
    };
    // A base that was entered is met here once more when it is listed. Then the walk passes it.
    if walk.is_done(base.class) {
        // It never saturates: a base has this number.
        walk.pass(visit.next.saturating_add(1))?;
        return Ok(true);
    }
    if walk.enter(base.class)? {
        return Ok(true);
    }
    // Met and not listed: it is on the way here.
    Err(NoProgram::at(Why::ExtendsItself, base.file, base.at))
}

/// The reactor behind all that it extends at any depth, each once, a base of a base before it, and a first base
/// before a second.
pub(crate) fn chain(
    alloc: Global,
    scopes: &ReactorNames,
    work: &mut Work,
    class: usize,
) -> Result<Vec<usize>, NoProgram>
    ensures list { IfOk result (λ v. IsChain scopes.now class v.items) }
    ensures main { OnOk result (work.new.main ≡ work.old.main) }
{
    let mut walk = Traversal::of(alloc, class)?;
    'visits: loop {
        if !step(scopes, work, &mut walk)? {
            break;
        }
    }
    Ok(walk.into_listed())
}
