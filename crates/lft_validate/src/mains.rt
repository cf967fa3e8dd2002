//! Main reactors, and parameters with long defaults.

ghost use Rattle.std.specs.Prelude.{◌≡◌, ◌<◌, ◌≤◌, ℕ, List, Any, Contains, IfSome, IfNone, length, map};
ghost use Rattle.lft_tree.specs.{Tree.nanoseconds, View.reactor_view, declared.tree.Reactor.Reactor};
ghost use Rattle.lft_resolve.specs.Causes.{NoMain, TwoMains, longest};
ghost use Rattle.lft_validate.specs.{inner.Members.{IsMainAt, behind}, Witnesses.{Shows, fault_shown}};
ghost use Rattle.lft_resolve.specs.declared.causes.ProgramFault.TheVariants as faults;

use crate::witness::Witness;
use lft_resolve::times::nanoseconds;
use lft_tree::Reactor;

/// The first main reactor at or behind the place.
fn main_from(reactors: &[&Reactor], start: usize) -> Option<usize>
    ensures some { IfSome result (λ n. (start ≤ n) × IsMainAt (behind reactors.now) n) }
    ensures within { IfSome result (λ n. n < length reactors.now) }
    ensures first { IfSome result (λ n. (k : ℕ) → start ≤ k → k < n → ¬ IsMainAt (behind reactors.now) k) }
    ensures none { IfNone result ((k : ℕ) → start ≤ k → ¬ IsMainAt (behind reactors.now) k) }
{
    for place in start..reactors.len() {
        if reactors[place].is_main {
            return Some(place);
        }
    }
    None
}

/// Whether there is no main reactor.
pub(crate) fn no_main<'a>(reactors: &[&'a Reactor]) -> Option<Witness<'a>>
    ensures shows { IfSome result (Shows (behind reactors.now)) }
    ensures cause { IfSome result (λ w. fault_shown w ≡ faults.NoMain) }
    ensures none { IfNone result (¬ NoMain (map reactor_view (behind reactors.now))) }
{
    match main_from(reactors, 0) {
        Some(_) => None,
        None => Some(Witness::NoMain),
    }
}

/// Two main reactors.
pub(crate) fn two_mains<'a>(reactors: &[&'a Reactor]) -> Option<Witness<'a>>
    ensures shows { IfSome result (Shows (behind reactors.now)) }
    ensures cause { IfSome result (λ w. fault_shown w ≡ faults.TwoMains) }
    ensures none { IfNone result (¬ TwoMains (map reactor_view (behind reactors.now))) }
{
    let first = main_from(reactors, 0)?;
    let second = main_from(reactors, first + 1)?;
    Some(Witness::TwoMains {
        first: reactors[first],
        second: reactors[second],
    })
}

/// The first of the reactor's parameters whose default is past the greatest time.
fn long_default_in<'a>(reactor: &'a Reactor) -> Option<Witness<'a>>
    ensures shows { (reactors : List Reactor) → Contains reactors reactor.now → IfSome result (Shows reactors) }
    ensures cause { IfSome result (λ w. fault_shown w ≡ faults.DelayTooLong) }
    ensures none { IfNone result (¬ Any (λ p. longest < nanoseconds p.default) (reactor_view reactor.now).parameters) }
{
    for parameter in &reactor.parameters {
        if nanoseconds(parameter.default).is_none() {
            return Some(Witness::LongDefault { reactor, parameter });
        }
    }
    None
}

/// The first parameter of the file whose default is past the greatest time.
pub(crate) fn long_default<'a>(reactors: &[&'a Reactor]) -> Option<Witness<'a>>
    ensures shows { IfSome result (Shows (behind reactors.now)) }
    ensures cause { IfSome result (λ w. fault_shown w ≡ faults.DelayTooLong) }
    ensures none { IfNone result (¬ Any (λ r. Any (λ p. longest < nanoseconds p.default) r.parameters) (map reactor_view (behind reactors.now))) }
{
    for reactor in reactors {
        if let Some(found) = long_default_in(reactor) {
            return Some(found);
        }
    }
    None
}
