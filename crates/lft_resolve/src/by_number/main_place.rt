//! Where the main reactor stands.

ghost use Rattle.std.specs.Prelude.{◌≡◌, ◌<◌, ◌^◌, Some, find, length, slice_get, IfOk, MatchOption};
ghost use Rattle.lft_tree.specs.Tree.{ReactorTree, reactors_of};
ghost use Rattle.lft_resolve.specs.{Causes.{NoMain, NoneHolds, first_causes}, Instances.main_of, inner.References.reactor_trees};

use crate::scopes::Scopes;
use lft_tag::NoMemory;
use lft_tree::Reactor;

/// The number of the first main reactor.
fn number_of_main(reactors: &[&Reactor]) -> Option<u32>
    requires few { length reactors.now < 2 ^ 32 }
    ensures { MatchOption result (NoMain (reactor_trees reactors.now)) (λ n. (r : ReactorTree) × (find (λ r. r.is_main) (reactor_trees reactors.now) ≡ Some r) × (slice_get (reactor_trees reactors.now) n ≡ Some r)) }
{
    for (number, reactor) in reactors.iter().enumerate() {
        if reactor.is_main {
            return Some(number as u32);
        }
    }
    None
}

/// The number of the main reactor, where reactors are numbered from 0 in the order of the file.
pub fn main_number(scopes: &Scopes) -> Result<u32, NoMemory>
    requires { NoneHolds (first_causes (reactors_of scopes.now)) }
    ensures { IfOk result (λ n. (r : ReactorTree) × (main_of scopes.now ≡ Some r) × (slice_get (reactors_of scopes.now) n ≡ Some r)) }
{
    let reactors = scopes.reactors();
    // No text within the limit has so many, but a tree alone doesn't say so.
    if reactors.len() > u32::MAX as usize {
        return Err(NoMemory);
    }
    match number_of_main(reactors) {
        Some(number) => Ok(number),
        None => unreachable!(),
    }
}
