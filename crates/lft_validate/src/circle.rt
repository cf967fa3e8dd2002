//! Reactors that contain one another in a circle.

ghost use Rattle.std.specs.Prelude.{List, IfOk, IfSome, IfNone};
ghost use Rattle.lft_tree.specs.Tree.{ReactorTree};
ghost use Rattle.lft_resolve.specs.{inner.Numbers.AreContents, Causes.RecursiveReactor};
ghost use Rattle.lft_validate.specs.inner.Witnesses.{IsCircle};

use lft_lists::{Walked, Ways, walk_all};
use lft_resolve::expansion::Contents;
use lft_tag::NoMemory;
use std::alloc::Global;

/// What each reactor contains.
#[derive(Drop)]
struct ContentsTable<'a> {
    contents: &'a [Contents],
}

impl Ways for ContentsTable<'_> {
    ghost use Rattle.lft_validate.specs.inner.Circles.{instances_in};

    ghost ways = { λ table reactor. instances_in table.contents.now reactor };

    fn way(&self, number: usize, place: usize) -> Option<usize> {
        if number >= self.contents.len() {
            return None;
        }
        let instances = self.contents[number].instances.as_slice();
        if place < instances.len() {
            Some(instances[place] as usize)
        } else {
            None
        }
    }
}

/// Reactors by their places in the file, of which each has an instance of the next, and the last of the
/// first. The table has what each reactor of a file contains.
pub fn circle_of(alloc: Global, contents: &[Contents]) -> Result<Option<Vec<usize>>, NoMemory>
    ensures circle { IfOk result (λ found. IfSome found (λ v. (rs : List ReactorTree) → AreContents rs contents.now → IsCircle rs v.items)) }
    ensures some { IfOk result (λ found. IfSome found (λ _. (rs : List ReactorTree) → AreContents rs contents.now → RecursiveReactor rs)) }
    ensures none { IfOk result (λ found. IfNone found ((rs : List ReactorTree) → AreContents rs contents.now → ¬ RecursiveReactor rs)) }
{
    match walk_all(alloc, &ContentsTable { contents }, contents.len())? {
        Walked::Order(_) => Ok(None),
        Walked::Circle(circle) => Ok(Some(circle)),
    }
}
