//! A walk that lists all that is reached from a first one, each behind all that it leads to.

ghost use Rattle.std.specs.Prelude.{◌≡◌, ℕ, List, [], ◌∷◌, Option, true, false, IfOk, IfSome, IfNone, OnOk};
ghost use Rattle.lft_classes.specs.inner.Walks.{IsWalk, IsOrdered, IsTop, IsWalkOver, LeadsToNoMore, LeadsFirst, LeadsNoFurther, LeadsToNode, PassesDone, PassesTo, is_done, IsList, Lists};

use std::alloc::{AllocError, Global};
use std::collections::BTreeSet;

/// One that is gone over, and the number of the next one that it leads to.
#[derive(Clone, Copy, Debug, PartialEq, Eq)]
pub(crate) struct Visit {
    pub node: usize,
    pub next: usize,
}

/// How far a walk has come.
// Not the walk of `lft_lists`: this one begins at one reactor and counts what it lists, and each way may
// be refused.
// Sets of numbers, and no mark for each reactor of the program: a walk begins at each of
// them, for its bases. The path is a list, as no depth of calls may grow with the text.
#[derive(Drop)]
pub(crate) struct Traversal {
    /// Those that were gone over, in this order.
    listed: Vec<usize>,
    done: BTreeSet<usize>,
    met: BTreeSet<usize>,
    path: Vec<Visit>,
}

impl Traversal {
    /// Nothing is listed yet.
    pub(crate) fn of(alloc: Global, first: usize) -> Result<Traversal, AllocError>
        ensures walk { IfOk result (λ walk. (next : ℕ → ℕ → Option ℕ) → IsWalk next first walk) }
        ensures order { IfOk result (λ walk. (from : ℕ → ℕ → List ℕ) → IsOrdered from first walk) }
    {
        let listed = Vec::new(alloc);
        let done = BTreeSet::new(alloc);
        let mut met = BTreeSet::new(alloc);
        let mut path = Vec::new(alloc);
        met.insert(first)?;
        path.push(Visit {
            node: first,
            next: 0,
        })?;
        Ok(Traversal {
            listed,
            done,
            met,
            path,
        })
    }

    /// The one that is gone over now; None at the end of the walk.
    pub(crate) fn top(&self) -> Option<Visit>
        ensures some { IfSome result (IsTop self.now) }
        ensures none { IfNone result (IsWalkOver self.now) }
    {
        self.path.last().copied()
    }

    /// Whether it is listed.
    pub(crate) fn is_done(&self, node: usize) -> bool
        ensures { result ≡ is_done self.now node }
    {
        self.done.contains(&node)
    }

    /// The one that is gone over now leads to no more: it is listed.
    pub(crate) fn end(&mut self) -> Result<(), AllocError>
        ensures walk { OnOk result ((next : ℕ → ℕ → Option ℕ) (first : ℕ) → LeadsToNoMore next self.old → IsWalk next first self.old → IsWalk next first self.new) }
        ensures order { OnOk result ((from : ℕ → ℕ → List ℕ) (first : ℕ) → LeadsNoFurther from self.old → IsOrdered from first self.old → IsOrdered from first self.new) }
    {
        let Some(top) = self.path.pop() else {
            return Ok(());
        };
        self.listed.push(top.node)?;
        self.done.insert(top.node)?;
        Ok(())
    }

    /// What the one that is gone over now leads to before this number is listed.
    pub(crate) fn pass(&mut self, number: usize) -> Result<(), AllocError>
        ensures walk { OnOk result ((next : ℕ → ℕ → Option ℕ) (first : ℕ) → PassesTo next self.old number → IsWalk next first self.old → IsWalk next first self.new) }
        ensures order { OnOk result ((next : ℕ → ℕ → Option ℕ) (from : ℕ → ℕ → List ℕ) (first : ℕ) → PassesDone from self.old number → IsWalk next first self.old → IsOrdered from first self.old → IsOrdered from first self.new) }
    {
        let Some(top) = self.path.pop() else {
            return Ok(());
        };
        self.path.push(Visit {
            node: top.node,
            next: number,
        })?;
        Ok(())
    }

    /// Goes on with one that the one leads to which is gone over now. False if it was met before.
    pub(crate) fn enter(&mut self, node: usize) -> Result<bool, AllocError>
        ensures new { IfOk result (λ is_new. is_new ≡ true → (next : ℕ → ℕ → Option ℕ) (first : ℕ) → LeadsToNode next self.old node → IsWalk next first self.old → IsWalk next first self.new) }
        ensures order { IfOk result (λ is_new. is_new ≡ true → (next : ℕ → ℕ → Option ℕ) (from : ℕ → ℕ → List ℕ) (first : ℕ) → LeadsFirst from self.old node → IsWalk next first self.old → IsOrdered from first self.old → IsOrdered from first self.new) }
    {
        let is_new = self.met.insert(node)?;
        if is_new {
            self.path.push(Visit { node, next: 0 })?;
            return Ok(true);
        }
        Ok(false)
    }

    /// All that was listed.
    pub(crate) fn into_listed(self) -> Vec<usize>
        ensures list { (next : ℕ → ℕ → Option ℕ) (first : ℕ) → IsWalkOver self → IsWalk next first self → IsList next first result.items }
        ensures order { (from : ℕ → ℕ → List ℕ) (first : ℕ) → IsWalkOver self → IsOrdered from first self → Lists (λ r. from r 0) [] (first ∷ []) result.items }
    {
        let Traversal {
            listed,
            done: _,
            met: _,
            path: _,
        } = self;
        listed
    }
}
