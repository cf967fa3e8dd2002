//! Whether runs keep the order of precedence.

ghost use Rattle.std.specs.Prelude.{ℕ, ◌≡◌, IsTrue, None, IfSome};
ghost use Rattle.lft_tag.specs.declared.Tag.{Tag as TheTag};
ghost use Rattle.lft_ir.specs.Steps.Fits.{RowsFit};
ghost use Rattle.lft_graph.specs.inner.Sets.{AreAncestors};
ghost use Rattle.lft_model.specs.{Breaches.IsTooEarly, Runs.Ran};
ghost use Rattle.lft_rows.specs.inner.Firsts.{FirstRow};
ghost use Rattle.lft_stream.specs.inner.Ordered.{IsOrdered};

use crate::ranks::is_ranked;
use lft_graph::{Ancestors, Set};
use lft_ir::steps::{Row, is_end, is_start, row_at};
use lft_model::Plan;
use std::alloc::Global;
use std::marker::Model;

/// What precedes each reaction, once that was asked for.
// Most runs follow each other by the levels of their reactions. The sets are made where some don't.
#[derive(Drop)]
pub(crate) struct Precedence {
    alloc: Global,
    ancestors: Option<Ancestors>,
}

impl Model for Precedence {
    ghost use Rattle.std.specs.Prelude.{List, Option, ℕ};

    ghost Value = { Option (List (List ℕ)) };

    ghost view = { λ order. order.ancestors };
}

/// Whether no run starts before the end of one that precedes it.
fn is_ordered(alloc: Global, plan: &Plan, ancestors: &Ancestors, rows: &[Row]) -> bool
    requires fit { RowsFit plan.now.program rows.now }
    requires ancestors { AreAncestors plan.now.program ancestors.now }
    ensures { IsTrue result → IsOrdered plan.now.program rows.now }
{
    // What ended behind the row.
    let Ok(mut ended) = Set::with_room(alloc, plan.program().reactions()) else {
        return false;
    };
    let mut place = rows.len();
    while place > 0 {
        place -= 1;
        let row = row_at(rows, place);
        if is_end(&row.step) {
            ended.insert(row.reaction);
        } else if is_start(&row.step) && ancestors.of(row.reaction).meets(&ended) {
            return false;
        }
    }
    true
}

impl Precedence {
    /// Nothing was asked for.
    pub(crate) fn new(alloc: Global) -> Precedence
        ensures { result ≡ None }
    {
        Precedence {
            alloc,
            ancestors: None,
        }
    }

    /// Whether no run starts before the end of one that precedes it, where no row breaks one of the
    /// rules 1 to 5. It is false where memory is refused too.
    pub(crate) fn is_kept(&mut self, plan: &Plan, rows: &[Row]) -> bool
        requires fit { RowsFit plan.now.program rows.now }
        requires ancestors { IfSome self.old (AreAncestors plan.now.program) }
        ensures ancestors { IfSome self.new (AreAncestors plan.now.program) }
        ensures kept { IsTrue result → (last : TheTag) → FirstRow last plan.now rows.now None → (g : TheTag) (r : ℕ) → Ran rows.now g r → IsTooEarly plan.now rows.now g r → ⊥ }
    {
        if is_ranked(plan, rows) {
            return true;
        }
        if self.ancestors.is_none() {
            // Want of memory is no verdict here: without these sets the rows are given up.
            self.ancestors = Ancestors::new(self.alloc, plan.program(), plan.graph()).ok();
        }
        match &self.ancestors {
            Some(ancestors) => is_ordered(self.alloc, plan, ancestors, rows),
            None => false,
        }
    }
}
