//! The full names of what a tree's instances declare.

ghost use Rattle.std.specs.Prelude.{◌≡◌, IfOk};
ghost use Rattle.lft_tree.specs.{Identifiers.HasIdentifiers, View.tree_view};
ghost use Rattle.lft_program.specs.{inner.{Nests.IsNest, Tables.{AreTables, IsLawful}}, Flattening.names_of};
ghost use Rattle.lft_ir.specs.Names.{AreDistinct, AreWords};

use crate::naming::full_names;
use crate::nesting::{Nest, Tables};
use crate::tree_lists::Lists;
use lft_ir::NameTable;
use lft_resolve::members::reactors;
use lft_tag::NoMemory;
use lft_tree::Ast;
use std::alloc::Global;

/// The names of all things of the tree: `main` for the main instance, and for all else the name of
/// its instance, a dot and its own name, or `#` and the number of the reaction counted from 1.
pub(crate) fn tree_names(
    alloc: Global,
    ast: &Ast,
    tables: &Tables,
    nest: &Nest,
) -> Result<NameTable, NoMemory>
    requires identifiers { HasIdentifiers (tree_view ast.now) }
    requires tables { AreTables (tree_view ast.now) tables.now }
    requires lawful { IsLawful (tree_view ast.now) }
    requires nest { IsNest (tree_view ast.now) tables.now nest.now }
    ensures names { IfOk result (λ t. (n : IsNest (tree_view ast.now) tables.now nest.now) → t ≡ names_of (tree_view ast.now) n.are_located.main n.located) }
    ensures distinct { IfOk result AreDistinct }
    ensures words { IfOk result AreWords }
{
    let all = reactors(alloc, &ast.items)?;
    let lists = Lists::of(alloc, &all, nest)?;
    full_names(
        alloc,
        &lists.instances,
        &lists.ports,
        &lists.actions,
        &lists.timers,
        &lists.reactions,
    )
}
