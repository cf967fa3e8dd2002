//! The reactors of a file with the tables of their names.

ghost use Rattle.std.specs.Prelude.{◌≡◌, IfOk};
ghost use Rattle.lft_tree.specs.{Tree.reactors_of, View.tree_view};
ghost use Rattle.lft_resolve.specs.inner.{References.reactor_trees, Tables.IsFile};

use crate::file::ReactorTable;
use crate::members;
use lft_tag::NoMemory;
use lft_tree::{Ast, Reactor};
use std::alloc::Global;
use std::marker::Model;

/// The reactors of a file, with the tables of their names: made once for all causes of refusal and for
/// all tables by number.
#[derive(Drop)]
pub struct Scopes<'a> {
    ast: &'a Ast,
    reactors: Vec<&'a Reactor>,
    file: ReactorTable<'a>,
}

impl<'a> Model for Scopes<'a> {
    ghost use Rattle.lft_tree.specs.{Tree.FileTree, View.tree_view};
    ghost use Rattle.lft_resolve.specs.inner.Scopes.{AreScopesOfTree};

    ghost Value = { FileTree };

    ghost view = { λ s. tree_view s.ast.now };

    ghost invariant = { λ s. AreScopesOfTree (tree_view s.ast.now) s.reactors.items s.file };
}

impl<'a> Scopes<'a> {
    /// Those of a file.
    pub fn of(alloc: Global, ast: &'a Ast) -> Result<Scopes<'a>, NoMemory>
        ensures { IfOk result (λ s. s ≡ tree_view ast.now) }
    {
        let reactors = members::reactors(alloc, &ast.items)?;
        let file = ReactorTable::of(alloc, &reactors)?;
        Ok(Scopes {
            ast,
            reactors,
            file,
        })
    }

    /// The reactors in the order of the file.
    pub fn reactors(&self) -> &[&'a Reactor]
        ensures { reactor_trees result.now ≡ reactors_of self.now }
    {
        &self.reactors
    }

    /// What they declare.
    pub fn file(&self) -> &ReactorTable<'a>
        ensures { IsFile (reactors_of self.now) result.now }
    {
        &self.file
    }
}
