//! From the tree of a program text to the flat program.

ghost use Rattle.std.specs.Prelude.{◌≡◌, ◌≢◌, IfOk, IfErr, OnOk};
ghost use Rattle.lft_tree.specs.{Tree.reactors_of, View.tree_view};
ghost use Rattle.lft_resolve.specs.{Causes.{IsFirst, NoneHolds, causes, first_causes, later_causes, number_of}, inner.Numbers.AreContents};
ghost use Rattle.lft_program.specs.{inner.{Tables.AreTables, Faults.reactor_causes, OfTree.AreOfTree, Refusals.{Tells, cause_of}}, Flattening.{Flat, IsFlatOf}};
ghost use Rattle.lft_ir.specs.Parts.{Parts};
ghost use Rattle.lft_resolve.specs.declared.causes.ProgramFault.TheVariants as faults;
ghost use Rattle.lft_program.specs.declared.refusal.Refusal.TheVariants as refusals;

use crate::assembly::assembled;
use crate::laying;
use crate::nesting::{Linked, Nest, Tables, links};
use crate::refusal::Refusal;
use crate::tree_names::tree_names;
use lft_ir::Program;
use lft_resolve::by_number::{
    connections, contents, declarations, main_number, parameters, reactions,
};
use lft_resolve::expansion::Contents;
use lft_resolve::{ProgramFault, ReactorFault, Scopes};
use lft_tag::NoMemory;
use lft_tree::Ast;
use lft_validate::{check_first, check_later, circle_of};
use std::alloc::Global;

/// What each reactor of the file contains.
fn known_contents(alloc: Global, scopes: &Scopes) -> Result<Vec<Contents>, NoMemory>
    requires { NoneHolds (first_causes (reactors_of scopes.now)) }
    ensures { IfOk result (λ v. AreContents (reactors_of scopes.now) v.items) }
{
    match contents(alloc, scopes) {
        Ok(contents) => Ok(contents),
        Err(fault) => match fault {
            ReactorFault::NoMemory => Err(NoMemory),
            // What else `contents` could answer is one of the first causes, and none of them holds.
            _ => unreachable!(),
        },
    }
}

/// The same, if none of the causes that are looked for in each reactor holds.
fn checked_contents<'a>(
    alloc: Global,
    ast: &'a Ast,
    scopes: &Scopes,
) -> Result<Vec<Contents>, Refusal<'a>>
    requires { scopes.now ≡ tree_view ast.now }
    ensures contents { IfOk result (λ v. AreContents (reactors_of scopes.now) v.items) }
    ensures none { OnOk result (NoneHolds (reactor_causes scopes.now)) }
    ensures first { IfErr result (λ f. f ≢ refusals.NoMemory → IsFirst (reactor_causes scopes.now) (cause_of f)) }
    ensures tells { IfErr result (Tells ast.now) }
{
    if let Some(witness) = check_first(alloc, ast, scopes)? {
        return Err(Refusal::Shown(witness));
    }
    // Only now: what a reactor contains has a number once each name is of one reactor.
    let contents = known_contents(alloc, scopes)?;
    if let Some(circle) = circle_of(alloc, &contents)? {
        return Err(Refusal::Recursive(circle));
    }
    if let Some(witness) = check_later(alloc, ast, scopes)? {
        return Err(Refusal::Shown(witness));
    }
    Ok(contents)
}

/// The tables of the tree's reactors, which contain this.
fn tables_with(alloc: Global, scopes: &Scopes, contents: Vec<Contents>) -> Result<Tables, NoMemory>
    requires first { NoneHolds (first_causes (reactors_of scopes.now)) }
    requires later { NoneHolds (later_causes (reactors_of scopes.now)) }
    requires contents { AreContents (reactors_of scopes.now) contents.items }
    ensures { IfOk result (AreTables scopes.now) }
{
    Ok(Tables {
        main: main_number(scopes)?,
        contents,
        parameters: parameters(alloc, scopes)?,
        connections: connections(alloc, scopes)?,
        declarations: declarations(alloc, scopes)?,
        reactions: reactions(alloc, scopes)?,
    })
}

/// The same, if none of the causes that are looked for in each reactor holds.
fn tables_of<'a>(alloc: Global, ast: &'a Ast, scopes: &Scopes) -> Result<Tables, Refusal<'a>>
    requires { scopes.now ≡ tree_view ast.now }
    ensures tables { IfOk result (AreTables scopes.now) }
    ensures none { OnOk result (NoneHolds (reactor_causes scopes.now)) }
    ensures first { IfErr result (λ f. f ≢ refusals.NoMemory → IsFirst (reactor_causes scopes.now) (cause_of f)) }
    ensures tells { IfErr result (Tells ast.now) }
{
    // The causes are tested first, so to make the tables has no fault of its own. The price is that
    // names are looked up twice, in the same tables.
    let contents = checked_contents(alloc, ast, scopes)?;
    Ok(tables_with(alloc, scopes, contents)?)
}

/// The program of the tree with these tables, nest and links.
fn program(
    alloc: Global,
    ast: &Ast,
    tables: &Tables,
    nest: &Nest,
    links: &[Linked],
) -> Result<Program, NoMemory>
    requires { AreOfTree (tree_view ast.now) tables.now nest.now links.now }
    ensures { IfOk result (Flat (tree_view ast.now)) }
{
    let ports = laying::ports(alloc, tables, nest, links)?;
    let actions = laying::actions(alloc, tables, nest, links)?;
    let timers = laying::timers(alloc, tables, nest, links)?;
    let reactions = laying::reactions(alloc, tables, nest, links)?;
    let names = tree_names(alloc, ast, tables, nest)?;
    Ok(assembled(ports, actions, timers, reactions, names))
}

/// The flat program of a tree, if no cause of refusal holds of it.
pub fn flattened(alloc: Global, ast: &Ast) -> Result<Program, Refusal<'_>>
    ensures flat { IfOk result (IsFlatOf (tree_view ast.now)) }
    ensures one { IfOk result (λ p. (other : Parts) → IsFlatOf (tree_view ast.now) other → other ≡ p) }
    ensures first { IfErr result (λ f. f ≢ refusals.NoMemory → IsFirst (causes (tree_view ast.now)) (cause_of f)) }
    ensures tells { IfErr result (Tells ast.now) }
{
    let scopes = Scopes::of(alloc, ast)?;
    let tables = tables_of(alloc, ast, &scopes)?;
    let nest = Nest::of(alloc, &tables)?;
    let links = links(alloc, ast, &scopes, &tables, &nest)?;
    // Nothing below asks for a name by its text, so the tables of names needn't stand beside the program.
    drop(scopes);
    Ok(program(alloc, ast, &tables, &nest, &links)?)
}

/// The same without what shows a cause.
pub fn flatten(alloc: Global, ast: &Ast) -> Result<Program, ProgramFault>
    ensures flat { IfOk result (IsFlatOf (tree_view ast.now)) }
    ensures one { IfOk result (λ p. (other : Parts) → IsFlatOf (tree_view ast.now) other → other ≡ p) }
    ensures first { IfErr result (λ f. f ≢ faults.NoMemory → IsFirst (causes (tree_view ast.now)) (number_of f)) }
{
    match flattened(alloc, ast) {
        Ok(program) => Ok(program),
        Err(refusal) => Err(refusal.fault()),
    }
}
