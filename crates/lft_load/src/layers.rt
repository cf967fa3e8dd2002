//! From texts to a plan. Faults are handed on by a `match` and not by `?`, since the clauses speak of
//! them.

ghost use Rattle.std.specs.Prelude.{◌≡◌, true, IfOk, OnOk, IfErr, IfSome};
ghost use Rattle.lft_tree.specs.{Tree.FileTree, View.tree_view};
ghost use Rattle.lft_ir.specs.Parts.{Parts};
ghost use Rattle.lft_graph.specs.{Graph.IsGraphOf, Precedence.{HasNoLoop, IsLevelled}};
ghost use Rattle.lft_model.specs.Plans.{PlanParts};
ghost use Rattle.lft_load.specs.Meaning.{IsTreeOf, IsProgramOf, IsPlanOf, IsPlanUnder, IsOnly};
ghost use Rattle.lft_load.specs.Refusals.{TreeRefusal, ProgramRefusal, GraphRefusal, PlanRefusal, LoadRefusal, is_of_text};

use crate::fault::Fault;
use lft_graph::Graph;
use lft_ir::Program;
use lft_model::Plan;
use lft_program::flatten;
use lft_syntax::{lex, parse};
use lft_trace::read_externals_from;
use lft_tree::Ast;
use std::alloc::Global;
use std::io::Read;

/// The tree of a program's text.
fn read_tree(alloc: Global, text: &[u8]) -> Result<Ast, Fault>
    ensures tree { IfOk result (λ ast. IsOnly (IsTreeOf text.now) (tree_view ast)) }
    ensures refused { IfErr result (TreeRefusal text.now) }
    ensures none { IfErr result (λ f. is_of_text f.part f.number ≡ true → (tree : FileTree) → IsTreeOf text.now tree → ⊥) }
{
    let tokens = match lex(alloc, text) {
        Ok(tokens) => tokens,
        Err(fault) => return Err(Fault::lex(fault)),
    };
    match parse(alloc, text, &tokens) {
        Ok(ast) => Ok(ast),
        Err(fault) => Err(Fault::syntax(fault)),
    }
}

/// The flat program of a text, else the fault of the first layer that refuses, in the order lex,
/// syntax, program.
pub fn read_program(alloc: Global, text: &[u8]) -> Result<Program, Fault>
    ensures program { IfOk result (IsOnly (IsProgramOf text.now)) }
    ensures refused { IfErr result (ProgramRefusal text.now) }
    ensures none { IfErr result (λ f. is_of_text f.part f.number ≡ true → (program : Parts) → IsProgramOf text.now program → ⊥) }
{
    let ast = match read_tree(alloc, text) {
        Ok(ast) => ast,
        Err(fault) => return Err(fault),
    };
    match flatten(alloc, &ast) {
        Ok(program) => Ok(program),
        Err(fault) => Err(Fault::program(fault)),
    }
}

/// The graph of a program, else the fault that names a loop.
pub fn graph_of(alloc: Global, program: &Program) -> Result<Graph, Fault>
    ensures graph { IfOk result (IsGraphOf program.now) }
    ensures levels { OnOk result (IsLevelled program.now) }
    ensures no_loop { OnOk result (HasNoLoop program.now) }
    ensures refused { IfErr result (GraphRefusal program.now) }
{
    match Graph::build(alloc, program) {
        Ok(graph) => Ok(graph),
        Err(fault) => Err(Fault::graph(alloc, program, &fault)),
    }
}

/// A program that has no plan under some external inputs, and why. More can be told of it than the fault does.
#[derive(Drop)]
pub struct Unplanned {
    pub fault: Fault,
    pub program: Program,
}

/// The plan of a program and a table of external inputs, as `plan_from` makes it.
pub fn plan_of(alloc: Global, program: Program, externals: &[u8]) -> Result<Plan, Unplanned>
    ensures plan { IfOk result (IsOnly (IsPlanUnder program externals.now)) }
    ensures program { IfErr result (λ u. u.program ≡ program) }
    ensures refused { IfErr result (λ u. PlanRefusal program externals.now u.fault) }
    ensures none { IfErr result (λ u. is_of_text u.fault.part u.fault.number ≡ true → (plan : PlanParts) → IsPlanUnder program externals.now plan → ⊥) }
{
    plan_from(alloc, program, externals)
}

/// The plan of a program and the table of external inputs that a reader gives, else the fault of the
/// first layer that refuses, in the order externals, graph. Where the reader fails that is `externals` 11 `NotCsv`.
pub fn plan_from<R: Read + Drop>(
    alloc: Global,
    program: Program,
    externals: R,
) -> Result<Plan, Unplanned>
    ensures plan { IfOk result (λ plan. IfSome (R.remaining externals) (λ text. IsOnly (IsPlanUnder program text) plan)) }
    ensures program { IfErr result (λ u. u.program ≡ program) }
    ensures refused { IfErr result (λ u. IfSome (R.remaining externals) (λ text. PlanRefusal program text u.fault)) }
    ensures none { IfErr result (λ u. IfSome (R.remaining externals) (λ text. is_of_text u.fault.part u.fault.number ≡ true → (plan : PlanParts) → IsPlanUnder program text plan → ⊥)) }
{
    let given = match read_externals_from(alloc, &program, externals) {
        Ok(given) => given,
        Err(fault) => {
            let fault = Fault::externals(fault);
            return Err(Unplanned { fault, program });
        }
    };
    match graph_of(alloc, &program) {
        Ok(graph) => Ok(Plan::with_graph(program, given, graph)),
        Err(fault) => Err(Unplanned { fault, program }),
    }
}

/// The plan of a program's text and a table of external inputs, else the fault of the first layer
/// that refuses, in the order lex, syntax, program, externals, graph.
pub fn load(alloc: Global, program: &[u8], externals: &[u8]) -> Result<Plan, Fault>
    ensures plan { IfOk result (IsOnly (IsPlanOf program.now externals.now)) }
    ensures refused { IfErr result (LoadRefusal program.now externals.now) }
    ensures none { IfErr result (λ f. is_of_text f.part f.number ≡ true → (plan : PlanParts) → IsPlanOf program.now externals.now plan → ⊥) }
{
    let flat = match read_program(alloc, program) {
        Ok(flat) => flat,
        Err(fault) => return Err(fault),
    };
    match plan_of(alloc, flat, externals) {
        Ok(plan) => Ok(plan),
        Err(unplanned) => Err(unplanned.fault),
    }
}
