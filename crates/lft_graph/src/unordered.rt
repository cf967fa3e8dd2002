//! How many pairs of reactions have no order.

ghost use Rattle.std.specs.Prelude.{ℕ, IfOk, length};
ghost use Rattle.lft_graph.specs.{Counts.CountPairs, Graph.IsGraphOf, Precedence.{HasNoLoop, HaveOrder}, inner.Sets.AreAncestors};

use crate::ancestors::Ancestors;
use crate::graph::Graph;
use lft_ir::Program;
use lft_tag::NoMemory;
use std::alloc::Global;

/// How many pairs of reactions there are of which one precedes the other.
fn ordered_pairs(program: &Program, ancestors: &Ancestors) -> usize
    requires ancestors { AreAncestors program.now ancestors.now }
    requires no_loop { HasNoLoop program.now }
    ensures { CountPairs (HaveOrder program.now) (length program.now.reactions) result }
{
    let mut many = 0;
    for reaction in 0..program.reactions() {
        many += ancestors.of(reaction as u32).count();
    }
    many
}

/// How many pairs of reactions there are of which neither precedes the other.
pub fn unordered_pairs(alloc: Global, program: &Program, graph: &Graph) -> Result<usize, NoMemory>
    requires { IsGraphOf program.now graph.now }
    ensures { IfOk result (CountPairs (λ a b. HaveOrder program.now a b → ⊥) (length program.now.reactions)) }
{
    let ancestors = Ancestors::new(alloc, program, graph)?;
    let reactions = program.reactions();
    let all = (reactions * reactions - reactions) / 2;
    Ok(all - ordered_pairs(program, &ancestors))
}
