//! Programs and external inputs, their plans, and what is asked of rows.

ghost use Rattle.std.specs.Prelude.{IfOk};
ghost use Rattle.lft_ir.specs.Steps.Fits.{RowsFit};

use lft_check::{NoWatch, Verdict, judge_alone};
use lft_ir::steps::Rows;
use lft_load::load;
use lft_model::Plan;
use lft_tag::NoMemory;
use lft_trace::read_trace;
use std::alloc::Global;

/// A reaction to a timer writes a port, and another one reads it at the same tag.
pub(crate) const PIPE: &[u8] = b"target C
reactor A { output out: int  timer t(0, 10 ms)  reaction(t) -> out {= =} }
reactor B { input x: int  reaction(x) {= =} }
main reactor { a = new A()  b = new B()  a.out -> b.x }
";

/// Two reactions that run at one tag, and know nothing of each other.
pub(crate) const TWO: &[u8] = b"reactor S { output o: int  reaction(startup) -> o {= =} }
main reactor { p = new S()  q = new S() }
";

/// A reaction that runs once.
pub(crate) const ONE: &[u8] = b"main reactor { reaction(startup) {= =} }";

/// The execution is stopped at its first tag.
pub(crate) const AT_ONCE: &[u8] = b"kind,time,microstep,name,value\nstop,0,0,,\n";

/// A trace table without rows.
pub(crate) const NO_ROWS: &[u8] = b"event,worker,time,microstep,reaction,name,value,delay\n";

/// The run of `ONE`.
pub(crate) const ONE_RUN: &[u8] = b"event,worker,time,microstep,reaction,name,value,delay
start,0,0,0,main#1,,,
end,0,0,0,main#1,,,
";

/// The plan of a program's text and of a table of external inputs. It tells nothing of either, and any
/// fault as want of memory: what knows the texts is long to prove.
pub(crate) fn plan(alloc: Global, program: &[u8], externals: &[u8]) -> Result<Plan, NoMemory> {
    match load(alloc, program, externals) {
        Ok(plan) => Ok(plan),
        Err(_) => Err(NoMemory),
    }
}

/// The rows of a table. They fit the plan, and nothing else is told of them.
pub(crate) fn rows(alloc: Global, plan: &Plan, table: &[u8]) -> Result<Rows, NoMemory>
    ensures { IfOk result (λ rows. RowsFit plan.now.program rows) }
{
    match read_trace(alloc, plan.program(), table) {
        Ok(rows) => Ok(rows),
        Err(_) => Err(NoMemory),
    }
}

// the verdict, of which nothing is known
fn judged(alloc: Global, plan: &Plan, rows: &Rows) -> Result<Verdict, NoMemory>
    requires { RowsFit plan.now.program rows.now }
{
    judge_alone(alloc, plan, rows, &NoWatch)
}

/// Whether rows fit the plan's program, and judging accepts them as two runs at one tag.
pub(crate) fn is_accepted(alloc: Global, plan: &Plan, rows: &Rows) -> bool {
    rows.fits(plan.program())
        && judged(alloc, plan, rows) == Ok(Verdict::Accepted { runs: 2, tags: 1 })
}
