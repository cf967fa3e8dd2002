//! Whether a breach is the first of some rows.

ghost use Rattle.std.specs.Prelude.{◌≡◌, ◌↔◌, IsTrue, IfOk};
ghost use Rattle.lft_ir.specs.Steps.Fits.{RowsFit};
ghost use Rattle.lft_races.specs.Races.{FirstSoFar};
ghost use Rattle.lft_log.specs.inner.Explain.Cuts.{IsEarlyOf};

use lft_check::{NoWatch, Verdict, judge_alone};
use lft_ir::steps::{Row, Rows, row_at};
use lft_model::{Breach, Plan, trace_stop};
use lft_rows::Pass;
use lft_tag::NoMemory;
use std::alloc::Global;

/// Whether two breaches are the same.
fn is_same(first: Breach, second: Breach) -> bool
    ensures { IsTrue result ↔ (first ≡ second) }
{
    first == second
}

/// The first row that breaks one of the rules 1 to 4, and the least of these that it breaks.
fn first_early(alloc: Global, plan: &Plan, rows: &[Row]) -> Result<Option<Breach>, NoMemory>
    requires fit { RowsFit plan.now.program rows.now }
    ensures { IfOk result (IsEarlyOf plan.now rows.now) }
{
    let mut pass = Pass::new(alloc, plan.program())?;
    pass.begin(alloc, plan)?;
    let found = pass.go_on(plan, trace_stop(plan, rows), rows, 0)?;
    match found {
        Some((place, rule)) => {
            let row = row_at(rows, place);
            Ok(Some(Breach {
                rule,
                tag: row.tag,
                reaction: Some(row.reaction),
                row: place as u32 + 2,
            }))
        }
        None => Ok(None),
    }
}

/// Whether the breach is the first of the rows, or that of rows behind which runs may end yet.
pub(crate) fn is_first_so_far(
    alloc: Global,
    plan: &Plan,
    rows: &Rows,
    breach: Breach,
) -> Result<bool, NoMemory>
    requires fit { RowsFit plan.now.program rows.now }
    ensures { IfOk result (λ is. IsTrue is ↔ FirstSoFar plan.now rows.now breach) }
{
    // Not by the checker: behind these rows runs are open yet, which it would take for a breach of rule 5.
    if breach.rule < 5 {
        let early = first_early(alloc, plan, rows.as_slice())?;
        return match early {
            Some(first) => Ok(is_same(first, breach)),
            None => Ok(false),
        };
    }
    let verdict = judge_alone(alloc, plan, rows, &NoWatch)?;
    match verdict {
        Verdict::Broken(first) => Ok(is_same(first, breach)),
        Verdict::Accepted { .. } => Ok(false),
    }
}
