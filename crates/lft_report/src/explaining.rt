//! Why a trace breaks a rule.

ghost use Rattle.std.specs.Prelude.{IfOk};
ghost use Rattle.lft_ir.specs.Steps.Fits.{RowsFit};
ghost use Rattle.lft_races.specs.Races.{FirstSoFar};
ghost use Rattle.lft_report.specs.Explained.{Explains};

use crate::telling::tell;
use lft_facts::find;
use lft_ir::steps::Rows;
use lft_model::{Breach, Plan};
use lft_tag::NoMemory;
use std::alloc::Global;

/// The text of facts behind the first breach of a trace, or of rows behind which runs may end yet: all of it, or of each part the first 60 lines.
pub fn explain(
    alloc: Global,
    plan: &Plan,
    rows: &Rows,
    breach: Breach,
    all: bool,
) -> Result<Vec<u8>, NoMemory>
    requires fit { RowsFit plan.now.program rows.now }
    requires first { FirstSoFar plan.now rows.now breach }
    ensures { IfOk result (λ text. Explains all plan.now rows.now breach text.items) }
{
    let facts = find(alloc, plan, rows, breach)?;
    let text = tell(alloc, plan.program(), rows, &facts, all)?;
    Ok(text)
}
