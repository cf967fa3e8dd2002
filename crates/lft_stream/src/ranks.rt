//! Whether runs follow each other by the levels of their reactions.

ghost use Rattle.std.specs.Prelude.{IsTrue};
ghost use Rattle.lft_ir.specs.Steps.Fits.{RowsFit};
ghost use Rattle.lft_stream.specs.inner.Ordered.{IsOrdered};

use lft_ir::steps::{Row, is_end, is_start, row_at};
use lft_model::Plan;

/// Whether no run starts before the end of one of a lower level. Then none starts before the end of
/// one that precedes it.
pub(crate) fn is_ranked(plan: &Plan, rows: &[Row]) -> bool
    requires { RowsFit plan.now.program rows.now }
    ensures { IsTrue result → IsOrdered plan.now.program rows.now }
{
    let graph = plan.graph();
    let mut most = 0;
    for place in 0..rows.len() {
        let row = row_at(rows, place);
        if is_start(&row.step) {
            most = most.max(graph.level(row.reaction));
        } else if is_end(&row.step) && graph.level(row.reaction) < most {
            return false;
        }
    }
    true
}
