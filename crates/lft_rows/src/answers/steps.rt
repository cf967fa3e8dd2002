//! The steps of one run.

ghost use Rattle.std.specs.Prelude.{◌≡◌, ◌↔◌, Some, slice_get, OnOk, IsTrue};
ghost use Rattle.lft_ir.specs.declared.steps.row.Step.TheVariants.{Start};
ghost use Rattle.lft_model.specs.{Plans.PlanParts, Runs.steps_of};
ghost use Rattle.lft_rows.specs.Answers.Answers.{KeepsRows};

use lft_ir::steps::{Row, Step, is_end, row_at};
use lft_tag::NoMemory;

/// Whether the two rows are of one tag and reaction.
fn is_of_run(row: Row, start: Row) -> bool
    ensures { IsTrue result ↔ ((row.tag ≡ start.tag) × (row.reaction ≡ start.reaction)) }
{
    row.tag.is_same(start.tag) && row.reaction == start.reaction
}

/// Puts the steps of the run that starts in the row at the place, up to its end row, in place of
/// those in the list. One list serves run after run.
pub fn read_steps(
    steps: &mut Vec<Step>,
    rows: &[Row],
    place: usize,
    start: Row,
) -> Result<(), NoMemory>
    requires row { slice_get rows.now place ≡ Some start }
    requires starts { start.step ≡ Start }
    requires rules { (plan : PlanParts) × KeepsRows plan rows.now }
    ensures { OnOk result (steps.new.items ≡ steps_of rows.now start.tag start.reaction) }
{
    steps.clear();
    // Rows of other workers may stand between, so no range of the rows is the run.
    for at in place..rows.len() {
        let row = row_at(rows, at);
        if is_of_run(row, start) {
            steps.push(row.step)?;
            if is_end(&row.step) {
                return Ok(());
            }
        }
    }
    Ok(())
}
