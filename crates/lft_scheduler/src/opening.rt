//! The rows of a run that is begun.

ghost use Rattle.std.specs.Prelude.{◌≡◌, ◌<◌, ◌++◌, ◌∷◌, [], length, map, filter_map, IfOk, OnOk};
ghost use Rattle.lft_model.specs.{Recorded.{begun_rows, run_row}, Runs.{inputs_of, read_step}};

use lft_ir::steps::{Row, Step};
use lft_ir::{Name, Value};
use lft_model::{Plan, Reads};
use lft_tag::{NoMemory, Tag};
use std::alloc::Global;

/// A start row, and a read row for each input that is present.
pub fn begun(
    alloc: Global,
    plan: &Plan,
    worker: u32,
    tag: Tag,
    reaction: u32,
    reads: &Reads,
) -> Result<Vec<Row>, NoMemory>
    requires reaction { reaction < length plan.now.program.reactions }
    requires reads { length reads.now ≡ length (inputs_of plan.now.program reaction) }
    ensures { IfOk result (λ rows. rows.items ≡ begun_rows plan.now worker tag reaction reads.now) }
{
    let names = plan.program().reaction(reaction).inputs(alloc)?;
    let names = names.as_slice();
    let shown = reads.as_slice();
    let mut rows = Vec::new(alloc);
    rows.push(Row {
        tag,
        worker,
        reaction,
        step: Step::Start,
    })?;
    for at in 0..names.len() {
        push_read(&mut rows, worker, tag, reaction, names[at], shown[at])?;
    }
    Ok(rows)
}

// The read row of a name, where it is present.
fn push_read(
    rows: &mut Vec<Row>,
    worker: u32,
    tag: Tag,
    reaction: u32,
    name: Name,
    value: Option<Value>,
) -> Result<(), NoMemory>
    ensures { OnOk result (rows.new.items ≡ rows.old.items ++ map (run_row worker tag reaction) (filter_map read_step ((name, value) ∷ []))) }
{
    if let Some(value) = value {
        rows.push(Row {
            tag,
            worker,
            reaction,
            step: Step::Read(name, value),
        })?;
    }
    Ok(())
}
