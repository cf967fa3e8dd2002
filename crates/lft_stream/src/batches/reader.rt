//! Trace tables that are accepted from what a reader gives.

ghost use Rattle.std.specs.Prelude.{◌≡◌, [], List, IfOk, IfSome};
ghost use Rattle.lft_ir.specs.declared.steps.row.Row.{Row as TheRow};
ghost use Rattle.lft_tables.specs.{Records.records_of, inner.Records.{IsPlain, records_left}};
ghost use Rattle.lft_trace.specs.Traces.{Table};
ghost use Rattle.lft_model.specs.Accepted.{IsAccepted};
ghost use Rattle.lft_stream.specs.inner.Batches.Progresses.{HaveAcceptedRows, IsProgress};

use crate::RunCounts;
use crate::batches::progress::JudgedRows;
use crate::batches::rows::rows_together;
use lft_model::Plan;
use lft_tables::{ReadFailed, Records};
use lft_tag::MAX_ROWS;
use lft_trace::{ReactionNames, next_rows, trace_records};
use std::alloc::Global;
use std::io::Read;

/// The counts of the rows of all records that are left. None as for `accepts_reader`.
// What has to be dropped is the caller's: each way out of a loop is proved to drop all that its function owns.
fn accepts_records<R: Read + Drop>(
    alloc: Global,
    plan: &Plan,
    names: &ReactionNames,
    records: &mut Records<R>,
    progress: &mut JudgedRows,
) -> Result<Option<RunCounts>, ReadFailed>
    requires names { names.now ≡ plan.now.program }
    requires first { IsProgress plan.now [] progress.old }
    ensures { IfOk result (λ found. IfSome found (λ c. IsPlain R.remaining records.old → HaveAcceptedRows plan.now (records_left R.remaining records.old) c)) }
{
    let together = rows_together(plan);
    let mut batch = Vec::new(alloc);
    // A table has no more batches than rows.
    for _batch in 0..MAX_ROWS {
        let Some(more) = next_rows(names, records, together, &mut batch)? else {
            return Ok(None);
        };
        if !progress.add(alloc, plan, batch.as_slice()) {
            return Ok(None);
        }
        if !more {
            return Ok(progress.finish(alloc, plan));
        }
    }
    Ok(None)
}

/// The counts of the trace table that a reader gives, whose rows are legal. It is read a batch of rows at a
/// time, and no row is kept once its tag is judged.
///
/// None says nothing of the table: it may be none, its rows may break a rule, memory may be refused, or too
/// much is to be looked at.
pub fn accepts_reader<R: Read + Drop>(
    alloc: Global,
    plan: &Plan,
    source: R,
) -> Result<Option<RunCounts>, ReadFailed>
    ensures { IfOk result (λ found. IfSome found (λ c. IfSome (R.remaining source) (λ text. (rows : List TheRow) × Table plan.now.program (records_of text) rows × IsAccepted plan.now rows c.runs c.tags))) }
{
    // Most traces are right, and to accept one takes no index and no first breach. The price: a trace of
    // which nothing is said costs what was looked at more.
    let Some(mut records) = trace_records(alloc, source)? else {
        return Ok(None);
    };
    let Ok(names) = ReactionNames::new(alloc, plan.program()) else {
        return Ok(None);
    };
    let Ok(mut progress) = JudgedRows::new(alloc, plan) else {
        return Ok(None);
    };
    accepts_records(alloc, plan, &names, &mut records, &mut progress)
}
