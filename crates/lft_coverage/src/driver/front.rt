//! What a trace table exercises that is accepted from its text.

ghost use Rattle.std.specs.Prelude.{◌≡◌, ◌++◌, ◌+◌, ◌≤◌, ℕ, List, Some, length, slice_get, IfOk, IfSome, IsTrue};
ghost use Rattle.std.specs.List.{AllZip};
ghost use Rattle.lft_ir.specs.{Parts.Parts, Steps.Fits.RowsFit, declared.steps.row.Row.Row as TheRow};
ghost use Rattle.lft_tables.specs.Records.{records_of};
ghost use Rattle.lft_trace.specs.Traces.{IsRow, Table};
ghost use Rattle.lft_model.specs.Accepted.{IsAccepted};
ghost use Rattle.lft_counts.specs.{inner.Counts.KeepsRows, Cover.CoversRows};
ghost use Rattle.lft_coverage.specs.inner.Driver.Fronts.{IsFrontOfText, IsNextBehind, judged_rows};

use lft_counts::Cover;
use lft_ir::steps::Row;
use lft_model::Plan;
use lft_stream::batches::{cut_batch, rows_together};
use lft_stream::{Acceptor, RunCounts};
use lft_tag::{MAX_ROWS, NoMemory};
use lft_trace::{ReactionNames, below_header, read_batch};
use std::alloc::Global;

/// Rows have some bytes fewer in a text, so a batch has a few more rows than are to be taken together.
const BYTES_OF_A_ROW: usize = 32;

/// How far a text's rows are judged, and what they exercise.
#[derive(Drop)]
struct Front {
    acceptor: Acceptor,
    cover: Cover,
}

impl Front {
    /// Before the first row of any text.
    fn new(alloc: Global, plan: &Plan) -> Result<Front, NoMemory>
        ensures stands { IfOk result (λ front. (body : List ℕ) → IsFrontOfText plan.now body front) }
        ensures none { IfOk result (λ front. front.cover.rows ≡ 0) }
    {
        let cover = Cover::new(alloc, plan.program(), plan.graph())?;
        Ok(Front {
            acceptor: Acceptor::new(alloc, plan)?,
            cover,
        })
    }

    /// Judges the rows that come next in the text, whole tags always, and counts what they exercise. It is
    /// false where they may break a rule, or too much is to be looked at, or memory is refused, or a table may
    /// not have as many.
    fn judge(&mut self, alloc: Global, plan: &Plan, body: &[u8], rows: &[Row]) -> bool
        requires fit { RowsFit plan.now.program rows.now }
        requires stands { IsFrontOfText plan.now body.now self.old }
        requires next { IsNextBehind plan.now body.now self.old rows.now }
        ensures stands { IsTrue result → IsFrontOfText plan.now body.now self.new }
        ensures rows { IsTrue result → judged_rows plan.now body.now self.new ≡ judged_rows plan.now body.now self.old ++ rows.now }
    {
        if rows.len() > MAX_ROWS - self.cover.rows || !self.acceptor.add(alloc, plan, rows) {
            return false;
        }
        count_next(&mut self.cover, plan, body, rows)
    }
}

/// Counts what rows exercise that come next in a trace and are judged. It is false where memory is refused.
// The plan and the text are passed for what the caller's contract says of the trace.
fn count_next(cover: &mut Cover, plan: &Plan, body: &[u8], rows: &[Row]) -> bool
    ghost of: { Parts × List TheRow }
    requires ruled { KeepsRows of.1 }
    requires next { (k : ℕ) (row : TheRow) → slice_get rows.now k ≡ Some row → slice_get of.1 (cover.old.rows + k) ≡ Some row }
    requires fit { RowsFit of.0 rows.now }
    requires few { cover.old.rows + length rows.now ≤ 4000000 }
    requires covers { CoversRows of.0 of.1 cover.old.rows cover.old }
    ensures { IsTrue result → CoversRows of.0 of.1 (cover.old.rows + length rows.now) cover.new }
{
    cover.add(rows).is_ok()
}

/// Goes on past a batch of rows. Those at its last tag are given back: more may follow at that tag,
/// and so they are judged with the next batch that has a later one.
fn add_batch(
    front: &mut Front,
    alloc: Global,
    plan: &Plan,
    body: &[u8],
    waiting: Vec<Row>,
    batch: &[Row],
) -> Option<Vec<Row>>
    requires open_fit { RowsFit plan.now.program waiting.items }
    requires batch_fit { RowsFit plan.now.program batch.now }
    requires stands { IsFrontOfText plan.now body.now front.old }
    requires next { IsNextBehind plan.now body.now front.old (waiting.items ++ batch.now) }
    ensures stands { IfSome result (λ left. IsFrontOfText plan.now body.now front.new) }
    ensures fit { IfSome result (λ left. RowsFit plan.now.program left.items) }
    ensures rows { IfSome result (λ left. judged_rows plan.now body.now front.new ++ left.items ≡ judged_rows plan.now body.now front.old ++ (waiting.items ++ batch.now)) }
{
    let cut = cut_batch(alloc, waiting, batch)?;
    if !front.judge(alloc, plan, body, cut.first.as_slice())
        || !front.judge(alloc, plan, body, cut.next)
    {
        return None;
    }
    Some(cut.waiting)
}

/// Goes on past all rows of a text below its header. The counts of the runs, where all rows are legal.
// The front is the caller's: each way out of a loop is proved to drop all that its function owns.
fn add_text(front: &mut Front, alloc: Global, plan: &Plan, body: &[u8]) -> Option<RunCounts>
    requires stands { IsFrontOfText plan.now body.now front.old }
    requires none { front.old.cover.rows ≡ 0 }
    ensures { IfSome result (λ c. (rows : List TheRow) × AllZip (IsRow plan.now.program) (records_of body.now) rows × (length rows ≤ 4000000) × IsAccepted plan.now rows c.runs c.tags × CoversRows plan.now.program rows (length rows) front.new.cover) }
{
    let Ok(names) = ReactionNames::new(alloc, plan.program()) else {
        return None;
    };
    let bytes = rows_together(plan).saturating_mul(BYTES_OF_A_ROW);
    let mut waiting = Vec::new(alloc);
    let mut rest = body;
    while !rest.is_empty() {
        let (batch, behind) = read_batch(alloc, &names, rest, bytes)?;
        waiting = add_batch(front, alloc, plan, body, waiting, batch.as_slice())?;
        rest = behind;
    }
    if !front.judge(alloc, plan, body, waiting.as_slice()) {
        return None;
    }
    front.acceptor.finish(plan)
}

/// The counts of a trace table whose rows are legal, and what the rows exercise, both in one pass over its text.
/// No row is kept once its tag is judged.
///
/// None says nothing of the table: it may be none, its rows may break a rule, memory may be refused, or too much
/// is to be looked at. So it is of a text that has a quotation mark or another header than the plain one.
pub(crate) fn covers_text(alloc: Global, plan: &Plan, text: &[u8]) -> Option<(RunCounts, Cover)>
    ensures { IfSome result (λ p. (rows : List TheRow) × Table plan.now.program (records_of text.now) rows × IsAccepted plan.now rows p.0.runs p.0.tags × CoversRows plan.now.program rows (length rows) p.1) }
{
    let body = below_header(text)?;
    let Ok(mut front) = Front::new(alloc, plan) else {
        return None;
    };
    let counts = add_text(&mut front, alloc, plan, body)?;
    Some((counts, front.cover))
}
