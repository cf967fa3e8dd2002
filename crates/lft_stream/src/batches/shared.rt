//! Trace tables that are accepted from what a reader gives by several workers: while one judges a batch of
//! rows, the others read what comes next.

ghost use Rattle.std.specs.Prelude.{◌≡◌, ◌++◌, ◌≤◌, [], ℕ, List, IfOk, IfSome, length};
ghost use Rattle.std.specs.Thread.{IsSync};
ghost use Rattle.lft_ir.specs.{Steps.Fits.RowsFit, declared.steps.row.Row.Row as TheRow};
ghost use Rattle.lft_tables.specs.{Records.records_of, inner.{Parts.{IsCut, items_of}, TableLines.text_left}};
ghost use Rattle.lft_trace.specs.{Traces.Table, inner.Parts.HoldsRows};
ghost use Rattle.lft_model.specs.Accepted.{IsAccepted};
ghost use Rattle.lft_stream.specs.inner.Batches.{Parted.PartsFit, Progresses.{HaveAcceptedRows, IsGoneOn, IsProgress}};

use crate::RunCounts;
use crate::batches::progress::JudgedRows;
use crate::batches::reader::accepts_reader;
use lft_ir::steps::Row;
use lft_model::Plan;
use lft_tables::{ReadFailed, TableLines, first_lines};
use lft_tag::MAX_ROWS;
use lft_trace::{ReactionNames, read_lines, trace_lines};
use std::alloc::Global;
use std::io::Read;
use std::thread::{Threads, join};

/// The bytes of a batch: some milliseconds, beside which a thread costs little. Three readers take about as long as one
/// judges, and more would wait. Two thirds of a batch are long enough for `read_lines` to part them.
const BATCH: usize = 7 << 18;

/// Goes on past the parts of a batch.
fn judge_parts(
    progress: JudgedRows,
    alloc: Global,
    plan: &Plan,
    parts: Vec<Vec<Row>>,
) -> Option<JudgedRows>
    requires parts_fit { PartsFit plan.now.program parts.items }
    requires stands { (t : List TheRow) × IsProgress plan.now t progress }
    ensures { IfSome result (λ on. IsGoneOn plan.now progress on (items_of parts.items)) }
{
    let mut progress = progress;
    for place in 0..parts.len() {
        if !progress.add(alloc, plan, parts[place].as_slice()) {
            return None;
        }
    }
    Some(progress)
}

/// Judges the last parts. The counts, where nothing is owed up to the stop.
fn finish_parts(
    progress: JudgedRows,
    alloc: Global,
    plan: &Plan,
    parts: Vec<Vec<Row>>,
) -> Option<RunCounts>
    requires parts_fit { PartsFit plan.now.program parts.items }
    requires stands { (t : List TheRow) × IsProgress plan.now t progress }
    ensures { IfSome result (λ c. (t : List TheRow) → IsProgress plan.now t progress → (length (t ++ items_of parts.items) ≤ 4000000) × IsAccepted plan.now (t ++ items_of parts.items) c.runs c.tags) }
{
    let mut progress = judge_parts(progress, alloc, plan, parts)?;
    progress.finish(alloc, plan)
}

/// How many bytes of lines so many readers read while the parts are judged. One takes some three times as long
/// to read rows as to judge them. Several take about as long, and read all of them.
fn bytes_beside(parts: &[Vec<Row>], lines: &[u8], readers: u32) -> usize {
    if parts.is_empty() {
        0
    } else if readers > 1 {
        lines.len()
    } else {
        lines.len() / 3
    }
}

/// The parts of lines, and behind them those of the rest, read by so many workers.
// The first lines are passed for what the clauses say of their parts.
fn read_rest<T: Threads + Sync>(
    rt: &T,
    alloc: Global,
    names: &ReactionNames,
    first: &[u8],
    read: Option<Vec<Vec<Row>>>,
    rest: &[u8],
    workers: u32,
) -> Option<Vec<Vec<Row>>>
    requires { IfSome read (λ parts. HoldsRows names.now first.now (items_of parts.items) × RowsFit names.now (items_of parts.items)) }
    ensures rows { IfSome result (λ all. (lines : List ℕ) → IsCut lines first.now rest.now → HoldsRows names.now lines (items_of all.items)) }
    ensures fit { IfSome result (λ all. PartsFit names.now all.items) }
{
    let mut read = read?;
    let mut more = read_lines(rt, alloc, names, rest, workers)?;
    if read.append(&mut more).is_err() {
        return None;
    }
    Some(read)
}

/// Goes on past the parts of a batch, while the others of so many workers read the first of the next lines. All
/// of them read the rest.
fn go_beside<T: Threads + Sync>(
    rt: &T,
    alloc: Global,
    plan: &Plan,
    names: &ReactionNames,
    progress: JudgedRows,
    parts: Vec<Vec<Row>>,
    lines: &[u8],
    workers: u32,
) -> Option<(JudgedRows, Vec<Vec<Row>>)>
    requires parts_fit { PartsFit plan.now.program parts.items }
    requires stands { (t : List TheRow) × IsProgress plan.now t progress }
    ensures gone { IfSome result (λ p. IsGoneOn plan.now progress p.0 (items_of parts.items)) }
    ensures read { IfSome result (λ p. HoldsRows names.now lines.now (items_of p.1.items)) }
    ensures read_fit { IfSome result (λ p. PartsFit names.now p.1.items) }
{
    let readers = workers.saturating_sub(1);
    let beside = bytes_beside(parts.as_slice(), lines, readers);
    let (first, rest) = first_lines(lines, beside);
    let judging = move || -> Option<JudgedRows>
        requires { PartsFit plan.now.program parts.items × ((t : List TheRow) × IsProgress plan.now t progress) }
        ensures { IfSome result (λ on. IsGoneOn plan.entry.now progress on (items_of parts.items)) }
    { judge_parts(progress, alloc, plan, parts) };
    let reading = move || -> Option<Vec<Vec<Row>>>
        requires { IsSync T.row }
        ensures { IfSome result (λ parts. HoldsRows names.entry.now first.entry.now (items_of parts.items) × RowsFit names.entry.now (items_of parts.items)) }
    { read_lines(rt, alloc, names, first, readers) };
    let (gone, read) = join(rt, judging, reading);
    let read = read_rest(rt, alloc, names, first, read, rest, workers)?;
    Some((gone?, read))
}

/// The counts of the rows of all lines that are left. None as for `accepts_reader_shared`.
fn accepts_lines<T: Threads + Sync, R: Read + Drop>(
    rt: &T,
    alloc: Global,
    plan: &Plan,
    names: &ReactionNames,
    progress: JudgedRows,
    text: &mut TableLines<R>,
    workers: u32,
) -> Result<Option<RunCounts>, ReadFailed>
    requires names { names.now ≡ plan.now.program }
    requires first { IsProgress plan.now [] progress }
    ensures { IfOk result (λ found. IfSome found (λ c. IfSome (text_left R.remaining text.old) (λ body. HaveAcceptedRows plan.now (records_of body) c))) }
{
    let mut progress = progress;
    let mut parts = Vec::new(alloc);
    // A table has no more batches than rows.
    for _batch in 0..MAX_ROWS {
        let Some(lines) = text.next(BATCH)? else {
            return Ok(None);
        };
        if lines.is_empty() {
            return Ok(finish_parts(progress, alloc, plan, parts));
        }
        let Some(on) = go_beside(
            rt,
            alloc,
            plan,
            names,
            progress,
            parts,
            lines.as_slice(),
            workers,
        ) else {
            return Ok(None);
        };
        progress = on.0;
        parts = on.1;
    }
    Ok(None)
}

/// What `accepts_reader` does, by so many workers: of several one judges, and the others read. Of two both read
/// what is left. Beside what is kept, the text of a batch and the rows of two are held. Several say nothing of
/// a text that has a quotation mark or another header than the plain one.
pub fn accepts_reader_shared<T: Threads + Sync, R: Read + Drop>(
    rt: &T,
    alloc: Global,
    plan: &Plan,
    source: R,
    workers: u32,
) -> Result<Option<RunCounts>, ReadFailed>
    ensures { IfOk result (λ found. IfSome found (λ c. IfSome (R.remaining source) (λ text. (rows : List TheRow) × Table plan.now.program (records_of text) rows × IsAccepted plan.now rows c.runs c.tags))) }
{
    if workers < 2 {
        return accepts_reader(alloc, plan, source);
    }
    // Tags are judged one after another, since each needs what those before it leave behind. So reading
    // alone is shared out.
    let Some(mut text) = trace_lines(alloc, source)? else {
        return Ok(None);
    };
    let Ok(names) = ReactionNames::new(alloc, plan.program()) else {
        return Ok(None);
    };
    let Ok(progress) = JudgedRows::new(alloc, plan) else {
        return Ok(None);
    };
    accepts_lines(rt, alloc, plan, &names, progress, &mut text, workers)
}
