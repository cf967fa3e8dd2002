//! A batch of rows behind rows that wait, cut where tags end.

ghost use Rattle.std.specs.Prelude.{◌≡◌, ◌++◌, ◌≤◌, length, IfSome};

use lft_ir::steps::{Row, row_at};
use lft_tag::MAX_ROWS;
use std::alloc::Global;

/// How many rows from the first on stand at the tag of the last one before.
fn still_open(waiting: &[Row], rows: &[Row]) -> usize
    ensures { result ≤ length rows.now }
{
    if waiting.is_empty() {
        return 0;
    }
    let tag = row_at(waiting, waiting.len() - 1).tag;
    let mut end = 0;
    while end < rows.len() && row_at(rows, end).tag.is_same(tag) {
        end += 1;
    }
    end
}

/// Where the rows at the last tag begin, or the place, where they begin before it.
fn last_begins(rows: &[Row], from: usize) -> usize
    requires { from ≤ length rows.now }
    ensures { (from ≤ result) × (result ≤ length rows.now) }
{
    let mut begin = rows.len();
    while begin > from
        && row_at(rows, begin - 1)
            .tag
            .is_same(row_at(rows, rows.len() - 1).tag)
    {
        begin -= 1;
    }
    begin
}

/// The rows with others behind them, where a table may have as many.
fn put_behind(rows: Vec<Row>, more: &[Row]) -> Option<Vec<Row>>
    ensures rows { IfSome result (λ all. all.items ≡ rows.items ++ more.now) }
    ensures few { IfSome result (λ all. length all.items ≤ 4000000) }
{
    let mut all = rows;
    if all.extend_from_slice(more).is_err() || all.len() > MAX_ROWS {
        return None;
    }
    Some(all)
}

/// Rows that waited and a batch behind them, cut where tags end.
#[derive(Drop)]
pub struct CutBatch<'b> {
    /// The rows that waited, with those at their last tag.
    pub first: Vec<Row>,
    /// Those at later tags that are finished.
    pub next: &'b [Row],
    /// Those at the last tag: more may follow at it.
    pub waiting: Vec<Row>,
}

/// Cuts rows that wait and a batch behind them.
pub fn cut_batch<'b>(alloc: Global, waiting: Vec<Row>, batch: &'b [Row]) -> Option<CutBatch<'b>>
    ensures rows { IfSome result (λ cut. (cut.first.items ++ cut.next.now) ++ cut.waiting.items ≡ waiting.items ++ batch.now) }
    ensures few { IfSome result (λ cut. (length cut.first.items ≤ 4000000) × (length cut.next.now ≤ length batch.now) × (length cut.waiting.items ≤ 4000000)) }
{
    let same = still_open(waiting.as_slice(), batch);
    let first = put_behind(waiting, &batch[0..same])?;
    if same == batch.len() {
        return Some(CutBatch {
            first: Vec::new(alloc),
            next: &batch[0..0],
            waiting: first,
        });
    }
    let begin = last_begins(batch, same);
    let waiting = put_behind(Vec::new(alloc), &batch[begin..batch.len()])?;
    Some(CutBatch {
        first,
        next: &batch[same..begin],
        waiting,
    })
}
