//! Rows that are accepted, part by part.

ghost use Rattle.std.specs.Prelude.{◌<◌, ◌≤◌, [], length, IfSome, IsTrue};
ghost use Rattle.lft_ir.specs.Steps.Fits.{RowsFit};
ghost use Rattle.lft_model.specs.Accepted.{IsAccepted};
ghost use Rattle.lft_stream.specs.inner.Kept.{IsAcceptorOf};

use crate::{Acceptor, RunCounts};
use lft_ir::steps::{Row, Rows, row_at};
use lft_model::Plan;
use lft_tag::MAX_ROWS;
use std::alloc::Global;

/// At least so many rows are taken together, which is 256 kB. Of more, each that is read would wait for its place
/// in memory.
const TOGETHER: usize = 4_096;

/// How many rows of a program are to be taken together. For each reaction there is one: before a batch is judged,
/// what is kept of each reaction is wiped.
pub fn rows_together(plan: &Plan) -> usize
    ensures { (0 < result) × (result ≤ 4000000) }
{
    TOGETHER.max(plan.program().reactions()).min(MAX_ROWS)
}

/// Where the rows end that are taken together from the first on: behind a whole tag.
fn end_of_part(rows: &[Row], first: usize, together: usize) -> usize
    requires first { first < length rows.now }
    requires some { 0 < together }
    ensures { (first < result) × (result ≤ length rows.now) }
{
    let mut end = rows.len().min(first.saturating_add(together));
    while end < rows.len() && row_at(rows, end).tag.is_same(row_at(rows, end - 1).tag) {
        end += 1;
    }
    end
}

/// Goes on past the rows, part by part.
fn add_parts(acceptor: &mut Acceptor, alloc: Global, plan: &Plan, rows: &[Row]) -> bool
    requires fit { RowsFit plan.now.program rows.now }
    requires first { IsAcceptorOf plan.now [] acceptor.old }
    ensures { IsTrue result → IsAcceptorOf plan.now rows.now acceptor.new }
{
    let together = rows_together(plan);
    let mut first = 0;
    while first < rows.len() {
        let end = end_of_part(rows, first, together);
        if !acceptor.add(alloc, plan, &rows[first..end]) {
            return false;
        }
        first = end;
    }
    true
}

/// The counts of rows that are legal. None says nothing of them: they may break a rule, or memory may be
/// refused, or too much is to be looked at.
// Where rows are given up, only those before and the part with them were looked at.
pub fn accepts_rows(alloc: Global, plan: &Plan, rows: &Rows) -> Option<RunCounts>
    requires { RowsFit plan.now.program rows.now }
    ensures { IfSome result (λ c. IsAccepted plan.now rows.now c.runs c.tags) }
{
    let Ok(mut acceptor) = Acceptor::new(alloc, plan) else {
        return None;
    };
    if !add_parts(&mut acceptor, alloc, plan, rows.as_slice()) {
        return None;
    }
    acceptor.finish(plan)
}
