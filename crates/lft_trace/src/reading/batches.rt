//! The rows of a long text without a header, read in batches.

ghost use Rattle.std.specs.Prelude.{◌≡◌, ◌≤◌, ◌++◌, length, IfSome};
ghost use Rattle.std.specs.Thread.{IsSync};
ghost use Rattle.lft_trace.specs.inner.Parts.{HoldsRows};
ghost use Rattle.lft_tables.specs.inner.Parts.{items_of};

use crate::reaction_names::ReactionNames;
use lft_ir::steps::Row;
use lft_tables::{cut_behind, read_parts};
use lft_tag::MAX_ROWS;
use std::alloc::Global;
use std::thread::{Threads, join};

/// The bytes of a batch for each worker: some milliseconds of reading, beside which a thread costs
/// little, and few rows are left to be copied behind the last batch.
const SHARE: usize = 4 << 20;

/// The rows of a text without a quotation mark. While a batch of its lines is read in parts, the
/// rows of the batch before are put behind those of all others.
pub(crate) fn read_batches<R: Threads + Sync>(
    rt: &R,
    alloc: Global,
    names: &ReactionNames,
    text: &[u8],
    workers: u32,
) -> Option<Vec<Row>>
    ensures rows { IfSome result (λ rows. HoldsRows names.now text.now rows.items) }
    ensures few { IfSome result (λ rows. length rows.items ≤ 4000000) }
{
    let mut all = Vec::new(alloc);
    let mut read = Vec::new(alloc);
    let mut rest = text;
    while let Some((batch, behind)) = cut_behind(rest, SHARE * workers as usize) {
        let (put, more) = read_beside(rt, alloc, names, all, read, batch, workers)?;
        all = put;
        read = more;
        rest = behind;
    }
    let (put, last) = read_beside(rt, alloc, names, all, read, rest, workers)?;
    put_together(put, last)
}

/// The rows so far with those that were read behind them, and the parts of a batch.
fn read_beside<R: Threads + Sync>(
    rt: &R,
    alloc: Global,
    names: &ReactionNames,
    all: Vec<Row>,
    read: Vec<Vec<Row>>,
    batch: &[u8],
    workers: u32,
) -> Option<(Vec<Row>, Vec<Vec<Row>>)>
    ensures { IfSome result (λ p. (p.0.items ≡ all.items ++ items_of read.items) × HoldsRows names.now batch.now (items_of p.1.items)) }
{
    let putting = move || -> Option<Vec<Row>>
        ensures { IfSome result (λ rows. rows.items ≡ all.items ++ items_of read.items) }
    { put_together(all, read) };
    let reading = move || -> Option<Vec<Vec<Row>>>
        requires { IsSync R.row }
        ensures { IfSome result (λ parts. HoldsRows names.entry.now batch.entry.now (items_of parts.items)) }
    { read_parts(rt, alloc, names, batch, workers) };
    let (rows, more) = join(rt, putting, reading);
    Some((rows?, more?))
}

/// The rows, and behind them those of the parts, where a table may have as many.
fn put_together(rows: Vec<Row>, parts: Vec<Vec<Row>>) -> Option<Vec<Row>>
    ensures rows { IfSome result (λ all. all.items ≡ rows.items ++ items_of parts.items) }
    ensures few { IfSome result (λ all. length all.items ≤ 4000000) }
{
    let mut all = rows;
    for place in 0..parts.len() {
        if all.extend_from_slice(parts[place].as_slice()).is_err() {
            return None;
        }
    }
    if all.len() > MAX_ROWS {
        return None;
    }
    Some(all)
}
