//! The rows of a text without a header, read a batch at a time.

ghost use Rattle.std.specs.Prelude.{◌<◌, ◌≤◌, length, IfSome, IsTrue};
ghost use Rattle.lft_ir.specs.Steps.Fits.{RowsFit};
ghost use Rattle.lft_trace.specs.inner.Parts.{BeginsWith, HoldsRows};
ghost use Rattle.lft_tables.specs.inner.Parts.{items_of};

use crate::reaction_names::ReactionNames;
use lft_ir::steps::Row;
use lft_tables::{first_lines, read_parts, read_plain};
use lft_tag::MAX_ROWS;
use std::alloc::Global;
use std::thread::Threads;

/// The rows of the first lines of a text without a header, and the text behind these lines. The lines
/// have so many bytes or a few more, or all of the text.
///
/// None where something about them is odd: a quotation mark, a record that is no row, too many rows,
/// want of memory. Which fault the table has is for `read_trace` of `lft_trace` to say.
pub fn read_batch<'a>(
    alloc: Global,
    names: &ReactionNames,
    text: &'a [u8],
    bytes: usize,
) -> Option<(Vec<Row>, &'a [u8])>
    ensures rows { IfSome result (λ p. BeginsWith names.now text.now p.0.items p.1.now) }
    ensures fit { IfSome result (λ p. RowsFit names.now p.0.items) }
    ensures shorter { IfSome result (λ p. 0 < length text.now → length p.1.now < length text.now) }
{
    // Asked for what every program keeps: no two of its things have one name.
    names.program();
    let (lines, behind) = first_lines(text, bytes);
    let rows = read_plain(alloc, names, lines)?;
    if rows.len() > MAX_ROWS {
        return None;
    }
    Some((rows, behind))
}

/// Whether a table may have as many rows as the parts together.
fn are_few(parts: &[Vec<Row>]) -> bool
    ensures { IsTrue result → length (items_of parts.now) ≤ 4000000 }
{
    let mut left = MAX_ROWS;
    for place in 0..parts.len() {
        let rows = parts[place].len();
        if left < rows {
            return false;
        }
        left -= rows;
    }
    true
}

/// The rows of lines, read in parts by so many workers: those of each part are in a list of their own.
/// None as for `read_batch`.
pub fn read_lines<R: Threads + Sync>(
    rt: &R,
    alloc: Global,
    names: &ReactionNames,
    lines: &[u8],
    workers: u32,
) -> Option<Vec<Vec<Row>>>
    ensures rows { IfSome result (λ parts. HoldsRows names.now lines.now (items_of parts.items)) }
    ensures fit { IfSome result (λ parts. RowsFit names.now (items_of parts.items)) }
{
    // Asked for what every program keeps: no two of its things have one name.
    names.program();
    let parts = read_parts(rt, alloc, names, lines, workers)?;
    if !are_few(parts.as_slice()) {
        return None;
    }
    Some(parts)
}
