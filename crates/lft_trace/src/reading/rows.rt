//! The rows of the trace table that a reader gives, some at a time.

ghost use Rattle.std.specs.Prelude.{◌≤◌, IfOk, IfSome, OnSome};
ghost use Rattle.lft_ir.specs.Steps.Fits.{RowsFit};
ghost use Rattle.lft_trace.specs.inner.Batches.{AreLinesBelowHeader, IsBelowHeader, IsBatch};

use crate::next_names::NextNames;
use crate::reaction_names::ReactionNames;
use crate::trace_table::{LAST_LINE, is_header, read_row};
use lft_ir::steps::Row;
use lft_tables::{ReadFailed, Records, TableLines, Unread};
use std::alloc::Global;
use std::io::Read;

/// The records below the header of the trace table that a reader gives. None where its first record is no
/// such header, or memory is refused.
pub fn trace_records<R: Read + Drop>(
    alloc: Global,
    source: R,
) -> Result<Option<Records<R>>, ReadFailed>
    ensures { IfOk result (λ found. IfSome found (λ records. IfSome (R.remaining source) (IsBelowHeader R.remaining records))) }
{
    let mut records = Records::new(alloc, source, LAST_LINE);
    match records.next() {
        Ok(true) => {}
        Ok(false) => return Ok(None),
        Err(Unread::NotCsv) => return Err(ReadFailed),
        Err(_) => return Ok(None),
    }
    if !is_header(records.fields()) {
        return Ok(None);
    }
    Ok(Some(records))
}

/// The text below the header of the trace table that a reader gives, some whole lines at a time. None where its
/// first line is no such header, or memory is refused.
pub fn trace_lines<R: Read + Drop>(
    alloc: Global,
    source: R,
) -> Result<Option<TableLines<R>>, ReadFailed>
    ensures { IfOk result (λ found. IfSome found (λ lines. IfSome (R.remaining source) (AreLinesBelowHeader R.remaining lines))) }
{
    TableLines::below::<ReactionNames>(alloc, source)
}

/// Puts the next rows in the place of others, so many or all that are left, and tells whether more may
/// follow. None where a record is no row, there are more than a table may have, or memory is refused. Which
/// fault the table has is for `read_trace` to say.
pub fn next_rows<R: Read + Drop>(
    names: &ReactionNames,
    records: &mut Records<R>,
    count: usize,
    rows: &mut Vec<Row>,
) -> Result<Option<bool>, ReadFailed>
    requires { count ≤ 4000000 }
    ensures rows { IfOk result (λ found. IfSome found (IsBatch R.remaining names.now records.old records.new rows.new.items)) }
    ensures fit { IfOk result (λ found. OnSome found (RowsFit names.now rows.new.items)) }
{
    // Asked for what every program keeps: no two of its things have one name.
    let program = names.program();
    let mut last = None;
    let mut next = NextNames::first();
    rows.clear();
    for _place in 0..count {
        match records.next() {
            Ok(true) => {}
            Ok(false) => return Ok(Some(false)),
            Err(Unread::NotCsv) => return Err(ReadFailed),
            Err(_) => return Ok(None),
        }
        let Ok(row) = read_row(names, last, next, records.fields(), records.line) else {
            return Ok(None);
        };
        if rows.push(row).is_err() {
            return Ok(None);
        }
        last = Some(row.reaction);
        next = next.after(program, row);
    }
    Ok(Some(true))
}
