//! One record of a table, with a mark below a field.

ghost use Rattle.std.specs.Prelude.{◌≡◌, ℕ, List, IfOk, IfSome, IfNone};
ghost use Rattle.csv.specs.Records.{fields_of};
ghost use Rattle.lft_tables.specs.Records.{records_of};
ghost use Rattle.lft_text_diagnostics.specs.Tables.Tables.{HasRecord, field_at};

use crate::quoting::{LONGEST_LINE, push_quote};
use csv::ByteRecord;
use lft_tables::Records;
use lft_tag::NoMemory;
use std::alloc::Global;

/// The record of a table with that number, if there is one. The first is number 1.
pub(crate) fn record_of(
    alloc: Global,
    text: &[u8],
    number: u32,
) -> Result<Option<ByteRecord>, NoMemory>
    ensures some { IfOk result (λ found. IfSome found (λ r. HasRecord (records_of text.now) number (fields_of r))) }
    ensures none { IfOk result (λ found. IfNone found ((fields : List (List ℕ)) → HasRecord (records_of text.now) number fields → ⊥)) }
{
    if number == 0 {
        return Ok(None);
    }
    // Read once more up to it: no list of records is kept, and a refused table alone is asked for one.
    let mut records = Records::new(alloc, text, number);
    for _before in 0..number {
        match records.next() {
            Ok(true) => {}
            Ok(false) => return Ok(None),
            // The table was read before, so that fails for want of memory.
            Err(_) => return Err(NoMemory),
        }
    }
    Ok(Some(records.into_fields()))
}

/// Whether no record follows the one with that number, and no line end either: the writing of the table was
/// cut off there.
pub(crate) fn is_torn(alloc: Global, text: &[u8], number: u32) -> Result<bool, NoMemory> {
    if text.ends_with(b"\n") {
        return Ok(false);
    }
    let next = record_of(alloc, text, number.saturating_add(1))?;
    Ok(next.is_none())
}

/// The bytes of the first fields of a record, with a comma behind each.
fn joined(alloc: Global, fields: &ByteRecord, count: usize) -> Result<Vec<u8>, NoMemory> {
    let mut bytes = Vec::new(alloc);
    for at in 0..count {
        bytes.extend_from_slice(field(fields, at))?;
        bytes.push(b',')?;
    }
    Ok(bytes)
}

/// The field at a place, counted from 0; nothing where there is none.
pub(crate) fn field(fields: &ByteRecord, at: usize) -> &[u8]
    ensures { result.now ≡ field_at (fields_of fields.now) at }
{
    match fields.get(at) {
        Some(field) => field,
        None => &[],
    }
}

/// Whether the bytes can be quoted in a line: there are few, and none of them ends a line.
fn is_short(bytes: &[u8]) -> bool {
    if bytes.len() > LONGEST_LINE {
        return false;
    }
    for byte in bytes {
        if *byte == b'\n' || *byte == b'\r' {
            return false;
        }
    }
    true
}

/// Puts the record behind the text, and below it a mark at the field.
pub(crate) fn push_record(
    alloc: Global,
    out: &mut String,
    number: u32,
    fields: &ByteRecord,
    at: usize,
) -> Result<(), NoMemory> {
    let mut line = joined(alloc, fields, fields.len())?;
    line.pop();
    if !is_short(&line) {
        return Ok(());
    }
    let before = joined(alloc, fields, at)?;
    push_quote(
        alloc,
        out,
        number as usize,
        &line,
        &before,
        field(fields, at),
    )
}
