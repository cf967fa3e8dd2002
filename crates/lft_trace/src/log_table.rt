//! Rows with external inputs among them.

ghost use Rattle.std.specs.Prelude.{◌≡◌, ◌↔◌, ◌≤◌, ◌++◌, List, length, IfOk, IsTrue};
ghost use Rattle.csv.specs.Records.{fields_of};
ghost use Rattle.lft_ir.specs.{declared.steps.row.Row.Row as TheRow, Steps.Fits.RowsFit};
ghost use Rattle.lft_trace.specs.{inner.LogTables.{InputsFit, ReadsLines}, LogTables.BeginsAsInput};
ghost use Rattle.lft_tables.specs.Records.{records_of};

use crate::external_table::{Entry, read_entry};
use crate::fault::TraceFault;
use crate::fields::ExternalFields;
use crate::kind::read_entry_kind;
use crate::next_names::NextNames;
use crate::reaction_names::{ReactionNames, ReactionNumbers};
use crate::trace_table::read_row;
use csv::ByteRecord;
use lft_ir::Program;
use lft_ir::steps::Row;
use lft_tables::{Records, Unread};
use lft_tag::MAX_ROWS;
use std::alloc::Global;
use std::io::Cursor;

/// The line that a record has in a table of its own. The header is line 1.
const ONLY_LINE: u32 = 2;

/// What a record tells that stands among rows.
#[derive(Clone, Copy, PartialEq, Eq, Drop)]
pub enum Line {
    Row(Row),
    Input(Entry),
}

/// Why a record among rows tells nothing. The line of the fault itself is that in a table of the header
/// and this record.
#[derive(Clone, Copy, PartialEq, Eq, Debug, Drop)]
pub enum LineFault {
    /// It is no row.
    NoRow(TraceFault),
    /// It has the fields of an external input and begins with the word of one, and is none.
    NoInput(TraceFault),
}

/// An external input among rows.
#[derive(Clone, Copy, PartialEq, Eq, Debug, Drop)]
pub struct Among {
    /// How many rows stand before it.
    pub rows_before: usize,
    pub entry: Entry,
}

/// The external inputs among rows, up to a record that is neither.
#[derive(Drop)]
pub struct LogLines {
    pub inputs: Vec<Among>,
    /// What is wrong with the next record. There is none where all records were read.
    pub fault: Option<LineFault>,
}

/// Whether a record has as many fields as an external input, and begins with the word of one. No row has as
/// few fields.
#[inline(always)]
fn begins_as_input(fields: &ByteRecord) -> bool
    ensures { IsTrue result ↔ BeginsAsInput (fields_of fields.now) }
{
    match ExternalFields::of(fields) {
        Some(fields) => match read_entry_kind(fields.kind) {
            Some(_) => true,
            None => false,
        },
        None => false,
    }
}

fn read_lines_of(
    alloc: Global,
    names: &ReactionNames,
    text: &[u8],
    rows: &mut Vec<Row>,
) -> Result<LogLines, Unread>
    ensures { IfOk result (λ read. (t : List TheRow) × (rows.new.items ≡ rows.old.items ++ t) × (length t ≤ 4000000) × ReadsLines names.now (records_of text.now) t read) }
{
    // No other table is read by a cursor. So the compiler puts the reading of a record in here, where else it is
    // a call with a long answer.
    let mut records = Records::new(alloc, Cursor::new(text), MAX_ROWS as u32);
    let others = rows.len();
    let mut inputs = Vec::new(alloc);
    let mut last = None;
    let mut next = NextNames::first();
    'lines: loop {
        match records.next() {
            Ok(true) => {}
            Ok(false) => {
                let fault = None;
                return Ok(LogLines { inputs, fault });
            }
            Err(stop) => return Err(stop),
        }
        let fields = records.fields();
        if begins_as_input(fields) {
            match read_entry(names.program(), fields, ONLY_LINE) {
                Ok(entry) => {
                    let rows_before = rows.len() - others;
                    if inputs.push(Among { rows_before, entry }).is_err() {
                        return Err(Unread::NoMemory);
                    }
                }
                Err(fault) => {
                    let fault = Some(LineFault::NoInput(fault));
                    return Ok(LogLines { inputs, fault });
                }
            }
            continue 'lines;
        }
        // The row goes to its place at once: it is long, and put into a `Line` it would be moved twice more.
        match read_row(names, last, next, fields, ONLY_LINE) {
            Ok(row) => {
                if rows.push(row).is_err() {
                    return Err(Unread::NoMemory);
                }
                last = Some(row.reaction);
                next = next.after(names.program(), row);
            }
            Err(fault) => {
                let fault = Some(LineFault::NoRow(fault));
                return Ok(LogLines { inputs, fault });
            }
        }
    }
}

/// The rows and the external inputs of a text without a header, up to a record that is neither. The text
/// is read once, and its rows are put behind others.
///
/// An error tells nothing of a line: there are more records than a table may have rows, a reader failed,
/// or a growth of memory was refused.
pub fn read_log(
    alloc: Global,
    program: &Program,
    numbers: &mut ReactionNumbers,
    text: &[u8],
    rows: &mut Vec<Row>,
) -> Result<LogLines, Unread>
    ensures read { IfOk result (λ read. (t : List TheRow) × (rows.new.items ≡ rows.old.items ++ t) × RowsFit program.now t × ReadsLines program.now (records_of text.now) t read) }
    ensures inputs { IfOk result (λ read. InputsFit program.now read.inputs.items) }
{
    // Asked for what every program keeps: no two of its things have one name.
    program.keeps();
    let by_hash = std::mem::replace(&mut numbers.by_hash, Vec::new(alloc));
    let names = ReactionNames::with(alloc, program, by_hash);
    let read = read_lines_of(alloc, &names, text, rows);
    numbers.by_hash = names.into_numbers();
    match read {
        Ok(read) => Ok(read),
        Err(unread) => Err(unread),
    }
}
