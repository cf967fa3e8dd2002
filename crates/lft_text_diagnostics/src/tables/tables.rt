//! Why a table is refused, for people.

ghost use Rattle.std.specs.Prelude.{◌≡◌, ◌++◌, [], ℕ, List, Some, false, ◌⊎◌, IfOk, IfSome, IfNone, OnOk, codes, string_bytes};
ghost use Rattle.csv.specs.Records.{fields_of};
ghost use Rattle.lft_trace.specs.{Faults.is_told, ExternalTables.ExternalFails, Traces.TraceFails};
ghost use Rattle.lft_tables.specs.Records.{records_of};
ghost use Rattle.lft_text_diagnostics.specs.Tables.Tables.{ContinuesFrom, HasRecord, IsWrong, IsWrongThere, NamesField, field_line, field_words, heading, table_line_words};
ghost use Rattle.lft_text_diagnostics.specs.inner.Tables.Tables.{Fails, FailsThere, IsWrongIn, word_of};

use crate::diagnostic::Diagnostic;
use crate::headers::{EXTERNALS, TRACE};
use crate::quoting::LONGEST_LINE;
use crate::tables::fields::{
    Wrong, filled_of_externals, filled_of_trace, name_of_externals, name_of_trace,
    number_of_externals, number_of_trace,
};
use crate::tables::foreign::of_text;
use crate::tables::record::{field, is_torn, push_record, record_of};
use crate::tables::siblings::push_siblings;
use crate::words::{push_bytes, push_way};
use csv::ByteRecord;
use lft_ir::Program;
use lft_ir::words::push_number;
use lft_tag::NoMemory;
use lft_trace::TraceFault;
use std::alloc::Global;

const NO_STOP: &str = ": there is no record stop,TIME,MICROSTEP,,";

const TORN: &str = "  It is the last record, and no line end follows. Was the run killed?\n";

const TOO_MANY: &str = ": a table has at most 4,000,000 records.";

/// The table that was read. A trace is called by a word, since there may be two.
#[derive(Clone, Copy)]
enum Table {
    Trace(&'static str),
    Externals,
}

impl Table {
    fn word(self) -> &'static str
        ensures { result.now ≡ word_of self }
    {
        match self {
            Table::Trace(word) => word,
            Table::Externals => "External inputs",
        }
    }

    fn header(self) -> &'static str {
        match self {
            Table::Trace(_) => TRACE,
            Table::Externals => EXTERNALS,
        }
    }

    /// How many fields a record has, in words.
    fn count(self) -> &'static str {
        match self {
            Table::Trace(_) => "8",
            Table::Externals => "5",
        }
    }
}

/// Why a trace table is refused with this fault, in lines that end with a line feed: the record, its
/// field, what may stand there. Nothing where the fault is none of the text. The table is called by the
/// word.
pub fn tell_trace(
    alloc: Global,
    program: &Program,
    text: &[u8],
    fault: TraceFault,
    word: &'static str,
) -> Result<String, NoMemory>
    ensures untold { IfOk result (λ words. is_told fault ≡ false → string_bytes words ≡ []) }
    ensures field { IfOk result (λ words. (n : ℕ) → field_line fault ≡ Some n → (string_bytes words ≡ []) ⊎ NamesField (records_of text.now) word.now n (IsWrong program.now fault) (string_bytes words)) }
    ensures told { IfOk result (λ words. TraceFails program.now (records_of text.now) fault → ContinuesFrom (heading word.now fault) (string_bytes words)) }
{
    tell(alloc, program, text, fault, Table::Trace(word))
}

/// The same of a table of external inputs.
pub fn tell_externals(
    alloc: Global,
    program: &Program,
    text: &[u8],
    fault: TraceFault,
) -> Result<String, NoMemory>
    ensures untold { IfOk result (λ words. is_told fault ≡ false → string_bytes words ≡ []) }
    ensures field { IfOk result (λ words. (n : ℕ) → field_line fault ≡ Some n → (string_bytes words ≡ []) ⊎ NamesField (records_of text.now) (codes "External inputs") n (IsWrongThere fault) (string_bytes words)) }
    ensures told { IfOk result (λ words. ExternalFails program.now (records_of text.now) fault → ContinuesFrom (heading (codes "External inputs") fault) (string_bytes words)) }
{
    tell(alloc, program, text, fault, Table::Externals)
}

/// Why a table is refused with this fault.
fn tell(
    alloc: Global,
    program: &Program,
    text: &[u8],
    fault: TraceFault,
    table: Table,
) -> Result<String, NoMemory>
    ensures untold { IfOk result (λ words. is_told fault ≡ false → string_bytes words ≡ []) }
    ensures field { IfOk result (λ words. (n : ℕ) → field_line fault ≡ Some n → (string_bytes words ≡ []) ⊎ NamesField (records_of text.now) (word_of table) n (IsWrongIn program.now table fault) (string_bytes words)) }
    ensures told { IfOk result (λ words. Fails program.now table (records_of text.now) fault → ContinuesFrom (heading (word_of table) fault) (string_bytes words)) }
{
    match fault {
        // These say nothing of the text.
        TraceFault::NotCsv | TraceFault::NoMemory => Ok(String::new(alloc)),
        TraceFault::BadEvent(line)
        | TraceFault::BadNumber(line)
        | TraceFault::UnknownName(line)
        | TraceFault::FieldInPlace(line) => tell_field(alloc, program, text, line, fault, table),
        TraceFault::BadFieldCount(line)
        | TraceFault::DuplicateExternal(line)
        | TraceFault::TwoStops(line) => tell_record(alloc, text, line, fault, table),
        TraceFault::BadHeader => tell_header(alloc, text, table),
        TraceFault::NoStop => tell_whole(alloc, table, NO_STOP),
        TraceFault::TooManyRows => tell_whole(alloc, table, TOO_MANY),
    }
}

/// The same of a fault of one field.
fn tell_field(
    alloc: Global,
    program: &Program,
    text: &[u8],
    line: u32,
    fault: TraceFault,
    table: Table,
) -> Result<String, NoMemory>
    ensures field { IfOk result (λ words. (string_bytes words ≡ []) ⊎ NamesField (records_of text.now) (word_of table) line (IsWrongIn program.now table fault) (string_bytes words)) }
    ensures told { IfOk result (λ words. field_line fault ≡ Some line → (fields : List (List ℕ)) → HasRecord (records_of text.now) line fields → FailsThere program.now table (records_of text.now) fields fault → ContinuesFrom (table_line_words (word_of table) line) (string_bytes words)) }
{
    // The fault is of this record, so it is there.
    let Some(fields) = record_of(alloc, text, line)? else {
        return Ok(String::new(alloc));
    };
    let Some(wrong) = wrong_field(program, &fields, fault, table) else {
        return Ok(String::new(alloc));
    };
    let mut told = Diagnostic::new(alloc);
    push_field(&mut told.place, line, table, wrong)?;
    push_wrong(alloc, &mut told.sentence, &fields, wrong)?;
    push_record(alloc, &mut told.lines, line, &fields, wrong.at as usize)?;
    push_way(&mut told.help, wrong.help)?;
    push_beside(alloc, &mut told.help, program, &fields, fault, wrong)?;
    told.print()
}

/// The same of a fault of a record as a whole.
fn tell_record(
    alloc: Global,
    text: &[u8],
    line: u32,
    fault: TraceFault,
    table: Table,
) -> Result<String, NoMemory>
    ensures { IfOk result (λ words. (fields : List (List ℕ)) → HasRecord (records_of text.now) line fields → ContinuesFrom (table_line_words (word_of table) line) (string_bytes words)) }
{
    let Some(fields) = record_of(alloc, text, line)? else {
        return Ok(String::new(alloc));
    };
    let mut told = Diagnostic::new(alloc);
    push_line(&mut told.place, line, table)?;
    push_fault(&mut told.sentence, &fields, fault, table)?;
    push_record(alloc, &mut told.lines, line, &fields, 0)?;
    if matches!(fault, TraceFault::BadFieldCount(_)) {
        push_wanted(alloc, &mut told.help, text, line, table)?;
    }
    told.print()
}

/// The same of a fault of no record.
fn tell_whole(alloc: Global, table: Table, is_wrong: &str) -> Result<String, NoMemory>
    ensures { IfOk result (λ words. ContinuesFrom (word_of table) (string_bytes words)) }
{
    let mut told = Diagnostic::new(alloc);
    told.place.push_str(table.word())?;
    told.sentence.push_str(is_wrong)?;
    told.print()
}

/// The same of a table that begins with another record than its header.
fn tell_header(alloc: Global, text: &[u8], table: Table) -> Result<String, NoMemory>
    ensures { IfOk result (λ words. ContinuesFrom (table_line_words (word_of table) 1) (string_bytes words)) }
{
    let first = first_line(text);
    let mut told = Diagnostic::new(alloc);
    push_line(&mut told.place, 1, table)?;
    told.sentence.push_str(": this isn't the header.")?;
    push_headers(alloc, &mut told.lines, first, table)?;
    // For the guess alone. What isn't UTF-8 is replaced, and no guess is made by that.
    let words = String::from_utf8_lossy(alloc, first)?;
    push_way(&mut told.help, of_text(text, words.as_str()))?;
    told.print()
}

/// Puts the header that is wanted and the line that stands in its place behind the text.
fn push_headers(
    alloc: Global,
    out: &mut String,
    first: &[u8],
    table: Table,
) -> Result<(), NoMemory> {
    out.push_str("\n  wanted  ")?;
    out.push_str(table.header())?;
    out.push_str("\n  found   ")?;
    if first.len() <= LONGEST_LINE {
        push_bytes(alloc, out, first)?;
    } else {
        out.push_str("a line of more than 200 bytes")?;
    }
    out.push_str("\n")?;
    Ok(())
}

/// The first line of the text, without its end.
fn first_line(text: &[u8]) -> &[u8] {
    for at in 0..text.len() {
        if text[at] == b'\n' || text[at] == b'\r' {
            return &text[..at];
        }
    }
    text
}

/// The field that the fault is about.
fn wrong_field(
    program: &Program,
    fields: &ByteRecord,
    fault: TraceFault,
    table: Table,
) -> Option<Wrong>
    ensures some { IfSome result (IsWrongIn program.now table fault (fields_of fields.now)) }
    ensures none { IfNone result ((n : ℕ) (records : List (List (List ℕ))) → field_line fault ≡ Some n → FailsThere program.now table records (fields_of fields.now) fault → ⊥) }
{
    match (fault, table) {
        (TraceFault::BadEvent(_), Table::Trace(_)) => Some(EVENT),
        (TraceFault::BadEvent(_), Table::Externals) => Some(KIND),
        (TraceFault::BadNumber(_), Table::Trace(_)) => number_of_trace(fields),
        (TraceFault::BadNumber(_), Table::Externals) => number_of_externals(fields),
        (TraceFault::UnknownName(_), Table::Trace(_)) => name_of_trace(program, fields),
        (TraceFault::UnknownName(_), Table::Externals) => Some(name_of_externals(program, fields)),
        (TraceFault::FieldInPlace(_), Table::Trace(_)) => Some(filled_of_trace(fields)),
        (TraceFault::FieldInPlace(_), Table::Externals) => Some(filled_of_externals(fields)),
        _ => None,
    }
}

const EVENT: Wrong = Wrong {
    at: 0,
    name: "event",
    is_no: "is no event",
    help: Some("Events are start, read, write, schedule, stop and end."),
};

const KIND: Wrong = Wrong {
    at: 0,
    name: "kind",
    is_no: "is neither event nor stop",
    help: None,
};

/// Puts the table and the line of a record behind the text.
fn push_line(out: &mut String, line: u32, table: Table) -> Result<(), NoMemory>
    ensures { OnOk result (string_bytes out.new ≡ string_bytes out.old ++ table_line_words (word_of table) line) }
{
    out.push_str(table.word())?;
    out.push_str(", line ")?;
    push_number(out, u64::from(line))?;
    Ok(())
}

/// Puts what is wrong with a record as a whole behind the text.
fn push_fault(
    out: &mut String,
    fields: &ByteRecord,
    fault: TraceFault,
    table: Table,
) -> Result<(), NoMemory> {
    match fault {
        TraceFault::DuplicateExternal(_) => {
            out.push_str(": that action has an event at that tag already.")?;
        }
        TraceFault::TwoStops(_) => out.push_str(": a stop stands before it already.")?,
        _ => {
            out.push_str(" has ")?;
            push_number(out, fields.len() as u64)?;
            out.push_str(" fields, and ")?;
            out.push_str(table.count())?;
            out.push_str(" are wanted.")?;
        }
    }
    Ok(())
}

/// Puts the header behind the text, and whether the record is torn.
fn push_wanted(
    alloc: Global,
    out: &mut String,
    text: &[u8],
    line: u32,
    table: Table,
) -> Result<(), NoMemory> {
    out.push_str("  The fields are ")?;
    out.push_str(table.header())?;
    out.push_str("\n")?;
    if is_torn(alloc, text, line)? {
        out.push_str(TORN)?;
    }
    Ok(())
}

/// Puts which field is wrong behind the text.
fn push_field(out: &mut String, line: u32, table: Table, wrong: Wrong) -> Result<(), NoMemory>
    ensures { OnOk result (string_bytes out.new ≡ string_bytes out.old ++ field_words (word_of table) line wrong) }
{
    push_line(out, line, table)?;
    out.push_str(", field ")?;
    push_number(out, u64::from(wrong.at) + 1)?;
    out.push_str(" (")?;
    out.push_str(wrong.name)?;
    out.push_str("): ")?;
    Ok(())
}

/// Puts what stands beside the name of a row of a trace behind the text, where the row is refused for a name that
/// nothing has.
fn push_beside(
    alloc: Global,
    out: &mut String,
    program: &Program,
    fields: &ByteRecord,
    fault: TraceFault,
    wrong: Wrong,
) -> Result<(), NoMemory> {
    let name = field(fields, NAME as usize);
    let is_name = matches!(fault, TraceFault::UnknownName(_)) && wrong.at == NAME;
    if is_name && program.find_bytes(name).is_none() {
        push_siblings(alloc, out, program, name)?;
    }
    Ok(())
}

/// The place of the name in a row of a trace.
const NAME: u8 = 5;

/// Puts what stands in a field that is wrong behind the text, and what it isn't.
fn push_wrong(
    alloc: Global,
    out: &mut String,
    fields: &ByteRecord,
    wrong: Wrong,
) -> Result<(), NoMemory> {
    let found = field(fields, wrong.at as usize);
    if found.len() > LONGEST_LINE {
        out.push_str("what stands there")?;
    } else if found.is_empty() {
        out.push_str("the empty field")?;
    } else {
        out.push_str("`")?;
        push_bytes(alloc, out, found)?;
        out.push_str("`")?;
    }
    out.push_str(" ")?;
    out.push_str(wrong.is_no)?;
    out.push_str(".")?;
    Ok(())
}
