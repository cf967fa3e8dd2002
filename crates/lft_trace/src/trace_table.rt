//! Traces as tables.

ghost use Rattle.std.specs.Prelude.{◌≡◌, ◌+◌, ◌<◌, ◌∷◌, List, [], length, IfSome, IfNone, IfOk, IfErr, IsTrue, ◌↔◌, true, false, is_some, not, ◌||◌, Some};
ghost use Rattle.csv.specs.Records.{fields_of};
ghost use Rattle.lft_trace.specs.{Numbers.{number_or_zero, value}, Faults.is_told};
ghost use Rattle.lft_trace.specs.Traces.{Table, TraceFails, header, FaultAt, IsRow, IsThing, RowOf, has_delay, has_name, has_numbers, word};
ghost use Rattle.lft_trace.specs.inner.Seen.{FieldFault, NumbersOf, StepOf, trace_fields};
ghost use Rattle.lft_tables.specs.{Parts.HasNoQuote, Records.records_of};
ghost use Rattle.lft_ir.specs.Steps.Fits.{RowsFit};

use crate::fault::{TraceFault, stopped};
use crate::fields::TraceFields;
use crate::kind::{RowKind, read_kind};
use crate::names::{read_guessed, read_reaction_of};
use crate::next_names::NextNames;
use crate::number::{read_number, read_number_or_zero, read_tag, read_value};
use crate::reaction_names::ReactionNames;
use crate::reading::headers::is_header_line;
use csv::ByteRecord;
use lft_ir::steps::{Row, Rows, Step};
use lft_ir::{Name, Program, Value};
use lft_tables::{Records, TableReader};
use lft_tag::{MAX_ROWS, MAX_TIME, Tag};
use std::alloc::Global;

/// The line of the last row that a table may have. The header is line 1.
pub const LAST_LINE: u32 = MAX_ROWS as u32 + 1;

/// The rows of a trace table. Line n of a fault is the n-th record.
///
/// `BadHeader` comes before the fault of the least line; at one line the order is field count,
/// event, number, name, field in place; `TooManyRows` comes only where no row within the limit has
/// a fault. `NotCsv` and `NoMemory` may come before any other.
pub fn read_trace(alloc: Global, program: &Program, text: &[u8]) -> Result<Rows, TraceFault>
    ensures table { IfOk result (λ rows. Table program.now (records_of text.now) rows) }
    ensures one { IfOk result (λ rows. (other : List Row) → Table program.now (records_of text.now) other → other ≡ rows) }
    ensures fits { IfOk result (λ rows. RowsFit program.now rows) }
    ensures fault { IfErr result (λ e. is_told e ≡ true → TraceFails program.now (records_of text.now) e × ((rows : List Row) → Table program.now (records_of text.now) rows → ⊥)) }
{
    // Asked for what every program keeps: no two of its things have one name.
    program.keeps();
    let Ok(names) = ReactionNames::new(alloc, program) else {
        return Err(TraceFault::NoMemory);
    };
    match read_rows(alloc, &names, text) {
        Ok(rows) => Ok(Rows::from_vec(rows)),
        Err(fault) => Err(fault),
    }
}

fn read_rows(alloc: Global, names: &ReactionNames, text: &[u8]) -> Result<Vec<Row>, TraceFault>
    ensures table { IfOk result (λ rows. Table names.now (records_of text.now) rows.items) }
    ensures fault { IfErr result (λ e. is_told e ≡ true → TraceFails names.now (records_of text.now) e) }
{
    let mut records = Records::new(alloc, text, LAST_LINE);
    match records.next() {
        Ok(true) => {}
        Ok(false) => return Err(TraceFault::BadHeader),
        Err(stop) => return Err(stopped(stop)),
    }
    if !is_header(records.fields()) {
        return Err(TraceFault::BadHeader);
    }
    let mut rows = Vec::new(alloc);
    let mut last = None;
    let mut next = NextNames::first();
    'lines: loop {
        match records.next() {
            Ok(true) => {}
            Ok(false) => return Ok(rows),
            Err(stop) => return Err(stopped(stop)),
        }
        let row = match read_row(names, last, next, records.fields(), records.line) {
            Ok(row) => row,
            Err(fault) => return Err(fault),
        };
        if rows.push(row).is_err() {
            return Err(TraceFault::NoMemory);
        }
        last = Some(row.reaction);
        next = next.after(names.program(), row);
    }
}

impl<'a> TableReader for ReactionNames<'a> {
    ghost use Rattle.std.specs.Prelude.{IfSome, length, ◌<◌};
    ghost use Rattle.lft_trace.specs.Traces.{IsRow, header};

    type Item = Row;

    /// The reaction of the row before, and where its names are looked for first.
    type Guess = (Option<u32>, NextNames);

    ghost header = { header };

    ghost tells = { IsRow };

    ghost is_guess = { λ program guess. IfSome guess.0 (λ r. r < length program.reactions) };

    fn is_header_line(line: &[u8]) -> bool
        ensures one { IsTrue result → records_of line.now ≡ header ∷ [] }
        ensures quiet { IsTrue result → HasNoQuote line.now }
    {
        is_header_line(line)
    }

    fn first_guess(&self) -> (Option<u32>, NextNames) {
        (None, NextNames::first())
    }

    #[inline(always)]
    fn read(
        &self,
        guess: (Option<u32>, NextNames),
        fields: &ByteRecord,
    ) -> Option<(Row, (Option<u32>, NextNames))> {
        let (last, next) = guess;
        // Of a fault no line is told.
        let row = read_row(self, last, next, fields, 0).ok()?;
        Some((row, (Some(row.reaction), next.after(self.program(), row))))
    }
}

/// Whether the record is the header.
pub(crate) fn is_header(fields: &ByteRecord) -> bool
    ensures { IsTrue result ↔ (fields_of fields.now ≡ header) }
{
    match TraceFields::of(fields) {
        Some(fields) => fields.is_header(),
        None => false,
    }
}

/// The numbers of a record: bare and 0 where its event has no value and no delay.
#[derive(Clone, Copy)]
struct RowNumbers {
    worker: u32,
    tag: Tag,
    value: Value,
    delay: u64,
}

// The numbers of a record, if all that its event has are numbers within their limits.
#[inline(always)]
fn read_numbers(kind: RowKind, fields: &TraceFields) -> Option<RowNumbers>
    ensures some { IfSome result (λ n. NumbersOf kind (trace_fields fields.now) n × (has_numbers kind (trace_fields fields.now) ≡ true)) }
    ensures none { IfNone result (has_numbers kind (trace_fields fields.now) ≡ false) }
{
    let worker = match read_number(fields.worker, u32::MAX as u64) {
        Some(worker) => worker as u32,
        None => return None,
    };
    let tag = match read_tag(fields.time, fields.microstep) {
        Some(tag) => tag,
        None => return None,
    };
    let value = match value_of(kind, fields.value) {
        Some(value) => value,
        None => return None,
    };
    match delay_of(kind, fields.delay) {
        Some(delay) => Some(RowNumbers {
            worker,
            tag,
            value,
            delay,
        }),
        None => None,
    }
}

// The value that records of this event have.
#[inline(always)]
fn value_of(kind: RowKind, field: &[u8]) -> Option<Value>
    ensures some { IfSome result (λ v. has_name kind ≡ true → value field.now ≡ Some v) }
    ensures variant { is_some result ≡ (not (has_name kind) || is_some (value field.now)) }
{
    if kind.has_name() {
        read_value(field)
    } else {
        Some(Value::Bare)
    }
}

// The delay that records of this event have.
#[inline(always)]
fn delay_of(kind: RowKind, field: &[u8]) -> Option<u64>
    ensures some { IfSome result (λ d. has_delay kind ≡ true → number_or_zero 1000000000000000000 field.now ≡ Some d) }
    ensures variant { is_some result ≡ (not (has_delay kind) || is_some (number_or_zero 1000000000000000000 field.now)) }
{
    if kind.has_delay() {
        read_number_or_zero(field, MAX_TIME)
    } else {
        Some(0)
    }
}

// The step of a record: what its name field names, with the value and the delay that were read.
// The guessed name is tried first.
#[inline(always)]
fn read_step(
    program: &Program,
    kind: RowKind,
    guess: Option<Name>,
    name: &[u8],
    value: Value,
    delay: u64,
) -> Option<Step>
    ensures some { IfSome result (λ s. StepOf program.now kind name.now value delay s) }
    ensures none { IfNone result ((has_name kind ≡ true) × ((n : Name) → IsThing program.now name.now n → ⊥)) }
{
    match kind {
        RowKind::Start => Some(Step::Start),
        RowKind::Stop => Some(Step::Stop),
        RowKind::End => Some(Step::End),
        RowKind::Read => match read_guessed(program, guess, name) {
            Some(name) => Some(Step::Read(name, value)),
            None => None,
        },
        RowKind::Write => match read_guessed(program, guess, name) {
            Some(name) => Some(Step::Write(name, value)),
            None => None,
        },
        RowKind::Schedule => match read_guessed(program, guess, name) {
            Some(name) => Some(Step::Schedule(name, value, delay)),
            None => None,
        },
    }
}

// The row of a record, or the first fault that it has. `last` is the reaction of the row before,
// `next` where its names are looked for first.
#[inline(always)]
pub(crate) fn read_row(
    names: &ReactionNames,
    last: Option<u32>,
    next: NextNames,
    fields: &ByteRecord,
    line: u32,
) -> Result<Row, TraceFault>
    requires { IfSome last (λ r. r < length names.now.reactions) }
    ensures row { IfOk result (λ row. IsRow names.now (fields_of fields.now) row) }
    ensures fault { IfErr result (λ e. FaultAt names.now line (fields_of fields.now) e) }
    ensures within { IfOk result (λ row. row.reaction < length names.now.reactions) }
{
    match TraceFields::of(fields) {
        Some(fields) => match read_kind(fields.event) {
            Some(kind) => read_fields(names, kind, last, next, &fields, line),
            None => Err(TraceFault::BadEvent(line)),
        },
        None => Err(TraceFault::BadFieldCount(line)),
    }
}

// The row of a record of this event, or the first fault that it has beside its event.
#[inline(always)]
fn read_fields(
    names: &ReactionNames,
    kind: RowKind,
    last: Option<u32>,
    next: NextNames,
    fields: &TraceFields,
    line: u32,
) -> Result<Row, TraceFault>
    requires { IfSome last (λ r. r < length names.now.reactions) }
    ensures row { (trace_fields fields.now).event ≡ word kind → IfOk result (λ row. RowOf names.now kind (trace_fields fields.now) row) }
    ensures fault { IfErr result (λ e. FieldFault names.now kind line (trace_fields fields.now) e) }
    ensures within { IfOk result (λ row. row.reaction < length names.now.reactions) }
{
    let numbers = match read_numbers(kind, fields) {
        Some(numbers) => numbers,
        None => return Err(TraceFault::BadNumber(line)),
    };
    let reaction = match read_reaction_of(names, last, kind, fields.reaction) {
        Some(reaction) => reaction,
        None => return Err(TraceFault::UnknownName(line)),
    };
    let program = names.program();
    let guess = next.guess(program, reaction, kind);
    let step = match read_step(
        program,
        kind,
        guess,
        fields.name,
        numbers.value,
        numbers.delay,
    ) {
        Some(step) => step,
        None => return Err(TraceFault::UnknownName(line)),
    };
    if fields.is_filled(kind) {
        return Err(TraceFault::FieldInPlace(line));
    }
    Ok(Row {
        tag: numbers.tag,
        worker: numbers.worker,
        reaction,
        step,
    })
}
