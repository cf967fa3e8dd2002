//! Writing traces as tables.

ghost use Rattle.std.specs.Prelude.{◌≡◌, ◌++◌, ◌∷◌, [], ℕ, List, IfOk, OnOk, ◌<◌, slice_index_or};
ghost use Rattle.lft_ir.specs.{Parts.Parts, Sound.IsNameOf, Steps.Fits.{RowFits, RowsFit, StepFits}};
ghost use Rattle.lft_tables.specs.Records.{records_of};
ghost use Rattle.lft_trace.specs.Traces.{Table, header, in_order, word};
ghost use Rattle.lft_trace.specs.inner.{Seen.trace_fields, SeenWriting.{AllHaveWords, HasWord, HasWords, HasWritten, IsWord}, Written.csv_text};
ghost use Rattle.lft_trace.specs.Written.{delay_text, event_of, name_text, row_fields, step_fields, table_text, value_text, written_records};

use crate::fields::TraceFields;
use csv::{Writer, WriterBuilder};
use itoa::Buffer;
use lft_ir::steps::{Row, Rows, Step, row_at};
use lft_ir::{Name, Program, Value};
use lft_tag::NoMemory;
use std::alloc::Global;

/// The trace table of the rows, which `read_trace` reads as these rows. Each line ends with a line
/// feed; a bare value and no delay are written as nothing, and numbers without leading zeros. No
/// quotes are written.
// Contracts see names as lists of letters, digits, `_`, dots and `#` (`AreWords`). So no clause has to say how `csv`
// quotes.
pub fn write_trace(alloc: Global, program: &Program, rows: &Rows) -> Result<Vec<u8>, NoMemory>
    requires { RowsFit program.now rows.now }
    ensures plain { IfOk result (λ text. text.items ≡ table_text program.now rows.now) }
    ensures table { IfOk result (λ text. Table program.now (records_of text.items) rows.now) }
{
    // Asked for what every program keeps: each of its things has a name, whose bytes need no quotes.
    program.keeps();
    write_rows(alloc, program, rows.as_slice())
}

// The clause `words` hands out what the types of the numbers say: a list of rows doesn't keep it, and
// reading back needs it.
fn write_rows(alloc: Global, program: &Program, rows: &[Row]) -> Result<Vec<u8>, NoMemory>
    requires { RowsFit program.now rows.now }
    ensures bytes { IfOk result (λ text. text.items ≡ csv_text (written_records program.now rows.now)) }
    ensures words { OnOk result (AllHaveWords rows.now) }
{
    let mut writer = WriterBuilder::new().from_writer(Vec::new(alloc));
    write_header(&mut writer)?;
    for at in 0..rows.len() {
        write_row(&mut writer, program, row_at(rows, at))?;
    }
    match writer.into_inner() {
        Ok(text) => Ok(text),
        Err(_) => Err(NoMemory),
    }
}

fn write_header(writer: &mut Writer<Vec<u8>>) -> Result<(), NoMemory>
    requires { HasWritten writer.old [] }
    ensures { OnOk result (HasWritten writer.new (header ∷ [])) }
{
    let names = TraceFields {
        event: b"event",
        worker: b"worker",
        time: b"time",
        microstep: b"microstep",
        reaction: b"reaction",
        name: b"name",
        value: b"value",
        delay: b"delay",
    };
    write_fields(writer, &names)
}

fn write_row(writer: &mut Writer<Vec<u8>>, program: &Program, row: Row) -> Result<(), NoMemory>
    requires fits { RowFits program.now row }
    ensures written { OnOk result ((before : List (List (List ℕ))) → HasWritten writer.old before → HasWritten writer.new (before ++ (row_fields program.now row ∷ []))) }
    ensures words { HasWords row }
{
    let mut worker = Buffer::new();
    let mut time = Buffer::new();
    let mut micro = Buffer::new();
    let mut value = Buffer::new();
    let mut delay = Buffer::new();
    let fields = TraceFields {
        event: event(row.step),
        worker: worker.format(row.worker).as_bytes(),
        time: time.format(row.tag.time).as_bytes(),
        microstep: micro.format(row.tag.micro).as_bytes(),
        reaction: program.name_of_reaction(row.reaction).as_bytes(),
        name: step_name(program, row.step),
        value: step_value(&mut value, row.step),
        delay: step_delay(&mut delay, row.step),
    };
    write_fields(writer, &fields)
}

fn write_fields(writer: &mut Writer<Vec<u8>>, fields: &TraceFields) -> Result<(), NoMemory>
    ensures { OnOk result ((before : List (List (List ℕ))) → HasWritten writer.old before → HasWritten writer.new (before ++ (in_order (trace_fields fields.now) ∷ []))) }
{
    let fields = [
        fields.event,
        fields.worker,
        fields.time,
        fields.microstep,
        fields.reaction,
        fields.name,
        fields.value,
        fields.delay,
    ];
    match writer.write_fields(fields.as_slice()) {
        Ok(()) => Ok(()),
        Err(_) => Err(NoMemory),
    }
}

fn event(step: Step) -> &'static [u8]
    ensures { result.now ≡ word (event_of step) }
{
    match step {
        Step::Start => b"start",
        Step::Read(_, _) => b"read",
        Step::Write(_, _) => b"write",
        Step::Schedule(_, _, _) => b"schedule",
        Step::Stop => b"stop",
        Step::End => b"end",
    }
}

// The name field of a step.
fn step_name(program: &Program, step: Step) -> &[u8]
    requires { StepFits program.now step }
    ensures { result.now ≡ slice_index_or (step_fields program.now step) 0 [] }
{
    match step {
        Step::Read(name, _) | Step::Write(name, _) | Step::Schedule(name, _, _) => {
            name_of(program, name)
        }
        Step::Start | Step::Stop | Step::End => b"",
    }
}

fn name_of(program: &Program, name: Name) -> &[u8]
    requires { IsNameOf program.now name }
    ensures { result.now ≡ name_text program.now name }
{
    match name {
        Name::Port(number) => program.name_of_port(number).as_bytes(),
        Name::Action(number) => program.name_of_action(number).as_bytes(),
    }
}

// The value field of a step.
fn step_value(buffer: &mut Buffer, step: Step) -> &[u8]
    ensures text { (program : Parts) → result.now ≡ slice_index_or (step_fields program step) 1 [] }
    ensures word { HasWord step }
{
    match step {
        Step::Read(_, value) | Step::Write(_, value) | Step::Schedule(_, value, _) => {
            value_of(buffer, value)
        }
        Step::Start | Step::Stop | Step::End => b"",
    }
}

fn value_of(buffer: &mut Buffer, value: Value) -> &[u8]
    ensures text { result.now ≡ value_text value }
    ensures word { IsWord value }
{
    match value {
        Value::Bare => b"",
        Value::Int(number) => buffer.format(number).as_bytes(),
    }
}

// The delay field of a step.
fn step_delay(buffer: &mut Buffer, step: Step) -> &[u8]
    ensures { (program : Parts) → result.now ≡ slice_index_or (step_fields program step) 2 [] }
{
    match step {
        Step::Schedule(_, _, delay) => delay_of(buffer, delay),
        _ => b"",
    }
}

fn delay_of(buffer: &mut Buffer, delay: u64) -> &[u8]
    ensures { result.now ≡ delay_text delay }
{
    if delay == 0 {
        b""
    } else {
        buffer.format(delay).as_bytes()
    }
}
