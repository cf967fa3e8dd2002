//! External inputs as tables.

ghost use Rattle.std.specs.Prelude.{◌≡◌, ◌+◌, ◌∷◌, List, [], IfOk, IfErr, IsTrue, ◌↔◌, true, false, Some, None, IfSome};
ghost use Rattle.csv.specs.Records.{fields_of};
ghost use Rattle.lft_trace.specs.{ExternalTables.{ExternalTable, ExternalFails, FaultAt, IsEntry, IsOfKind, header}, Faults.is_told, Numbers.value};
ghost use Rattle.lft_trace.specs.inner.SeenExternals.{FieldFault, Keeps, Refuses, external_fields};
ghost use Rattle.lft_tables.specs.{Parts.HasNoQuote, Records.records_of};
ghost use Rattle.lft_ir.specs.Steps.{Fits.ExternalsFit, Inputs.{ExternalInputs, InOrder}};

use crate::event_map::EventMap;
use crate::fault::{TraceFault, stopped};
use crate::fields::ExternalFields;
use crate::kind::{EntryKind, read_entry_kind};
use crate::names::read_physical;
use crate::number::{read_tag, read_value};
use crate::reading::headers::is_inputs_line;
use crate::trace_table::LAST_LINE;
use csv::ByteRecord;
use lft_ir::steps::{Event, Externals};
use lft_ir::{Program, Value};
use lft_tables::{Records, TableReader};
use lft_tag::Tag;
use std::alloc::Global;
use std::io::Read;

/// What a record tells: an event of a physical action, or the stop.
#[derive(Clone, Copy, PartialEq, Eq, Debug, Drop)]
pub enum Entry {
    Happens(Event),
    Stops(Tag),
}

/// The external inputs of a table, as `read_externals_from` reads them.
pub fn read_externals(
    alloc: Global,
    program: &Program,
    text: &[u8],
) -> Result<Externals, TraceFault>
    ensures table { IfOk result (λ inputs. ExternalTable program.now (records_of text.now) inputs) }
    ensures one { IfOk result (λ inputs. (other : ExternalInputs) → ExternalTable program.now (records_of text.now) other → other ≡ inputs) }
    ensures fits { IfOk result (λ inputs. ExternalsFit program.now inputs) }
    ensures fault { IfErr result (λ e. is_told e ≡ true → ExternalFails program.now (records_of text.now) e × ((inputs : ExternalInputs) → ExternalTable program.now (records_of text.now) inputs → ⊥)) }
{
    read_externals_from(alloc, program, text)
}

/// The external inputs of the table that a reader gives, of whose text no more is kept than csv's buffer has. Line n
/// of a fault is the n-th record.
///
/// `BadHeader` comes before the fault of the least line; at one line the order is field count,
/// kind, number, name, field in place, then an event given before or a second stop; `TooManyRows`
/// comes only where no row within the limit has a fault, and `NoStop` last. `NotCsv`, where the reader
/// fails, and `NoMemory` may come before any other.
pub fn read_externals_from<R: Read + Drop>(
    alloc: Global,
    program: &Program,
    source: R,
) -> Result<Externals, TraceFault>
    ensures table { IfOk result (λ inputs. IfSome (R.remaining source) (λ text. ExternalTable program.now (records_of text) inputs)) }
    ensures one { IfOk result (λ inputs. IfSome (R.remaining source) (λ text. (other : ExternalInputs) → ExternalTable program.now (records_of text) other → other ≡ inputs)) }
    ensures fits { IfOk result (λ inputs. ExternalsFit program.now inputs) }
    ensures fault { IfErr result (λ e. IfSome (R.remaining source) (λ text. is_told e ≡ true → ExternalFails program.now (records_of text) e × ((inputs : ExternalInputs) → ExternalTable program.now (records_of text) inputs → ⊥))) }
{
    // Asked for what every program keeps: no two of its things have one name.
    program.keeps();
    read_inputs(alloc, program, source)
}

// `stop` is the tag of the stop row, and in the arms of `next` why the records stop. A fault
// is handed on by a `match` and not by `?`, here as in the other readers and where texts are
// loaded: a clause speaks of the fault, and its proof then has it by its name.
fn read_inputs<R: Read + Drop>(
    alloc: Global,
    program: &Program,
    source: R,
) -> Result<Externals, TraceFault>
    ensures table { IfOk result (λ inputs. IfSome (R.remaining source) (λ text. ExternalTable program.now (records_of text) inputs)) }
    ensures fits { IfOk result (λ inputs. ExternalsFit program.now inputs) }
    ensures fault { IfErr result (λ e. IfSome (R.remaining source) (λ text. is_told e ≡ true → ExternalFails program.now (records_of text) e)) }
{
    let mut records = Records::new(alloc, source, LAST_LINE);
    match records.next() {
        Ok(true) => {}
        Ok(false) => return Err(TraceFault::BadHeader),
        Err(stop) => return Err(stopped(stop)),
    }
    if !is_header(records.fields()) {
        return Err(TraceFault::BadHeader);
    }
    let mut stop = None;
    let mut events = EventMap::new(alloc);
    'lines: loop {
        match records.next() {
            Ok(true) => {}
            Ok(false) => return finish(alloc, stop, events),
            Err(stop) => return Err(stopped(stop)),
        }
        let entry = match read_entry(program, records.fields(), records.line) {
            Ok(entry) => entry,
            Err(fault) => return Err(fault),
        };
        stop = match keep(alloc, entry, stop, &mut events, records.line) {
            Ok(stop) => stop,
            Err(fault) => return Err(fault),
        };
    }
}

// Keeps an entry beside those before it, and gives the stop so far.
pub(crate) fn keep(
    alloc: Global,
    entry: Entry,
    stop: Option<Tag>,
    events: &mut EventMap,
    line: u32,
) -> Result<Option<Tag>, TraceFault>
    ensures kept { IfOk result (λ now. Keeps entry stop events.old now events.new) }
    ensures fault { IfErr result (λ e. is_told e ≡ true → Refuses entry stop events.old line e) }
{
    match entry {
        Entry::Happens(event) => match events.insert(alloc, event) {
            Ok(true) => Ok(stop),
            Ok(false) => Err(TraceFault::DuplicateExternal(line)),
            Err(_) => Err(TraceFault::NoMemory),
        },
        Entry::Stops(tag) => match stop {
            None => Ok(Some(tag)),
            Some(_) => Err(TraceFault::TwoStops(line)),
        },
    }
}

/// Reads records of the external inputs of a program.
#[derive(Clone, Copy)]
pub(crate) struct InputReader<'a> {
    pub(crate) program: &'a Program,
}

impl<'a> TableReader for InputReader<'a> {
    ghost use Rattle.std.specs.Prelude.{⊤};
    ghost use Rattle.lft_trace.specs.ExternalTables.{IsEntry, header};

    type Item = Entry;

    type Guess = ();

    ghost header = { header };

    ghost tells = { λ reader. IsEntry reader.program.now };

    ghost is_guess = { λ _ _. ⊤ };

    fn is_header_line(line: &[u8]) -> bool
        ensures one { IsTrue result → records_of line.now ≡ header ∷ [] }
        ensures quiet { IsTrue result → HasNoQuote line.now }
    {
        is_inputs_line(line)
    }

    fn first_guess(&self) {}

    fn read(&self, _guess: (), fields: &ByteRecord) -> Option<(Entry, ())> {
        // Of a fault no line is told.
        let entry = read_entry(self.program, fields, 0).ok()?;
        Some((entry, ()))
    }
}

// The external inputs, once all records are read.
pub(crate) fn finish(
    alloc: Global,
    stop: Option<Tag>,
    events: EventMap,
) -> Result<Externals, TraceFault>
    ensures made { IfOk result (λ inputs. (stop ≡ Some inputs.stop) × (inputs.events ≡ events) × InOrder inputs.events) }
    ensures fault { IfErr result (λ e. is_told e ≡ true → (e ≡ TraceFault.NoStop) × (stop ≡ None)) }
{
    let stop = match stop {
        Some(stop) => stop,
        None => return Err(TraceFault::NoStop),
    };
    match events.into_vec(alloc) {
        Ok(events) => Ok(Externals::from_parts(stop, events)),
        Err(_) => Err(TraceFault::NoMemory),
    }
}

// Whether the record is the header.
fn is_header(fields: &ByteRecord) -> bool
    ensures { IsTrue result ↔ (fields_of fields.now ≡ header) }
{
    match ExternalFields::of(fields) {
        Some(fields) => fields.is_header(),
        None => false,
    }
}

// The event or the stop of a record, or the first fault that it has.
pub(crate) fn read_entry(
    program: &Program,
    fields: &ByteRecord,
    line: u32,
) -> Result<Entry, TraceFault>
    ensures entry { IfOk result (λ entry. IsEntry program.now (fields_of fields.now) entry) }
    ensures fault { (before : List Entry) → IfErr result (λ e. FaultAt program.now before line (fields_of fields.now) e) }
{
    match ExternalFields::of(fields) {
        Some(fields) => match read_entry_kind(fields.kind) {
            Some(kind) => read_fields(program, kind, &fields, line),
            None => Err(TraceFault::BadEvent(line)),
        },
        None => Err(TraceFault::BadFieldCount(line)),
    }
}

// The event or the stop of a record of this kind, or the first fault that it has beside its kind.
fn read_fields(
    program: &Program,
    kind: EntryKind,
    fields: &ExternalFields,
    line: u32,
) -> Result<Entry, TraceFault>
    ensures entry { IfOk result (λ entry. IsOfKind program.now kind (external_fields fields.now) entry) }
    ensures fault { IfErr result (λ e. FieldFault program.now kind line (external_fields fields.now) e) }
{
    match kind {
        EntryKind::Event => read_happens(program, fields, line),
        EntryKind::Stop => read_stops(program, fields, line),
    }
}

fn read_happens(program: &Program, fields: &ExternalFields, line: u32) -> Result<Entry, TraceFault>
    ensures entry { IfOk result (λ entry. IsOfKind program.now EntryKind.Event (external_fields fields.now) entry) }
    ensures fault { IfErr result (λ e. FieldFault program.now EntryKind.Event line (external_fields fields.now) e) }
{
    let tag = match read_tag(fields.time, fields.microstep) {
        Some(tag) => tag,
        None => return Err(TraceFault::BadNumber(line)),
    };
    let value = match read_value(fields.value) {
        Some(value) => value,
        None => return Err(TraceFault::BadNumber(line)),
    };
    match read_physical(program, fields.name) {
        Some(action) => Ok(Entry::Happens(Event { tag, action, value })),
        None => Err(TraceFault::UnknownName(line)),
    }
}

fn read_stops(program: &Program, fields: &ExternalFields, line: u32) -> Result<Entry, TraceFault>
    ensures entry { IfOk result (λ entry. IsOfKind program.now EntryKind.Stop (external_fields fields.now) entry) }
    ensures fault { IfErr result (λ e. FieldFault program.now EntryKind.Stop line (external_fields fields.now) e) }
{
    let tag = match read_tag(fields.time, fields.microstep) {
        Some(tag) => tag,
        None => return Err(TraceFault::BadNumber(line)),
    };
    if fields.is_filled(EntryKind::Stop) {
        return Err(TraceFault::FieldInPlace(line));
    }
    Ok(Entry::Stops(tag))
}
