//! Which field of a record is wrong, and what it may be.

ghost use Rattle.std.specs.Prelude.{◌≡◌, ℕ, List, IfSome, IfNone, codes};
ghost use Rattle.csv.specs.Records.{fields_of};
ghost use Rattle.lft_ir.specs.Parts.{Parts};
ghost use Rattle.lft_trace.specs.{ExternalTables.external_tables, Traces.FaultAt};
ghost use Rattle.lft_tables.specs.Tables.{FailsAt};
ghost use Rattle.lft_text_diagnostics.specs.Tables.Tables.{IsField, IsFilled, IsFilledThere, IsNoNumber, IsNoNumberThere, NamesNone, takes_name};
ghost use Rattle.lft_trace.specs.declared.fault.TraceFault.TheVariants as fault;

use crate::tables::record::field;
use csv::ByteRecord;
use lft_ir::{Found, Program};
use lft_tag::{MAX_MICRO, MAX_TIME};
use lft_trace::names::{read_reaction, read_thing};
use lft_trace::number::{read_number, read_number_or_zero, read_value};

/// A field that is wrong: its place in the record, counted from 0, its name, what it isn't, and what
/// helps.
#[derive(Clone, Copy)]
pub(crate) struct Wrong {
    pub at: u8,
    pub name: &'static str,
    pub is_no: &'static str,
    pub help: Option<&'static str>,
}

const DIGITS: &str = "A number is written by digits alone.";

const NANOSECONDS: &str =
    "Times and delays are whole nanoseconds, of at most 10^18. They count from the start of the run.";

/// The first field of a row of a trace that is no number, if one isn't. It is asked of a row in which a number
/// is wanted and is none: in a row without a value or a delay that is one of the first three.
pub(crate) fn number_of_trace(fields: &ByteRecord) -> Option<Wrong>
    ensures some { IfSome result (IsNoNumber (fields_of fields.now)) }
    ensures none { IfNone result ((program : Parts) (n line : ℕ) → FaultAt program line (fields_of fields.now) (fault.BadNumber n) → ⊥) }
{
    if read_number(field(fields, 1), u32::MAX as u64).is_none() {
        return Some(wrong_at(
            1,
            "worker",
            "is no worker",
            "A worker is a number from 0 to 4294967295.",
        ));
    }
    if read_number(field(fields, 2), MAX_TIME).is_none() {
        return Some(wrong_at(2, "time", "is no time", NANOSECONDS));
    }
    if read_number(field(fields, 3), MAX_MICRO as u64).is_none() {
        return Some(wrong_at(3, "microstep", "is no microstep", DIGITS));
    }
    if read_value(field(fields, 6)).is_none() {
        return Some(wrong_at(6, "value", "is no value", of_value(field(fields, 6))));
    }
    if read_number_or_zero(field(fields, 7), MAX_TIME).is_none() {
        return Some(wrong_at(7, "delay", "is no delay", NANOSECONDS));
    }
    None
}

const VALUES: &str = "A value is a whole number of 64 bits with a sign, or nothing.";

const FLOATS: &str =
    "A value is a whole number. For a floating-point one write the number of its bits, as `lft_double` does.";

/// The first field of a record of external inputs that is no number, if one isn't.
pub(crate) fn number_of_externals(fields: &ByteRecord) -> Option<Wrong>
    ensures some { IfSome result (IsNoNumberThere (fields_of fields.now)) }
    ensures none { IfNone result ((program : Parts) (records : List (List (List ℕ))) (n : ℕ) (fails : FailsAt (external_tables program) records (fault.BadNumber n)) → fails.bad ≡ fields_of fields.now → ⊥) }
{
    if read_number(field(fields, 1), MAX_TIME).is_none() {
        return Some(wrong_at(1, "time", "is no time", NANOSECONDS));
    }
    if read_number(field(fields, 2), MAX_MICRO as u64).is_none() {
        return Some(wrong_at(2, "microstep", "is no microstep", DIGITS));
    }
    if read_value(field(fields, 4)).is_none() {
        return Some(wrong_at(4, "value", "is no value", of_value(field(fields, 4))));
    }
    None
}

/// The field of a row of a trace that names nothing that it may name, if one does.
pub(crate) fn name_of_trace(program: &Program, fields: &ByteRecord) -> Option<Wrong>
    ensures some { IfSome result (NamesNone program.now (fields_of fields.now)) }
    ensures none { IfNone result ((n line : ℕ) → FaultAt program.now line (fields_of fields.now) (fault.UnknownName n) → ⊥) }
{
    let reaction = field(fields, 4);
    if read_reaction(program, None, reaction).is_none() {
        return Some(Wrong {
            at: 4,
            name: "reaction",
            is_no: "is no reaction of the program",
            help: of_reaction(reaction),
        });
    }
    let name = field(fields, 5);
    if read_thing(program, name).is_some() {
        return None;
    }
    Some(Wrong {
        at: 5,
        name: "name",
        is_no: "is no port and no action of the program",
        help: of_name(program.find_bytes(name), name),
    })
}

/// The field of a record of external inputs that names no physical action.
pub(crate) fn name_of_externals(program: &Program, fields: &ByteRecord) -> Wrong
    ensures { IsField result 3 (codes "name") }
{
    let name = field(fields, 3);
    let help = match program.find_bytes(name) {
        Some(Found::Action(_)) => {
            Some("That is a logical action. Its events come from rows of the trace.")
        }
        found => of_name(found, name),
    };
    Wrong {
        at: 3,
        name: "name",
        is_no: "is no physical action of the program",
        help,
    }
}

/// The first field of a row of a trace that stands where nothing may. It is asked of a row in which one does.
pub(crate) fn filled_of_trace(fields: &ByteRecord) -> Wrong
    ensures { IsFilled (fields_of fields.now) result }
{
    let has_none = !takes_name(field(fields, 0));
    if has_none && !field(fields, 5).is_empty() {
        return wrong_at(5, "name", "stands where nothing may", EMPTY);
    }
    if has_none && !field(fields, 6).is_empty() {
        return wrong_at(6, "value", "stands where nothing may", EMPTY);
    }
    // Some field is filled that may not be, and of the three this one is left.
    let help = "Only `schedule` has a delay.";
    wrong_at(7, "delay", "stands where nothing may", help)
}

const EMPTY: &str = "Only `read`, `write` and `schedule` have a name and a value.";

/// The first field of a stop that isn't empty. It is asked of a stop of which one isn't.
pub(crate) fn filled_of_externals(fields: &ByteRecord) -> Wrong
    ensures { IsFilledThere (fields_of fields.now) result }
{
    let help = "A stop has neither name nor value.";
    if field(fields, 3).is_empty() {
        wrong_at(4, "value", "stands where nothing may", help)
    } else {
        wrong_at(3, "name", "stands where nothing may", help)
    }
}

fn wrong_at(at: u8, name: &'static str, is_no: &'static str, help: &'static str) -> Wrong
    ensures { IsField result at name.now }
{
    Wrong {
        at,
        name,
        is_no,
        help: Some(help),
    }
}

/// Whether rows with this event have a name and a value.
fn takes_name(event: &[u8]) -> bool
    ensures { result ≡ takes_name event.now }
{
    event == b"read".as_slice() || event == b"write".as_slice() || event == b"schedule".as_slice()
}

/// What helps where a value is wanted and this is none.
fn of_value(found: &[u8]) -> &'static str {
    if found.contains(&b'.') {
        FLOATS
    } else {
        VALUES
    }
}

/// What helps where a reaction is wanted.
fn of_reaction(name: &[u8]) -> Option<&'static str> {
    if !name.starts_with(b"main") {
        return Some("Names begin with `main`, whatever the main reactor is called.");
    }
    if name.ends_with(b"#0") {
        return Some("Reactions of a reactor count from 1.");
    }
    if !name.contains(&b'#') {
        return Some("A reaction is named by its reactor and its number, as main.a#1.");
    }
    None
}

/// What helps where a port or an action is wanted, and this was found under the name.
fn of_name(found: Option<Found>, name: &[u8]) -> Option<&'static str> {
    match found {
        Some(Found::Timer(_)) => Some("That is a timer. Nothing is read of it, so it has no row."),
        Some(Found::Instance(_)) => Some(
            "That is a reactor: the name of its port or action is wanted.",
        ),
        Some(Found::Reaction(_)) => Some("That is a reaction."),
        Some(Found::Port(_)) => Some("That is a port. What it gets comes from rows of the trace."),
        Some(Found::Action(_)) => None,
        None => of_reaction_start(name),
    }
}

/// What helps where nothing has the name.
fn of_reaction_start(name: &[u8]) -> Option<&'static str> {
    if name.starts_with(b"main") {
        Some("`lftrace show PROGRAM` prints the names of ports and reactions.")
    } else {
        Some("Names begin with `main`, whatever the main reactor is called.")
    }
}
