//! A log that is judged while it is written.

ghost use Rattle.std.specs.Prelude.{◌≡◌, ◌≢◌, ◌⊎◌, ◌<◌, ◌++◌, ℕ, List, Option, length, IfOk, IfErr, IfNone, IfSome, IsTrue, OnOk, MatchOption};
ghost use Rattle.std.specs.Io.KnownBytes.{Appends, IsAtEnd, Keeps};
ghost use Rattle.lft_tag.specs.{declared.Tag.Tag as TheTag, Tags.IsRecorded};
ghost use Rattle.lft_model.specs.Plans.{PlanParts};
ghost use Rattle.lft_driver.specs.inner.Explained.{WriteRefusal};
ghost use Rattle.lft_log.specs.{inner.Told.IsLog, Told.IsSoon};
ghost use Rattle.lft_log.specs.Follow.{Lines.{line_of_log, log_status, unbroken_words}, Followed.{IsFollowedUnder, IsReadKept, until_words}};
ghost use Rattle.lft_log.specs.Follow.Reaches.{OfReaches, OfReadReaches, WritesOrFails};
ghost use Rattle.lft_log.specs.Follow.Refusals.{FollowRefusalUnder, IsFaultOfLog, IsFaultNamed, IsOutside, IsToldAs, ReadRefusal, TellsLine};
ghost use Rattle.lft_load.specs.declared.fault.Part.TheVariants as part;

use crate::follow::kept::{Kept, keep};
use crate::follow::line::{line_of_final, unbroken_line};
use crate::{Ended, Final, Log, LogFault, Told};
use lft_ir::Program;
use lft_load::{Detail, Fault, Part, push_field, write_text};
use lft_model::Plan;
use lft_monitor::{Ending, Reach};
use lft_tag::{MAX_MICRO, MAX_TIME, Tag};
use lft_trace::number::read_number;
use memchr::memchr;
use std::alloc::{AllocError, Global};
use std::io::{ErrorKind, Read, Write};

/// So many bytes are read at once at most.
// At most as many as a line may have. So only the first line of a piece can be too long.
const CHUNK: usize = 1 << 18;

/// How a table is followed.
#[derive(Clone, Copy)]
pub struct Following {
    /// No row is judged behind the first tag with rows at or past this one.
    pub until: Option<Tag>,
    /// At its end no row is missing.
    pub whole: bool,
    /// After so many rows how far they are judged is told; never where this is 0.
    pub every: u64,
}

/// The tag of the words `TIME,MICROSTEP`.
pub fn read_until(words: &[u8]) -> Option<Tag>
    ensures tag { IfSome result (λ g. IsRecorded g × until_words words.now g) }
    ensures none { IfNone result ((g : TheTag) → until_words words.now g → ⊥) }
{
    let comma = memchr(b',', words)?;
    let time = read_number(&words[0..comma], MAX_TIME)?;
    let micro = read_number(&words[comma + 1..words.len()], u64::from(MAX_MICRO))?;
    Some(Tag {
        time,
        micro: micro as u32,
    })
}

/// The status of what is told: 0 where the rows are accepted, or unbroken as far as they were asked for;
/// 1 broken; 3 unbroken at the end; 4 odd.
pub fn status_of_log(told: Final) -> u8
    ensures { result ≡ log_status told }
{
    match told {
        Final::AtEnd(Ending::Accepted(_)) => 0,
        Final::Soon(Told::Reached(_)) => 0,
        Final::Soon(Told::Broken(_)) => 1,
        Final::AtEnd(Ending::Broken(_)) => 1,
        Final::AtEnd(Ending::Unbroken(_)) => 3,
        Final::Soon(Told::Odd(_, _)) => 4,
    }
}

/// What a fault tells of its line, whose number may have 64 bits.
fn detail_of(alloc: Global, line: u64) -> Result<Detail, AllocError>
    ensures { IfOk result (TellsLine (Some line)) }
{
    if line <= u64::from(u32::MAX) {
        return Ok(Detail::Line(line as u32));
    }
    let mut words = String::new(alloc);
    push_field(&mut words, "line=", line)?;
    Ok(Detail::Words(words))
}

/// A fault of a line of a table.
fn fault_at(alloc: Global, table: Part, number: u32, name: &'static str, line: u64) -> Fault
    ensures { IsFaultNamed table number name.now (Some line) result }
{
    match detail_of(alloc, line) {
        Ok(detail) => Fault {
            part: table,
            number,
            name,
            detail,
        },
        Err(_) => Fault::no_memory(),
    }
}

/// A fault of a table, and of no line of it.
fn fault_of_all(table: Part, number: u32, name: &'static str) -> Fault
    ensures { IsFaultNamed table number name.now None result }
{
    Fault {
        part: table,
        number,
        name,
        detail: Detail::Nothing,
    }
}

/// The fault of a line that is no row.
fn fault_of_row(alloc: Global, number: u32, name: &'static str, line: u64) -> Fault
    ensures { IsFaultNamed part.Trace number name.now (Some line) result }
{
    fault_at(alloc, Part::Trace, number, name, line)
}

/// The fault of a line of an external input.
fn fault_of_input(alloc: Global, number: u32, name: &'static str, line: u64) -> Fault
    ensures { IsFaultNamed part.Externals number name.now (Some line) result }
{
    fault_at(alloc, Part::Externals, number, name, line)
}

/// The fault of a log that can't be followed.
fn fault_of(alloc: Global, fault: LogFault) -> Fault
    ensures { IsToldAs fault result }
{
    match fault {
        LogFault::NoHeader => fault_of_all(Part::Trace, 1, "BadHeader"),
        LogFault::NoRow(fault, line) => {
            let plain = Fault::trace(fault);
            fault_of_row(alloc, plain.number, plain.name, line)
        }
        LogFault::LongLine(line) => fault_of_row(alloc, 13, "LongLine", line),
        LogFault::NotPlain(line) => fault_of_row(alloc, 14, "NotPlain", line),
        LogFault::SecondHeader(line) => fault_of_row(alloc, 15, "SecondHeader", line),
        LogFault::TooManyRows => fault_of_all(Part::Trace, 10, "TooManyRows"),
        LogFault::NoInput(fault, line) => {
            let plain = Fault::externals(fault);
            fault_of_input(alloc, plain.number, plain.name, line)
        }
        LogFault::LateInput(line) => fault_of_input(alloc, 13, "LateExternal", line),
        LogFault::InputAgain(line) => fault_of_input(alloc, 7, "DuplicateExternal", line),
        LogFault::ManyLater(line) => fault_of_input(alloc, 15, "ManyLater", line),
        LogFault::NotPlainInput(line) => fault_of_input(alloc, 14, "NotPlain", line),
        LogFault::TooManyInputs => fault_of_all(Part::Externals, 10, "TooManyRows"),
        LogFault::NoMemory => Fault::no_memory(),
    }
}

/// Tells how far rows are judged.
fn tell_reach<E: Write>(alloc: Global, reach: Reach, errors: &mut E) -> Result<(), Fault>
    ensures written { OnOk result (Appends (E.contents errors.old) (E.contents errors.new) (unbroken_words reach)) }
    ensures refused { IfErr result (WriteRefusal (λ text. text ≡ unbroken_words reach) (E.contents errors.old) (E.contents errors.new)) }
{
    match unbroken_line(alloc, reach) {
        Ok(line) => write_text(line.as_bytes(), errors),
        Err(_) => Err(Fault::no_memory()),
    }
}

/// Goes on past a piece of the table.
fn add<E: Write>(
    log: &mut Log,
    alloc: Global,
    plan: &mut Plan,
    piece: &[u8],
    every: u64,
    errors: &mut E,
) -> Result<Option<Told>, Fault>
    requires { (base : PlanParts) × (until : Option TheTag) × (bytes : List ℕ) × IsLog base plan.old until bytes log.old }
    ensures program { plan.new.program ≡ plan.old.program }
    ensures told { IfOk result (λ o. (base : PlanParts) (until : Option TheTag) (bytes : List ℕ) → IsLog base plan.old until bytes log.old → MatchOption o (IsLog base plan.new until (bytes ++ piece.now) log.new) (IsSoon base until (bytes ++ piece.now))) }
    ensures fault { IfErr result (λ f. (base : PlanParts) (until : Option TheTag) (bytes : List ℕ) → IsLog base plan.old until bytes log.old → IsFaultOfLog base (bytes ++ piece.now) f ⊎ IsOutside f) }
    ensures every { (base : PlanParts) (until : Option TheTag) (bytes : List ℕ) → IsLog base plan.old until bytes log.old → OfReaches base (bytes ++ piece.now) every (WritesOrFails result (E.contents errors.old) (E.contents errors.new)) }
{
    let before = log.rows();
    match log.add(alloc, plan, piece) {
        Ok(None) => {
            if every > 0 && log.rows() / every > before / every {
                return match tell_reach(alloc, log.reach(plan), errors) {
                    Ok(()) => Ok(None),
                    Err(fault) => Err(fault),
                };
            }
            Ok(None)
        }
        Ok(Some(told)) => Ok(Some(told)),
        Err(fault) => Err(fault_of(alloc, fault)),
    }
}

/// What the log of a reader shows, up to its end or to what is told before. At most a chunk is read at once.
fn read_log<R: Read, E: Write>(
    alloc: Global,
    plan: &mut Plan,
    path: &str,
    reader: &mut R,
    chunk: &mut [u8],
    following: Following,
    kept: &mut Kept,
    errors: &mut E,
) -> Result<Ended, Fault>
    requires { 0 < length chunk.old }
    ensures program { plan.new.program ≡ plan.old.program }
    ensures read { IfOk result (IsReadKept plan.old following.until following.whole kept.old kept.new (R.remaining reader.old) (R.remaining reader.new)) }
    ensures refused { IfErr result (ReadRefusal plan.old path.now (R.remaining reader.old) (R.remaining reader.new)) }
    ensures every { OfReadReaches plan.old following.every (R.remaining reader.old) (R.remaining reader.new) (WritesOrFails result (E.contents errors.old) (E.contents errors.new)) }
{
    let Ok(mut log) = Log::new(alloc, plan, following.until) else {
        return Err(Fault::no_memory());
    };
    // The bound is for the proof that the loop ends, and no run comes near it.
    for _ in 0..u64::MAX {
        match reader.read(chunk) {
            Ok(0) => {
                return match log.finish(alloc, plan, following.whole) {
                    Ok(ended) => Ok(ended),
                    Err(fault) => Err(fault_of(alloc, fault)),
                };
            }
            Ok(count) => {
                let piece = &chunk[..count];
                keep(kept, log.rows(), piece);
                match add(&mut log, alloc, plan, piece, following.every, errors) {
                    Ok(None) => {}
                    Ok(Some(told)) => return Ok(Ended::soon(alloc, told)),
                    Err(fault) => return Err(fault),
                }
            }
            Err(error) => {
                if error.kind() != ErrorKind::Interrupted {
                    return Err(Fault::of_path(alloc, Part::Read, 1, "Failed", path));
                }
            }
        }
    }
    Err(Fault::of_path(alloc, Part::Read, 2, "TooLarge", path))
}

/// Writes the line of what is told.
fn report<W: Write>(alloc: Global, program: &Program, told: Final, out: &mut W) -> Result<(), Fault>
    ensures written { OnOk result (Appends (W.contents out.old) (W.contents out.new) (line_of_log program.now told)) }
    ensures refused { IfErr result (WriteRefusal (λ text. text ≡ line_of_log program.now told) (W.contents out.old) (W.contents out.new)) }
{
    match line_of_final(alloc, program, told) {
        Ok(line) => write_text(line.as_bytes(), out),
        Err(_) => Err(Fault::no_memory()),
    }
}

/// Follows the log of a reader under a plan, and writes the line of what is told of it. At the end it gives the
/// runs too that have no end, which it doesn't write. Each `every` rows it writes how far they are judged to
/// `errors`. What is read is put behind what is kept, up to 2^30 bytes and 4,000,000 rows. The fault is that of a
/// line of the log, once the rows before it are judged: part `trace`, or `externals` of an event or a stop;
/// `read` 1 `Failed` where the reader fails; `write` 1 `Failed` where a writer fails; `memory` 1. The path is for
/// a fault alone.
pub fn follow_plan<R: Read, W: Write, E: Write>(
    alloc: Global,
    plan: Plan,
    path: &str,
    reader: &mut R,
    following: Following,
    kept: &mut Kept,
    out: &mut W,
    errors: &mut E,
) -> Result<Ended, Fault>
    ensures followed { IfOk result (IsFollowedUnder plan following.until following.whole kept.old kept.new (R.remaining reader.old) (R.remaining reader.new) (W.contents out.old) (W.contents out.new)) }
    ensures refused { IfErr result (FollowRefusalUnder plan path.now following.until following.whole (R.remaining reader.old) (R.remaining reader.new) (W.contents out.old) (W.contents out.new)) }
    ensures kept { IfErr result (λ f. f.part ≢ part.Write → Keeps (W.contents out.old) (W.contents out.new)) }
    ensures every { OfReadReaches plan following.every (R.remaining reader.old) (R.remaining reader.new) (WritesOrFails result (E.contents errors.old) (E.contents errors.new)) }
{
    let mut plan = plan;
    let Ok(mut chunk) = vec![in alloc; 0u8; CHUNK] else {
        return Err(Fault::no_memory());
    };
    let chunk = chunk.as_mut_slice();
    let ended = match read_log(
        alloc, &mut plan, path, reader, chunk, following, kept, errors,
    ) {
        Ok(ended) => ended,
        Err(fault) => return Err(fault),
    };
    match report(alloc, plan.program(), ended.told, out) {
        Ok(()) => Ok(ended),
        Err(fault) => Err(fault),
    }
}

/// Reads what is left of a reader, and drops it. It is false where the reader fails, or memory is refused.
pub fn drain<R: Read>(alloc: Global, reader: &mut R) -> bool
    ensures { IsTrue result → IsAtEnd (R.remaining reader.new) }
{
    let Ok(mut chunk) = vec![in alloc; 0u8; CHUNK] else {
        return false;
    };
    for _ in 0..u64::MAX {
        match reader.read(chunk.as_mut_slice()) {
            Ok(0) => return true,
            Ok(_) => {}
            Err(error) => {
                if error.kind() != ErrorKind::Interrupted {
                    return false;
                }
            }
        }
    }
    false
}
