//! What whole lines tell, up to one that tells nothing.

ghost use Rattle.std.specs.Prelude.{◌≡◌, ◌≤◌, ◌++◌, ◌^◌, ℕ, List, length, false, None, IfOk, IfSome};
ghost use Rattle.lft_ir.specs.{Parts.Parts, declared.steps.row.Row.Row as TheRow, Steps.Fits.RowsFit};
ghost use Rattle.lft_trace.specs.inner.LogTables.{InputsFit, ReadsLines, StopsAt};
ghost use Rattle.lft_tables.specs.{inner.Parts.BeginsPlain, Parts.EndsLine};
ghost use Rattle.lft_log.specs.{Logs.{AreLines, BeginsWithLine, IsOddLine, records_below}, inner.Logs.{BeginsOdd, IsFaultBehind, IsFront}};

use crate::fault::LogFault;
use crate::lines::{first_line, has_words, is_input, plain_lines};
use lft_ir::Program;
use lft_ir::steps::Row;
use lft_tables::Unread;
use lft_tag::NoMemory;
use lft_trace::{Among, LineFault, LogLines, ReactionNumbers, read_log};
use std::alloc::Global;

/// A reader of tables takes a byte order mark off where a text begins.
const MARK: u8 = 239;

/// The external inputs among the rows of lines, and the fault of the line behind them, if it has one.
#[derive(Drop)]
pub(crate) struct LinesRead {
    pub inputs: Vec<Among>,
    pub fault: Option<LogFault>,
}

/// Whether a byte order mark may stand before the first line.
fn may_begin_with_mark(lines: &[u8]) -> bool
    ensures { result ≡ false → BeginsPlain lines.now }
{
    !lines.is_empty() && lines[0] == MARK
}

/// What lines tell that stand below others. Their rows are put behind others. A reader takes a byte order
/// mark off where a text begins, so an empty line is put before lines that may begin with one. An empty line
/// is no record.
fn read_below(
    alloc: Global,
    program: &Program,
    numbers: &mut ReactionNumbers,
    lines: &[u8],
    rows: &mut Vec<Row>,
) -> Result<LogLines, Unread>
    ensures read { IfOk result (λ read. (t : List TheRow) × (rows.new.items ≡ rows.old.items ++ t) × RowsFit program.now t × ReadsLines program.now (records_below lines.now) t read) }
    ensures inputs { IfOk result (λ read. InputsFit program.now read.inputs.items) }
{
    if !may_begin_with_mark(lines) {
        return read_log(alloc, program, numbers, lines, rows);
    }
    let Ok(mut text) = Vec::from_slice(alloc, b"\n") else {
        return Err(Unread::NoMemory);
    };
    let Ok(()) = text.extend_from_slice(lines) else {
        return Err(Unread::NoMemory);
    };
    read_log(alloc, program, numbers, text.as_slice(), rows)
}

/// The fault of the first line, which isn't plain. It has one of these numbers.
fn fault_of_odd(lines: &[u8], row: u64, input: u64) -> LogFault
    requires { EndsLine lines.now }
    ensures { BeginsOdd lines.now → BeginsWithLine (IsOddLine row input result) lines.now }
{
    let line = &lines[0..first_line(lines)];
    if has_words(line) {
        LogFault::SecondHeader(row)
    } else if is_input(line) {
        LogFault::NotPlainInput(input)
    } else {
        LogFault::NotPlain(row)
    }
}

/// The fault of the record behind those that are read, or else of the first line that isn't plain. It has
/// one of these numbers.
fn fault_behind(fault: Option<LineFault>, behind: &[u8], row: u64, input: u64) -> Option<LogFault>
    requires { AreLines behind.now }
    ensures all { result ≡ None → (fault ≡ None) × (length behind.now ≡ 0) }
    ensures none { IfSome result (λ f. (program : Parts) (records : List (List (List ℕ))) → StopsAt program records fault → BeginsOdd behind.now → IsFaultBehind program records behind.now row input f) }
{
    match fault {
        Some(LineFault::NoRow(fault)) => Some(LogFault::NoRow(fault, row)),
        Some(LineFault::NoInput(fault)) => Some(LogFault::NoInput(fault, input)),
        None => {
            if behind.is_empty() {
                None
            } else {
                Some(fault_of_odd(behind, row, input))
            }
        }
    }
}

/// What whole lines tell up to one that isn't plain or tells nothing, where so many rows and so many
/// external inputs stand before them. The rows are put behind others.
pub(crate) fn read_front(
    alloc: Global,
    program: &Program,
    numbers: &mut ReactionNumbers,
    lines: &[u8],
    rows_before: u64,
    inputs_before: u64,
    rows: &mut Vec<Row>,
) -> Result<LinesRead, NoMemory>
    requires few { (rows_before ≤ 2 ^ 62) × (inputs_before ≤ 2 ^ 62) }
    requires lines { AreLines lines.now }
    ensures { IfOk result (λ front. (t : List TheRow) × (rows.new.items ≡ rows.old.items ++ t) × IsFront program.now lines.now rows_before inputs_before t front) }
{
    // Within quotation marks a record could go on in a line that hasn't come.
    let plain = plain_lines(lines);
    let others = rows.len();
    let Ok(read) = read_below(alloc, program, numbers, &lines[0..plain], rows) else {
        return Err(NoMemory);
    };
    let row = rows_before + (rows.len() - others) as u64 + 2;
    let input = inputs_before + read.inputs.len() as u64 + 2;
    let fault = fault_behind(read.fault, &lines[plain..lines.len()], row, input);
    Ok(LinesRead {
        inputs: read.inputs,
        fault,
    })
}
