//! Trace tables, read by several workers.

ghost use Rattle.std.specs.Prelude.{◌≡◌, List, IfSome, IfOk, IfErr, true};
ghost use Rattle.lft_trace.specs.{Faults.is_told, Traces.{Table, TraceFails}};
ghost use Rattle.lft_tables.specs.Records.{records_of};
ghost use Rattle.lft_ir.specs.Steps.Fits.{RowsFit};

use crate::fault::TraceFault;
use crate::reaction_names::ReactionNames;
use crate::reading::batches::read_batches;
use crate::reading::headers::below_header;
use crate::trace_table::read_trace;
use lft_ir::Program;
use lft_ir::steps::{Row, Rows};
use lft_tables::is_one_part;
use std::alloc::Global;
use std::thread::Threads;

/// The rows of a trace table, read by so many workers at a time: what `read_trace` gives.
///
/// It is read in one part, by `read_trace`, with one worker or none, where the text has under
/// 1 MiB, and where anything about it is odd: a header in other bytes than its own and a line feed,
/// a quotation mark, a part that may begin with a byte order mark, a record that is no row, too many
/// rows, want of memory. So the faults are those of
/// `read_trace`, and a table with a fault is read twice. Beside the rows so far, those of two
/// batches are held, of 4 MiB of text a worker each. Where no thread can be started, the parts are
/// read one after another.
pub fn read_trace_shared<R: Threads + Sync>(
    rt: &R,
    alloc: Global,
    program: &Program,
    text: &[u8],
    workers: u32,
) -> Result<Rows, TraceFault>
    ensures table { IfOk result (λ rows. Table program.now (records_of text.now) rows) }
    ensures one { IfOk result (λ rows. (other : List Row) → Table program.now (records_of text.now) other → other ≡ rows) }
    ensures fits { IfOk result (λ rows. RowsFit program.now rows) }
    ensures fault { IfErr result (λ e. is_told e ≡ true → TraceFails program.now (records_of text.now) e × ((rows : List Row) → Table program.now (records_of text.now) rows → ⊥)) }
{
    // Asked for what every program keeps: no two of its things have one name.
    program.keeps();
    match read_in_parts(rt, alloc, program, text, workers) {
        Some(rows) => Ok(Rows::from_vec(rows)),
        None => read_trace(alloc, program, text),
    }
}

// The rows of a trace table, where it is long and nothing about it is odd.
fn read_in_parts<R: Threads + Sync>(
    rt: &R,
    alloc: Global,
    program: &Program,
    text: &[u8],
    workers: u32,
) -> Option<Vec<Row>>
    ensures { IfSome result (λ rows. Table program.now (records_of text.now) rows.items) }
{
    if is_one_part(text, workers) {
        return None;
    }
    let rest = below_header(text)?;
    let names = ReactionNames::new(alloc, program).ok()?;
    read_batches(rt, alloc, &names, rest, workers)
}
