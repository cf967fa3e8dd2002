//! Tables of external inputs that a reader gives, read by several workers.

ghost use Rattle.std.specs.Prelude.{◌≡◌, ◌++◌, List, IfOk, IfSome, Some};
ghost use Rattle.lft_ir.specs.Steps.{Fits.ExternalsFit, Inputs.{ExternalInputs, InOrder}};
ghost use Rattle.lft_trace.specs.{ExternalTables.{ExternalTable, IsEntry}, declared.external_table.Entry.Entry as TheEntry};
ghost use Rattle.lft_trace.specs.inner.ExternalLines.{AreKeptIn, AreReadOf};
ghost use Rattle.lft_tables.specs.{Records.records_of, inner.{Parts.HoldsItems, TableLines.text_left}};

use crate::event_map::EventMap;
use crate::external_table::{Entry, InputReader, finish, keep};
use lft_ir::Program;
use lft_ir::steps::Externals;
use lft_tables::{ReadFailed, TableLines, read_parts};
use lft_tag::{MAX_ROWS, Tag};
use std::alloc::Global;
use std::io::Read;
use std::thread::Threads;

/// The bytes of a batch for each worker: some milliseconds of reading, beside which a thread costs little.
const SHARE: usize = 1 << 20;

/// The stop and the events of the entries so far, and how many more entries a table may have.
#[derive(Drop)]
struct KeptEntries {
    stop: Option<Tag>,
    events: EventMap,
    left: usize,
}

/// Keeps entries behind those before them. None where they can't stand with these, or there are too many.
fn keep_part(alloc: Global, kept: KeptEntries, entries: &[Entry]) -> Option<KeptEntries>
    ensures { IfSome result (λ on. (before : List TheEntry) → AreKeptIn before kept → AreKeptIn (before ++ entries.now) on) }
{
    let KeptEntries {
        mut stop,
        mut events,
        left,
    } = kept;
    if left < entries.len() {
        return None;
    }
    for place in 0..entries.len() {
        // Of a fault no line is told.
        let Ok(now) = keep(alloc, entries[place], stop, &mut events, 0) else {
            return None;
        };
        stop = now;
    }
    Some(KeptEntries {
        stop,
        events,
        left: left - entries.len(),
    })
}

/// Keeps the entries of lines, which so many workers read in parts, behind those before them.
fn keep_lines<T: Threads + Sync>(
    rt: &T,
    alloc: Global,
    program: &Program,
    kept: KeptEntries,
    lines: &[u8],
    workers: u32,
) -> Option<KeptEntries>
    ensures { IfSome result (λ on. (entries : List TheEntry) × HoldsItems (IsEntry program.now) lines.now entries × ((before : List TheEntry) → AreKeptIn before kept → AreKeptIn (before ++ entries) on)) }
{
    let parts = read_parts(rt, alloc, &InputReader { program }, lines, workers)?;
    let mut kept = kept;
    for place in 0..parts.len() {
        let on = keep_part(alloc, kept, parts[place].as_slice())?;
        kept = on;
    }
    Some(kept)
}

/// The external inputs, once all entries are kept. None where there is no stop, or memory is refused.
fn finish_kept(alloc: Global, kept: KeptEntries) -> Option<Externals>
    ensures { IfSome result (λ inputs. (kept.stop ≡ Some inputs.stop) × (inputs.events ≡ kept.events) × InOrder inputs.events) }
{
    match finish(alloc, kept.stop, kept.events) {
        Ok(inputs) => Some(inputs),
        Err(_) => None,
    }
}

/// The external inputs of all lines that are left.
fn read_inputs<T: Threads + Sync, R: Read + Drop>(
    rt: &T,
    alloc: Global,
    program: &Program,
    text: &mut TableLines<R>,
    workers: u32,
) -> Result<Option<Externals>, ReadFailed>
    ensures { IfOk result (λ found. IfSome found (λ inputs. AreReadOf program.now (text_left R.remaining text.old) inputs)) }
{
    let mut kept = KeptEntries {
        stop: None,
        events: EventMap::new(alloc),
        left: MAX_ROWS,
    };
    // A table has no more batches than rows.
    for _batch in 0..MAX_ROWS {
        let Some(lines) = text.next(SHARE * workers as usize)? else {
            return Ok(None);
        };
        if lines.is_empty() {
            return Ok(finish_kept(alloc, kept));
        }
        let Some(on) = keep_lines(rt, alloc, program, kept, lines.as_slice(), workers) else {
            return Ok(None);
        };
        kept = on;
    }
    Ok(None)
}

/// What `read_externals_from` gives, by so many workers: each batch of lines is read in parts, whose entries are then
/// kept in order. Beside the events, the text and the entries of a batch are held, of 1 MiB of text a worker.
///
/// None where anything about the table is odd: a header in other bytes than its own and a line feed, a quotation
/// mark, a byte order mark, a record with a fault, entries that can't stand together, no stop, too many records,
/// want of memory. Which fault the table has is for `read_externals_from` to say.
pub fn read_externals_shared<T: Threads + Sync, R: Read + Drop>(
    rt: &T,
    alloc: Global,
    program: &Program,
    source: R,
    workers: u32,
) -> Result<Option<Externals>, ReadFailed>
    ensures table { IfOk result (λ found. IfSome found (λ inputs. IfSome (R.remaining source) (λ text. ExternalTable program.now (records_of text) inputs))) }
    ensures one { IfOk result (λ found. IfSome found (λ inputs. IfSome (R.remaining source) (λ text. (other : ExternalInputs) → ExternalTable program.now (records_of text) other → other ≡ inputs))) }
    ensures fits { IfOk result (λ found. IfSome found (λ inputs. ExternalsFit program.now inputs)) }
{
    // Asked for what every program keeps: no two of its things have one name.
    program.keeps();
    let Some(mut text) = TableLines::below::<InputReader>(alloc, source)? else {
        return Ok(None);
    };
    read_inputs(rt, alloc, program, &mut text, workers)
}
