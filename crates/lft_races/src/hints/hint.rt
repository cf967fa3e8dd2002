//! Hints, and their words.

ghost use Rattle.std.specs.Prelude.{◌≡◌, IfOk, string_bytes};
ghost use Rattle.lft_races.specs.{Hints.Words.hint_words, declared.hints.hint.Hint.TheVariants.WholeDelay};

use itoa::Buffer;
use std::alloc::{AllocError, Global};

/// A condition under which a breach has a usual cause. Rows are named by their places, counted from 0.
#[derive(Clone, Copy, PartialEq, Eq, Debug)]
pub enum Hint {
    /// Before the breach of rule 1 or 3 a run starts too early for rule 9. The row of rule 1 starts no run, and
    /// its run wasn't open when the first row at a later tag came.
    Scheduler,
    /// The row of rule 1 starts no run, and its run was open when the first row at a later tag came.
    NextTag,
    /// The row of rule 1 starts a run, or neither of the two holds; it is the first row of its worker.
    FirstOfWorker,
    /// The same, and it is another row.
    LateRow,
    /// No run starts too early before the breach of rule 3, and it is at the first row of all.
    FirstRow,
    /// No run starts so, and the row of rule 3 starts a run a second time.
    StartedTwice,
    /// No run starts so, and it is another row.
    OneNumber,
    /// All rows are before the tag of a breach of rule 7, and the stop is that of the external inputs.
    TraceEnds,
    /// The reaction of a breach of rule 8 is triggered at a thousand times the time of its run.
    Thousandfold,
    /// A row schedules for the tag of a breach of rule 8, if its delay is taken for the whole one.
    WholeDelay { row: u32 },
    /// The reaction of a breach of rule 8 has `shutdown` among its triggers.
    RunsAtStop,
    /// No row writes, and the reaction of a breach of rule 8 has a port among its triggers.
    NoWrites,
    /// No row reads, and the breach is of rule 10.
    NoReads,
    /// There is no row, and the breach is of rule 7.
    NoRows,
    /// No row ends a run, and the breach is of rule 5.
    NoEnds,
    /// A row ends a run, the breach is of rule 5, and a row is at a later tag.
    LateEnd,
    /// The tag of a breach of rule 2 is over a hundred times as late as the stop of the external inputs.
    SmallStop,
}

/// What to look at where a row schedules with the whole delay.
fn tell_whole_delay(alloc: Global, row: u32) -> Result<String, AllocError>
    ensures { IfOk result (λ text. string_bytes text ≡ hint_words (WholeDelay row)) }
{
    let mut text = String::from_str(alloc, "\n  A guess: line ")?;
    let mut buffer = Buffer::new();
    text.push_str(buffer.format(u64::from(row) + 2))?;
    text.push_str(
        " gives the whole delay. The field delay is what comes on top of the least delay of the action.\n",
    )?;
    Ok(text)
}

/// The line of a hint, with its line feed: what holds, and what to look at.
pub fn tell_hint(alloc: Global, hint: Hint) -> Result<String, AllocError>
    ensures { IfOk result (λ text. string_bytes text ≡ hint_words hint) }
{
    let words = match hint {
        Hint::Scheduler => {
            "\n  A guess: look at the scheduler first. By the rows it starts a run before all that precede it have ended.\n"
        }
        Hint::NextTag => {
            "\n  A guess: the next tag began before all runs had ended, which is a race, or this row is written late.\n"
        }
        Hint::FirstOfWorker => {
            "\n  A guess: that is the first row of its worker. Were the rows of workers put one after another? They stand in the order in which they happened.\n"
        }
        Hint::LateRow => {
            "\n  A guess: look at the recorder first. Is a row written later than it happens, or were the rows sorted?\n"
        }
        Hint::FirstRow => {
            "\n  A guess: that is the first row. Were the rows sorted? They stand in the order in which they happened.\n"
        }
        Hint::StartedTwice => {
            "\n  A guess: look at the scheduler first. Was it taken twice, or triggered again by a value that came late?\n"
        }
        Hint::OneNumber => {
            "\n  A guess: look at the recorder first. Have two threads one worker number, or were the rows sorted?\n"
        }
        Hint::TraceEnds => {
            "\n  A guess: no row is so late. If the execution ended before, the stop of the external inputs is too late.\n"
        }
        Hint::Thousandfold => {
            "\n  A guess: at a thousand times that time it is triggered. Are the times in microseconds? They are wanted in nanoseconds.\n"
        }
        Hint::WholeDelay { row } => return tell_whole_delay(alloc, row),
        Hint::RunsAtStop => {
            "\n  A guess: it is triggered by shutdown. Is the stop of the external inputs the tag at which the execution ended?\n"
        }
        Hint::NoWrites => "\n  A guess: no row of the trace writes. Are writes recorded?\n",
        Hint::NoReads => "\n  A guess: no row of the trace reads. Are reads recorded?\n",
        Hint::NoRows => "\n  A guess: the trace has no row. Is the recorder on?\n",
        Hint::NoEnds => "\n  A guess: no row of the trace ends a run. Are ends recorded?\n",
        Hint::LateEnd => {
            "\n  A guess: the next tag began before all runs had ended, which is a race, or the end row is written late or not at all.\n"
        }
        Hint::SmallStop => {
            "\n  A guess: that is over a hundred times as late as the stop. Is the stop in milliseconds or microseconds? It is wanted in nanoseconds.\n"
        }
    };
    String::from_str(alloc, words)
}
