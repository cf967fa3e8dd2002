//! Why a table that comes in pieces can't be followed.

use lft_trace::TraceFault;

/// A line is the number of a record, the header being line 1. The lines of external inputs and all
/// others are counted apart, as if each kind stood in a table of its own.
#[derive(Clone, Copy, PartialEq, Eq, Debug, Drop)]
pub enum LogFault {
    /// The first line isn't the header, or there is none.
    NoHeader,
    /// The line is no row. The line of the fault itself is that in a table of the header and this line.
    NoRow(TraceFault, u64),
    /// The line has a quotation mark, or a carriage return that doesn't end it.
    NotPlain(u64),
    /// The header's words stand in the line, as where a second log begins.
    SecondHeader(u64),
    /// The line has more bytes than 1,048,576.
    LongLine(u64),
    /// A row stands behind 4,000,000 at one tag, or more came than are counted.
    TooManyRows,
    /// The line begins as one of an external input and is none. The line of the fault itself is that in
    /// a table of external inputs of the header and this line.
    NoInput(TraceFault, u64),
    /// The line of an external input has a quotation mark, or a carriage return that doesn't end it.
    NotPlainInput(u64),
    /// A row at a later tag stands before the line of an external input.
    LateInput(u64),
    /// An event of the line's action at the line's tag is there already.
    InputAgain(u64),
    /// The line is that of an event before which more than 65,536 others would have to be moved, which are
    /// at later tags.
    ManyLater(u64),
    /// There are 4,000,000 external events, or more lines of external inputs came than are counted. The
    /// events are kept for ever, in 32 bytes each.
    TooManyInputs,
    /// A growth of memory was refused.
    NoMemory,
}
