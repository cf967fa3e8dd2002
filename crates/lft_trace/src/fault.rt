//! Why bytes are no table.

ghost use Rattle.std.specs.Prelude.{◌≡◌, true};
ghost use Rattle.lft_trace.specs.Faults.{is_told};

use lft_tables::Unread;

/// Why a text is no trace table or no table of external inputs. A line is the number of a record,
/// the header being line 1.
#[derive(Clone, Copy, PartialEq, Eq, Debug, Drop)]
pub enum TraceFault {
    /// The first record isn't the header, or there is none.
    BadHeader,
    /// A record with another number of fields than the header.
    BadFieldCount(u32),
    /// An event or kind that isn't one of the table's.
    BadEvent(u32),
    /// A number of another form, or past its limit.
    BadNumber(u32),
    /// A reaction, or a needed port or action, that the program doesn't have.
    UnknownName(u32),
    /// A field that must be empty and isn't.
    FieldInPlace(u32),
    /// A second external event of one action at one tag.
    DuplicateExternal(u32),
    /// External inputs without a stop.
    NoStop,
    /// A second stop.
    TwoStops(u32),
    /// More than 4,000,000 rows.
    TooManyRows,
    /// A fault of the reader of records that isn't of memory.
    NotCsv,
    /// A growth of memory was refused.
    NoMemory,
}

/// The fault of a table whose records stop. Only that of too many tells something of the text.
pub(crate) fn stopped(unread: Unread) -> TraceFault
    ensures { is_told result ≡ true → (unread ≡ Unread.TooMany) × (result ≡ TraceFault.TooManyRows) }
{
    match unread {
        Unread::TooMany => TraceFault::TooManyRows,
        Unread::NotCsv => TraceFault::NotCsv,
        Unread::NoMemory => TraceFault::NoMemory,
    }
}
