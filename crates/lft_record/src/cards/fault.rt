//! Why bytes are no table of cards.

/// Why a text is no table of cards. A line is the number of a record, the header being line 1.
#[derive(Clone, Copy, PartialEq, Eq, Debug, Drop)]
pub enum CardFault {
    /// The first record isn't the header, or there is none.
    BadHeader,
    /// A record with another number of fields than the header.
    BadFieldCount(u32),
    /// A kind that isn't one of the table's.
    BadKind(u32),
    /// A delay or a number of bodies of another form, or past its limit.
    BadNumber(u32),
    /// A reaction, or a needed port or action, that the program doesn't have.
    UnknownName(u32),
    /// A field that must be empty and isn't.
    FieldInPlace(u32),
    /// A value that is neither an expression nor, where it may be, `bare`.
    BadValue(u32),
    /// A second number of bodies or a second state word for one reaction.
    GivenTwice(u32),
    /// More than 4,000,000 cards.
    TooManyRows,
    /// A fault of the reader of records that isn't of memory.
    NotCsv,
    /// A growth of memory was refused.
    NoMemory,
}
