//! The events of a trace table, and the kinds of external inputs.

ghost use Rattle.std.specs.Prelude.{◌≡◌, ◌≢◌, IfSome, IfNone};
ghost use Rattle.lft_trace.specs.{ExternalTables.word as entry_word, Traces.{word, has_name, has_delay}};

/// The event of a record.
#[derive(Clone, Copy, PartialEq, Eq, Drop)]
pub(crate) enum RowKind {
    Start,
    Read,
    Write,
    Schedule,
    Stop,
    End,
}

/// The event that a field names.
#[inline(always)]
pub(crate) fn read_kind(field: &[u8]) -> Option<RowKind>
    ensures some { IfSome result (λ kind. field.now ≡ word kind) }
    ensures none { IfNone result ((kind : RowKind) → field.now ≢ word kind) }
{
    if field == b"start".as_slice() {
        Some(RowKind::Start)
    } else if field == b"read".as_slice() {
        Some(RowKind::Read)
    } else if field == b"write".as_slice() {
        Some(RowKind::Write)
    } else if field == b"schedule".as_slice() {
        Some(RowKind::Schedule)
    } else if field == b"stop".as_slice() {
        Some(RowKind::Stop)
    } else if field == b"end".as_slice() {
        Some(RowKind::End)
    } else {
        None
    }
}

impl RowKind {
    /// Whether its records have a name and a value.
    pub(crate) fn has_name(self) -> bool
        ensures { result ≡ has_name self }
    {
        matches!(self, RowKind::Read | RowKind::Write | RowKind::Schedule)
    }

    /// Whether its records have a delay.
    pub(crate) fn has_delay(self) -> bool
        ensures { result ≡ has_delay self }
    {
        self == RowKind::Schedule
    }
}

/// The kind of a record of external inputs.
#[derive(Clone, Copy, PartialEq, Eq, Drop)]
pub(crate) enum EntryKind {
    Event,
    Stop,
}

/// The kind that a field names.
pub(crate) fn read_entry_kind(field: &[u8]) -> Option<EntryKind>
    ensures some { IfSome result (λ kind. field.now ≡ entry_word kind) }
    ensures none { IfNone result ((kind : EntryKind) → field.now ≢ entry_word kind) }
{
    if field == b"event".as_slice() {
        Some(EntryKind::Event)
    } else if field == b"stop".as_slice() {
        Some(EntryKind::Stop)
    } else {
        None
    }
}
