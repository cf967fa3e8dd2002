//! The kinds of cards.

ghost use Rattle.std.specs.Prelude.{◌≡◌, ◌≢◌, IfSome, IfNone};
ghost use Rattle.lft_record.specs.CardTables.{kind_has_delay, kind_has_name, has_value, word};

/// The kind of a record of a table of cards.
#[derive(Clone, Copy, PartialEq, Eq, Drop)]
pub(crate) enum CardKind {
    Bodies,
    Write,
    Schedule,
    Stop,
    State,
}

/// The kind that a field names.
pub(crate) fn read_card_kind(field: &[u8]) -> Option<CardKind>
    ensures some { IfSome result (λ kind. field.now ≡ word kind) }
    ensures none { IfNone result ((kind : CardKind) → field.now ≢ word kind) }
{
    if field == b"bodies".as_slice() {
        Some(CardKind::Bodies)
    } else if field == b"write".as_slice() {
        Some(CardKind::Write)
    } else if field == b"schedule".as_slice() {
        Some(CardKind::Schedule)
    } else if field == b"stop".as_slice() {
        Some(CardKind::Stop)
    } else if field == b"state".as_slice() {
        Some(CardKind::State)
    } else {
        None
    }
}

impl CardKind {
    /// Whether its records name a port or an action.
    pub(crate) fn has_name(self) -> bool
        ensures { result ≡ kind_has_name self }
    {
        matches!(self, CardKind::Write | CardKind::Schedule)
    }

    /// Whether its records have a delay.
    pub(crate) fn has_delay(self) -> bool
        ensures { result ≡ kind_has_delay self }
    {
        self == CardKind::Schedule
    }

    /// Whether its records have a value.
    pub(crate) fn has_value(self) -> bool
        ensures { result ≡ has_value self }
    {
        self != CardKind::Stop
    }
}
