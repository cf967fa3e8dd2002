//! The fields of a card by their names.

ghost use Rattle.std.specs.Prelude.{◌≡◌, ◌≢◌, ◌↔◌, IfSome, IfNone, IsTrue, length};
ghost use Rattle.csv.specs.Records.{fields_of};
ghost use Rattle.lft_record.specs.{CardTables.{cards_header, card_columns, is_wrongly_filled}, inner.Seen.card_fields};

use crate::cards::kind::CardKind;
use csv::ByteRecord;
use lft_tables::field;

/// The fields of a record of a table of cards.
#[derive(Clone, Copy)]
pub(crate) struct CardFields<'a> {
    pub(crate) kind: &'a [u8],
    pub(crate) reaction: &'a [u8],
    pub(crate) name: &'a [u8],
    pub(crate) delay: &'a [u8],
    pub(crate) value: &'a [u8],
}

impl<'a> CardFields<'a> {
    /// The fields of a record, if there are five.
    pub(crate) fn of(fields: &'a ByteRecord) -> Option<CardFields<'a>>
        ensures some { IfSome result (λ c. fields_of fields.now ≡ card_columns (card_fields c)) }
        ensures none { IfNone result (length (fields_of fields.now) ≢ 5) }
    {
        if fields.len() != 5 {
            return None;
        }
        Some(CardFields {
            kind: field(fields, 0),
            reaction: field(fields, 1),
            name: field(fields, 2),
            delay: field(fields, 3),
            value: field(fields, 4),
        })
    }

    /// Whether the record is the header.
    pub(crate) fn is_header(&self) -> bool
        ensures { IsTrue result ↔ (card_columns (card_fields self.now) ≡ cards_header) }
    {
        self.kind == b"kind".as_slice()
            && self.reaction == b"reaction".as_slice()
            && self.name == b"name".as_slice()
            && self.delay == b"delay".as_slice()
            && self.value == b"value".as_slice()
    }

    /// Whether a field that must be empty isn't.
    pub(crate) fn is_filled(&self, kind: CardKind) -> bool
        ensures { result ≡ is_wrongly_filled kind (card_fields self.now) }
    {
        (!kind.has_name() && !self.name.is_empty())
            || (!kind.has_delay() && !self.delay.is_empty())
            || (!kind.has_value() && !self.value.is_empty())
    }
}
