//! The fields of records by their names.

ghost use Rattle.std.specs.Prelude.{◌≡◌, ◌≢◌, ◌↔◌, IfSome, IfNone, IsTrue, length, ◌<◌};
ghost use Rattle.csv.specs.Records.{fields_of};
ghost use Rattle.lft_trace.specs.Traces.{header, in_order, is_filled};
ghost use Rattle.lft_trace.specs.ExternalTables.{header as external_header, in_order as externals_in_order, is_filled as is_filled_external};
ghost use Rattle.lft_trace.specs.inner.{Seen.trace_fields, SeenExternals.external_fields};

use crate::kind::{EntryKind, RowKind};
use csv::ByteRecord;
use lft_tables::field;

/// The fields of a record of a trace table.
#[derive(Clone, Copy)]
pub(crate) struct TraceFields<'a> {
    pub(crate) event: &'a [u8],
    pub(crate) worker: &'a [u8],
    pub(crate) time: &'a [u8],
    pub(crate) microstep: &'a [u8],
    pub(crate) reaction: &'a [u8],
    pub(crate) name: &'a [u8],
    pub(crate) value: &'a [u8],
    pub(crate) delay: &'a [u8],
}

impl<'a> TraceFields<'a> {
    /// The fields of a record, if there are eight.
    #[inline(always)]
    pub(crate) fn of(fields: &'a ByteRecord) -> Option<TraceFields<'a>>
        ensures some { IfSome result (λ c. fields_of fields.now ≡ in_order (trace_fields c)) }
        ensures none { IfNone result (length (fields_of fields.now) ≢ 8) }
    {
        if fields.len() != 8 {
            return None;
        }
        Some(TraceFields {
            event: field(fields, 0),
            worker: field(fields, 1),
            time: field(fields, 2),
            microstep: field(fields, 3),
            reaction: field(fields, 4),
            name: field(fields, 5),
            value: field(fields, 6),
            delay: field(fields, 7),
        })
    }

    /// Whether the record is the header.
    pub(crate) fn is_header(&self) -> bool
        ensures { IsTrue result ↔ (in_order (trace_fields self.now) ≡ header) }
    {
        self.event == b"event".as_slice()
            && self.worker == b"worker".as_slice()
            && self.time == b"time".as_slice()
            && self.microstep == b"microstep".as_slice()
            && self.reaction == b"reaction".as_slice()
            && self.name == b"name".as_slice()
            && self.value == b"value".as_slice()
            && self.delay == b"delay".as_slice()
    }

    /// Whether a field that must be empty isn't.
    #[inline(always)]
    pub(crate) fn is_filled(&self, kind: RowKind) -> bool
        ensures { result ≡ is_filled kind (trace_fields self.now) }
    {
        (!kind.has_name() && (!self.name.is_empty() || !self.value.is_empty()))
            || (!kind.has_delay() && !self.delay.is_empty())
    }
}

/// The fields of a record of a table of external inputs.
#[derive(Clone, Copy)]
pub(crate) struct ExternalFields<'a> {
    pub(crate) kind: &'a [u8],
    pub(crate) time: &'a [u8],
    pub(crate) microstep: &'a [u8],
    pub(crate) name: &'a [u8],
    pub(crate) value: &'a [u8],
}

impl<'a> ExternalFields<'a> {
    /// The fields of a record, if there are five.
    pub(crate) fn of(fields: &'a ByteRecord) -> Option<ExternalFields<'a>>
        ensures some { IfSome result (λ c. fields_of fields.now ≡ externals_in_order (external_fields c)) }
        ensures none { IfNone result (length (fields_of fields.now) ≢ 5) }
    {
        if fields.len() != 5 {
            return None;
        }
        Some(ExternalFields {
            kind: field(fields, 0),
            time: field(fields, 1),
            microstep: field(fields, 2),
            name: field(fields, 3),
            value: field(fields, 4),
        })
    }

    /// Whether the record is the header.
    pub(crate) fn is_header(&self) -> bool
        ensures { IsTrue result ↔ (externals_in_order (external_fields self.now) ≡ external_header) }
    {
        self.kind == b"kind".as_slice()
            && self.time == b"time".as_slice()
            && self.microstep == b"microstep".as_slice()
            && self.name == b"name".as_slice()
            && self.value == b"value".as_slice()
    }

    /// Whether a field that must be empty isn't.
    pub(crate) fn is_filled(&self, kind: EntryKind) -> bool
        ensures { result ≡ is_filled_external kind (external_fields self.now) }
    {
        kind == EntryKind::Stop && (!self.name.is_empty() || !self.value.is_empty())
    }
}
