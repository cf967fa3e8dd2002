//! The lines of headers.

ghost use Rattle.std.specs.Prelude.{◌≡◌, ◌∷◌, [], IfSome, IsTrue};
ghost use Rattle.lft_trace.specs.{ExternalTables.header as inputs_header, Traces.header};
ghost use Rattle.lft_tables.specs.{Records.records_of, inner.Parts.BeginsPlain, Parts.HasNoQuote};

use lft_tables::may_begin_with_mark;

/// The header as it is mostly written.
const HEADER: &[u8] = b"event,worker,time,microstep,reaction,name,value,delay\n";

/// The same header as writers of tables in CSV mostly end their lines.
const HEADER_OF_CSV: &[u8] = b"event,worker,time,microstep,reaction,name,value,delay\r\n";

/// The header of external inputs as it is mostly written, and as writers of CSV mostly end it.
const INPUTS: &[u8] = b"kind,time,microstep,name,value\n";

const INPUTS_OF_CSV: &[u8] = b"kind,time,microstep,name,value\r\n";

/// Whether a line is the header's of a trace table, with just its bytes.
pub(crate) fn is_header_line(line: &[u8]) -> bool
    ensures one { IsTrue result → records_of line.now ≡ header ∷ [] }
    ensures quiet { IsTrue result → HasNoQuote line.now }
{
    line == HEADER || line == HEADER_OF_CSV
}

/// Whether a line is the header's of a table of external inputs, with just its bytes.
pub(crate) fn is_inputs_line(line: &[u8]) -> bool
    ensures one { IsTrue result → records_of line.now ≡ inputs_header ∷ [] }
    ensures quiet { IsTrue result → HasNoQuote line.now }
{
    line == INPUTS || line == INPUTS_OF_CSV
}

/// What stands behind the header, where the text begins with just its bytes.
fn strip_header(text: &[u8]) -> Option<&[u8]>
    ensures { IfSome result (λ rest. BeginsPlain rest.now → records_of text.now ≡ header ∷ records_of rest.now) }
{
    if let Some(rest) = text.strip_prefix(HEADER) {
        return Some(rest);
    }
    text.strip_prefix(HEADER_OF_CSV)
}

/// What comes below the header, where the text begins with just its bytes and no byte order mark may
/// stand below them.
pub fn below_header(text: &[u8]) -> Option<&[u8]>
    ensures { IfSome result (λ rest. records_of text.now ≡ header ∷ records_of rest.now) }
{
    let rest = strip_header(text)?;
    if may_begin_with_mark(rest) {
        return None;
    }
    Some(rest)
}
