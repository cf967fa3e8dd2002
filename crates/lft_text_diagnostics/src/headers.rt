//! The headers of tables. A program's text that begins with one is exchanged with a table.

ghost use Rattle.std.specs.Prelude.{IfSome, IsTrue};
ghost use Rattle.lft_text_diagnostics.specs.{inner.Refusals.BeginsTable, Tables.Tables.ContinuesFrom};

/// The header of a trace.
pub const TRACE: &str = "event,worker,time,microstep,reaction,name,value,delay";

/// The header of a table of external inputs.
pub const EXTERNALS: &str = "kind,time,microstep,name,value";

/// The header of a table of cards.
pub const CARDS: &str = "kind,reaction,name,delay,value";

/// Whether a text begins with a header.
fn begins_with(text: &[u8], header: &str) -> bool
    ensures { IsTrue result → ContinuesFrom header.now text.now }
{
    text.starts_with(header.as_bytes())
}

/// Whether a text begins with the header of a table.
fn begins_table(text: &[u8]) -> bool
    ensures { IsTrue result → BeginsTable text.now }
{
    begins_with(text, TRACE) || begins_with(text, EXTERNALS) || begins_with(text, CARDS)
}

/// What helps where a program's text begins with the header of a table.
pub(crate) fn of_program(text: &[u8]) -> Option<&'static str>
    ensures { IfSome result (λ _. BeginsTable text.now) }
{
    if begins_table(text) {
        Some("That is the header of a table: are two files exchanged?")
    } else {
        None
    }
}
