//! What a text is that isn't the table that is wanted, by its first bytes alone.

use crate::headers::{CARDS, EXTERNALS, TRACE};

/// What helps where a table begins with another record than its header.
pub(crate) fn of_text(text: &[u8], first: &str) -> Option<&'static str> {
    if text.is_empty() {
        return Some("The table is empty. A table begins with its header.");
    }
    if text.starts_with(b"\x1f\x8b") {
        return Some("That is compressed by gzip: give <(gzip -dc FILE) in place of FILE.");
    }
    // Asked before the zeros: in UTF-16 each letter of ASCII has one.
    if text.starts_with(b"\xff\xfe") || text.starts_with(b"\xfe\xff") {
        return Some("That is UTF-16: save the table as UTF-8.");
    }
    if text.contains(&0) {
        return Some("That is no text. A table is text, a record a line.");
    }
    of_header(first)
}

/// What helps where the first record is this.
fn of_header(first: &str) -> Option<&'static str> {
    if first.starts_with("Event,") || first.starts_with("Event, Reactor") {
        return Some("That is a table of trace_to_csv. It has no values, so it can't be judged.");
    }
    if first == TRACE || first == EXTERNALS || first == CARDS {
        return Some("That is the header of another table: are two files exchanged?");
    }
    if first.starts_with("target") || first.starts_with("reactor") || first.starts_with("main") {
        return Some("That is a program: are two files exchanged?");
    }
    if first.starts_with("{") || first.starts_with("[") {
        return Some("That is JSON. A table has a record a line, its fields joined by commas.");
    }
    if first.starts_with("start,") || first.starts_with("event,0") || first.starts_with("stop,") {
        return Some("The table has no header. Its first line is the header.");
    }
    if first.starts_with("EVENT") || first.starts_with("KIND") || first.starts_with("Kind") {
        return Some("The header is written in small letters.");
    }
    if first.contains(';') || first.contains('\t') || first.contains(", ") {
        return Some("Fields are joined by commas, without blanks.");
    }
    None
}
