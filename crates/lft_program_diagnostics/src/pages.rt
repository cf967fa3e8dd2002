//! The text of a program as it is told of: one that stands alone, or files one behind another.

ghost use Rattle.std.specs.Prelude.{◌≡◌, ◌↔◌, ◌≤◌, ◌++◌, ℕ, List, Contains, IfNone, IfOk, IfSome, IsTrue, OnOk, length, string_bytes};
ghost use Rattle.lft_program_diagnostics.specs.inner.Pages.{ArePages, HasBytes, MarksBytes, MarksSpot};
ghost use Rattle.lft_program_diagnostics.specs.Pages.{HasByte, HasNone, SaysByte, SaysSpot, page_words};

use crate::spans::Span;
use lft_ir::words::push_number;
use lft_tag::NoMemory;
use lft_text_diagnostics::{LineColumn, place_of, push_line, push_place};
use std::alloc::Global;

/// A file among several: its path, and which bytes of the text of all it has.
#[derive(Debug, Drop)]
pub struct Page {
    pub path: String,
    pub start: usize,
    pub end: usize,
}

impl Page {
    /// Whether the byte stands in the file, or at its end.
    fn has(&self, at: usize) -> bool
        ensures { IsTrue result ↔ HasByte at self.now }
    {
        self.start <= at && at <= self.end
    }

    /// Puts the path, the line and the column behind the text.
    fn push_place(&self, out: &mut String, place: LineColumn) -> Result<(), NoMemory>
        ensures { OnOk result (string_bytes out.new ≡ string_bytes out.old ++ page_words self.now place) }
    {
        out.push_str(self.path.as_str())?;
        out.push_str(":")?;
        push_number(out, place.line as u64)?;
        out.push_str(":")?;
        push_number(out, place.column as u64)?;
        out.push_str(": ")?;
        Ok(())
    }
}

/// The file that has the byte.
fn page_of(files: &[Page], at: usize) -> Option<&Page>
    ensures some { IfSome result (λ page. Contains files.now page.now × HasByte at page.now) }
    ensures none { IfNone result (HasNone files.now at) }
{
    for place in 0..files.len() {
        let page = &files[place];
        if page.has(at) {
            return Some(page);
        }
    }
    None
}

/// Puts behind the text where a byte stands: its file, line and column, or of a text without files line and column.
fn push_byte(out: &mut String, text: &[u8], files: &[Page], at: usize) -> Result<(), NoMemory>
    requires pages { ArePages text.now files.now }
    requires inside { at ≤ length text.now }
    ensures { OnOk result ((words : List ℕ) × SaysByte text.now files.now at words × (string_bytes out.new ≡ string_bytes out.old ++ words)) }
{
    match page_of(files, at) {
        Some(page) => page.push_place(out, place_of(&text[page.start..page.end], at - page.start)),
        None => push_place(out, place_of(text, at)),
    }
}

/// Where some bytes stand, in words: those of a program as a whole, where there are none.
pub(crate) fn place_words(
    alloc: Global,
    text: &[u8],
    files: &[Page],
    spot: Option<Span>,
) -> Result<String, NoMemory>
    requires { ArePages text.now files.now }
    ensures { IfOk result (λ words. SaysSpot text.now files.now spot (string_bytes words)) }
{
    let mut out = String::new(alloc);
    match spot {
        Some(spot) if spot.start <= text.len() => push_byte(&mut out, text, files, spot.start)?,
        _ => out.push_str("Program: ")?,
    }
    Ok(out)
}

/// Puts the line of some bytes behind the text, and below it a mark at them. They may reach past a file's end.
fn push_spot(
    alloc: Global,
    out: &mut String,
    text: &[u8],
    files: &[Page],
    spot: Span,
) -> Result<(), NoMemory>
    requires pages { ArePages text.now files.now }
    requires inside { HasBytes text.now spot }
    ensures { OnOk result ((words : List ℕ) × MarksBytes text.now files.now spot words × (string_bytes out.new ≡ string_bytes out.old ++ words)) }
{
    match page_of(files, spot.start) {
        Some(page) => {
            let part = &text[page.start..page.end];
            let start = spot.start - page.start;
            let end = spot.end.min(page.end) - page.start;
            push_line(alloc, out, part, place_of(part, start), start, end)
        }
        None => push_line(
            alloc,
            out,
            text,
            place_of(text, spot.start),
            spot.start,
            spot.end,
        ),
    }
}

/// Puts the line of some bytes behind the text, and below it a mark at them, where the text has them.
pub fn push_marked(
    alloc: Global,
    out: &mut String,
    text: &[u8],
    files: &[Page],
    spot: Option<Span>,
) -> Result<(), NoMemory>
    requires { ArePages text.now files.now }
    ensures { OnOk result ((words : List ℕ) × MarksSpot text.now files.now spot words × (string_bytes out.new ≡ string_bytes out.old ++ words)) }
{
    match spot {
        Some(spot) if spot.start <= spot.end && spot.end <= text.len() => {
            push_spot(alloc, out, text, files, spot)
        }
        _ => Ok(()),
    }
}
