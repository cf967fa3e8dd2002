//! The text of the table that a reader gives, some whole lines at a time.

ghost use Rattle.std.specs.Prelude.{◌≡◌, IfOk, IfSome, false};
ghost use Rattle.std.specs.Io.KnownBytes.{IsAtEnd, Keeps};
ghost use Rattle.lft_tables.specs.inner.TableLines.{AreNextLines, AreLinesBelow, text_left};

use crate::lines::first_lines;
use crate::table::TableReader;
use std::alloc::Global;
use std::io::Read;
use std::mem;

/// So many bytes are read at a time. No line of a table is as long.
const CHUNK: usize = 1 << 14;

/// A reader failed. What it would have given isn't known.
#[derive(Clone, Copy, PartialEq, Eq, Debug, Drop)]
pub struct ReadFailed;

/// The text that a reader gives, and what was read of it and isn't given yet.
#[derive(Drop)]
pub struct TableLines<R: Read + Drop> {
    reader: R,
    read: Vec<u8>,
}

impl<R: Read + Drop> TableLines<R> {
    /// The text below the header of the table that a reader gives. None where its first line is no such header, or
    /// memory is refused.
    pub fn below<K: TableReader>(
        alloc: Global,
        reader: R,
    ) -> Result<Option<TableLines<R>>, ReadFailed>
        ensures { IfOk result (λ found. IfSome found (λ lines. IfSome (R.remaining reader) (AreLinesBelow R.remaining K.header lines))) }
    {
        let mut lines = TableLines {
            reader,
            read: Vec::new(alloc),
        };
        let Some(first) = lines.next(0)? else {
            return Ok(None);
        };
        if !K::is_header_line(first.as_slice()) {
            return Ok(None);
        }
        Ok(Some(lines))
    }

    /// Reads until so many bytes are at hand, and tells whether the reader may give more. None where memory is
    /// refused.
    fn fill(&mut self, bytes: usize) -> Result<Option<bool>, ReadFailed>
        ensures kept { IfOk result (λ found. IfSome found (λ more. Keeps (text_left R.remaining self.old) (text_left R.remaining self.new))) }
        ensures end { IfOk result (λ found. IfSome found (λ more. more ≡ false → IsAtEnd (R.remaining self.new.reader))) }
    {
        let mut chunk = [0u8; CHUNK];
        while self.read.len() < bytes {
            match self.reader.read(&mut chunk) {
                Ok(0) => return Ok(Some(false)),
                Ok(count) => {
                    if self.read.extend_from_slice(&chunk[..count]).is_err() {
                        return Ok(None);
                    }
                }
                Err(_) => return Err(ReadFailed),
            }
        }
        Ok(Some(true))
    }

    /// The next lines, of so many bytes or a few more, or all that are left. None where a line is longer than
    /// one of a table, or memory is refused.
    pub fn next(&mut self, bytes: usize) -> Result<Option<Vec<u8>>, ReadFailed>
        ensures { IfOk result (λ found. IfSome found (λ lines. IfSome (text_left R.remaining self.old) (AreNextLines R.remaining self.new lines.items))) }
    {
        let Some(more) = self.fill(bytes.saturating_add(CHUNK))? else {
            return Ok(None);
        };
        let (lines, behind) = first_lines(self.read.as_slice(), bytes);
        if more && behind.is_empty() {
            return Ok(None);
        }
        let count = lines.len();
        let Ok(rest) = self.read.split_off(count) else {
            return Ok(None);
        };
        Ok(Some(mem::replace(&mut self.read, rest)))
    }
}
