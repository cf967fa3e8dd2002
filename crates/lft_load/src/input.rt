//! Reading a file or standard input.

ghost use Rattle.std.specs.Prelude.{◌≡◌, ◌≤◌, ◌<◌, ◌^◌, ◌+◌, ◌⊎◌, ◌↔◌, IsTrue, IfOk, IfErr, OnOk, IfSome, length};
ghost use Rattle.std.specs.Io.{ReadsAtMost, KnownBytes.{IsAtEnd, ReadConsumes}};
ghost use Rattle.lft_load.specs.Faults.{IsFaultOfPath};
ghost use Rattle.lft_load.specs.declared.fault.Part.TheVariants as part;

use crate::fault::{Fault, Part};
use std::alloc::Global;
use std::io;
use std::io::{ErrorKind, Read};

/// The most bytes of a file.
const MOST_BYTES: usize = 1 << 30;
/// The bytes that are asked for in one call. They stand on the stack.
const PIECE: usize = 1 << 12;
/// The most calls of `read` that a file may take.
// Enough for 2^30 bytes in pieces of 64. A reader that is interrupted
// each time would else be asked for ever.
const MOST_READS: u32 = 1 << 24;

/// All bytes of a reader up to its end. `read` 1 `Failed` comes only where the reader failed, and
/// `read` 2 `TooLarge` past 2^30 bytes or 2^24 calls, and `memory` 1 where the bytes or the path can't
/// be kept; the path is for the fault alone.
pub fn read_input<R: Read>(alloc: Global, path: &str, reader: &mut R) -> Result<Vec<u8>, Fault>
    ensures bytes { IfOk result (λ v. IfSome (R.remaining reader.old) (λ xs. v.items ≡ xs)) }
    ensures limit { IfOk result (λ v. length v.items ≤ 2 ^ 30) }
    ensures end { OnOk result (IsAtEnd (R.remaining reader.new)) }
    ensures refused { IfErr result (λ f. IsFaultOfPath f part.Read 1 path.now ⊎ IsFaultOfPath f part.Read 2 path.now) }
{
    let mut bytes = Vec::new(alloc);
    let mut chunk = [0u8; PIECE];
    for _ in 0..MOST_READS {
        match reader.read(&mut chunk) {
            Ok(0) => return Ok(bytes),
            Ok(n) => {
                if n > MOST_BYTES - bytes.len() {
                    return Err(Fault::of_path(alloc, Part::Read, 2, "TooLarge", path));
                }
                if bytes.extend_from_slice(&chunk[..n]).is_err() {
                    return Err(Fault::no_memory());
                }
            }
            Err(e) => {
                if e.kind() != ErrorKind::Interrupted {
                    return Err(Fault::of_path(alloc, Part::Read, 1, "Failed", path));
                }
            }
        }
    }
    Err(Fault::of_path(alloc, Part::Read, 2, "TooLarge", path))
}

/// A reader of an ordinary file, whose size was asked for. It gives as many bytes in as many calls as `read_input`
/// takes, and tries again what is interrupted. It fails where the file ends before its size.
#[derive(Drop)]
pub struct SizedReader<R: Read + Drop> {
    reader: R,
    size: usize,
    /// So many bytes it gave.
    given: usize,
    /// So many calls it made.
    calls: u32,
}

impl<R: Read + Drop> SizedReader<R> {
    /// Before the first byte.
    pub fn new(reader: R, size: usize) -> SizedReader<R>
        ensures reader { result.reader ≡ reader }
        ensures size { result.size ≡ size }
        ensures given { result.given ≡ 0 }
    {
        SizedReader {
            reader,
            size,
            given: 0,
            calls: 0,
        }
    }

    /// Whether it gives nothing more, since it gave more bytes, or made as many calls, as `read_input` takes.
    pub fn is_too_large(&self) -> bool
        ensures { IsTrue result ↔ (2 ^ 30 < self.now.given) ⊎ (2 ^ 24 ≤ self.now.calls) }
    {
        self.given > MOST_BYTES || self.calls >= MOST_READS
    }
}

impl<R: Read + Drop> Read for SizedReader<R> {
    ghost remaining = { λ s. R.remaining s.reader };

    fn read(&mut self, buf: &mut [u8]) -> io::Result<usize>
        ensures bound { ReadsAtMost result buf.new }
        ensures bytes { ReadConsumes (R.remaining self.old.reader) (R.remaining self.new.reader) result buf.new }
        ensures size { self.new.size ≡ self.old.size }
        ensures counted { IfOk result (λ n. self.new.given ≡ self.old.given + n) }
        ensures limit { OnOk result (self.old.given ≤ 2 ^ 30) }
        ensures end { IfOk result (λ n. n ≡ 0 → 0 < length buf.new → self.new.size ≤ self.new.given) }
    {
        while !self.is_too_large() {
            self.calls += 1;
            match self.reader.read(buf) {
                Ok(0) if self.given < self.size && !buf.is_empty() => {
                    return Err(io::Error::from(ErrorKind::UnexpectedEof));
                }
                Ok(n) => {
                    self.given += n;
                    return Ok(n);
                }
                Err(e) => {
                    if e.kind() != ErrorKind::Interrupted {
                        return Err(e);
                    }
                }
            }
        }
        Err(io::Error::from(ErrorKind::FileTooLarge))
    }
}
