//! What gives bytes, and is known to have given them.

ghost use Rattle.std.specs.Prelude.{◌≡◌, ◌<◌, ◌≤◌, ◌++◌, ℕ, List, [], IfOk, OnOk, OnErr, take, length};
ghost use Rattle.std.specs.Io.{ReadsAtMost};

use std::io;

/// What gives bytes. A clause speaks of those that it gave: of a file nobody knows which it will give.
pub trait Source {
    /// The bytes that it gave since it began.
    ghost given: { Self → List ℕ };
    /// It gave none when it was asked last.
    ghost ended: { Self → Type 0 };

    /// Goes back to its first byte: what it gave before is forgotten.
    fn begin(&mut self) -> io::Result<()>
        ensures none { OnOk result (given self.new ≡ []) };

    /// Gives the next bytes.
    fn give(&mut self, buf: &mut [u8]) -> io::Result<usize>
        ensures bound { ReadsAtMost result buf.new }
        ensures given { IfOk result (λ n. given self.new ≡ given self.old ++ take n buf.new) }
        ensures kept { OnErr result (given self.new ≡ given self.old) }
        ensures end { IfOk result (λ n. n ≡ 0 → 0 < length buf.new → ended self.new) };
}
