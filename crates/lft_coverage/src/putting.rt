//! Text that a writer gets piece by piece. Each function is told whether the writer took all so far, and
//! answers whether it still did. Nothing is kept, and no memory is asked for.

ghost use Rattle.std.specs.Prelude.{◌≤◌, decimal, length, take, IsTrue};
ghost use Rattle.std.specs.Io.KnownBytes.{Appends, Keeps};
ghost use Rattle.lft_ir.specs.Words.Words.{reaction_words};
ghost use Rattle.lft_coverage.specs.inner.Taking.{TookMore};

use itoa::Buffer;
use lft_ir::Program;
use std::io::{ErrorKind, Write};

/// How many bytes of a text, from the first on, the writer takes: all, unless it fails or takes none.
// Not `write_all`, whose contract says nothing of what was taken when it fails.
fn bytes_taken<W: Write>(text: &[u8], out: &mut W) -> usize
    ensures within { result ≤ length text.now }
    ensures bytes { Appends (W.contents out.old) (W.contents out.new) (take result text.now) }
{
    let mut taken = 0;
    // Each turn takes a byte at least, or ends, or was interrupted; the bound is for the proof that
    // the loop ends, and no run comes near it.
    for _ in 0..u64::MAX {
        if taken >= text.len() {
            break;
        }
        match out.write(&text[taken..]) {
            Ok(0) => break,
            Ok(more) => taken += more,
            Err(e) => {
                if e.kind() != ErrorKind::Interrupted {
                    break;
                }
            }
        }
    }
    taken
}

/// Writes a piece.
pub(crate) fn put<W: Write>(out: &mut W, whole: bool, piece: &str) -> bool
    ensures { TookMore (W.contents out.old) whole (W.contents out.new) result piece.now }
{
    if whole {
        let text = piece.as_bytes();
        return bytes_taken(text, out) == text.len();
    }
    false
}

/// Writes a number.
pub(crate) fn put_number<W: Write>(out: &mut W, whole: bool, number: u64) -> bool
    ensures { TookMore (W.contents out.old) whole (W.contents out.new) result (decimal number) }
{
    let mut buffer = Buffer::new();
    put(out, whole, buffer.format(number))
}

/// Writes the name of a reaction.
pub(crate) fn put_reaction<W: Write>(
    out: &mut W,
    whole: bool,
    program: &Program,
    reaction: u32,
) -> bool
    ensures { TookMore (W.contents out.old) whole (W.contents out.new) result (reaction_words program.now reaction) }
{
    if (reaction as usize) < program.reactions() {
        return put(out, whole, program.name_of_reaction(reaction));
    }
    whole
}

/// Has the writer hand on what it may keep back, where it took all.
pub(crate) fn put_end<W: Write>(out: &mut W, whole: bool) -> bool
    ensures kept { Keeps (W.contents out.old) (W.contents out.new) }
    ensures whole { IsTrue result → IsTrue whole }
{
    whole && out.flush().is_ok()
}
