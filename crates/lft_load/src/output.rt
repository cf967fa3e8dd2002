//! Writing results.

ghost use Rattle.std.specs.Prelude.{◌≡◌, OnOk, OnErr, IfErr};
ghost use Rattle.std.specs.Io.KnownBytes.{Appends};
ghost use Rattle.lft_load.specs.{Written.AppendsFront, declared.fault.Part.TheVariants.Write as WritePart};

use crate::fault::{Fault, Part};
use std::io::{ErrorKind, Write};

/// Writes the whole text. `write` 1 `Failed` comes only where the writer failed, also by taking no
/// byte; what it took is then a front of the text.
// Not `write_all`, whose contract says nothing of what was taken when it fails.
pub fn write_text<W: Write>(text: &[u8], out: &mut W) -> Result<(), Fault>
    ensures whole { OnOk result (Appends (W.contents out.old) (W.contents out.new) text.now) }
    ensures front { OnErr result (AppendsFront (W.contents out.old) (W.contents out.new) text.now) }
    ensures part { IfErr result (λ f. f.part ≡ WritePart) }
    ensures number { IfErr result (λ f. f.number ≡ 1) }
{
    let mut written = 0;
    // Each turn takes a byte at least, or ends, or was interrupted; the bound is for the proof that
    // the loop ends, and no run comes near it.
    for _ in 0..u64::MAX {
        if written >= text.len() {
            break;
        }
        match out.write(&text[written..]) {
            Ok(0) => break,
            Ok(taken) => written += taken,
            Err(e) => {
                if e.kind() != ErrorKind::Interrupted {
                    break;
                }
            }
        }
    }
    if written >= text.len() && out.flush().is_ok() {
        Ok(())
    } else {
        Err(Fault::plain(Part::Write, 1, "Failed"))
    }
}
