//! The status at the end.

ghost use Rattle.std.specs.Prelude.{◌≡◌};
ghost use Rattle.lft_load.specs.Status.{status_of};

use crate::fault::Fault;
use std::io::Write;

/// The status of an answer: 0 for true, 1 for false, and 2 for a fault, whose line is written,
/// whatever becomes of that writing. It takes no memory.
pub fn finish<E: Write>(answer: Result<bool, Fault>, errors: &mut E) -> u8
    ensures { result ≡ status_of answer }
{
    match answer {
        Ok(true) => 0,
        Ok(false) => 1,
        Err(fault) => {
            // A failure here has nowhere to be told; the status tells the fault all the same.
            let _ = writeln!(errors, "{fault}");
            2
        }
    }
}
