//! Whether two lists of external inputs are the same.

ghost use Rattle.std.specs.Prelude.{◌≡◌};
ghost use Rattle.std.specs.Bool.{Decides};

use crate::steps::externals::Event;

pub fn same_events(a: &[Event], b: &[Event]) -> bool
    ensures { Decides result (a.now ≡ b.now) }
{
    a == b
}
