//! When a timer fires.

ghost use Rattle.std.specs.Prelude.{IsTrue, ◌↔◌};
ghost use Rattle.lft_model.specs.Presence.{Fires};

use lft_ir::Timer;
use lft_tag::Tag;

/// Whether the timer fires at the tag.
pub fn fires(timer: &Timer, tag: Tag) -> bool
    ensures { IsTrue result ↔ Fires timer.now tag }
{
    if tag.micro != 0 {
        return false;
    }
    if tag.time < timer.offset {
        return false;
    }
    if timer.period == 0 {
        tag.time == timer.offset
    } else {
        (tag.time - timer.offset) % timer.period == 0
    }
}
