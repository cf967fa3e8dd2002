//! Ports that are reached without a delay.

ghost use Rattle.std.specs.Prelude.{◌≡◌, ◌<◌, length};
ghost use Rattle.lft_queue.specs.inner.Coming.AtOnce.{is_undelayed as is_reached};

use lft_ir::Program;

/// Whether the port lies behind no delay.
pub fn is_undelayed(program: &Program, number: u32) -> bool
    requires { number < length program.now.ports }
    ensures { result ≡ is_reached program.now number }
{
    let shift = program.port(number).shift;
    // `after 0` is a delay too, of one microstep.
    shift.time == 0 && shift.steps == 0
}
