//! A law of logs. It does no work.

ghost use Rattle.lft_log.specs.inner.Logs.{LogLaw};

use lft_ir::Program;

/// Without the records of external inputs the whole lines of a log are the trace table of the rows that
/// are followed.
pub fn law_log(program: &Program)
    ensures { LogLaw program.now }
{
    // Asked for what every program keeps.
    program.keeps();
}
