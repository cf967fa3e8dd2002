//! The lines of the runs that are open at the end of a log.

ghost use Rattle.std.specs.Prelude.{◌≡◌, ◌++◌, IfOk, OnOk, string_bytes};
ghost use Rattle.lft_log.specs.Explain.Listed.{open_run_words, runs_words};

use lft_ir::Program;
use lft_ir::words::push_reaction;
use lft_lists::item_at;
use lft_load::push_field;
use lft_monitor::StillOpen;
use std::alloc::{AllocError, Global};

/// Puts the line of a run behind others.
fn push_run(text: &mut String, program: &Program, run: StillOpen) -> Result<(), AllocError>
    ensures { OnOk result (string_bytes text.new ≡ string_bytes text.old ++ open_run_words program.now run) }
{
    text.push_str("open at the end: ")?;
    push_reaction(text, program, run.reaction)?;
    push_field(text, ", worker ", u64::from(run.worker))?;
    push_field(text, ", since line ", run.line)?;
    text.push_str("\n")?;
    Ok(())
}

/// The lines of runs behind an empty one; nothing where there are none.
pub(crate) fn lines_of_runs(
    alloc: Global,
    program: &Program,
    runs: &[StillOpen],
) -> Result<Vec<u8>, AllocError>
    ensures { IfOk result (λ text. text.items ≡ runs_words program.now runs.now) }
{
    if runs.is_empty() {
        return Ok(Vec::new(alloc));
    }
    let mut text = String::from_str(alloc, "\n")?;
    for place in 0..runs.len() {
        push_run(&mut text, program, item_at(runs, place))?;
    }
    Vec::from_slice(alloc, text.as_bytes())
}
