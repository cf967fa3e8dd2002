//! The text of runs, of triggers and of what was read.

ghost use Rattle.std.specs.Prelude.{◌≡◌, ◌++◌, OnOk, string_bytes};
ghost use Rattle.lft_report.specs.Runs.{no_run_words, runs_at_words, trigger_of_words, count_words, absent_words};

use lft_ir::words::{
    push_line, push_name, push_number, push_reaction, push_tag, push_timer, push_trigger,
};
use lft_ir::{Program, Trigger};
use lft_tag::Tag;
use std::alloc::AllocError;

/// Puts that a reaction has no run at the end of the text.
pub(crate) fn push_no_run(
    text: &mut String,
    program: &Program,
    tag: Tag,
    reaction: u32,
) -> Result<(), AllocError>
    ensures { OnOk result (string_bytes text.new ≡ string_bytes text.old ++ no_run_words program.now tag reaction) }
{
    push_reaction(text, program, reaction)?;
    text.push_str(" is triggered at ")?;
    push_tag(text, tag)?;
    text.push_str(" and has no run there.\n")?;
    Ok(())
}

/// Puts that a reaction runs at the end of the text.
pub(crate) fn push_runs(
    text: &mut String,
    program: &Program,
    tag: Tag,
    reaction: u32,
    start: u32,
) -> Result<(), AllocError>
    ensures { OnOk result (string_bytes text.new ≡ string_bytes text.old ++ runs_at_words program.now tag reaction start) }
{
    push_reaction(text, program, reaction)?;
    text.push_str(" runs at ")?;
    push_tag(text, tag)?;
    text.push_str(", from ")?;
    push_line(text, start)?;
    text.push_str(" on.\n")?;
    Ok(())
}

/// Puts that a reaction has the trigger at the end of the text.
pub(crate) fn push_trigger_of(
    text: &mut String,
    program: &Program,
    reaction: u32,
    trigger: Trigger,
) -> Result<(), AllocError>
    ensures { OnOk result (string_bytes text.new ≡ string_bytes text.old ++ trigger_of_words program.now reaction trigger) }
{
    text.push_str("  ")?;
    push_trigger(text, program, trigger)?;
    text.push_str(" is a trigger of ")?;
    push_reaction(text, program, reaction)?;
    text.push_str(".\n")?;
    Ok(())
}

/// Puts how many triggers a reaction has at the end of the text.
pub(crate) fn push_count(
    text: &mut String,
    program: &Program,
    reaction: u32,
    count: usize,
) -> Result<(), AllocError>
    ensures { OnOk result (string_bytes text.new ≡ string_bytes text.old ++ count_words program.now reaction count) }
{
    text.push_str("  Triggers of ")?;
    push_reaction(text, program, reaction)?;
    text.push_str(": ")?;
    push_number(text, count as u64)?;
    text.push_str("\n")?;
    Ok(())
}

/// Puts that a trigger is absent at the end of the text.
pub(crate) fn push_absent(
    text: &mut String,
    program: &Program,
    tag: Tag,
    trigger: Trigger,
) -> Result<(), AllocError>
    ensures { OnOk result (string_bytes text.new ≡ string_bytes text.old ++ absent_words program.now tag trigger) }
{
    match trigger {
        Trigger::Startup => text.push_str("  startup is present at (0, 0) alone.\n")?,
        Trigger::Shutdown => text.push_str("  shutdown is present at the stop alone.\n")?,
        Trigger::Timer(number) => {
            text.push_str("  timer ")?;
            push_timer(text, program, number)?;
            text.push_str(" does not fire at ")?;
            push_tag(text, tag)?;
            text.push_str(".\n")?;
        }
        Trigger::On(name) => {
            text.push_str("  ")?;
            push_name(text, program, name)?;
            text.push_str(" has no event at ")?;
            push_tag(text, tag)?;
            text.push_str(".\n")?;
        }
    }
    Ok(())
}
