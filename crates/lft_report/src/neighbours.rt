//! The text of runs beside a missing one, and of where the trace ends.

ghost use Rattle.std.specs.Prelude.{◌≡◌, ◌++◌, OnOk, string_bytes};
ghost use Rattle.lft_report.specs.Neighbours.{never_words, run_before_words, run_after_words, last_row_words};

use lft_ir::Program;
use lft_ir::words::{push_line, push_reaction, push_tag};
use lft_tag::Tag;
use std::alloc::AllocError;

/// Puts that a reaction has no run at all at the end of the text.
pub(crate) fn push_never(
    text: &mut String,
    program: &Program,
    reaction: u32,
) -> Result<(), AllocError>
    ensures { OnOk result (string_bytes text.new ≡ string_bytes text.old ++ never_words program.now reaction) }
{
    text.push_str("  ")?;
    push_reaction(text, program, reaction)?;
    text.push_str(" has no run in the trace.\n")?;
    Ok(())
}

/// Puts which run is just before at the end of the text.
pub(crate) fn push_run_before(text: &mut String, tag: Tag, start: u32) -> Result<(), AllocError>
    ensures { OnOk result (string_bytes text.new ≡ string_bytes text.old ++ run_before_words tag start) }
{
    text.push_str("  Its run just before is at ")?;
    push_tag(text, tag)?;
    text.push_str(", from ")?;
    push_line(text, start)?;
    text.push_str(" on.\n")?;
    Ok(())
}

/// Puts which run is just after at the end of the text.
pub(crate) fn push_run_after(text: &mut String, tag: Tag, start: u32) -> Result<(), AllocError>
    ensures { OnOk result (string_bytes text.new ≡ string_bytes text.old ++ run_after_words tag start) }
{
    text.push_str("  Its run just after is at ")?;
    push_tag(text, tag)?;
    text.push_str(", from ")?;
    push_line(text, start)?;
    text.push_str(" on.\n")?;
    Ok(())
}

/// Puts which row is the last of all, and the stop, at the end of the text.
pub(crate) fn push_last_row(
    text: &mut String,
    row: u32,
    tag: Tag,
    stop: Tag,
) -> Result<(), AllocError>
    ensures { OnOk result (string_bytes text.new ≡ string_bytes text.old ++ last_row_words row tag stop) }
{
    text.push_str("  The last row of the trace is ")?;
    push_line(text, row)?;
    text.push_str(", at ")?;
    push_tag(text, tag)?;
    text.push_str("; the stop is ")?;
    push_tag(text, stop)?;
    text.push_str(".\n")?;
    Ok(())
}
