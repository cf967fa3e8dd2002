//! The text of which reaction precedes which.

ghost use Rattle.std.specs.Prelude.{◌≡◌, ◌++◌, OnOk, string_bytes};
ghost use Rattle.lft_report.specs.Orders.{origin_of, early_words, early_race_words, race_words, precedes_words, declared_words, feeds_words, passed_by_words};

use lft_ir::Program;
use lft_ir::words::{push_line, push_port, push_reaction, push_tag};
use lft_tag::Tag;
use std::alloc::AllocError;

/// The origin of the port; a number that is of no port is its own.
pub(crate) fn origin(program: &Program, port: u32) -> u32
    ensures { result ≡ origin_of program.now port }
{
    if (port as usize) < program.ports() {
        program.port(port).origin
    } else {
        port
    }
}

/// Puts that a reaction starts before another one has ended at the end of the text.
fn push_early(
    text: &mut String,
    program: &Program,
    tag: Tag,
    earlier: u32,
    later: u32,
    start: u32,
    end: u32,
) -> Result<(), AllocError>
    ensures { OnOk result (string_bytes text.new ≡ string_bytes text.old ++ early_words program.now tag earlier later start end) }
{
    push_reaction(text, program, later)?;
    text.push_str(" starts at ")?;
    push_tag(text, tag)?;
    text.push_str(" in ")?;
    push_line(text, start)?;
    text.push_str(", before ")?;
    push_reaction(text, program, earlier)?;
    text.push_str(" ends in ")?;
    push_line(text, end)?;
    text.push_str(".\n")?;
    Ok(())
}

/// Puts that a reaction starts before another one has ended, which is the race that is wrong, at the end of
/// the text.
pub(crate) fn push_early_race(
    text: &mut String,
    program: &Program,
    tag: Tag,
    earlier: u32,
    later: u32,
    start: u32,
    end: u32,
) -> Result<(), AllocError>
    ensures { OnOk result (string_bytes text.new ≡ string_bytes text.old ++ early_race_words program.now tag earlier later start end) }
{
    text.push_str("A race: ")?;
    push_early(text, program, tag, earlier, later, start, end)?;
    Ok(())
}

/// Puts that a reaction starts before another one has ended, which is a race, at the end of the text.
pub(crate) fn push_race(
    text: &mut String,
    program: &Program,
    tag: Tag,
    earlier: u32,
    later: u32,
    start: u32,
    end: u32,
) -> Result<(), AllocError>
    ensures { OnOk result (string_bytes text.new ≡ string_bytes text.old ++ race_words program.now tag earlier later start end) }
{
    text.push_str("  A race (rule 9): ")?;
    push_early(text, program, tag, earlier, later, start, end)?;
    Ok(())
}

/// Puts that a reaction precedes another one at the end of the text.
pub(crate) fn push_precedes(
    text: &mut String,
    program: &Program,
    earlier: u32,
    later: u32,
) -> Result<(), AllocError>
    ensures { OnOk result (string_bytes text.new ≡ string_bytes text.old ++ precedes_words program.now earlier later) }
{
    text.push_str("  ")?;
    push_reaction(text, program, earlier)?;
    text.push_str(" precedes ")?;
    push_reaction(text, program, later)?;
    text.push_str(":\n")?;
    Ok(())
}

/// Puts that a reaction is declared before another one at the end of the text.
pub(crate) fn push_declared(
    text: &mut String,
    program: &Program,
    first: u32,
    second: u32,
) -> Result<(), AllocError>
    ensures { OnOk result (string_bytes text.new ≡ string_bytes text.old ++ declared_words program.now first second) }
{
    text.push_str("    ")?;
    push_reaction(text, program, first)?;
    text.push_str(" before ")?;
    push_reaction(text, program, second)?;
    text.push_str(": declared first\n")?;
    Ok(())
}

/// Puts that a reaction may write what another one reads at the end of the text.
pub(crate) fn push_feeds(
    text: &mut String,
    program: &Program,
    writer: u32,
    reader: u32,
    port: u32,
) -> Result<(), AllocError>
    ensures { OnOk result (string_bytes text.new ≡ string_bytes text.old ++ feeds_words program.now writer reader port) }
{
    text.push_str("    ")?;
    push_reaction(text, program, writer)?;
    text.push_str(" before ")?;
    push_reaction(text, program, reader)?;
    text.push_str(": may write ")?;
    // What the one writes has another name than what the other reads, where connections lie between.
    push_port(text, program, origin(program, port))?;
    text.push_str(" --> ")?;
    push_port(text, program, port)?;
    text.push_str("\n")?;
    Ok(())
}

/// Puts that a reaction on the way has no run, and precedes the next one, at the end of the text.
pub(crate) fn push_passed_by(
    text: &mut String,
    program: &Program,
    tag: Tag,
    reaction: u32,
    next: u32,
) -> Result<(), AllocError>
    ensures { OnOk result (string_bytes text.new ≡ string_bytes text.old ++ passed_by_words program.now tag reaction next) }
{
    text.push_str("    ")?;
    push_reaction(text, program, reaction)?;
    text.push_str(" has no run at ")?;
    push_tag(text, tag)?;
    text.push_str(", and precedes ")?;
    push_reaction(text, program, next)?;
    text.push_str(" all the same\n")?;
    Ok(())
}
