//! The lines of a trace table that is followed.

ghost use Rattle.std.specs.Prelude.{◌≡◌, ◌++◌, IfOk, OnOk, string_bytes};
ghost use Rattle.lft_monitor.specs.Follows.{breach_of};
ghost use Rattle.lft_driver.specs.Lines.{breach_words};
ghost use Rattle.lft_log.specs.Follow.Lines.{last_words, line_of_log, odd_words, reach_words, tag_fields, unbroken_words};

use crate::{Final, Told};
use lft_driver::{accepted_line, broken_line};
use lft_ir::Program;
use lft_load::push_field;
use lft_monitor::{BrokenRule, Ending, Reach};
use lft_tag::Tag;
use std::alloc::{AllocError, Global};

/// Puts a tag at the end of a line.
fn push_tag(line: &mut String, tag: Tag) -> Result<(), AllocError>
    ensures { OnOk result (string_bytes line.new ≡ string_bytes line.old ++ tag_fields tag) }
{
    push_field(line, " time=", tag.time)?;
    push_field(line, " microstep=", u64::from(tag.micro))?;
    Ok(())
}

/// Puts the last tag at the end of a line, if there is one.
fn push_last(line: &mut String, tag: Option<Tag>) -> Result<(), AllocError>
    ensures { OnOk result (string_bytes line.new ≡ string_bytes line.old ++ last_words tag) }
{
    if let Some(tag) = tag {
        push_tag(line, tag)?;
    }
    Ok(())
}

/// Puts at the end of a line how far rows reach.
fn push_reach(line: &mut String, reach: Reach) -> Result<(), AllocError>
    ensures { OnOk result (string_bytes line.new ≡ string_bytes line.old ++ reach_words reach) }
{
    push_field(line, " runs=", reach.runs)?;
    push_field(line, " tags=", reach.tags)?;
    push_last(line, reach.tag)?;
    Ok(())
}

/// The line of rows that break no rule so far, with its line feed.
pub(crate) fn unbroken_line(alloc: Global, reach: Reach) -> Result<String, AllocError>
    ensures { IfOk result (λ line. string_bytes line ≡ unbroken_words reach) }
{
    let mut line = String::from_str(alloc, "unbroken")?;
    push_reach(&mut line, reach)?;
    line.push_str("\n")?;
    Ok(line)
}

/// The line of rows of which those up to this line may break a rule, with its line feed.
fn odd_line(alloc: Global, reach: Reach, last: u64) -> Result<String, AllocError>
    ensures { IfOk result (λ line. string_bytes line ≡ odd_words reach last) }
{
    let mut line = String::new(alloc);
    push_field(&mut line, "odd line=", last)?;
    push_reach(&mut line, reach)?;
    line.push_str("\n")?;
    Ok(line)
}

/// The line of a broken rule, with its line feed.
fn found_line(alloc: Global, program: &Program, found: BrokenRule) -> Result<String, AllocError>
    ensures { IfOk result (λ line. string_bytes line ≡ breach_words program.now (breach_of found)) }
{
    broken_line(
        alloc,
        program,
        found.rule,
        found.line,
        found.tag,
        found.reaction,
    )
}

/// The line of what is told of a table, with its line feed.
pub(crate) fn line_of_final(
    alloc: Global,
    program: &Program,
    told: Final,
) -> Result<String, AllocError>
    ensures { IfOk result (λ line. string_bytes line ≡ line_of_log program.now told) }
{
    match told {
        Final::AtEnd(Ending::Accepted(counts)) => accepted_line(alloc, counts.runs, counts.tags),
        Final::AtEnd(Ending::Unbroken(reach)) => unbroken_line(alloc, reach),
        Final::AtEnd(Ending::Broken(found)) => found_line(alloc, program, found),
        Final::Soon(Told::Reached(reach)) => unbroken_line(alloc, reach),
        Final::Soon(Told::Odd(reach, last)) => odd_line(alloc, reach, last),
        Final::Soon(Told::Broken(found)) => found_line(alloc, program, found),
    }
}
