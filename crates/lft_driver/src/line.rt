//! The lines that are printed.

ghost use Rattle.std.specs.Prelude.{◌≡◌, ◌++◌, IfOk, OnOk, string_bytes};
ghost use Rattle.lft_driver.specs.Lines.{accepted_words, breach_words, differ_words, line_of, line_of_pair, breaking_reaction_words, broken_row_words, rule_name, same_words};

use crate::paired::Paired;
use lft_check::Verdict;
use lft_ir::Program;
use lft_ir::words::push_reaction;
use lft_load::push_field;
use lft_model::Breach;
use lft_tag::Tag;
use std::alloc::{AllocError, Global};

/// The name of a rule.
fn name_of_rule(rule: u8) -> &'static str
    ensures { result.now ≡ rule_name rule }
{
    match rule {
        1 => "late",
        2 => "after-stop",
        3 => "order",
        4 => "undeclared",
        5 => "unended",
        6 => "collision",
        7 => "not-run",
        8 => "not-triggered",
        9 => "too-early",
        10 => "wrong-read",
        // No breach has another number.
        _ => "",
    }
}

/// Puts the line of the table at the end of a line, where a rule is broken at a row.
fn push_row(line: &mut String, row: u64) -> Result<(), AllocError>
    ensures { OnOk result (string_bytes line.new ≡ string_bytes line.old ++ broken_row_words row) }
{
    if row != 0 {
        push_field(line, " line=", row)?;
    }
    Ok(())
}

/// Puts the reaction that breaks a rule at the end of a line.
fn push_breaking(
    line: &mut String,
    program: &Program,
    reaction: Option<u32>,
) -> Result<(), AllocError>
    ensures { OnOk result (string_bytes line.new ≡ string_bytes line.old ++ breaking_reaction_words program.now reaction) }
{
    match reaction {
        Some(number) => {
            line.push_str(" reaction=")?;
            push_reaction(line, program, number)?;
        }
        // Rule 6 alone names no reaction.
        None => line.push_str(" (outside the profile)")?,
    }
    Ok(())
}

/// The line of a broken rule, with its line feed. The row is a line of the table, or 0 where the rule
/// isn't broken at a row.
pub fn broken_line(
    alloc: Global,
    program: &Program,
    rule: u8,
    row: u64,
    tag: Tag,
    reaction: Option<u32>,
) -> Result<String, AllocError>
    ensures { IfOk result (λ line. string_bytes line ≡ breach_words program.now (record { rule = rule; tag = tag; reaction = reaction; row = row })) }
{
    let mut line = String::new(alloc);
    push_field(&mut line, "broken rule=", u64::from(rule))?;
    line.push_str(" ")?;
    line.push_str(name_of_rule(rule))?;
    push_row(&mut line, row)?;
    push_field(&mut line, " time=", tag.time)?;
    push_field(&mut line, " microstep=", u64::from(tag.micro))?;
    push_breaking(&mut line, program, reaction)?;
    line.push_str("\n")?;
    Ok(line)
}

/// The line of a breach, with its line feed.
fn breach_line(alloc: Global, program: &Program, breach: Breach) -> Result<String, AllocError>
    ensures { IfOk result (λ line. string_bytes line ≡ breach_words program.now breach) }
{
    let row = u64::from(breach.row);
    broken_line(
        alloc,
        program,
        breach.rule,
        row,
        breach.tag,
        breach.reaction,
    )
}

/// The line of a broken rule behind the word that tells of which trace, with its line feed.
fn named_line(
    alloc: Global,
    word: &str,
    program: &Program,
    breach: Breach,
) -> Result<String, AllocError>
    ensures { IfOk result (λ line. string_bytes line ≡ word.now ++ breach_words program.now breach) }
{
    let mut line = String::from_str(alloc, word)?;
    let broken = breach_line(alloc, program, breach)?;
    line.push_str(broken.as_str())?;
    Ok(line)
}

/// The line of an accepted trace, with its line feed.
pub fn accepted_line(alloc: Global, runs: u32, tags: u32) -> Result<String, AllocError>
    ensures { IfOk result (λ line. string_bytes line ≡ accepted_words runs tags) }
{
    let mut line = String::new(alloc);
    push_field(&mut line, "accepted runs=", u64::from(runs))?;
    push_field(&mut line, " tags=", u64::from(tags))?;
    line.push_str("\n")?;
    Ok(line)
}

/// The line of a verdict, with its line feed.
pub fn verdict_line(
    alloc: Global,
    program: &Program,
    verdict: Verdict,
) -> Result<String, AllocError>
    ensures { IfOk result (λ line. string_bytes line ≡ line_of program.now verdict) }
{
    match verdict {
        Verdict::Accepted { runs, tags } => accepted_line(alloc, runs, tags),
        Verdict::Broken(breach) => breach_line(alloc, program, breach),
    }
}

/// The line of two traces with the same runs, with its line feed.
fn same_line(alloc: Global, runs: u32, tags: u32) -> Result<String, AllocError>
    ensures { IfOk result (λ line. string_bytes line ≡ same_words runs tags) }
{
    let mut line = String::new(alloc);
    push_field(&mut line, "same runs=", u64::from(runs))?;
    push_field(&mut line, " tags=", u64::from(tags))?;
    line.push_str("\n")?;
    Ok(line)
}

/// The line of two traces that differ, with its line feed.
fn differ_line(
    alloc: Global,
    program: &Program,
    tag: Tag,
    reaction: u32,
) -> Result<String, AllocError>
    ensures { IfOk result (λ line. string_bytes line ≡ differ_words program.now tag reaction) }
{
    let mut line = String::new(alloc);
    push_field(&mut line, "differ time=", tag.time)?;
    push_field(&mut line, " microstep=", u64::from(tag.micro))?;
    line.push_str(" reaction=")?;
    push_reaction(&mut line, program, reaction)?;
    line.push_str("\n")?;
    Ok(line)
}

/// The line of what two traces show, with its line feed.
pub fn paired_line(alloc: Global, program: &Program, paired: Paired) -> Result<String, AllocError>
    ensures { IfOk result (λ line. string_bytes line ≡ line_of_pair program.now paired) }
{
    match paired {
        Paired::First(breach) => named_line(alloc, "first ", program, breach),
        Paired::Second(breach) => named_line(alloc, "second ", program, breach),
        Paired::Same { runs, tags } => same_line(alloc, runs, tags),
        Paired::Differ { tag, reaction } => differ_line(alloc, program, tag, reaction),
    }
}
