//! What is wrong with a row, in a sentence.

ghost use Rattle.std.specs.Prelude.{◌≡◌, ◌≤◌, ◌++◌, OnOk, length, string_bytes};
ghost use Rattle.lft_report.specs.Rows.{line_is_words, late_words, after_stop_words, again_words, run_words, starts_words, busy_words, not_open_words, verb as the_verb, verb_at, does_words, done_words, unended_words, row_words};

use lft_facts::RowFact;
use lft_ir::Program;
use lft_ir::steps::{Row, Step, row_at};
use lft_ir::words::{
    push_capital_line, push_line, push_name_at, push_number, push_reaction_at, push_tag_at,
    push_worker_at,
};
use std::alloc::AllocError;

/// Puts the line and the tag of a row at the end of the text.
fn push_line_is(text: &mut String, rows: &[Row], row: u32) -> Result<(), AllocError>
    ensures { OnOk result (string_bytes text.new ≡ string_bytes text.old ++ line_is_words rows.now row) }
{
    push_capital_line(text, row)?;
    text.push_str(" is at ")?;
    push_tag_at(text, rows, row)?;
    Ok(())
}

/// Puts that a row before it is at a greater tag at the end of the text.
fn push_late(text: &mut String, rows: &[Row], row: u32, earlier: u32) -> Result<(), AllocError>
    ensures { OnOk result (string_bytes text.new ≡ string_bytes text.old ++ late_words rows.now row earlier) }
{
    push_line_is(text, rows, row)?;
    text.push_str(", and an earlier row is at a greater tag, ")?;
    push_tag_at(text, rows, earlier)?;
    text.push_str(".\n")?;
    Ok(())
}

/// Puts that a row is after the stop at the end of the text.
fn push_after_stop(text: &mut String, rows: &[Row], row: u32) -> Result<(), AllocError>
    ensures { OnOk result (string_bytes text.new ≡ string_bytes text.old ++ after_stop_words rows.now row) }
{
    push_line_is(text, rows, row)?;
    text.push_str(", after the stop.\n")?;
    Ok(())
}

/// Puts that a row starts a run a second time at the end of the text.
fn push_again(
    text: &mut String,
    program: &Program,
    rows: &[Row],
    row: u32,
) -> Result<(), AllocError>
    ensures { OnOk result (string_bytes text.new ≡ string_bytes text.old ++ again_words program.now rows.now row) }
{
    push_reaction_at(text, program, rows, row)?;
    text.push_str(" starts a second time at ")?;
    push_tag_at(text, rows, row)?;
    text.push_str(", in ")?;
    push_line(text, row)?;
    text.push_str(".\n")?;
    Ok(())
}

/// Puts the run of a row at the end of the text.
pub(crate) fn push_run(
    text: &mut String,
    program: &Program,
    rows: &[Row],
    row: u32,
) -> Result<(), AllocError>
    ensures { OnOk result (string_bytes text.new ≡ string_bytes text.old ++ run_words program.now rows.now row) }
{
    push_reaction_at(text, program, rows, row)?;
    text.push_str(" at ")?;
    push_tag_at(text, rows, row)?;
    Ok(())
}

/// Puts which worker starts which run at the end of the text.
fn push_starts(
    text: &mut String,
    program: &Program,
    rows: &[Row],
    row: u32,
) -> Result<(), AllocError>
    ensures { OnOk result (string_bytes text.new ≡ string_bytes text.old ++ starts_words program.now rows.now row) }
{
    text.push_str("Worker ")?;
    push_worker_at(text, rows, row)?;
    text.push_str(" starts ")?;
    push_run(text, program, rows, row)?;
    text.push_str(" in ")?;
    push_line(text, row)?;
    Ok(())
}

/// Puts that the worker that starts a run has another one open at the end of the text.
fn push_busy(
    text: &mut String,
    program: &Program,
    rows: &[Row],
    row: u32,
    start: u32,
) -> Result<(), AllocError>
    ensures { OnOk result (string_bytes text.new ≡ string_bytes text.old ++ busy_words program.now rows.now row start) }
{
    push_starts(text, program, rows, row)?;
    text.push_str(", while its run of ")?;
    push_run(text, program, rows, start)?;
    text.push_str(" is open.\n")?;
    Ok(())
}

/// Puts that the worker of a row has not its run open at the end of the text.
fn push_not_open(
    text: &mut String,
    program: &Program,
    rows: &[Row],
    row: u32,
) -> Result<(), AllocError>
    ensures { OnOk result (string_bytes text.new ≡ string_bytes text.old ++ not_open_words program.now rows.now row) }
{
    text.push_str("Worker ")?;
    push_worker_at(text, rows, row)?;
    text.push_str(" has no open run of ")?;
    push_run(text, program, rows, row)?;
    text.push_str(" in ")?;
    push_line(text, row)?;
    text.push_str(".\n")?;
    Ok(())
}

/// What a step does with a name.
fn verb(step: Step) -> &'static str
    ensures { result.now ≡ the_verb step }
{
    match step {
        Step::Read(_, _) => " reads ",
        Step::Write(_, _) => " writes ",
        Step::Schedule(_, _, _) => " schedules ",
        Step::Start => " starts ",
        Step::Stop => " stops ",
        Step::End => " ends ",
    }
}

/// Puts what the row at the place does with a name at the end of the text.
fn push_verb_at(text: &mut String, rows: &[Row], row: u32) -> Result<(), AllocError>
    ensures { OnOk result (string_bytes text.new ≡ string_bytes text.old ++ verb_at rows.now row) }
{
    if (row as usize) < rows.len() {
        text.push_str(verb(row_at(rows, row as usize).step))?;
    }
    Ok(())
}

/// Puts what a row does with a name at the end of the text.
fn push_does(text: &mut String, program: &Program, rows: &[Row], row: u32) -> Result<(), AllocError>
    ensures { OnOk result (string_bytes text.new ≡ string_bytes text.old ++ does_words program.now rows.now row) }
{
    push_reaction_at(text, program, rows, row)?;
    push_verb_at(text, rows, row)?;
    push_name_at(text, program, rows, row)?;
    text.push_str(" in ")?;
    push_line(text, row)?;
    Ok(())
}

/// Puts what a row does with a name, and what is wrong with it, at the end of the text.
fn push_done(
    text: &mut String,
    program: &Program,
    rows: &[Row],
    row: u32,
    rest: &str,
) -> Result<(), AllocError>
    ensures { OnOk result (string_bytes text.new ≡ string_bytes text.old ++ done_words program.now rows.now row rest.now) }
{
    push_does(text, program, rows, row)?;
    text.push_str(rest)?;
    Ok(())
}

/// Puts that a run has no end row up to the last row at the end of the text.
fn push_unended(
    text: &mut String,
    program: &Program,
    rows: &[Row],
    row: u32,
) -> Result<(), AllocError>
    requires { length rows.now ≤ 4000000 }
    ensures { OnOk result (string_bytes text.new ≡ string_bytes text.old ++ unended_words program.now rows.now row) }
{
    push_starts(text, program, rows, row)?;
    // In a log its end may stand further on. So it isn't said that it has none.
    text.push_str(", and no row up to line ")?;
    // The last row stands in the line of this number, as line 1 has the header.
    push_number(text, rows.len() as u64 + 1)?;
    text.push_str(" ends it.\n")?;
    Ok(())
}

/// Puts what is wrong with a row at the end of the text.
pub(crate) fn push_row_fact(
    text: &mut String,
    program: &Program,
    rows: &[Row],
    fact: RowFact,
) -> Result<(), AllocError>
    requires { length rows.now ≤ 4000000 }
    ensures { OnOk result (string_bytes text.new ≡ string_bytes text.old ++ row_words program.now rows.now fact) }
{
    match fact {
        RowFact::Late { row, earlier } => push_late(text, rows, row, earlier)?,
        RowFact::AfterStop { row } => push_after_stop(text, rows, row)?,
        RowFact::StartsAgain { row, .. } => push_again(text, program, rows, row)?,
        RowFact::Busy { row, start } => push_busy(text, program, rows, row, start)?,
        RowFact::NotOpen { row } => push_not_open(text, program, rows, row)?,
        RowFact::NotInput { row } => {
            push_done(
                text,
                program,
                rows,
                row,
                ", which isn't among its inputs.\n",
            )?
        }
        RowFact::ReadAgain { row, .. } => push_done(text, program, rows, row, " a second time.\n")?,
        RowFact::NotEffect { row } => push_done(text, program, rows, row, ", which it may not.\n")?,
        RowFact::Unended { row } => push_unended(text, program, rows, row)?,
    }
    Ok(())
}
