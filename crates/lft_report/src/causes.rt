//! The text of why something is present.

ghost use Rattle.std.specs.Prelude.{◌≡◌, ◌++◌, OnOk, string_bytes};
ghost use Rattle.lft_ir.specs.Steps.Fits.{RowsFit};
ghost use Rattle.lft_report.specs.Causes.{startup_words, shutdown_words, offset_of, period_of, periods_words, fires_words, gets_words, last_write_words, written_words, schedules_words, scheduled_words, given_words, cause_words};

use crate::hops::push_way_at;
use crate::orders::origin;
use crate::ways::push_delays;
use lft_facts::Cause;
use lft_ir::Program;
use lft_ir::steps::Row;
use lft_ir::words::{
    push_action, push_line, push_number, push_port, push_tag, push_tag_at, push_time, push_timer,
    push_value_at,
};
use lft_tag::Tag;
use std::alloc::{AllocError, Global};

/// Puts that startup is present at the end of the text.
fn push_startup(text: &mut String, tag: Tag) -> Result<(), AllocError>
    ensures { OnOk result (string_bytes text.new ≡ string_bytes text.old ++ startup_words tag) }
{
    text.push_str("  startup is present at ")?;
    push_tag(text, tag)?;
    text.push_str(".\n")?;
    Ok(())
}

/// Puts that shutdown is present at the end of the text.
fn push_shutdown(text: &mut String, tag: Tag) -> Result<(), AllocError>
    ensures { OnOk result (string_bytes text.new ≡ string_bytes text.old ++ shutdown_words tag) }
{
    text.push_str("  shutdown is present at the stop, ")?;
    push_tag(text, tag)?;
    text.push_str(".\n")?;
    Ok(())
}

/// The offset and the period of the timer; 0 for a number that is of no timer.
fn times(program: &Program, timer: u32) -> (u64, u64)
    ensures offset { result.0 ≡ offset_of program.now timer }
    ensures period { result.1 ≡ period_of program.now timer }
{
    // The facts that are told needn't be true, so the number may be of no timer.
    if (timer as usize) < program.timers() {
        let timer = program.timer(timer);
        (timer.offset, timer.period)
    } else {
        (0, 0)
    }
}

/// Puts the offset of a timer and so many periods at the end of the text.
fn push_periods(
    text: &mut String,
    program: &Program,
    timer: u32,
    count: u64,
) -> Result<(), AllocError>
    ensures { OnOk result (string_bytes text.new ≡ string_bytes text.old ++ periods_words program.now timer count) }
{
    let times = times(program, timer);
    text.push_str(": offset ")?;
    push_time(text, times.0)?;
    text.push_str(", plus ")?;
    push_number(text, count)?;
    text.push_str(" times the period ")?;
    push_time(text, times.1)?;
    text.push_str(".\n")?;
    Ok(())
}

/// Puts when a timer fires at the end of the text.
fn push_fires(
    text: &mut String,
    program: &Program,
    tag: Tag,
    timer: u32,
    count: u64,
) -> Result<(), AllocError>
    ensures { OnOk result (string_bytes text.new ≡ string_bytes text.old ++ fires_words program.now tag timer count) }
{
    text.push_str("  timer ")?;
    push_timer(text, program, timer)?;
    text.push_str(" fires at ")?;
    push_tag(text, tag)?;
    push_periods(text, program, timer, count)?;
    Ok(())
}

/// Puts which value is had at a tag, that of the row at the place, at the end of the text.
fn push_gets(text: &mut String, rows: &[Row], tag: Tag, row: u32) -> Result<(), AllocError>
    ensures { OnOk result (string_bytes text.new ≡ string_bytes text.old ++ gets_words rows.now tag row) }
{
    text.push_str(" gets ")?;
    push_value_at(text, rows, row)?;
    text.push_str(" at ")?;
    push_tag(text, tag)?;
    text.push_str(":\n    ")?;
    Ok(())
}

/// Puts where the origin of a port is written last at the end of the text.
fn push_last_write(
    text: &mut String,
    program: &Program,
    rows: &[Row],
    port: u32,
    row: u32,
) -> Result<(), AllocError>
    ensures { OnOk result (string_bytes text.new ≡ string_bytes text.old ++ last_write_words program.now rows.now port row) }
{
    push_line(text, row)?;
    text.push_str(" is the last write of ")?;
    push_port(text, program, origin(program, port))?;
    text.push_str(" at ")?;
    push_tag_at(text, rows, row)?;
    text.push_str("\n")?;
    Ok(())
}

/// Puts which row gives a port an event, and by which way, at the end of the text.
fn push_written(
    alloc: Global,
    text: &mut String,
    program: &Program,
    rows: &[Row],
    tag: Tag,
    port: u32,
    row: u32,
) -> Result<(), AllocError>
    requires { RowsFit program.now rows.now }
    ensures { OnOk result (string_bytes text.new ≡ string_bytes text.old ++ written_words program.now rows.now tag port row) }
{
    text.push_str("  ")?;
    push_port(text, program, port)?;
    push_gets(text, rows, tag, row)?;
    push_last_write(text, program, rows, port, row)?;
    push_way_at(alloc, text, program, rows, port, row)?;
    Ok(())
}

/// Puts where an action is scheduled at the end of the text.
fn push_schedules(text: &mut String, rows: &[Row], row: u32) -> Result<(), AllocError>
    ensures { OnOk result (string_bytes text.new ≡ string_bytes text.old ++ schedules_words rows.now row) }
{
    push_line(text, row)?;
    text.push_str(" schedules it at ")?;
    push_tag_at(text, rows, row)?;
    text.push_str("\n")?;
    Ok(())
}

/// Puts which row gives an action an event, and by which delays, at the end of the text.
fn push_scheduled(
    text: &mut String,
    program: &Program,
    rows: &[Row],
    tag: Tag,
    action: u32,
    row: u32,
) -> Result<(), AllocError>
    ensures { OnOk result (string_bytes text.new ≡ string_bytes text.old ++ scheduled_words program.now rows.now tag action row) }
{
    text.push_str("  ")?;
    push_action(text, program, action)?;
    push_gets(text, rows, tag, row)?;
    push_schedules(text, rows, row)?;
    push_delays(text, program, rows, tag, action, row)?;
    Ok(())
}

/// Puts that the external inputs give an action an event at the end of the text.
fn push_given(text: &mut String, program: &Program, tag: Tag, action: u32) -> Result<(), AllocError>
    ensures { OnOk result (string_bytes text.new ≡ string_bytes text.old ++ given_words program.now tag action) }
{
    text.push_str("  ")?;
    push_action(text, program, action)?;
    text.push_str(" has an event at ")?;
    push_tag(text, tag)?;
    text.push_str(", from the external inputs.\n")?;
    Ok(())
}

/// Puts why something is present at the end of the text.
pub(crate) fn push_cause(
    alloc: Global,
    text: &mut String,
    program: &Program,
    rows: &[Row],
    cause: Cause,
) -> Result<(), AllocError>
    requires { RowsFit program.now rows.now }
    ensures { OnOk result (string_bytes text.new ≡ string_bytes text.old ++ cause_words program.now rows.now cause) }
{
    match cause {
        Cause::AtStartup { tag } => push_startup(text, tag),
        Cause::AtShutdown { tag } => push_shutdown(text, tag),
        Cause::Fires { tag, timer, count } => push_fires(text, program, tag, timer, count),
        Cause::Written { tag, port, row } => push_written(
            alloc, text, program, rows, tag, port, row,
        ),
        Cause::Scheduled { tag, action, row } => {
            push_scheduled(text, program, rows, tag, action, row)
        }
        Cause::Given { tag, action, .. } => push_given(text, program, tag, action),
    }
}
