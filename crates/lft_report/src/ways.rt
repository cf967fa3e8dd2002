//! The text of where delays lead, and of what is nearest.

ghost use Rattle.std.specs.Prelude.{◌≡◌, ◌++◌, OnOk, string_bytes};
ghost use Rattle.lft_report.specs.Ways.{delay_into as the_delay_into, arrow_words, least_delay as the_least_delay, extra_of as the_extra_of, extra_at as the_extra_at, delays_words, side_words, happening as the_happening, nearest_of, nearest_words};

use lft_ir::steps::{Row, Step, row_at};
use lft_ir::words::{push_tag, push_time, push_trigger};
use lft_ir::{Program, Trigger};
use lft_tag::Tag;
use std::alloc::AllocError;

/// The delay of the connection into the port, if there is one that has one.
pub(crate) fn delay_into(program: &Program, port: u32) -> Option<u64>
    ensures { result ≡ the_delay_into program.now port }
{
    if (port as usize) < program.ports() {
        match program.port(port).source {
            Some(source) => source.delay,
            None => None,
        }
    } else {
        None
    }
}

/// Puts the arrow of a connection at the end of the text.
pub(crate) fn push_arrow(text: &mut String, delay: Option<u64>) -> Result<(), AllocError>
    ensures { OnOk result (string_bytes text.new ≡ string_bytes text.old ++ arrow_words delay) }
{
    match delay {
        None => text.push_str(" --> ")?,
        // `after 0` has an arrow with a delay of 0, as it takes a microstep.
        Some(delay) => {
            text.push_str(" --")?;
            push_time(text, delay)?;
            text.push_str("--> ")?;
        }
    }
    Ok(())
}

/// The least delay of the action; 0 for a number that is of none.
fn least_delay(program: &Program, action: u32) -> u64
    ensures { result ≡ the_least_delay program.now action }
{
    if (action as usize) < program.actions() {
        program.action(action).min_delay
    } else {
        0
    }
}

/// The extra delay of the step; 0 for one that schedules nothing.
fn extra_of(step: Step) -> u64
    ensures { result ≡ the_extra_of step }
{
    match step {
        Step::Schedule(_, _, extra) => extra,
        _ => 0,
    }
}

/// The extra delay in the row at the place.
fn extra_at(rows: &[Row], place: u32) -> u64
    ensures { result ≡ the_extra_at rows.now place }
{
    if (place as usize) < rows.len() {
        extra_of(row_at(rows, place as usize).step)
    } else {
        0
    }
}

/// Puts the delays of a scheduling, and the tag to which they lead, at the end of the text.
pub(crate) fn push_delays(
    text: &mut String,
    program: &Program,
    rows: &[Row],
    tag: Tag,
    action: u32,
    row: u32,
) -> Result<(), AllocError>
    ensures { OnOk result (string_bytes text.new ≡ string_bytes text.old ++ delays_words program.now rows.now tag action row) }
{
    text.push_str("    least delay ")?;
    push_time(text, least_delay(program, action))?;
    text.push_str(" + extra delay ")?;
    push_time(text, extra_at(rows, row))?;
    text.push_str(" --> ")?;
    push_tag(text, tag)?;
    text.push_str("\n")?;
    Ok(())
}

/// Puts on which side of the tag the other one is at the end of the text.
fn push_side(text: &mut String, tag: Tag, other: Tag) -> Result<(), AllocError>
    ensures { OnOk result (string_bytes text.new ≡ string_bytes text.old ++ side_words tag other) }
{
    if other.time < tag.time {
        text.push_str("before")?;
    } else if tag.time < other.time {
        text.push_str("after")?;
    } else if other.micro < tag.micro {
        text.push_str("before")?;
    } else {
        // It is never at the tag itself: there the trigger is absent.
        text.push_str("after")?;
    }
    Ok(())
}

/// What a trigger has where it is present.
fn happening(trigger: Trigger) -> &'static str
    ensures { result.now ≡ the_happening trigger }
{
    match trigger {
        Trigger::Timer(_) => "firing of ",
        // No reason that is found says what is nearest to startup or shutdown. The words are there for any
        // fact.
        Trigger::On(_) | Trigger::Startup | Trigger::Shutdown => "event of ",
    }
}

/// Puts of what an event is the nearest at the end of the text.
fn push_nearest_of(text: &mut String, program: &Program, trigger: Trigger) -> Result<(), AllocError>
    ensures { OnOk result (string_bytes text.new ≡ string_bytes text.old ++ nearest_of program.now trigger) }
{
    text.push_str("    The nearest ")?;
    text.push_str(happening(trigger))?;
    push_trigger(text, program, trigger)?;
    text.push_str(" ")?;
    Ok(())
}

/// Puts where the event of something that is nearest to the tag is at the end of the text.
pub(crate) fn push_nearest(
    text: &mut String,
    program: &Program,
    trigger: Trigger,
    tag: Tag,
    at: Tag,
) -> Result<(), AllocError>
    ensures { OnOk result (string_bytes text.new ≡ string_bytes text.old ++ nearest_words program.now trigger tag at) }
{
    push_nearest_of(text, program, trigger)?;
    push_side(text, tag, at)?;
    text.push_str(" it is at ")?;
    push_tag(text, at)?;
    text.push_str(".\n")?;
    Ok(())
}
