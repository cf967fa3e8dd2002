//! Words of the text: numbers, times, tags, values and names.

ghost use Rattle.std.specs.Prelude.{◌≡◌, ◌++◌, OnOk, decimal, string_bytes};
ghost use Rattle.lft_ir.specs.Words.Words.{time_words, tag_words, value_words, port_words, action_words, timer_words, reaction_words, name_words, trigger_words};

use crate::{Name, Program, Trigger, Value};
use itoa::Buffer;
use lft_tag::Tag;
use std::alloc::AllocError;

/// Puts a number at the end of the text.
pub fn push_number(text: &mut String, number: u64) -> Result<(), AllocError>
    ensures { OnOk result (string_bytes text.new ≡ string_bytes text.old ++ decimal number) }
{
    let mut buffer = Buffer::new();
    text.push_str(buffer.format(number))?;
    Ok(())
}

/// Puts a number and its unit at the end of the text.
fn push_unit(text: &mut String, number: u64, unit: &str) -> Result<(), AllocError>
    ensures { OnOk result (string_bytes text.new ≡ string_bytes text.old ++ (decimal number ++ unit.now)) }
{
    push_number(text, number)?;
    text.push_str(unit)?;
    Ok(())
}

/// Puts a time of so many nanoseconds at the end of the text, in the greatest unit that divides it.
pub fn push_time(text: &mut String, time: u64) -> Result<(), AllocError>
    ensures { OnOk result (string_bytes text.new ≡ string_bytes text.old ++ time_words time) }
{
    if time == 0 {
        text.push_str("0")?;
        Ok(())
    } else if time % 1_000_000_000 == 0 {
        push_unit(text, time / 1_000_000_000, " s")
    } else if time % 1_000_000 == 0 {
        push_unit(text, time / 1_000_000, " ms")
    } else if time % 1_000 == 0 {
        push_unit(text, time / 1_000, " us")
    } else {
        push_unit(text, time, " ns")
    }
}

/// Puts a tag at the end of the text.
pub fn push_tag(text: &mut String, tag: Tag) -> Result<(), AllocError>
    ensures { OnOk result (string_bytes text.new ≡ string_bytes text.old ++ tag_words tag) }
{
    text.push_str("(")?;
    push_time(text, tag.time)?;
    text.push_str(", ")?;
    push_number(text, u64::from(tag.micro))?;
    text.push_str(")")?;
    Ok(())
}

/// Puts a value, or that there is none, at the end of the text.
pub fn push_value(text: &mut String, value: Option<Value>) -> Result<(), AllocError>
    ensures { OnOk result (string_bytes text.new ≡ string_bytes text.old ++ value_words value) }
{
    match value {
        None => text.push_str("nothing")?,
        Some(Value::Bare) => text.push_str("bare")?,
        Some(Value::Int(number)) => {
            let mut buffer = Buffer::new();
            text.push_str(buffer.format(number))?;
        }
    }
    Ok(())
}

/// Puts the name of a port at the end of the text.
pub fn push_port(text: &mut String, program: &Program, number: u32) -> Result<(), AllocError>
    ensures { OnOk result (string_bytes text.new ≡ string_bytes text.old ++ port_words program.now number) }
{
    if (number as usize) < program.ports() {
        text.push_str(program.name_of_port(number))?;
    }
    Ok(())
}

/// Puts the name of an action at the end of the text.
pub fn push_action(text: &mut String, program: &Program, number: u32) -> Result<(), AllocError>
    ensures { OnOk result (string_bytes text.new ≡ string_bytes text.old ++ action_words program.now number) }
{
    if (number as usize) < program.actions() {
        text.push_str(program.name_of_action(number))?;
    }
    Ok(())
}

/// Puts the name of a timer at the end of the text.
pub fn push_timer(text: &mut String, program: &Program, number: u32) -> Result<(), AllocError>
    ensures { OnOk result (string_bytes text.new ≡ string_bytes text.old ++ timer_words program.now number) }
{
    if (number as usize) < program.timers() {
        text.push_str(program.name_of_timer(number))?;
    }
    Ok(())
}

/// Puts the name of a reaction at the end of the text.
pub fn push_reaction(text: &mut String, program: &Program, number: u32) -> Result<(), AllocError>
    ensures { OnOk result (string_bytes text.new ≡ string_bytes text.old ++ reaction_words program.now number) }
{
    if (number as usize) < program.reactions() {
        text.push_str(program.name_of_reaction(number))?;
    }
    Ok(())
}

/// Puts the name of a port or action at the end of the text.
pub fn push_name(text: &mut String, program: &Program, name: Name) -> Result<(), AllocError>
    ensures { OnOk result (string_bytes text.new ≡ string_bytes text.old ++ name_words program.now name) }
{
    match name {
        Name::Port(number) => push_port(text, program, number),
        Name::Action(number) => push_action(text, program, number),
    }
}

/// Puts a trigger at the end of the text.
pub fn push_trigger(
    text: &mut String,
    program: &Program,
    trigger: Trigger,
) -> Result<(), AllocError>
    ensures { OnOk result (string_bytes text.new ≡ string_bytes text.old ++ trigger_words program.now trigger) }
{
    match trigger {
        Trigger::Startup => text.push_str("startup")?,
        Trigger::Shutdown => text.push_str("shutdown")?,
        Trigger::Timer(number) => {
            text.push_str("timer ")?;
            push_timer(text, program, number)?;
        }
        Trigger::On(name) => push_name(text, program, name)?,
    }
    Ok(())
}
