//! Times, and the parameters that stand for them.

ghost use Rattle.std.specs.Prelude.{◌≡◌, Some, IfErr, IfOk, OnOk, not, option_map};
ghost use Rattle.lft_tree.specs.ItemView.{time_view};
ghost use Rattle.lft_lower.specs.inner.{Meanings.Meanings.token_in, Refused.{IsNoTime, IsNoWritten, IsOfTime}, Lowered.{IsRead, is_some_time, time_at}};
ghost use Rattle.lft_lower.specs.inner.{Standing.{time_token, time_tokens, written_tokens}, Times.{IsTime, IsWrittenTime, named_by, time_for, time_of_value}};
ghost use Rattle.lft_elaborate.specs.{Values.is_forever, inner.Refused.{IfRefused, IsAt}};

use crate::meanings::places::Within;
use lft_classes::{InheritedParameter, OwnThing, Shape};
use lft_resolve::times::nanoseconds;
use lft_tree::{Time, TimeExpression};
use lft_whole::sources::{NoProgram, Why};
use lft_whole::{Expression, WrittenValue};
use std::alloc::Global;

/// The time that a value writes out, if it is one.
fn time_in(value: &WrittenValue) -> Option<Time>
    ensures { result ≡ time_of_value value.now }
{
    match value {
        WrittenValue::Number {
            is_negative: false,
            count,
            unit: Some(unit),
        } => Some(Time {
            count: *count,
            unit: Some(*unit),
        }),
        WrittenValue::Number {
            is_negative: false,
            count: 0,
            unit: None,
        } => Some(Time {
            count: 0,
            unit: None,
        }),
        _ => None,
    }
}

/// A time that is written out: a whole number with a unit, or 0.
pub(crate) fn written(file: usize, value: &Expression) -> Result<Time, NoProgram>
    ensures time { IfOk result (λ time. time_of_value value.now.value ≡ Some time) }
    ensures short { OnOk result (IsWrittenTime value.now.value) }
    ensures cause { IfErr result (IfRefused (λ r. IsAt file value.now.at r × IsNoWritten value.now.value r.why)) }
{
    let Some(time) = time_in(&value.value) else {
        return Err(NoProgram::at(Why::NoTime, file, value.at));
    };
    match nanoseconds(time) {
        // Only whether it is short enough is asked. The tree keeps it as it is written.
        Some(_) => Ok(time),
        None => Err(NoProgram::at(Why::TimeTooLong, file, value.at)),
    }
}

/// Whether a value is 0, with a unit or without.
pub(crate) fn is_zero(value: &Expression) -> bool
    ensures { result ≡ not (is_some_time value.now.value) }
{
    matches!(value.value, WrittenValue::Number { count: 0, .. })
}

/// Whether a value is the word `forever`.
pub(crate) fn is_forever(value: &Expression) -> bool
    ensures { result ≡ is_forever value.now.value }
{
    match &value.value {
        WrittenValue::Word(word) => word.as_str() == "forever",
        _ => false,
    }
}

/// The parameter of the reactor whose name a value is.
fn named_by<'a>(shape: &Shape<'a>, value: &WrittenValue) -> Option<InheritedParameter<'a>>
    ensures { result ≡ named_by shape.now value.now }
{
    let WrittenValue::Word(word) = value else {
        return None;
    };
    match shape.find(word.as_str()) {
        Some(OwnThing::Parameter(number)) => shape.parameters.get(number).copied(),
        _ => None,
    }
}

/// A time, or the parameter of the reactor that stands for one.
pub(crate) fn read_time(
    alloc: Global,
    within: Within,
    value: &Expression,
) -> Result<TimeExpression, NoProgram>
    ensures time { IfOk result (λ time. time_for value.now.value ≡ Some (time_view time)) }
    ensures at { IfOk result (λ time. time_token time ≡ token_in within.entry value.now.at) }
    ensures read { OnOk result (IsTime within.entry.shape.now value.now.value) }
    ensures cause { IfErr result (IfRefused (λ r. IsAt within.entry.file value.now.at r × IsNoTime within.entry.shape.now value.now.value r.why)) }
{
    let file = within.file;
    let at = within.token(value.at);
    let found = named_by(within.shape, &value.value);
    let WrittenValue::Word(word) = &value.value else {
        let time = written(file, value)?;
        return Ok(TimeExpression::Written { time, at });
    };
    let Some(found) = found else {
        return Err(NoProgram::at(Why::NoTime, file, value.at));
    };
    // In the language a parameter of another type never stands for a time.
    if !found.parameter.is_time {
        return Err(NoProgram::at(Why::NotOfTypeTime, file, value.at));
    }
    let name = String::from_str(alloc, word.as_str())?;
    Ok(TimeExpression::Parameter { name, at })
}

/// The same where a time may be left out.
pub(crate) fn maybe_time(
    alloc: Global,
    within: Within,
    value: &Option<Expression>,
) -> Result<Option<TimeExpression>, NoProgram>
    ensures time { IfOk result (λ time. option_map time_view time ≡ time_at value.now) }
    ensures at { IfOk result (λ time. time_tokens time ≡ written_tokens (token_in within.entry) value.now) }
    ensures read { OnOk result (IsRead within.entry.shape.now value.now) }
    ensures cause { IfErr result (IfRefused (IsOfTime within.entry.shape.now within.entry.file value.now)) }
{
    match value {
        None => Ok(None),
        Some(value) => Ok(Some(read_time(alloc, within, value)?)),
    }
}

/// How many bytes a time takes at least, when it is written.
pub(crate) fn bytes_of(time: &TimeExpression) -> usize {
    match time {
        TimeExpression::Written { .. } => 2,
        TimeExpression::Parameter { name, .. } => name.len(),
    }
}
