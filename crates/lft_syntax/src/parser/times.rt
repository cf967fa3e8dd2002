//! Units of time, times, and times or names of parameters.

ghost use Rattle.std.specs.Prelude.{◌≡◌, ℕ, ◌<◌, ◌≤◌, ◌+◌, ◌-◌, ◌^◌, [], ◌∷◌, codes, slice_get, IfSome, IfOk};
ghost use Rattle.lft_syntax.specs.{Language.look, Lexeme.{is_one_of, unit_of, unit_in}};
ghost use Rattle.lft_syntax.specs.inner.{View.Gives, Reading.{time_from, time_at, delay_at, ptime_at, pdelay_at}, Parsing.words, Placed.Takes};
ghost use Rattle.lft_syntax.specs.Placed.{TimeStands, time_tokens, unit_tokens};
ghost use Rattle.lft_tree.specs.View.{time_view};
ghost use Rattle.lft_syntax.specs.Lexeme as Lexeme;
ghost use Rattle.lft_syntax.specs.inner.Tests as Tests;

use crate::input::{Input, Seen};
use crate::parse_error::ParseError;
use crate::parser::names::{is_name, is_word, name};
use crate::parser::tokens::{is_number, number, peek};
use lft_tree::{Time, TimeExpression, TimeUnit};

fn is_nanosecond(word: &[u8]) -> bool
    ensures { result ≡ is_one_of (codes "ns" ∷ codes "nsec" ∷ codes "nsecs" ∷ []) word.now }
{
    is_word(word, b"ns") || is_word(word, b"nsec") || is_word(word, b"nsecs")
}

fn is_microsecond(word: &[u8]) -> bool
    ensures { result ≡ is_one_of (codes "us" ∷ codes "usec" ∷ codes "usecs" ∷ []) word.now }
{
    is_word(word, b"us") || is_word(word, b"usec") || is_word(word, b"usecs")
}

fn is_millisecond(word: &[u8]) -> bool
    ensures { result ≡ is_one_of (codes "ms" ∷ codes "msec" ∷ codes "msecs" ∷ []) word.now }
{
    is_word(word, b"ms") || is_word(word, b"msec") || is_word(word, b"msecs")
}

fn is_second(word: &[u8]) -> bool
    ensures { result ≡ is_one_of (codes "s" ∷ codes "sec" ∷ codes "secs" ∷ codes "second" ∷ codes "seconds" ∷ []) word.now }
{
    is_word(word, b"s")
        || is_word(word, b"sec")
        || is_word(word, b"secs")
        || is_word(word, b"second")
        || is_word(word, b"seconds")
}

fn is_minute(word: &[u8]) -> bool
    ensures { result ≡ is_one_of (codes "min" ∷ codes "mins" ∷ codes "minute" ∷ codes "minutes" ∷ []) word.now }
{
    is_word(word, b"min")
        || is_word(word, b"mins")
        || is_word(word, b"minute")
        || is_word(word, b"minutes")
}

fn is_hour(word: &[u8]) -> bool
    ensures { result ≡ is_one_of (codes "h" ∷ codes "hour" ∷ codes "hours" ∷ []) word.now }
{
    is_word(word, b"h") || is_word(word, b"hour") || is_word(word, b"hours")
}

fn is_day(word: &[u8]) -> bool
    ensures { result ≡ is_one_of (codes "d" ∷ codes "day" ∷ codes "days" ∷ []) word.now }
{
    is_word(word, b"d") || is_word(word, b"day") || is_word(word, b"days")
}

fn is_week(word: &[u8]) -> bool
    ensures { result ≡ is_one_of (codes "week" ∷ codes "weeks" ∷ []) word.now }
{
    is_word(word, b"week") || is_word(word, b"weeks")
}

/// The unit that a word names.
#[tactic(auto, unfolding(crate::specs::Lexeme::unit_of))]
pub fn unit_named(word: &[u8]) -> Option<TimeUnit>
    ensures { result ≡ unit_of word.now }
{
    if is_nanosecond(word) {
        return Some(TimeUnit::Nanosecond);
    }
    if is_microsecond(word) {
        return Some(TimeUnit::Microsecond);
    }
    if is_millisecond(word) {
        return Some(TimeUnit::Millisecond);
    }
    if is_second(word) {
        return Some(TimeUnit::Second);
    }
    if is_minute(word) {
        return Some(TimeUnit::Minute);
    }
    if is_hour(word) {
        return Some(TimeUnit::Hour);
    }
    if is_day(word) {
        return Some(TimeUnit::Day);
    }
    if is_week(word) {
        return Some(TimeUnit::Week);
    }
    None
}

fn unit(input: &Input, at: usize) -> Option<TimeUnit>
    ensures is { result ≡ look unit_in (slice_get (words input.now) at) }
    ensures room { IfSome result (λ _. at < 2 ^ 64 - 1) }
{
    match peek(input, at) {
        Some(Seen::Letters(letters)) => unit_named(letters),
        _ => None,
    }
}

/// The time of so many units, where the unit stands here; only 0 may stand without one.
fn counted(input: &Input, count: u64, at: usize) -> Result<(Time, usize), ParseError>
    ensures gives { Gives (λ x. (x.0, x.1)) result (time_from count at (look unit_in (slice_get (words input.now) at))) }
    ensures next { IfOk result (λ x. x.1 + 1 ≡ at + unit_tokens x.0.unit) }
{
    match unit(input, at) {
        Some(unit) => Ok((
            Time {
                count,
                unit: Some(unit),
            },
            at + 1,
        )),
        None if count == 0 => Ok((
            Time {
                count: 0,
                unit: None,
            },
            at,
        )),
        None => Err(ParseError::Unexpected(at)),
    }
}

/// A time, where no name may stand after it.
#[tactic(auto, unfolding(crate::specs::inner::Reading::time_at))]
pub fn time(input: &Input, at: usize) -> Result<(Time, usize), ParseError>
    ensures gives { Gives (λ x. (x.0, x.1)) result (time_at (words input.now) at) }
    ensures next { IfOk result (λ x. x.1 ≡ at + unit_tokens x.0.unit) }
{
    let (count, at) = number(input, at)?;
    counted(input, count, at)
}

/// Whether `=`, `.`, `,` or `->` stands at the place after this one, as after the name that a
/// member begins with.
pub fn is_before_follower(input: &Input, at: usize) -> bool
    ensures { result ≡ Tests.is_follower (slice_get (words input.now) (at + 1)) }
{
    if peek(input, at).is_none() {
        return false;
    }
    match peek(input, at + 1) {
        Some(Seen::Arrow) => true,
        // The comma is one of them, as the sources of a connection may be several. No list has a time that is
        // asked here.
        Some(Seen::Symbol(b)) => b == b'=' || b == b'.' || b == b',',
        _ => false,
    }
}

/// A time, where a member may stand after it: a name that begins a member isn't the unit of 0.
#[tactic(auto, unfolding(crate::specs::inner::Reading::delay_at))]
fn delay(input: &Input, at: usize) -> Result<(Time, usize), ParseError>
    ensures gives { Gives (λ x. (x.0, x.1)) result (delay_at (words input.now) at) }
    ensures next { IfOk result (λ x. x.1 ≡ at + unit_tokens x.0.unit) }
{
    let (count, at) = number(input, at)?;
    if count == 0 && is_name(input, at) && is_before_follower(input, at) {
        return Ok((
            Time {
                count: 0,
                unit: None,
            },
            at,
        ));
    }
    counted(input, count, at)
}

/// A time or a name, where no name may stand after a time.
#[tactic(auto, unfolding(crate::specs::inner::Reading::ptime_at))]
pub fn time_expression(input: &Input, at: usize) -> Result<(TimeExpression, usize), ParseError>
    ensures gives { Gives (λ x. (time_view x.0, x.1)) result (ptime_at (words input.now) at) }
    ensures stands { IfOk result (λ x. Takes TimeStands time_tokens at x.0 x.1) }
{
    if is_number(input, at) {
        let (time, end) = time(input, at)?;
        return Ok((TimeExpression::Written { time, at }, end));
    }
    let (name, end) = name(input, at)?;
    Ok((TimeExpression::Parameter { name, at }, end))
}

/// A time or a name, where a member may stand after it.
#[tactic(auto, unfolding(crate::specs::inner::Reading::pdelay_at))]
pub fn delay_expression(input: &Input, at: usize) -> Result<(TimeExpression, usize), ParseError>
    ensures gives { Gives (λ x. (time_view x.0, x.1)) result (pdelay_at (words input.now) at) }
    ensures stands { IfOk result (λ x. Takes TimeStands time_tokens at x.0 x.1) }
{
    if is_number(input, at) {
        let (time, end) = delay(input, at)?;
        return Ok((TimeExpression::Written { time, at }, end));
    }
    let (name, end) = name(input, at)?;
    Ok((TimeExpression::Parameter { name, at }, end))
}
