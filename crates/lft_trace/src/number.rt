//! The numbers that fields write.

ghost use Rattle.std.specs.Prelude.{◌≡◌, ◌≤◌, neg_ℤ, pos, IfSome, IfNone, Some, is_some, length, ◌&&◌, false};
ghost use Rattle.lft_trace.specs.Numbers.{number, number_or_zero, value};

use lft_ir::Value;
use lft_tag::{MAX_MICRO, MAX_TIME, Tag};

/// The most digits that all fit a `u64`.
const SHORT: usize = 19;

/// The magnitude of the least `i64`.
const LEAST: u64 = 9_223_372_036_854_775_808;

/// An unsigned number.
#[inline(always)]
pub fn read_number(field: &[u8], limit: u64) -> Option<u64>
    ensures value { result ≡ number limit field.now }
    ensures within { IfSome result (λ n. n ≤ limit) }
{
    if field.len() <= SHORT {
        read_short(field, limit)
    } else {
        read_long(field, limit)
    }
}

// A number whose digits all fit a `u64`: the limit is asked for once, at the end.
fn read_short(field: &[u8], limit: u64) -> Option<u64>
    requires { length field.now ≤ 19 }
    ensures value { result ≡ number limit field.now }
    ensures within { IfSome result (λ n. n ≤ limit) }
{
    if field.is_empty() {
        return None;
    }
    let mut number: u64 = 0;
    for at in 0..field.len() {
        if !field[at].is_ascii_digit() {
            return None;
        }
        number = number * 10 + (field[at] - b'0') as u64;
    }
    if number > limit {
        return None;
    }
    Some(number)
}

// A number that leading zeros may make long.
fn read_long(field: &[u8], limit: u64) -> Option<u64>
    ensures value { result ≡ number limit field.now }
    ensures within { IfSome result (λ n. n ≤ limit) }
{
    if field.is_empty() {
        return None;
    }
    let most = limit / 10;
    let mut number: u64 = 0;
    for at in 0..field.len() {
        if !field[at].is_ascii_digit() {
            return None;
        }
        let digit = (field[at] - b'0') as u64;
        if number > most || digit > limit - number * 10 {
            return None;
        }
        number = number * 10 + digit;
    }
    Some(number)
}

/// An unsigned number, or 0 where the field is empty.
pub fn read_number_or_zero(field: &[u8], limit: u64) -> Option<u64>
    ensures value { result ≡ number_or_zero limit field.now }
    ensures within { IfSome result (λ n. n ≤ limit) }
{
    if field.is_empty() {
        Some(0)
    } else {
        read_number(field, limit)
    }
}

/// A recorded tag.
#[inline(always)]
pub(crate) fn read_tag(time: &[u8], microstep: &[u8]) -> Option<Tag>
    ensures some { IfSome result (λ g. (number 1000000000000000000 time.now ≡ Some g.time) × (number 1000000000 microstep.now ≡ Some g.micro)) }
    ensures none { IfNone result ((is_some (number 1000000000000000000 time.now) && is_some (number 1000000000 microstep.now)) ≡ false) }
{
    let time = match read_number(time, MAX_TIME) {
        Some(time) => time,
        None => return None,
    };
    match read_number(microstep, MAX_MICRO as u64) {
        Some(micro) => Some(Tag {
            time,
            micro: micro as u32,
        }),
        None => None,
    }
}

/// The value of a port or an action.
pub fn read_value(field: &[u8]) -> Option<Value>
    ensures { result ≡ value field.now }
{
    if field.is_empty() {
        return Some(Value::Bare);
    }
    if field[0] == b'-' {
        let size = read_number(&field[1..], LEAST)?;
        Some(Value::Int(negative(size)))
    } else {
        let size = read_number(field, LEAST - 1)?;
        Some(Value::Int(size as i64))
    }
}

// The number below zero of this magnitude.
fn negative(size: u64) -> i64
    requires { size ≤ 9223372036854775808 }
    ensures { result ≡ neg_ℤ (pos size) }
{
    if size == LEAST {
        i64::MIN
    } else {
        -(size as i64)
    }
}
