//! Values.

ghost use Rattle.std.specs.Prelude.{◌≡◌, ◌<◌, true, IfOk, IfErr, option_map, ◌+◌, Ok};
ghost use Rattle.lft_whole.specs.inner.Parts.{Parsing.{count, Within, Further, NotBefore, Refuses, source}, View.{Gives, at_next}};
ghost use Rattle.lft_whole.specs.Parts.{Language.{ignored, sign}, View.expression_view};
ghost use Rattle.lft_whole.specs.Parts.Parts as Parts;

use crate::parts::groups::{group_end, opens_values};
use crate::parts::lexed::LexedText;
use crate::parts::tokens::{
    is_arrow, is_code, is_symbol, is_text, is_tilde_arrow, is_word, past_item, peek, unit,
};
use crate::{Expression, TreeFault, WrittenValue};
use lft_syntax::{Seen, text_of};
use lft_tree::TimeUnit;

/// Whether what stands behind this place makes the word here the first of a member.
fn is_before_follower(input: &LexedText, at: usize) -> bool
    requires { at < count input.now }
    ensures is { result ≡ Parts.on_follower (source input.now) (at + 1) }
{
    // No comma, as in a core text: here values stand in lists, and behind a unit in one stands a comma.
    let next = at + 1;
    is_symbol(input, next, b'=')
        || is_symbol(input, next, b'.')
        || is_arrow(input, next)
        || is_tilde_arrow(input, next)
}

/// The unit of a number before this place, which may be left out: a word that begins a member is none.
#[tactic(auto, unfolding(crate::specs::Parts::Parts::unit))]
fn unit_behind(input: &LexedText, at: usize) -> (Option<TimeUnit>, usize)
    requires { Within input.now at }
    ensures gives { Parts.unit (source input.now) at ≡ Ok (result.0, result.1) }
    ensures inside { NotBefore input.now at result.1 }
{
    match unit(input, at) {
        Some(unit) if !is_before_follower(input, at) => (Some(unit), at + 1),
        _ => (None, at),
    }
}

/// The place behind a sign, or this one where none stands.
#[tactic(auto, unfolding(crate::specs::Parts::Parts::minus))]
fn past_sign(input: &LexedText, at: usize) -> usize
    requires { Within input.now at }
    ensures is { Parts.minus (source input.now) at ≡ Ok (sign 45 (source input.now) at, result) }
    ensures inside { NotBefore input.now at result }
{
    if is_symbol(input, at, b'-') || is_symbol(input, at, b'+') {
        at + 1
    } else {
        at
    }
}

/// A number, with a sign and a unit or without.
#[tactic(auto, unfolding(crate::specs::Parts::Parts::number))]
fn number(input: &LexedText, at: usize) -> Result<(Expression, usize), TreeFault>
    requires { Within input.now at }
    ensures gives { Gives (λ x. (expression_view x.0, x.1)) result (Parts.number (source input.now) at) }
    ensures ok { IfOk result (λ x. Further input.now at x.1) }
    ensures err { IfErr result (Refuses input.now) }
{
    let is_signed = is_symbol(input, at, b'-');
    let first = past_sign(input, at);
    match peek(input, first) {
        Some(Seen::Decimal) => Ok((
            Expression {
                value: WrittenValue::Other,
                at,
            },
            first + 1,
        )),
        Some(Seen::Number(count)) => {
            let (unit, end) = unit_behind(input, first + 1);
            let value = WrittenValue::Number {
                // `-0` is 0: as a negative number it would be refused where a time stands.
                is_negative: is_signed && 0 < count,
                count,
                unit,
            };
            Ok((Expression { value, at }, end))
        }
        _ => Err(TreeFault::Unexpected(first)),
    }
}

/// Whether a point with a word behind it stands here.
fn is_path(input: &LexedText, at: usize) -> bool
    ensures is { result ≡ Parts.on_path (source input.now) at }
    ensures inside { result ≡ true → at + 1 < count input.now }
{
    is_symbol(input, at, b'.') && is_word(input, at + 1)
}

/// The place behind words that are joined by points, the first of which stands before this place.
fn path_end(input: &LexedText, at: usize) -> usize
    requires { Within input.now at }
    ensures gives { Parts.path (source input.now) at ≡ Ok (tt, result) }
    ensures inside { NotBefore input.now at result }
{
    let mut next = at;
    'path: while is_path(input, next) {
        next += 2;
    }
    next
}

/// A word, or words that are joined by points.
#[tactic(auto, unfolding(crate::specs::Parts::Parts::word_value), using(crate::proofs::Names::identifier_ascii))]
fn word_value(input: &LexedText, at: usize) -> Result<(Expression, usize), TreeFault>
    requires { Within input.now at }
    ensures gives { Gives (λ x. (expression_view x.0, x.1)) result (Parts.word_value (source input.now) at) }
    ensures ok { IfOk result (λ x. Further input.now at x.1) }
    ensures err { IfErr result (Refuses input.now) }
{
    let Some(Seen::Letters(letters)) = peek(input, at) else {
        return Err(TreeFault::Unexpected(at));
    };
    let end = path_end(input, at + 1);
    // No parameter is named by words with points, so no more of these is kept.
    let value = if end == at + 1 {
        WrittenValue::Word(text_of(input.alloc, letters)?)
    } else {
        WrittenValue::Other
    };
    Ok((Expression { value, at }, end))
}

/// A value without brackets around it.
#[tactic(auto, unfolding(crate::specs::Parts::Parts::bare_value))]
fn bare_value(input: &LexedText, at: usize) -> Result<(Expression, usize), TreeFault>
    requires { Within input.now at }
    ensures gives { Gives (λ x. (expression_view x.0, x.1)) result (Parts.bare_value (source input.now) at) }
    ensures ok { IfOk result (λ x. Further input.now at x.1) }
    ensures err { IfErr result (Refuses input.now) }
{
    if is_code(input, at) {
        let value = WrittenValue::Code;
        return Ok((Expression { value, at }, at + 1));
    }
    if is_text(input, at) {
        let value = WrittenValue::Other;
        return Ok((Expression { value, at }, at + 1));
    }
    if is_word(input, at) {
        return word_value(input, at);
    }
    number(input, at)
}

/// The value that all tokens up to the second place are, if they are one without brackets around it.
fn lone_value(input: &LexedText, at: usize, end: usize) -> Result<Option<Expression>, TreeFault>
    requires { Within input.now at }
    ensures gives { Gives (λ x. option_map expression_view x) result (Ok (Parts.sole end (Parts.bare_value (source input.now) at))) }
    ensures err { IfErr result (Refuses input.now) }
{
    match bare_value(input, at) {
        Ok((value, next)) if next == end => Ok(Some(value)),
        // Any other refusal says only that the list is more than one bare value, which is allowed.
        Err(TreeFault::NoMemory) => Err(TreeFault::NoMemory),
        _ => Ok(None),
    }
}

/// A list between brackets. One of a single value is that value.
#[tactic(auto, unfolding(crate::specs::Parts::Parts::list))]
fn list(
    input: &LexedText,
    at: usize,
    opening: u8,
    closing: u8,
) -> Result<(Expression, usize), TreeFault>
    requires { Within input.now at }
    ensures gives { Gives (λ x. (expression_view x.0, x.1)) result (Parts.list opening closing (source input.now) at) }
    ensures ok { IfOk result (λ x. Further input.now at x.1) }
    ensures err { IfErr result (Refuses input.now) }
{
    let end = group_end(input, at, opening, closing)?;
    match lone_value(input, at + 1, end)? {
        Some(value) => Ok((value, end + 1)),
        None => Ok((
            Expression {
                value: WrittenValue::Other,
                at,
            },
            end + 1,
        )),
    }
}

/// An array between square brackets, also of a single value.
#[tactic(auto, unfolding(crate::specs::Parts::Parts::array))]
fn array(input: &LexedText, at: usize) -> Result<(Expression, usize), TreeFault>
    requires { Within input.now at }
    ensures gives { Gives (λ x. (expression_view x.0, x.1)) result (Parts.array (source input.now) at) }
    ensures ok { IfOk result (λ x. Further input.now at x.1) }
    ensures err { IfErr result (Refuses input.now) }
{
    let end = group_end(input, at, b'[', b']')?;
    Ok((
        Expression {
            value: WrittenValue::Other,
            at,
        },
        end + 1,
    ))
}

/// Any value.
#[tactic(auto, unfolding(crate::specs::Parts::Parts::expression))]
pub fn expression(input: &LexedText, at: usize) -> Result<(Expression, usize), TreeFault>
    requires { Within input.now at }
    ensures gives { Gives (λ x. (expression_view x.0, x.1)) result (Parts.expression (source input.now) at) }
    ensures ok { IfOk result (λ x. Further input.now at x.1) }
    ensures err { IfErr result (Refuses input.now) }
{
    if is_symbol(input, at, b'(') {
        return list(input, at, b'(', b')');
    }
    if is_symbol(input, at, b'{') {
        return list(input, at, b'{', b'}');
    }
    if is_symbol(input, at, b'[') {
        return array(input, at);
    }
    bare_value(input, at)
}

/// A value behind `=` or in brackets, which may be left out.
#[tactic(auto, unfolding(crate::specs::Parts::Parts::initial))]
pub fn initial(input: &LexedText, at: usize) -> Result<(Option<Expression>, usize), TreeFault>
    requires { Within input.now at }
    ensures gives { Gives (λ x. (option_map expression_view x.0, x.1)) result (Parts.initial (source input.now) at) }
    ensures ok { IfOk result (λ x. NotBefore input.now at x.1) }
    ensures err { IfErr result (Refuses input.now) }
{
    if is_symbol(input, at, b'=') {
        let (value, end) = expression(input, at + 1)?;
        return Ok((Some(value), end));
    }
    // A `(` may also begin the next member: connections of several sources stand in one.
    if is_symbol(input, at, b'{') || opens_values(input, at) {
        let (value, end) = expression(input, at)?;
        return Ok((Some(value), end));
    }
    Ok((None, at))
}

/// A value of a list, with the comma behind it.
#[tactic(auto, unfolding(crate::specs::Parts::Parts::item))]
fn item(input: &LexedText, at: usize) -> Result<(Expression, usize), TreeFault>
    requires { Within input.now at }
    ensures gives { Gives (λ x. (expression_view x.0, x.1)) result (Parts.item (source input.now) at) }
    ensures ok { IfOk result (λ x. Further input.now at x.1) }
    ensures err { IfErr result (Refuses input.now) }
{
    let (value, end) = expression(input, at)?;
    let next = past_item(input, end, b')')?;
    Ok((value, next))
}

/// A value of a list. None where the list ends.
#[tactic(auto, unfolding(crate::specs::Parts::Parts::listed_value))]
fn listed_value(input: &LexedText, at: usize) -> Result<(Option<Expression>, usize), TreeFault>
    requires { Within input.now at }
    ensures gives { Gives (λ x. (option_map expression_view x.0, x.1)) result (Parts.listed_value (source input.now) at) }
    ensures ok { IfOk result (λ x. NotBefore input.now at x.1) }
    ensures err { IfErr result (Refuses input.now) }
{
    if is_symbol(input, at, b')') {
        return Ok((None, at));
    }
    let (value, end) = item(input, at)?;
    Ok((Some(value), end))
}

/// A value of a list that means nothing.
fn skip_item(input: &LexedText, at: usize) -> Result<usize, TreeFault>
    requires { Within input.now at }
    ensures gives { Gives at_next result (ignored Parts.item (source input.now) at) }
    ensures ok { IfOk result (Further input.now at) }
    ensures err { IfErr result (Refuses input.now) }
{
    let (_, end) = item(input, at)?;
    Ok(end)
}

/// The place behind the `)` that ends a list whose other values begin here.
fn past_list(input: &LexedText, at: usize) -> Result<usize, TreeFault>
    requires { Within input.now at }
    ensures gives { Gives at_next result (Parts.rest (source input.now) at) }
    ensures ok { IfOk result (Further input.now at) }
    ensures err { IfErr result (Refuses input.now) }
{
    let mut next = at;
    'values: while !is_symbol(input, next, b')') {
        next = skip_item(input, next)?;
    }
    Ok(next + 1)
}

/// The first two values in parentheses, which may be left out.
#[tactic(auto, unfolding(crate::specs::Parts::Parts::two_values))]
pub fn two_values(
    input: &LexedText,
    at: usize,
) -> Result<(Option<Expression>, Option<Expression>, usize), TreeFault>
    requires { Within input.now at }
    ensures gives { Gives (λ x. ((option_map expression_view x.0, option_map expression_view x.1), x.2)) result (Parts.two_values (source input.now) at) }
    ensures ok { IfOk result (λ x. NotBefore input.now at x.2) }
    ensures err { IfErr result (Refuses input.now) }
{
    if !opens_values(input, at) {
        return Ok((None, None, at));
    }
    // Behind the end of the list both answers are none: the `)` is left for `past_list`.
    let (first, next) = listed_value(input, at + 1)?;
    let (second, rest) = listed_value(input, next)?;
    let end = past_list(input, rest)?;
    Ok((first, second, end))
}
