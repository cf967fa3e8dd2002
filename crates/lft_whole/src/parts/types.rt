//! Types. They mean nothing, but for the word `time`.

ghost use Rattle.std.specs.Prelude.{◌≡◌, ◌<◌, ◌≤◌, true, IfOk, IfErr, Ok};
ghost use Rattle.lft_whole.specs.inner.Parts.{Parsing.{count, Within, Further, NotBefore, Refuses, source}, View.{Gives, at_next}};
ghost use Rattle.lft_whole.specs.Parts.Parts as Parts;

use crate::TreeFault;
use crate::parts::groups::{group, past_group};
use crate::parts::lexed::LexedText;
use crate::parts::names::skip_name;
use crate::parts::tokens::{is_code, is_key, is_symbol, past_symbol, symbol, word};

fn is_part(input: &LexedText, at: usize) -> bool
    ensures is { result ≡ Parts.on_part (source input.now) at }
    ensures inside { result ≡ true → at < count input.now }
{
    // A single colon is no part of a type's name, so both are asked for.
    is_symbol(input, at, b'.') || is_symbol(input, at, b':') && is_symbol(input, at + 1, b':')
}

/// `.NAME` or `::NAME`.
#[tactic(auto, unfolding(crate::specs::Parts::Parts::type_part))]
fn part(input: &LexedText, at: usize) -> Result<usize, TreeFault>
    requires { Within input.now at }
    ensures gives { Gives at_next result (Parts.type_part (source input.now) at) }
    ensures ok { IfOk result (Further input.now at) }
    ensures err { IfErr result (Refuses input.now) }
{
    if is_symbol(input, at, b'.') {
        return skip_name(input, at + 1);
    }
    let second = symbol(input, at, b':')?;
    let end = symbol(input, second, b':')?;
    skip_name(input, end)
}

/// The place behind what goes on with a name.
fn past_parts(input: &LexedText, at: usize) -> Result<usize, TreeFault>
    requires { Within input.now at }
    ensures gives { Gives at_next result (Parts.type_parts (source input.now) at) }
    ensures ok { IfOk result (NotBefore input.now at) }
    ensures err { IfErr result (Refuses input.now) }
{
    let mut next = at;
    'parts: while is_part(input, next) {
        next = part(input, next)?;
    }
    Ok(next)
}

/// Names joined by `.` or `::`.
#[tactic(auto, unfolding(crate::specs::Parts::Parts::joined_names))]
fn joined_names(input: &LexedText, at: usize) -> Result<usize, TreeFault>
    requires { Within input.now at }
    ensures gives { Gives at_next result (Parts.joined_names (source input.now) at) }
    ensures ok { IfOk result (Further input.now at) }
    ensures err { IfErr result (Refuses input.now) }
{
    let parts = skip_name(input, at)?;
    past_parts(input, parts)
}

/// Whether `*` or `&` stands here.
fn is_sign(input: &LexedText, at: usize) -> bool
    ensures is { result ≡ Parts.on_sign (source input.now) at }
    ensures inside { result ≡ true → at < count input.now }
{
    is_symbol(input, at, b'*') || is_symbol(input, at, b'&')
}

/// The place behind the signs `*` and `&`.
fn past_signs(input: &LexedText, at: usize) -> usize
    requires { Within input.now at }
    ensures gives { Parts.signs (source input.now) at ≡ Ok (tt, result) }
    ensures inside { NotBefore input.now at result }
{
    let mut next = at;
    'signs: while is_sign(input, next) {
        next += 1;
    }
    next
}

/// The place behind what arrays are written with.
fn past_arrays(input: &LexedText, at: usize) -> Result<usize, TreeFault>
    requires { Within input.now at }
    ensures gives { Gives at_next result (Parts.arrays (source input.now) at) }
    ensures ok { IfOk result (NotBefore input.now at) }
    ensures err { IfErr result (Refuses input.now) }
{
    let mut next = at;
    'arrays: while is_symbol(input, next, b'[') {
        next = group(input, next, b'[', b']')?;
    }
    Ok(next)
}

/// Code, or a name with arguments and signs.
#[tactic(auto, unfolding(crate::specs::Parts::Parts::plain_type))]
fn plain_type(input: &LexedText, at: usize) -> Result<usize, TreeFault>
    requires { Within input.now at }
    ensures gives { Gives at_next result (Parts.plain_type (source input.now) at) }
    ensures ok { IfOk result (Further input.now at) }
    ensures err { IfErr result (Refuses input.now) }
{
    if is_code(input, at) {
        return Ok(at + 1);
    }
    let name_end = joined_names(input, at)?;
    let arguments_end = past_group(input, name_end, b'<', b'>')?;
    Ok(past_signs(input, arguments_end))
}

/// What begins behind the `:` of a field: another record, or any other type. It answers how many records are open,
/// and whether a type stands before the place.
#[tactic(auto, unfolding(crate::specs::Parts::Parts::field_type))]
fn field_type(input: &LexedText, at: usize, depth: usize) -> Result<(usize, bool, usize), TreeFault>
    requires within { Within input.now at }
    requires depth { depth ≤ at }
    ensures gives { Gives (λ x. ((x.0, x.1), x.2)) result (Parts.field_type depth (source input.now) at) }
    ensures ok { IfOk result (λ x. (x.0 ≤ x.2) × Further input.now at x.2) }
    ensures err { IfErr result (Refuses input.now) }
{
    if is_symbol(input, at, b'{') {
        return Ok((depth + 1, false, at + 1));
    }
    let end = plain_type(input, at)?;
    Ok((depth, true, end))
}

/// A field of a record, as `name?: type`.
#[tactic(auto, unfolding(crate::specs::Parts::Parts::field))]
fn field(input: &LexedText, at: usize, depth: usize) -> Result<(usize, bool, usize), TreeFault>
    requires within { Within input.now at }
    requires depth { depth ≤ at }
    ensures gives { Gives (λ x. ((x.0, x.1), x.2)) result (Parts.field depth (source input.now) at) }
    ensures ok { IfOk result (λ x. (x.0 ≤ x.2) × Further input.now at x.2) }
    ensures err { IfErr result (Refuses input.now) }
{
    // Any word, reserved or not: no member is a word and a colon, so none is taken for a field.
    let mark = word(input, at)?;
    let colon = past_symbol(input, mark, b'?');
    let first = symbol(input, colon, b':')?;
    field_type(input, first, depth)
}

/// The `}` of the innermost record.
#[tactic(auto, unfolding(crate::specs::Parts::Parts::record_end))]
fn record_end(input: &LexedText, at: usize, depth: usize) -> Result<(usize, bool, usize), TreeFault>
    requires within { Within input.now at }
    requires depth { (0 < depth) × (depth ≤ at) }
    ensures gives { Gives (λ x. ((x.0, x.1), x.2)) result (Parts.record_end depth (source input.now) at) }
    ensures ok { IfOk result (λ x. (x.0 ≤ x.2) × Further input.now at x.2) }
    ensures err { IfErr result (Refuses input.now) }
{
    let end = symbol(input, at, b'}')?;
    Ok((depth - 1, true, end))
}

/// What goes on with the type of a field, or ends it.
#[tactic(auto, unfolding(crate::specs::Parts::Parts::behind_type))]
fn behind_type(
    input: &LexedText,
    at: usize,
    depth: usize,
) -> Result<(usize, bool, usize), TreeFault>
    requires within { Within input.now at }
    requires depth { (0 < depth) × (depth ≤ at) }
    ensures gives { Gives (λ x. ((x.0, x.1), x.2)) result (Parts.behind_type depth (source input.now) at) }
    ensures ok { IfOk result (λ x. (x.0 ≤ x.2) × Further input.now at x.2) }
    ensures err { IfErr result (Refuses input.now) }
{
    if is_symbol(input, at, b'[') {
        let end = group(input, at, b'[', b']')?;
        return Ok((depth, true, end));
    }
    if is_symbol(input, at, b'|') {
        return field_type(input, at + 1, depth);
    }
    if is_symbol(input, at, b',') || is_symbol(input, at, b';') {
        return Ok((depth, false, at + 1));
    }
    record_end(input, at, depth)
}

/// One part of a record: what stands behind a type, or else a field or the end.
#[tactic(auto, unfolding(crate::specs::Parts::Parts::record_step))]
fn record_step(
    input: &LexedText,
    at: usize,
    depth: usize,
    is_behind: bool,
) -> Result<(usize, bool, usize), TreeFault>
    requires within { Within input.now at }
    requires depth { (0 < depth) × (depth ≤ at) }
    ensures gives { Gives (λ x. ((x.0, x.1), x.2)) result (Parts.record_step (depth, is_behind) (source input.now) at) }
    ensures ok { IfOk result (λ x. (x.0 ≤ x.2) × Further input.now at x.2) }
    ensures err { IfErr result (Refuses input.now) }
{
    if is_behind {
        return behind_type(input, at, depth);
    }
    if is_symbol(input, at, b'}') {
        return record_end(input, at, depth);
    }
    field(input, at, depth)
}

/// Whether some record is open.
fn is_open(depth: usize) -> bool
    ensures is { result ≡ Parts.is_open depth }
    ensures some { result ≡ true → 0 < depth }
{
    depth != 0
}

/// The place behind the `}` of the record that opens before this one.
fn record_rest(input: &LexedText, at: usize) -> Result<usize, TreeFault>
    requires { (0 < at) × Within input.now at }
    ensures gives { Gives at_next result (Parts.record_rest (source input.now) at) }
    ensures ok { IfOk result (NotBefore input.now at) }
    ensures err { IfErr result (Refuses input.now) }
{
    let mut depth: usize = 1;
    let mut is_behind = false;
    let mut next = at;
    // A record in another is counted, and not read by a call: so no text makes calls as deep as it likes.
    'record: while is_open(depth) {
        let (open, behind, end) = record_step(input, next, depth, is_behind)?;
        depth = open;
        is_behind = behind;
        next = end;
    }
    Ok(next)
}

/// What arrays are made of: a record in braces, code, or a name with arguments and signs.
#[tactic(auto, unfolding(crate::specs::Parts::Parts::element))]
fn element(input: &LexedText, at: usize) -> Result<usize, TreeFault>
    requires { Within input.now at }
    ensures gives { Gives at_next result (Parts.element (source input.now) at) }
    ensures ok { IfOk result (Further input.now at) }
    ensures err { IfErr result (Refuses input.now) }
{
    if is_symbol(input, at, b'{') {
        let first = symbol(input, at, b'{')?;
        return record_rest(input, first);
    }
    plain_type(input, at)
}

/// A type without a bar.
#[tactic(auto, unfolding(crate::specs::Parts::Parts::member_type))]
fn member_type(input: &LexedText, at: usize) -> Result<usize, TreeFault>
    requires { Within input.now at }
    ensures gives { Gives at_next result (Parts.member_type (source input.now) at) }
    ensures ok { IfOk result (Further input.now at) }
    ensures err { IfErr result (Refuses input.now) }
{
    let end = element(input, at)?;
    past_arrays(input, end)
}

/// The place behind the types of a union that stand behind the first, each behind a bar.
fn past_union(input: &LexedText, at: usize) -> Result<usize, TreeFault>
    requires { Within input.now at }
    ensures gives { Gives at_next result (Parts.union (source input.now) at) }
    ensures ok { IfOk result (NotBefore input.now at) }
    ensures err { IfErr result (Refuses input.now) }
{
    let mut next = at;
    'types: while is_symbol(input, next, b'|') {
        next = member_type(input, next + 1)?;
    }
    Ok(next)
}

/// A type: whether it is `time`.
#[tactic(auto, unfolding(crate::specs::Parts::Parts::one_type))]
fn type_here(input: &LexedText, at: usize) -> Result<(bool, usize), TreeFault>
    requires { Within input.now at }
    ensures gives { Gives (λ x. (x.0, x.1)) result (Parts.one_type (source input.now) at) }
    ensures ok { IfOk result (λ x. Further input.now at x.1) }
    ensures err { IfErr result (Refuses input.now) }
{
    let first_end = member_type(input, at)?;
    let end = past_union(input, first_end)?;
    // The word alone is asked for: `time*` and `time[]` are other types, whose values stand for no time.
    Ok((is_key(input, at, b"time") && end == at + 1, end))
}

/// `:` and a type, which may be left out: whether it is `time`, if it stands there.
#[tactic(auto, unfolding(crate::specs::Parts::Parts::typed))]
pub fn typed(input: &LexedText, at: usize) -> Result<(Option<bool>, usize), TreeFault>
    requires { Within input.now at }
    ensures gives { Gives (λ x. (x.0, x.1)) result (Parts.typed (source input.now) at) }
    ensures ok { IfOk result (λ x. NotBefore input.now at x.1) }
    ensures err { IfErr result (Refuses input.now) }
{
    if !is_symbol(input, at, b':') {
        return Ok((None, at));
    }
    let (is_time, end) = type_here(input, at + 1)?;
    Ok((Some(is_time), end))
}
