//! Single tokens: what stands at a place, and the place behind one that must stand there.

ghost use Rattle.std.specs.Prelude.{◌≡◌, ◌<◌, ◌≤◌, ◌+◌, ◌-◌, ◌^◌, true, IfSome, IfOk, IfErr, if◌then◌else◌};
ghost use Rattle.lft_syntax.specs.{Lexeme.{Code, Text, Arrow, TildeArrow, is, unit_in}, Language.look, inner.Seen.seen_there};
ghost use Rattle.lft_whole.specs.inner.Parts.{Parsing.{count, Within, Further, Refuses, AreLetters, source}, View.{Gives, GivesAlways, at_next}};
ghost use Rattle.lft_whole.specs.Parts.{Lexeme.{see, is_word as is_any_word}, Language.on};
ghost use Rattle.lft_syntax.specs.Lexeme as Lexeme;
ghost use Rattle.lft_whole.specs.Parts.Language as Language;

use crate::TreeFault;
use crate::parts::lexed::LexedText;
use lft_syntax::{Seen, unit_named};
use lft_tree::TimeUnit;

/// What stands at a place.
#[tactic(auto, unfolding(crate::specs::Parts::Lexeme::see))]
pub fn peek<'a>(input: &LexedText<'a>, at: usize) -> Option<Seen<'a>>
    ensures is { seen_there result ≡ see (source input.now) at }
    ensures inside { IfSome result (λ _. (at < count input.now) × (at < 2 ^ 63 - 1)) }
    ensures letters { IfSome result AreLetters }
{
    let token = input.tokens.get(at)?;
    Some(Seen::of(input.text, *token))
}

pub fn is_there(input: &LexedText, at: usize) -> bool
    ensures is { result ≡ on Lexeme.is_there (source input.now) at }
    ensures inside { result ≡ true → at < count input.now }
{
    peek(input, at).is_some()
}

pub fn is_symbol(input: &LexedText, at: usize, byte: u8) -> bool
    ensures is { result ≡ Language.sign byte (source input.now) at }
    ensures inside { result ≡ true → at < count input.now }
{
    match peek(input, at) {
        Some(Seen::Symbol(b)) => byte == b,
        _ => false,
    }
}

/// Whether this word stands there.
pub fn is_key(input: &LexedText, at: usize, word: &[u8]) -> bool
    ensures is { result ≡ Language.word word.now (source input.now) at }
    ensures inside { result ≡ true → at < count input.now }
{
    match peek(input, at) {
        Some(Seen::Letters(letters)) => word == letters,
        _ => false,
    }
}

/// Whether a word stands there, reserved or not.
pub fn is_word(input: &LexedText, at: usize) -> bool
    ensures is { result ≡ on is_any_word (source input.now) at }
    ensures inside { result ≡ true → at < count input.now }
{
    matches!(peek(input, at), Some(Seen::Letters(_)))
}

pub fn is_code(input: &LexedText, at: usize) -> bool
    ensures is { result ≡ on (is Code) (source input.now) at }
    ensures inside { result ≡ true → at < count input.now }
{
    matches!(peek(input, at), Some(Seen::Code))
}

pub fn is_text(input: &LexedText, at: usize) -> bool
    ensures is { result ≡ on (is Text) (source input.now) at }
    ensures inside { result ≡ true → at < count input.now }
{
    matches!(peek(input, at), Some(Seen::Text))
}

pub fn is_arrow(input: &LexedText, at: usize) -> bool
    ensures is { result ≡ on (is Arrow) (source input.now) at }
    ensures inside { result ≡ true → at < count input.now }
{
    matches!(peek(input, at), Some(Seen::Arrow))
}

pub fn is_tilde_arrow(input: &LexedText, at: usize) -> bool
    ensures is { result ≡ on (is TildeArrow) (source input.now) at }
    ensures inside { result ≡ true → at < count input.now }
{
    matches!(peek(input, at), Some(Seen::TildeArrow))
}

pub fn symbol(input: &LexedText, at: usize, byte: u8) -> Result<usize, TreeFault>
    requires { Within input.now at }
    ensures gives { GivesAlways at_next result (Language.symbol byte (source input.now) at) }
    ensures ok { IfOk result (Further input.now at) }
    ensures err { IfErr result (Refuses input.now) }
{
    if is_symbol(input, at, byte) {
        Ok(at + 1)
    } else {
        Err(TreeFault::Unexpected(at))
    }
}

pub fn key(input: &LexedText, at: usize, word: &[u8]) -> Result<usize, TreeFault>
    requires { Within input.now at }
    ensures gives { Gives at_next result (Language.key word.now (source input.now) at) }
    ensures ok { IfOk result (Further input.now at) }
    ensures err { IfErr result (Refuses input.now) }
{
    if is_key(input, at, word) {
        Ok(at + 1)
    } else {
        Err(TreeFault::Unexpected(at))
    }
}

pub fn code(input: &LexedText, at: usize) -> Result<usize, TreeFault>
    requires { Within input.now at }
    ensures gives { Gives at_next result (Language.one (on (is Code)) (source input.now) at) }
    ensures ok { IfOk result (Further input.now at) }
    ensures err { IfErr result (Refuses input.now) }
{
    if is_code(input, at) {
        Ok(at + 1)
    } else {
        Err(TreeFault::Unexpected(at))
    }
}

/// Any word, reserved or not.
pub fn word(input: &LexedText, at: usize) -> Result<usize, TreeFault>
    requires { Within input.now at }
    ensures gives { Gives at_next result (Language.one (on is_any_word) (source input.now) at) }
    ensures ok { IfOk result (Further input.now at) }
    ensures err { IfErr result (Refuses input.now) }
{
    if is_word(input, at) {
        Ok(at + 1)
    } else {
        Err(TreeFault::Unexpected(at))
    }
}

/// The place behind a symbol, or this one where another token stands here.
pub fn past_symbol(input: &LexedText, at: usize, byte: u8) -> usize
    requires { Within input.now at }
    ensures is { result ≡ (if Language.sign byte (source input.now) at then at + 1 else at) }
    ensures inside { (at ≤ result) × Within input.now result }
{
    if is_symbol(input, at, byte) {
        at + 1
    } else {
        at
    }
}

/// The place behind a word, or this one where another token stands here.
pub fn past_key(input: &LexedText, at: usize, word: &[u8]) -> usize
    requires { Within input.now at }
    ensures is { result ≡ (if Language.word word.now (source input.now) at then at + 1 else at) }
    ensures inside { (at ≤ result) × Within input.now result }
{
    if is_key(input, at, word) { at + 1 } else { at }
}

/// The place behind code, or this one where another token stands here.
pub fn past_code(input: &LexedText, at: usize) -> usize
    requires { Within input.now at }
    ensures is { result ≡ (if on (is Code) (source input.now) at then at + 1 else at) }
    ensures inside { (at ≤ result) × Within input.now result }
{
    if is_code(input, at) { at + 1 } else { at }
}

/// The place behind whatever stands here.
pub fn past_any(input: &LexedText, at: usize) -> usize
    requires { Within input.now at }
    ensures is { result ≡ (if on Lexeme.is_there (source input.now) at then at + 1 else at) }
    ensures inside { (at ≤ result) × Within input.now result }
{
    if is_there(input, at) { at + 1 } else { at }
}

/// Behind an item of a list that may end in a comma: the place behind the comma, or that of what closes the list.
pub fn past_item(input: &LexedText, at: usize, closing: u8) -> Result<usize, TreeFault>
    requires { Within input.now at }
    ensures gives { Gives at_next result (Language.behind_item closing (source input.now) at) }
    ensures ok { IfOk result (λ next. (at ≤ next) × Within input.now next) }
    ensures err { IfErr result (Refuses input.now) }
{
    if is_symbol(input, at, b',') {
        return Ok(at + 1);
    }
    if is_symbol(input, at, closing) {
        Ok(at)
    } else {
        Err(TreeFault::Unexpected(at))
    }
}

/// The unit that stands at a place.
pub fn unit(input: &LexedText, at: usize) -> Option<TimeUnit>
    ensures is { result ≡ look unit_in (see (source input.now) at) }
    ensures inside { IfSome result (λ _. at < count input.now) }
{
    match peek(input, at) {
        Some(Seen::Letters(letters)) => unit_named(letters),
        _ => None,
    }
}
