//! Groups: the tokens between two brackets. Only these two are counted.

ghost use Rattle.std.specs.Prelude.{◌≡◌, ◌<◌, ◌≤◌, true, IfOk, IfErr, ◌+◌, ◌&&◌, ◌==◌, false};
ghost use Rattle.lft_whole.specs.inner.Parts.{Parsing.{count, Within, Further, NotBefore, Refuses, source}, View.{Gives, GivesAlways, at_next}};
ghost use Rattle.lft_whole.specs.Parts.{Lexeme.see, Language.{repeat, within, opened, ignored}, Parts.{on_values, before_arrow}};
ghost use Rattle.lft_syntax.specs.Lexeme.{Symbol, is};
ghost use Rattle.lft_whole.specs.Parts.Language as Language;

use crate::TreeFault;
use crate::parts::lexed::LexedText;
use crate::parts::tokens::{is_arrow, is_symbol, is_there, is_tilde_arrow, symbol};

/// Whether the token here is of the group, in which so many other brackets are open, and doesn't close it.
fn is_inside(input: &LexedText, at: usize, depth: usize, closing: u8) -> bool
    ensures is { result ≡ Language.inside closing depth (source input.now) at }
    ensures inside { result ≡ false → at < count input.now }
{
    !(is_symbol(input, at, closing) && depth == 0)
}

/// How many other brackets are open behind the token here.
fn depth_behind(input: &LexedText, at: usize, depth: usize, opening: u8, closing: u8) -> usize
    requires depth { depth ≤ at }
    requires there { at < count input.now }
    requires closing { (is (Symbol closing) (see (source input.now) at) && (depth == 0)) ≡ false }
    ensures is { result ≡ Language.deep opening closing depth (see (source input.now) at) }
    ensures inside { result ≤ depth + 1 }
{
    if is_symbol(input, at, opening) {
        return depth + 1;
    }
    if is_symbol(input, at, closing) {
        // Not of 0: a closing bracket at depth 0 ends the group, and isn't asked for.
        depth - 1
    } else {
        depth
    }
}

/// The place of the bracket that closes the group whose tokens begin here.
fn closing_of(input: &LexedText, at: usize, opening: u8, closing: u8) -> Result<usize, TreeFault>
    requires { Within input.now at }
    ensures gives { GivesAlways at_next result (ignored (repeat (Language.inside closing) (within opening closing) 0) (source input.now) at) }
    ensures ok { IfOk result (λ end. (at ≤ end) × (end < count input.now)) }
    ensures err { IfErr result (Refuses input.now) }
{
    let mut depth: usize = 0;
    let mut next = at;
    // True at the end of the tokens too, so that an open group is refused there and not taken as closed.
    'group: while is_inside(input, next, depth, closing) {
        if !is_there(input, next) {
            return Err(TreeFault::Unexpected(next));
        }
        depth = depth_behind(input, next, depth, opening, closing);
        next += 1;
    }
    Ok(next)
}

/// The place of the bracket that closes the group which opens here.
#[tactic(auto, unfolding(crate::specs::Parts::Language::opened))]
pub fn group_end(input: &LexedText, at: usize, opening: u8, closing: u8) -> Result<usize, TreeFault>
    requires { Within input.now at }
    ensures gives { GivesAlways at_next result (opened opening closing (source input.now) at) }
    ensures ok { IfOk result (λ end. (at < end) × (end < count input.now)) }
    ensures err { IfErr result (Refuses input.now) }
{
    let first = symbol(input, at, opening)?;
    closing_of(input, first, opening, closing)
}

/// The place behind the group which opens here.
pub fn group(input: &LexedText, at: usize, opening: u8, closing: u8) -> Result<usize, TreeFault>
    requires { Within input.now at }
    ensures gives { Gives at_next result (Language.group opening closing (source input.now) at) }
    ensures ok { IfOk result (Further input.now at) }
    ensures err { IfErr result (Refuses input.now) }
{
    let end = group_end(input, at, opening, closing)?;
    Ok(end + 1)
}

/// The place behind a group, or this one where none opens here.
pub fn past_group(
    input: &LexedText,
    at: usize,
    opening: u8,
    closing: u8,
) -> Result<usize, TreeFault>
    requires { Within input.now at }
    ensures gives { Gives at_next result (Language.past_group opening closing (source input.now) at) }
    ensures ok { IfOk result (NotBefore input.now at) }
    ensures err { IfErr result (Refuses input.now) }
{
    if is_symbol(input, at, opening) {
        group(input, at, opening, closing)
    } else {
        Ok(at)
    }
}

/// Whether the `(` here begins a connection, as in `(a, b)+ -> c`, and no values of what stands before it.
fn begins_connection(input: &LexedText, at: usize) -> bool
    requires { Within input.now at }
    ensures is { result ≡ before_arrow (source input.now) (opened 40 41 (source input.now) at) }
{
    match group_end(input, at, b'(', b')') {
        Ok(end) => {
            let next = end + 1;
            is_symbol(input, next, b'+') || is_arrow(input, next) || is_tilde_arrow(input, next)
        }
        // A `(` that isn't closed is read as values, and that refuses it where the text ends.
        Err(_) => false,
    }
}

/// Whether values in parentheses open here.
#[tactic(auto, unfolding(crate::specs::Parts::Parts::on_values))]
pub fn opens_values(input: &LexedText, at: usize) -> bool
    requires { Within input.now at }
    ensures is { result ≡ on_values (source input.now) at }
    ensures inside { result ≡ true → at < count input.now }
{
    is_symbol(input, at, b'(') && !begins_connection(input, at)
}
