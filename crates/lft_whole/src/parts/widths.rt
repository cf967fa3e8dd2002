//! Widths of banks and multiports.

ghost use Rattle.std.specs.Prelude.{◌≡◌, ◌<◌, true, IfOk, IfErr, Ok, map, option_map};
ghost use Rattle.lft_whole.specs.inner.Parts.{Parsing.{count, Within, Further, NotBefore, Refuses, source}, View.Gives};
ghost use Rattle.lft_whole.specs.Parts.View.{count_view, term_view, width_view};
ghost use Rattle.lft_whole.specs.Parts.Parts as Parts;

use crate::parts::lexed::LexedText;
use crate::parts::references::reference;
use crate::parts::tokens::{is_key, is_symbol, peek, symbol};
use crate::{Count, Term, TreeFault, Width};
use lft_syntax::{Seen, text_of};

/// Whether `widthof(` stands here.
fn is_width_of(input: &LexedText, at: usize) -> bool
    ensures is { result ≡ Parts.on_width_of (source input.now) at }
    ensures inside { result ≡ true → at < count input.now }
{
    // The word isn't reserved: without `(` it is a parameter's name.
    is_key(input, at, b"widthof") && is_symbol(input, at + 1, b'(')
}

/// `widthof(..)`, whose parenthesis stands here.
#[tactic(auto, unfolding(crate::specs::Parts::Parts::width_of))]
fn width_of(input: &LexedText, at: usize) -> Result<(Count, usize), TreeFault>
    requires { Within input.now at }
    ensures gives { Gives (λ x. (count_view x.0, x.1)) result (Parts.width_of (source input.now) at) }
    ensures ok { IfOk result (λ x. Further input.now at x.1) }
    ensures err { IfErr result (Refuses input.now) }
{
    let first = symbol(input, at, b'(')?;
    let (reference, closing) = reference(input, first)?;
    let end = symbol(input, closing, b')')?;
    Ok((Count::WidthOf(reference), end))
}

#[tactic(auto, unfolding(crate::specs::Parts::Parts::count), using(crate::proofs::Names::identifier_ascii))]
fn count_here(input: &LexedText, at: usize) -> Result<(Count, usize), TreeFault>
    requires { Within input.now at }
    ensures gives { Gives (λ x. (count_view x.0, x.1)) result (Parts.count (source input.now) at) }
    ensures ok { IfOk result (λ x. Further input.now at x.1) }
    ensures err { IfErr result (Refuses input.now) }
{
    if is_width_of(input, at) {
        return width_of(input, at + 1);
    }
    match peek(input, at) {
        Some(Seen::Code) => Ok((Count::Code, at + 1)),
        Some(Seen::Number(number)) => Ok((Count::Number(number), at + 1)),
        Some(Seen::Letters(letters)) => {
            Ok((Count::Word(text_of(input.alloc, letters)?), at + 1))
        }
        _ => Err(TreeFault::Unexpected(at)),
    }
}

#[tactic(auto, unfolding(crate::specs::Parts::Parts::term))]
fn term(input: &LexedText, at: usize) -> Result<(Term, usize), TreeFault>
    requires { Within input.now at }
    ensures gives { Gives (λ x. (term_view x.0, x.1)) result (Parts.term (source input.now) at) }
    ensures ok { IfOk result (λ x. Further input.now at x.1) }
    ensures err { IfErr result (Refuses input.now) }
{
    let (count, end) = count_here(input, at)?;
    Ok((Term { count, at }, end))
}

/// Terms with `+` between them, one at least.
#[tactic(auto, unfolding(crate::specs::Parts::Parts::terms))]
fn terms(input: &LexedText, at: usize) -> Result<(Vec<Term>, usize), TreeFault>
    requires { Within input.now at }
    ensures gives { Gives (λ x. (map term_view x.0.items, x.1)) result (Parts.terms (source input.now) at) }
    ensures ok { IfOk result (λ x. Further input.now at x.1) }
    ensures err { IfErr result (Refuses input.now) }
{
    let mut terms = Vec::new(input.alloc);
    let (first, behind) = term(input, at)?;
    terms.push(first)?;
    let mut next = behind;
    'sum: while is_symbol(input, next, b'+') {
        let (term, after) = term(input, next + 1)?;
        terms.push(term)?;
        next = after;
    }
    Ok((terms, next))
}

/// The one term of an open width, whose bracket stands at a place.
fn open_width(input: &LexedText, at: usize) -> Result<Width, TreeFault>
    ensures gives { Gives width_view result (Ok (Parts.open_width at tt)) }
    ensures err { IfErr result (Refuses input.now) }
{
    // A term for nothing at all: so a width has one always, and its refusal a place.
    let mut terms = Vec::new(input.alloc);
    let count = Count::Open;
    terms.push(Term { count, at })?;
    Ok(Width { terms })
}

/// A width in its brackets, which may be left out.
#[tactic(auto, unfolding(crate::specs::Parts::Parts::width))]
pub fn width(input: &LexedText, at: usize) -> Result<(Option<Width>, usize), TreeFault>
    requires { Within input.now at }
    ensures gives { Gives (λ x. (option_map width_view x.0, x.1)) result (Parts.width (source input.now) at) }
    ensures ok { IfOk result (λ x. NotBefore input.now at x.1) }
    ensures err { IfErr result (Refuses input.now) }
{
    if !is_symbol(input, at, b'[') {
        return Ok((None, at));
    }
    let first = at + 1;
    if is_symbol(input, first, b']') {
        return Ok((Some(open_width(input, at)?), first + 1));
    }
    let (terms, closing) = terms(input, first)?;
    let end = symbol(input, closing, b']')?;
    Ok((Some(Width { terms }), end))
}
