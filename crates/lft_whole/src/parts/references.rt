//! References, and what a reaction may write.

ghost use Rattle.std.specs.Prelude.{◌≡◌, ◌<◌, true, IfOk, IfErr, map};
ghost use Rattle.lft_whole.specs.inner.Parts.{Parsing.{count, Within, Further, NotBefore, Refuses, source}, View.{Gives, at_next}};
ghost use Rattle.lft_whole.specs.Parts.View.{reference_view, effect_view};
ghost use Rattle.lft_whole.specs.Parts.Parts as Parts;

use crate::parts::groups::group;
use crate::parts::lexed::LexedText;
use crate::parts::names::{name, skip_name};
use crate::parts::tokens::{is_key, is_symbol, symbol};
use crate::{Effect, Reference, TreeFault};

/// A name, or a port of a contained instance.
#[tactic(auto, unfolding(crate::specs::Parts::Parts::plain_reference))]
fn plain_reference(
    input: &LexedText,
    at: usize,
    is_interleaved: bool,
) -> Result<(Reference, usize), TreeFault>
    requires { Within input.now at }
    ensures gives { Gives (λ x. (reference_view x.0, x.1)) result (Parts.plain_reference is_interleaved (source input.now) at) }
    ensures ok { IfOk result (λ x. Further input.now at x.1) }
    ensures err { IfErr result (Refuses input.now) }
{
    let (head, point) = name(input, at)?;
    if !is_symbol(input, point, b'.') {
        let port = None;
        return Ok((
            Reference {
                head,
                port,
                is_interleaved,
            },
            point,
        ));
    }
    let (port, end) = name(input, point + 1)?;
    Ok((
        Reference {
            head,
            port: Some(port),
            is_interleaved,
        },
        end,
    ))
}

/// Whether `interleaved(` stands here.
pub fn is_interleaved(input: &LexedText, at: usize) -> bool
    ensures is { result ≡ Parts.on_interleaved (source input.now) at }
    ensures inside { result ≡ true → at < count input.now }
{
    // The word isn't reserved: without `(` it is a name like others.
    is_key(input, at, b"interleaved") && is_symbol(input, at + 1, b'(')
}

/// The place behind `as NAME`, which may be left out.
#[tactic(auto, unfolding(crate::specs::Parts::Parts::alias))]
fn past_alias(input: &LexedText, at: usize) -> Result<usize, TreeFault>
    requires { Within input.now at }
    ensures gives { Gives at_next result (Parts.alias (source input.now) at) }
    ensures ok { IfOk result (NotBefore input.now at) }
    ensures err { IfErr result (Refuses input.now) }
{
    // The other name is one for the reaction's code, which isn't read.
    if is_key(input, at, b"as") {
        skip_name(input, at + 1)
    } else {
        Ok(at)
    }
}

/// A reference, interleaved or not, also under another name.
#[tactic(auto, unfolding(crate::specs::Parts::Parts::reference))]
pub fn reference(input: &LexedText, at: usize) -> Result<(Reference, usize), TreeFault>
    requires { Within input.now at }
    ensures gives { Gives (λ x. (reference_view x.0, x.1)) result (Parts.reference (source input.now) at) }
    ensures ok { IfOk result (λ x. Further input.now at x.1) }
    ensures err { IfErr result (Refuses input.now) }
{
    if is_interleaved(input, at) {
        let opening = at + 1;
        let first = symbol(input, opening, b'(')?;
        let (reference, closing) = plain_reference(input, first, true)?;
        let end = symbol(input, closing, b')')?;
        return Ok((reference, end));
    }
    let (reference, behind) = plain_reference(input, at, false)?;
    let end = past_alias(input, behind)?;
    Ok((reference, end))
}

/// References with commas between them, one at least.
#[tactic(auto, unfolding(crate::specs::Parts::Parts::references))]
pub fn references(input: &LexedText, at: usize) -> Result<(Vec<Reference>, usize), TreeFault>
    requires { Within input.now at }
    ensures gives { Gives (λ x. (map reference_view x.0.items, x.1)) result (Parts.references (source input.now) at) }
    ensures ok { IfOk result (λ x. Further input.now at x.1) }
    ensures err { IfErr result (Refuses input.now) }
{
    let mut references = Vec::new(input.alloc);
    let (first, behind) = reference(input, at)?;
    references.push(first)?;
    let mut next = behind;
    'list: while is_symbol(input, next, b',') {
        let (reference, after) = reference(input, next + 1)?;
        references.push(reference)?;
        next = after;
    }
    Ok((references, next))
}

/// Whether `reset(` or `history(` stands here.
fn is_mode(input: &LexedText, at: usize) -> bool
    ensures is { result ≡ Parts.on_mode (source input.now) at }
    ensures inside { result ≡ true → at < count input.now }
{
    // Neither word is reserved: without `(` it is the name of a port or action.
    let is_word = is_key(input, at, b"reset") || is_key(input, at, b"history");
    is_word && is_symbol(input, at + 1, b'(')
}

#[tactic(auto, unfolding(crate::specs::Parts::Parts::effect))]
fn effect(input: &LexedText, at: usize) -> Result<(Effect, usize), TreeFault>
    requires { Within input.now at }
    ensures gives { Gives (λ x. (effect_view x.0, x.1)) result (Parts.effect (source input.now) at) }
    ensures ok { IfOk result (λ x. Further input.now at x.1) }
    ensures err { IfErr result (Refuses input.now) }
{
    if is_mode(input, at) {
        let opening = at + 1;
        let end = group(input, opening, b'(', b')')?;
        return Ok((Effect::Mode { at }, end));
    }
    let (reference, end) = reference(input, at)?;
    Ok((Effect::Reference(reference), end))
}

/// Effects with commas between them, one at least.
#[tactic(auto, unfolding(crate::specs::Parts::Parts::effects))]
pub fn effects(input: &LexedText, at: usize) -> Result<(Vec<Effect>, usize), TreeFault>
    requires { Within input.now at }
    ensures gives { Gives (λ x. (map effect_view x.0.items, x.1)) result (Parts.effects (source input.now) at) }
    ensures ok { IfOk result (λ x. Further input.now at x.1) }
    ensures err { IfErr result (Refuses input.now) }
{
    let mut effects = Vec::new(input.alloc);
    let (first, behind) = effect(input, at)?;
    effects.push(first)?;
    let mut next = behind;
    'list: while is_symbol(input, next, b',') {
        let (effect, after) = effect(input, next + 1)?;
        effects.push(effect)?;
        next = after;
    }
    Ok((effects, next))
}
