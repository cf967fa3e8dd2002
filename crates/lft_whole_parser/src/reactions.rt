//! Reactions, mutations and watchdogs.

ghost use Rattle.std.specs.Prelude.{◌≡◌, ◌<◌, true, IfOk, IfErr, map};
ghost use Rattle.lft_whole.specs.inner.Parts.{Parsing.{count, Within, Further, NotBefore, Refuses, source}, View.{Gives, at_next}};
ghost use Rattle.lft_whole.specs.Parts.{Language.listed, View.{trigger_view, reference_view, effect_view, reaction_view}};
ghost use Rattle.lft_whole_parser.specs.Grammar as Grammar;

use crate::declarations::is_preamble;
use lft_whole::parts::groups::{group, past_group};
use lft_whole::parts::lexed::LexedText;
use lft_whole::parts::names::skip_name;
use lft_whole::parts::references::{effects, reference, references};
use lft_whole::parts::tokens::{
    code, is_arrow, is_key, is_symbol, is_word, key, past_code, past_item, symbol,
};
use lft_whole::{Effect, Reaction, Reference, TreeFault, Trigger};

/// Whether this word stands here for itself, and not for a port of what it names.
fn is_alone(input: &LexedText, at: usize, word: &[u8]) -> bool
    ensures is { result ≡ Grammar.on_alone word.now (source input.now) at }
    ensures inside { result ≡ true → at < count input.now }
{
    is_key(input, at, word) && !is_symbol(input, at + 1, b'.')
}

/// What a reaction is triggered by: a word of its own, or a reference.
#[tactic(auto, unfolding(crate::specs::Grammar::trigger))]
fn trigger(input: &LexedText, at: usize) -> Result<(Trigger, usize), TreeFault>
    requires { Within input.now at }
    ensures gives { Gives (λ x. (trigger_view x.0, x.1)) result (Grammar.trigger (source input.now) at) }
    ensures ok { IfOk result (λ x. Further input.now at x.1) }
    ensures err { IfErr result (Refuses input.now) }
{
    if is_alone(input, at, b"startup") {
        return Ok((Trigger::Startup, at + 1));
    }
    if is_alone(input, at, b"shutdown") {
        return Ok((Trigger::Shutdown, at + 1));
    }
    // Kept with its place: what `reset` triggers is of modes, and is refused where the reactor is used.
    if is_alone(input, at, b"reset") {
        return Ok((Trigger::Reset { at }, at + 1));
    }
    let (reference, end) = reference(input, at)?;
    Ok((Trigger::Reference(reference), end))
}

/// A trigger, with the comma behind it.
fn listed_trigger(input: &LexedText, at: usize) -> Result<(Trigger, usize), TreeFault>
    requires { Within input.now at }
    ensures gives { Gives (λ x. (trigger_view x.0, x.1)) result (listed 41 Grammar.trigger (source input.now) at) }
    ensures ok { IfOk result (λ x. Further input.now at x.1) }
    ensures err { IfErr result (Refuses input.now) }
{
    let (trigger, end) = trigger(input, at)?;
    let next = past_item(input, end, b')')?;
    Ok((trigger, next))
}

/// Triggers in parentheses, of which the first stands here, and the place behind them.
fn triggers(input: &LexedText, at: usize) -> Result<(Vec<Trigger>, usize), TreeFault>
    requires { Within input.now at }
    ensures gives { Gives (λ x. (map trigger_view x.0.items, x.1)) result (Grammar.triggers (source input.now) at) }
    ensures ok { IfOk result (λ x. Further input.now at x.1) }
    ensures err { IfErr result (Refuses input.now) }
{
    let mut triggers = Vec::new(input.alloc);
    let mut next = at;
    'list: while !is_symbol(input, next, b')') {
        let (trigger, end) = listed_trigger(input, next)?;
        triggers.push(trigger)?;
        next = end;
    }
    Ok((triggers, next + 1))
}

/// Whether a word stands here that begins a declaration.
fn is_declaring(input: &LexedText, at: usize) -> bool
    ensures is { result ≡ Grammar.on_declaring (source input.now) at }
    ensures inside { result ≡ true → at < count input.now }
{
    is_key(input, at, b"input")
        || is_key(input, at, b"output")
        || is_key(input, at, b"mutable")
        || is_key(input, at, b"timer")
        || is_key(input, at, b"logical")
        || is_key(input, at, b"physical")
        || is_key(input, at, b"action")
        || is_key(input, at, b"state")
        || is_key(input, at, b"reset")
}

/// Whether a word stands here that begins a member with code or a mode.
fn is_coded(input: &LexedText, at: usize) -> bool
    ensures is { result ≡ Grammar.on_coded (source input.now) at }
    ensures inside { result ≡ true → at < count input.now }
{
    is_preamble(input, at)
        || is_key(input, at, b"method")
        || is_key(input, at, b"const")
        || is_key(input, at, b"reaction")
        || is_key(input, at, b"mutation")
        || is_key(input, at, b"mode")
        || is_key(input, at, b"initial")
        || is_key(input, at, b"watchdog")
}

/// Whether a handler of late events begins here.
fn is_handler(input: &LexedText, at: usize) -> bool
    ensures is { result ≡ Grammar.on_handler (source input.now) at }
    ensures inside { result ≡ true → at < count input.now }
{
    is_key(input, at, b"deadline")
        || is_key(input, at, b"STP")
        || is_key(input, at, b"STAA")
        || is_key(input, at, b"tardy")
        || is_key(input, at, b"maxwait")
}

/// Whether the word here is a use of the reaction before it, and begins no declaration, code or handler.
fn is_use(input: &LexedText, at: usize) -> bool
    ensures is { result ≡ Grammar.on_use (source input.now) at }
    ensures inside { result ≡ true → at < count input.now }
{
    // Code may be left out. Then the word behind the triggers may begin the next member.
    let is_other = is_declaring(input, at) || is_coded(input, at) || is_handler(input, at);
    is_word(input, at) && !is_other && !is_symbol(input, at + 1, b'=')
}

/// Uses, which may be left out.
#[tactic(auto, unfolding(crate::specs::Grammar::uses))]
fn uses(input: &LexedText, at: usize) -> Result<(Vec<Reference>, usize), TreeFault>
    requires { Within input.now at }
    ensures gives { Gives (λ x. (map reference_view x.0.items, x.1)) result (Grammar.uses (source input.now) at) }
    ensures ok { IfOk result (λ x. NotBefore input.now at x.1) }
    ensures err { IfErr result (Refuses input.now) }
{
    if is_use(input, at) {
        return references(input, at);
    }
    Ok((Vec::new(input.alloc), at))
}

/// Effects behind an arrow, which may be left out.
#[tactic(auto, unfolding(crate::specs::Grammar::written))]
fn written(input: &LexedText, at: usize) -> Result<(Vec<Effect>, usize), TreeFault>
    requires { Within input.now at }
    ensures gives { Gives (λ x. (map effect_view x.0.items, x.1)) result (Grammar.written (source input.now) at) }
    ensures ok { IfOk result (λ x. NotBefore input.now at x.1) }
    ensures err { IfErr result (Refuses input.now) }
{
    if is_arrow(input, at) {
        return effects(input, at + 1);
    }
    Ok((Vec::new(input.alloc), at))
}

/// The place behind the handler of late events whose word stands here. Its code may stand elsewhere.
#[tactic(auto, unfolding(crate::specs::Grammar::handler))]
fn handler(input: &LexedText, at: usize) -> Result<usize, TreeFault>
    requires { at < count input.now }
    ensures gives { Gives at_next result (Grammar.handler (source input.now) at) }
    ensures ok { IfOk result (Further input.now at) }
    ensures err { IfErr result (Refuses input.now) }
{
    let body = past_group(input, at + 1, b'(', b')')?;
    Ok(past_code(input, body))
}

/// The place behind the handlers of late events.
fn past_handlers(input: &LexedText, at: usize) -> Result<usize, TreeFault>
    requires { Within input.now at }
    ensures gives { Gives at_next result (Grammar.handlers (source input.now) at) }
    ensures ok { IfOk result (NotBefore input.now at) }
    ensures err { IfErr result (Refuses input.now) }
{
    // A deadline's runs in place of the reaction, at its tag and with its
    // effects. The others run in federations alone. So none is kept.
    let mut next = at;
    'handlers: while is_handler(input, next) {
        next = handler(input, next)?;
    }
    Ok(next)
}

/// A reaction's own name, which may be left out.
#[tactic(auto, unfolding(crate::specs::Grammar::own_name))]
fn past_name(input: &LexedText, at: usize) -> Result<usize, TreeFault>
    requires { Within input.now at }
    ensures gives { Gives at_next result (Grammar.own_name (source input.now) at) }
    ensures ok { IfOk result (NotBefore input.now at) }
    ensures err { IfErr result (Refuses input.now) }
{
    if is_word(input, at) {
        skip_name(input, at)
    } else {
        Ok(at)
    }
}

/// A reaction or mutation. Its code may stand elsewhere.
#[tactic(auto, unfolding(crate::specs::Grammar::reaction))]
pub fn reaction(input: &LexedText, at: usize, word: &[u8]) -> Result<(Reaction, usize), TreeFault>
    requires { Within input.now at }
    ensures gives { Gives (λ x. (reaction_view x.0, x.1)) result (Grammar.reaction word.now (source input.now) at) }
    ensures ok { IfOk result (λ x. Further input.now at x.1) }
    ensures err { IfErr result (Refuses input.now) }
{
    let own = key(input, at, word)?;
    let opening = past_name(input, own)?;
    let first = symbol(input, opening, b'(')?;
    let (triggers, behind) = triggers(input, first)?;
    let (uses, arrow) = uses(input, behind)?;
    let (effects, body) = written(input, arrow)?;
    // Handlers stand behind the code, also where that is left out.
    let end = past_handlers(input, past_code(input, body))?;
    Ok((
        Reaction {
            triggers,
            uses,
            effects,
            at,
        },
        end,
    ))
}

/// The place behind a watchdog.
#[tactic(auto, unfolding(crate::specs::Grammar::watchdog))]
pub fn watchdog(input: &LexedText, at: usize) -> Result<usize, TreeFault>
    requires { Within input.now at }
    ensures gives { Gives at_next result (Grammar.watchdog (source input.now) at) }
    ensures ok { IfOk result (Further input.now at) }
    ensures err { IfErr result (Refuses input.now) }
{
    let own = key(input, at, b"watchdog")?;
    let opening = skip_name(input, own)?;
    let arrow = group(input, opening, b'(', b')')?;
    let (_, body) = written(input, arrow)?;
    code(input, body)
}
