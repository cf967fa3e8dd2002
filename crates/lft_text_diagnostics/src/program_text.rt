//! Why a program's text is refused, for people.

ghost use Rattle.std.specs.Prelude.{◌≡◌, ◌≢◌, ℕ, ◌+◌, ◌<◌, ◌≤◌, ◌++◌, List, length, string_bytes, IfOk, IfSome, OnOk};
ghost use Rattle.lft_syntax.specs.{declared.fault.LexFault.TheVariants.NoMemory as LexNoMemory, Lexes.{LexFails, Lexes}};
ghost use Rattle.lft_text_diagnostics.specs.{Candidates.{IsHelp, IsWholeHelp}, inner.{Refusals.{IsRefusedFrom, MayHelp}, Trying.{AreTokens, CanStandBehind}}};
ghost use Rattle.lft_text_diagnostics.specs.{Refusals.HasNoTree, Told.{SaysAt, TellsProgram, long_words}};

use crate::before::Before;
use crate::candidates::{candidates, push_candidates};
use crate::diagnostic::Diagnostic;
use crate::headers;
use crate::left_out::push_left_out;
use crate::place::place_of;
use crate::quoting::{push_line, push_place};
use crate::refusal::{TextRefusal, at_byte, at_token};
use crate::sentence::push_sentence;
use crate::ways::{CODE, NO_CODE, of_candidates, of_fault, of_token};
use crate::words::push_way;
use lft_ir::words::push_number;
use lft_syntax::{
    LexFault, MAX_LENGTH, SyntaxFault, Token, TokenKind, Tokens, lex, parse, refused_at,
};
use lft_tag::NoMemory;
use std::alloc::Global;

/// Where more could stand, it isn't said what.
const MOST_CANDIDATES: usize = 6;

/// Puts what to write in place of the token behind the text, or else what could stand there.
fn push_help_at_token(
    out: &mut String,
    before: &Before<'_>,
    kind: TokenKind,
    spelling: &[u8],
) -> Result<(), NoMemory>
    requires lexed { AreTokens before.now }
    ensures { OnOk result ((help : List ℕ) × IsHelp (CanStandBehind before.now) help × (string_bytes out.new ≡ string_bytes out.old ++ help)) }
{
    let way = match of_token(kind, spelling) {
        Some(way) => Some(way),
        None => before.way_of_last()?,
    };
    // The tokens before it tell more than its spelling alone.
    let better = before.way(kind, spelling)?;
    if way.is_some() {
        return push_way(out, better.or(way));
    }
    // Asked only now: the parser tries each of some twenty things.
    let found = candidates(before.alloc, before)?;
    push_candidates(before.alloc, out, &found, MOST_CANDIDATES)?;
    push_way(out, better.or(of_candidates(kind, before, &found)))?;
    Ok(())
}

/// Puts what could stand behind the tokens in place of the next one, or what to write there, behind the text.
/// What else is left out further on is listed.
fn push_help(out: &mut String, before: &Before<'_>) -> Result<(), NoMemory>
    requires lexed { AreTokens before.now }
    ensures { OnOk result ((help : List ℕ) × IsWholeHelp (CanStandBehind before.now) help × (string_bytes out.new ≡ string_bytes out.old ++ help)) }
{
    // Asked first: of a table the first word is refused, and what could stand in its place is no help.
    let way = headers::of_program(before.text);
    if way.is_some() {
        push_way(out, way)?;
        return Ok(());
    }
    match before.token(0) {
        Some(token) => {
            push_help_at_token(out, before, token.kind, before.spelling(0))?;
            push_left_out(before.alloc, out, before.text, before.tokens, token.end)
        }
        None => {
            let found = candidates(before.alloc, before)?;
            push_candidates(before.alloc, out, &found, MOST_CANDIDATES)
        }
    }
}

/// How long a text is that is too long, and how long it may be. It has no place, and nothing of it is quoted.
fn tell_long(alloc: Global, length: usize) -> Result<String, NoMemory>
    ensures { IfOk result (λ words. string_bytes words ≡ long_words length) }
{
    let mut out = String::new(alloc);
    out.push_str("Program: the text has ")?;
    push_number(&mut out, length as u64)?;
    out.push_str(" bytes, and may have ")?;
    push_number(&mut out, MAX_LENGTH as u64)?;
    out.push_str(".\n")?;
    Ok(out)
}

/// Where a text is refused, what is wrong there, the line with a mark, and the help.
fn tell_at(alloc: Global, text: &[u8], refusal: TextRefusal, help: &str) -> Result<String, NoMemory>
    requires inside { (refusal.start ≤ refusal.end) × (refusal.end ≤ length text.now) }
    ensures { IfOk result (λ words. SaysAt text.now refusal help.now (string_bytes words)) }
{
    let place = place_of(text, refusal.start);
    let mut told = Diagnostic::new(alloc);
    push_place(&mut told.place, place)?;
    push_sentence(alloc, &mut told.sentence, text, refusal)?;
    push_line(
        alloc,
        &mut told.lines,
        text,
        place,
        refusal.start,
        refusal.end,
    )?;
    told.help.push_str(help)?;
    told.print()
}

/// Where and why a program's text has no tokens, in lines that end with a line feed: the place, what is
/// wrong there, the line itself with a mark, and what helps. Of a text of more than
/// `lft_syntax::MAX_LENGTH` bytes its length is told, and no place.
pub fn tell_no_tokens(alloc: Global, text: &[u8], fault: LexFault) -> Result<String, NoMemory>
    requires fails { LexFails text.now fault }
    requires fault { fault ≢ LexNoMemory }
    ensures { IfOk result (λ words. TellsProgram text.now (string_bytes words)) }
{
    let Some(refusal) = at_byte(text, fault) else {
        return tell_long(alloc, text.len());
    };
    let way = headers::of_program(text).or(of_fault(fault, &text[refusal.start..]));
    let mut help = String::new(alloc);
    push_way(&mut help, way)?;
    tell_at(alloc, text, refusal, help.as_str())
}

/// Where and why the tokens of a program's text spell no tree, in such lines. The number is that of the
/// first token at which no tree can be spelled, as `lft_syntax::parse` gives it. Behind the line with a mark
/// it is told what could stand there, and what to write in place of what the language has and `lftrace`
/// leaves out. What else is left out further on is listed.
///
/// What could stand there is found by trying: the text before the place is read once for each thing.
pub fn tell_no_tree(
    alloc: Global,
    text: &[u8],
    tokens: &Tokens,
    number: usize,
) -> Result<String, NoMemory>
    requires number { (0 < number) × (number ≤ length tokens.now + 1) }
    requires none { HasNoTree text.now tokens.now number }
    ensures { IfOk result (λ words. TellsProgram text.now (string_bytes words)) }
{
    let before = Before {
        alloc,
        text,
        tokens,
        count: number - 1,
    };
    let mut help = String::new(alloc);
    push_help(&mut help, &before)?;
    tell_at(alloc, text, at_token(text, tokens, number), help.as_str())
}

/// What helps in place of a token that stands behind others: by the tokens before it, or by what could stand there.
/// A whole program may have a reaction without code, so in its place it is told how code is written.
fn way_behind(before: &Before<'_>, token: Token) -> Result<Option<&'static str>, NoMemory>
    requires lexed { AreTokens before.now }
{
    let better = before.way(token.kind, before.spelling(0))?;
    let found = candidates(before.alloc, before)?;
    match better.or(of_candidates(token.kind, before, &found)) {
        Some(way) if way == NO_CODE => Ok(Some(CODE)),
        way => Ok(way),
    }
}

/// What helps where the tokens of a text spell no tree, if a token that begins between two bytes shows that.
fn way_among(
    alloc: Global,
    text: &[u8],
    tokens: &Tokens,
    from: usize,
    to: usize,
) -> Result<Option<&'static str>, NoMemory>
    requires lexed { Lexes text.now tokens.now }
    ensures { IfOk result (λ way. IfSome way (λ _. IsRefusedFrom text.now from to)) }
{
    let number = match parse(alloc, text, tokens) {
        Ok(_) => return Ok(None),
        Err(SyntaxFault::NoMemory) => return Err(NoMemory),
        Err(SyntaxFault::Unexpected(number)) => number,
    };
    let Some(token) = tokens.as_slice().get(number - 1) else {
        return Ok(None);
    };
    // As a core text it is refused elsewhere, and what helps there doesn't help here.
    if token.start < from || to < token.start {
        return Ok(None);
    }
    let count = number - 1;
    let before = Before {
        alloc,
        text,
        tokens,
        count,
    };
    way_behind(&before, *token)
}

/// What helps where a core text is refused at a byte, or at a token from another byte on.
fn way_of_core(
    alloc: Global,
    text: &[u8],
    from: usize,
    at: usize,
) -> Result<Option<&'static str>, NoMemory>
    ensures { IfOk result (λ way. IfSome way (λ _. IsRefusedFrom text.now from at)) }
{
    match lex(alloc, text) {
        Ok(tokens) => way_among(alloc, text, &tokens, from, at),
        Err(LexFault::NoMemory) => Err(NoMemory),
        Err(fault) => match text.get(at..) {
            Some(rest) if refused_at(text) == Some(at) => Ok(of_fault(fault, rest)),
            _ => Ok(None),
        },
    }
}

/// What helps where a text is refused at a byte, if as a core text it is refused there too, or at a token from another
/// byte on. What a core text leaves out isn't told: a whole program may have it.
pub fn way_at(
    alloc: Global,
    text: &[u8],
    from: usize,
    at: usize,
) -> Result<Option<&'static str>, NoMemory>
    ensures { IfOk result (λ way. IfSome way (λ words. MayHelp text.now from at words.now)) }
{
    let way = match headers::of_program(text) {
        Some(way) => Some(way),
        None => way_of_core(alloc, text, from, at)?,
    };
    match way {
        // By the words themselves, so that no second list has to follow them.
        Some(words) if !words.contains("left out") => Ok(way),
        _ => Ok(None),
    }
}
