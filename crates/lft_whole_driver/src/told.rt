//! Why a program isn't lowered, in words.

ghost use Rattle.std.specs.Prelude.{◌≡◌, ◌-◌, IfOk, Some, slice_get, string_bytes};
ghost use Rattle.lft_whole_parser.specs.Imports.Files.{AreOfTexts};
ghost use Rattle.lft_program.specs.inner.Refusals.{Tells, cause_of};
ghost use Rattle.lft_whole.specs.Sources.Causes.{names, number_of};
ghost use Rattle.lft_whole_driver.specs.Told.{IsSentence, IsToldTree, IsUnexpected, TellsAt, TellsRefusal, TellsTree, where_words as words_where};
ghost use Rattle.lft_whole_driver.specs.inner.Told.{IsTold};
ghost use Rattle.lft_load.specs.declared.fault.Detail.TheVariants as detail;
ghost use Rattle.lft_load.specs.declared.fault.Part.TheVariants as part;

use crate::could::push_could;
use crate::hints::SoughtName;
use crate::names::FileNames;
use crate::pages::join_files;
use lft_load::files::Failure;
use lft_load::{Detail, Fault, Part};
use lft_program::Refusal as ProgramRefusal;
use lft_program_diagnostics::{Span, push_marked, tell_refusal_in};
use lft_tag::NoMemory;
use lft_text_diagnostics::words::push_way;
use lft_text_diagnostics::{Diagnostic, TOO_SOON, push_standing, way_at};
use lft_tree::Ast;
use lft_whole::sources::{FileRefusal, NoProgram, Place, SourceFile, Why, push_place};
use lft_whole::{TextFault, Token, TokenKind, lex};
use std::alloc::{AllocError, Global};

/// Why a program isn't lowered: its fault, and what is told of it for people. Where memory is refused, or the
/// program's own file can't be read, nothing is told.
#[derive(Drop)]
pub struct Unlowered {
    pub failure: Failure,
    pub told: Option<String>,
}

impl From<Failure> for Unlowered {
    ghost use Rattle.std.specs.Prelude.{◌≡◌, None};

    ghost from_gives = { λ failure e. e ≡ record { failure = failure; told = None } };

    fn from(failure: Failure) -> Unlowered {
        Unlowered {
            failure,
            told: None,
        }
    }
}

impl From<Fault> for Unlowered {
    ghost use Rattle.std.specs.Prelude.{◌≡◌, None};

    ghost from_gives = { λ fault e. e ≡ record { failure = record { fault = fault; cause = None }; told = None } };

    fn from(fault: Fault) -> Unlowered {
        Unlowered::from(Failure::from(fault))
    }
}

impl From<AllocError> for Unlowered {
    ghost use Rattle.std.specs.Prelude.{◌≡◌, None};

    ghost from_gives = { λ _ e. e.told ≡ None };

    fn from(_error: AllocError) -> Unlowered {
        Unlowered::from(Fault::no_memory())
    }
}

impl From<NoMemory> for Unlowered {
    ghost use Rattle.std.specs.Prelude.{◌≡◌, None};

    ghost from_gives = { λ _ e. e.told ≡ None };

    fn from(_error: NoMemory) -> Unlowered {
        Unlowered::from(Fault::no_memory())
    }
}

/// Where a token of one of the files is, as `FILE:LINE:COLUMN`.
fn where_words(alloc: Global, files: &[SourceFile], place: Place) -> Result<String, NoMemory>
    ensures { IfOk result (λ words. string_bytes words ≡ words_where files.now place) }
{
    let mut text = String::new(alloc);
    if let Some(file) = files.get(place.file) {
        push_place(alloc, &mut text, file, place.token)?;
    }
    Ok(text)
}

/// The fault of a refusal at a place in words.
fn fault_of(refusal: FileRefusal, words: String) -> Fault
    ensures part { result.part ≡ part.Lower }
    ensures number { result.number ≡ number_of refusal.why }
    ensures name { slice_get names (number_of refusal.why - 1) ≡ Some result.name.now }
    ensures detail { result.detail ≡ detail.Words words }
{
    let (number, name) = refusal.why.cause();
    Fault {
        part: Part::Lower,
        number,
        name,
        detail: Detail::Words(words),
    }
}

/// A token of a file. Behind the last one it has no bytes, and in a text without tokens the byte that shows it.
fn token_in(alloc: Global, file: &SourceFile, token: usize) -> Result<Token, NoMemory> {
    let end = file.text.len();
    // Read into tokens once more: a file keeps lines and columns, no bytes,
    // and a refused one alone is asked for these.
    match lex(alloc, &file.text) {
        Ok(tokens) => match tokens.as_slice().get(token) {
            Some(token) => Ok(*token),
            None => Ok(Token {
                kind: TokenKind::Name,
                start: end,
                end,
            }),
        },
        Err(TextFault::BadText(at)) => Ok(Token {
            kind: TokenKind::Name,
            start: at,
            end: end.min(at.saturating_add(1)),
        }),
        Err(TextFault::NoMemory) => Err(NoMemory),
    }
}

/// The bytes of such a token.
fn spot_in(alloc: Global, file: &SourceFile, token: usize) -> Result<Span, NoMemory> {
    let token = token_in(alloc, file, token)?;
    Ok(Span {
        start: token.start,
        end: token.end,
    })
}

/// What is said of a token that can't stand where it is, or of a text that ends there.
fn unexpected_words(alloc: Global, file: &SourceFile, token: usize) -> Result<String, NoMemory>
    ensures { IfOk result (λ words. IsUnexpected (string_bytes words)) }
{
    let token = token_in(alloc, file, token)?;
    let bytes = file.text.get(token.start..token.end).unwrap_or(b"");
    let mut out = String::new(alloc);
    if bytes.is_empty() {
        out.push_str(TOO_SOON)?;
    } else {
        push_standing(alloc, &mut out, token.kind, bytes)?;
    }
    Ok(out)
}

/// What is said of a refusal: of a token that can't stand where it is its bytes, else the sentence of the cause.
/// Something may be said first.
fn sentence(
    alloc: Global,
    files: &[SourceFile],
    refusal: FileRefusal,
    first: &str,
) -> Result<String, NoMemory>
    ensures { IfOk result (λ words. IsSentence first.now refusal.why (string_bytes words)) }
{
    if refusal.why == Why::Unexpected
        && let Some(file) = files.get(refusal.place.file)
    {
        return unexpected_words(alloc, file, refusal.place.token);
    }
    let mut out = String::new(alloc);
    out.push_str(first)?;
    out.push_str(refusal.why.words())?;
    Ok(out)
}

/// Puts the line of a token behind the text, with a mark at it.
fn push_line(
    alloc: Global,
    out: &mut String,
    files: &[SourceFile],
    place: Place,
) -> Result<(), NoMemory> {
    let Some(file) = files.get(place.file) else {
        return Ok(());
    };
    let spot = spot_in(alloc, file, place.token)?;
    push_marked(alloc, out, &file.text, &[], Some(spot))
}

/// Puts the line of the first of two behind the text, and where that is, if it is in another file.
fn push_first(
    alloc: Global,
    out: &mut String,
    files: &[SourceFile],
    second: Place,
    first: Place,
) -> Result<(), NoMemory> {
    if first.file != second.file {
        let place = where_words(alloc, files, first)?;
        out.push_str(place.as_str())?;
        out.push_str(":\n")?;
    }
    push_line(alloc, out, files, first)
}

/// Puts what helps where a text isn't of the grammar behind the text.
fn push_help(
    alloc: Global,
    out: &mut String,
    file: &SourceFile,
    refusal: FileRefusal,
) -> Result<(), NoMemory> {
    let token = refusal.place.token;
    let spot = spot_in(alloc, file, token)?;
    if refusal.why == Why::Unexpected {
        push_could(alloc, out, &file.text, spot.start, token)?;
    }
    // Of the first token this is the token itself.
    let before = spot_in(alloc, file, token.saturating_sub(1))?;
    push_way(out, way_at(alloc, &file.text, before.start, spot.start)?)
}

/// The line of a refusal with a mark, and what helps. Of two things of which the second is refused both lines.
fn quoting(
    alloc: Global,
    files: &[SourceFile],
    refusal: FileRefusal,
) -> Result<Diagnostic, NoMemory> {
    let mut told = Diagnostic::new(alloc);
    let Some(file) = files.get(refusal.place.file) else {
        return Ok(told);
    };
    if matches!(refusal.why, Why::Unexpected | Why::NotText) {
        push_line(alloc, &mut told.lines, files, refusal.place)?;
        push_help(alloc, &mut told.help, file, refusal)?;
        return Ok(told);
    }
    let Ok(tokens) = lex(alloc, &file.text) else {
        // The cause is none of a text without tokens, so only memory can be refused.
        return Err(NoMemory);
    };
    let hint = SoughtName {
        names: FileNames { alloc, files },
        file,
        tokens: &tokens,
        place: refusal.place,
    };
    if let Some(first) = hint.before(refusal.why)? {
        push_first(alloc, &mut told.lines, files, refusal.place, first)?;
    }
    push_line(alloc, &mut told.lines, files, refusal.place)?;
    hint.push(&mut told.help, refusal.why)?;
    Ok(told)
}

/// What is told of a refusal at a place in words, in lines that end with a line feed.
fn told_of(
    alloc: Global,
    files: &[SourceFile],
    refusal: FileRefusal,
    first: &str,
    place: &str,
) -> Result<String, NoMemory>
    ensures { IfOk result (λ words. TellsAt place.now first.now refusal.why (string_bytes words)) }
{
    let sentence = sentence(alloc, files, refusal, first)?;
    let mut at = String::new(alloc);
    at.push_str(place)?;
    at.push_str(": ")?;
    let mut told = quoting(alloc, files, refusal)?;
    told.place = at;
    told.sentence = sentence;
    told.print()
}

/// A refusal with its fault, and what is told of it.
fn refused(
    alloc: Global,
    files: &[SourceFile],
    refusal: FileRefusal,
    first: &str,
) -> Result<Unlowered, NoMemory>
    ensures { IfOk result (TellsRefusal files.now first.now refusal) }
{
    let place = where_words(alloc, files, refusal.place)?;
    let told = told_of(alloc, files, refusal, first, place.as_str())?;
    Ok(Unlowered {
        failure: Failure::from(fault_of(refusal, place)),
        told: Some(told),
    })
}

/// Why a program of these files isn't lowered. Of a refusal something may be said first.
pub(crate) fn unlowered_by(
    alloc: Global,
    files: &[SourceFile],
    stop: NoProgram,
    first: &str,
) -> Unlowered
    ensures { IsTold files.now first.now stop result }
{
    match stop {
        NoProgram::NoMemory => Unlowered::from(Fault::no_memory()),
        NoProgram::Refused(refusal) => match refused(alloc, files, refusal, first) {
            Ok(unlowered) => unlowered,
            Err(error) => Unlowered::from(error),
        },
    }
}

/// What is told of a tree of these files that has no flat program.
fn told_of_tree(
    alloc: Global,
    files: &[SourceFile],
    ast: &Ast,
    refusal: &ProgramRefusal,
) -> Result<String, NoMemory>
    requires files { AreOfTexts files.now }
    requires tells { Tells ast.now refusal.now }
    ensures { IfOk result (λ words. IsToldTree files.now ast.now.items.items (cause_of refusal.now) (string_bytes words)) }
{
    let joined = join_files(alloc, files)?;
    tell_refusal_in(
        alloc,
        &joined.text,
        &joined.tokens,
        &joined.pages,
        ast,
        refusal,
    )
}

/// Why a tree of these files has no flat program.
pub(crate) fn unlowered_tree(
    alloc: Global,
    files: &[SourceFile],
    ast: &Ast,
    refusal: &ProgramRefusal,
) -> Unlowered
    requires files { AreOfTexts files.now }
    requires tells { Tells ast.now refusal.now }
    ensures { TellsTree files.now ast.now.items.items (cause_of refusal.now) result }
{
    let failure = Failure::from(Fault::program(refusal.fault()));
    match told_of_tree(alloc, files, ast, refusal) {
        Ok(told) => Unlowered {
            failure,
            told: Some(told),
        },
        Err(error) => Unlowered::from(error),
    }
}
