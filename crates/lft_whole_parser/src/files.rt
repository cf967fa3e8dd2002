//! Files.

ghost use Rattle.std.specs.Prelude.{◌≡◌, ◌<◌, IfOk, IfErr, IfSome, ◌++◌, option_to_list, map, slice_get, Ok};
ghost use Rattle.lft_whole.specs.inner.Parts.{Parsing.{count, Within, Further, Refuses, source}, View.Gives};
ghost use Rattle.lft_whole.specs.{Parts.View.{imported_view, import_view, file_view}, declared.fault.TreeFault.TheVariants.NoMemory};
ghost use Rattle.lft_whole_parser.specs.Files as Files;

use crate::declarations::{is_preamble, preamble};
use crate::members::attributes;
use crate::reactors::{is_reactor, reactor};
use lft_syntax::Seen;
use lft_tree::Time;
use lft_whole::parts::groups::group_end;
use lft_whole::parts::lexed::LexedText;
use lft_whole::parts::names::name;
use lft_whole::parts::tokens::{is_key, is_symbol, is_text, is_there, key, peek, unit};
use lft_whole::{File, Import, ImportedName, Name, Timeout, TreeFault};
use std::alloc::Global;

/// A name of another file's reactor, and what it is called here.
#[tactic(auto, unfolding(crate::specs::Files::imported))]
fn imported_name(input: &LexedText, at: usize) -> Result<(ImportedName, usize), TreeFault>
    requires { Within input.now at }
    ensures gives { Gives (λ x. (imported_view x.0, x.1)) result (Files.imported (source input.now) at) }
    ensures ok { IfOk result (λ x. Further input.now at x.1) }
    ensures err { IfErr result (Refuses input.now) }
{
    let (first, behind) = name(input, at)?;
    let (alias, end) = if is_key(input, behind, b"as") {
        name(input, behind + 1)?
    } else {
        // Read once more: the name and the alias each own their letters.
        name(input, at)?
    };
    Ok((ImportedName { name: first, alias }, end))
}

#[tactic(auto, unfolding(crate::specs::Files::imported_names))]
fn imported_names(input: &LexedText, at: usize) -> Result<(Vec<ImportedName>, usize), TreeFault>
    requires { Within input.now at }
    ensures gives { Gives (λ x. (map imported_view x.0.items, x.1)) result (Files.imported_names (source input.now) at) }
    ensures ok { IfOk result (λ x. Further input.now at x.1) }
    ensures err { IfErr result (Refuses input.now) }
{
    let mut names = Vec::new(input.alloc);
    let (first, behind) = imported_name(input, at)?;
    names.push(first)?;
    let mut next = behind;
    'list: while is_symbol(input, next, b',') {
        let (name, end) = imported_name(input, next + 1)?;
        names.push(name)?;
        next = end;
    }
    Ok((names, next))
}

/// What stands between the quotes of a string.
#[tactic(auto, using(crate::proofs::Targets::short_inner))]
fn unquoted(input: &LexedText, at: usize) -> Result<Vec<u8>, TreeFault>
    requires { Within input.now at }
    ensures gives { Gives (λ path. path.items) result (Ok (Files.unquoted input.now.text.now (slice_get input.now.tokens.now at))) }
    ensures err { IfErr result (Refuses input.now) }
{
    let mut path = Vec::new(input.alloc);
    let Some(token) = input.tokens.get(at) else {
        return Ok(path);
    };
    let bytes = &input.text[token.start..token.end];
    // A string has both its quotes, so this doesn't come.
    if bytes.len() < 2 {
        return Ok(path);
    }
    path.extend_from_slice(&bytes[1..bytes.len() - 1])?;
    Ok(path)
}

/// The path of another file, between quotes.
#[tactic(auto, unfolding(crate::specs::Files::path_text))]
fn import_path(input: &LexedText, at: usize) -> Result<(Vec<u8>, usize), TreeFault>
    requires { Within input.now at }
    ensures gives { Gives (λ x. ((x.0.items, at), x.1)) result (Files.path_text (source input.now) at) }
    ensures ok { IfOk result (λ x. Further input.now at x.1) }
    ensures err { IfErr result (Refuses input.now) }
{
    // Told apart from what else can't stand here: its sentence says what to write in its place.
    if is_symbol(input, at, b'<') {
        return Err(TreeFault::Package(at));
    }
    if !is_text(input, at) {
        return Err(TreeFault::Unexpected(at));
    }
    let path = unquoted(input, at)?;
    Ok((path, at + 1))
}

#[tactic(auto, unfolding(crate::specs::Files::import))]
fn import(input: &LexedText, at: usize) -> Result<(Import, usize), TreeFault>
    requires { Within input.now at }
    ensures gives { Gives (λ x. (import_view x.0, x.1)) result (Files.import (source input.now) at) }
    ensures ok { IfOk result (λ x. Further input.now at x.1) }
    ensures err { IfErr result (Refuses input.now) }
{
    let first = key(input, at, b"import")?;
    let (names, word) = imported_names(input, first)?;
    let path_at = key(input, word, b"from")?;
    let (path, end) = import_path(input, path_at)?;
    Ok((
        Import {
            names,
            path,
            at: path_at,
        },
        end,
    ))
}

/// The time behind `timeout` and the sign after it, if one stands here, before `end`.
fn timeout(input: &LexedText, at: usize, end: usize) -> Option<Timeout>
    requires { at < count input.now }
    ensures is { result ≡ Files.timeout_at (source input.now) end at }
{
    // The unit stands before the brace too, else this is no property but a word at their end.
    if !(is_key(input, at, b"timeout") && at + 3 < end) {
        return None;
    }
    let Some(Seen::Number(count)) = peek(input, at + 2) else {
        return None;
    };
    let unit = unit(input, at + 3)?;
    let time = Time {
        count,
        unit: Some(unit),
    };
    Some(Timeout { time, at })
}

/// Adds what was found, if something was.
fn push_found(timeouts: &mut Vec<Timeout>, found: Option<Timeout>) -> Result<(), TreeFault>
    ensures items { IfOk result (λ _. timeouts.new.items ≡ timeouts.old.items ++ option_to_list found) }
    ensures err { IfErr result (λ e. e ≡ NoMemory) }
{
    let Some(timeout) = found else {
        return Ok(());
    };
    timeouts.push(timeout)?;
    Ok(())
}

/// The timeouts among the properties between two places.
fn timeouts(input: &LexedText, first: usize, end: usize) -> Result<Vec<Timeout>, TreeFault>
    requires { end < count input.now }
    ensures gives { Gives (λ found. found.items) result (Ok (Files.timeouts (source input.now) first end)) }
    ensures err { IfErr result (Refuses input.now) }
{
    let mut timeouts = Vec::new(input.alloc);
    // At any depth of the properties: only a note comes of it, so no grammar of targets is needed.
    for at in first..end {
        let found = timeout(input, at, end);
        push_found(&mut timeouts, found)?;
    }
    Ok(timeouts)
}

/// Whether `coordination: decentralized` stands here, before `end`.
fn is_decentralized(input: &LexedText, at: usize, end: usize) -> bool
    requires { at < count input.now }
    ensures is { result ≡ Files.decentralized_at (source input.now) end at }
{
    is_key(input, at, b"coordination") && at + 2 < end && is_key(input, at + 2, b"decentralized")
}

/// The first place of `coordination: decentralized` among the properties between two places.
fn decentralized(input: &LexedText, first: usize, end: usize) -> Option<usize>
    requires { end < count input.now }
    ensures gives { result ≡ Files.decentralized (source input.now) first end }
    ensures inside { IfSome result (λ at. at < count input.now) }
{
    for at in first..end {
        if is_decentralized(input, at, end) {
            return Some(at);
        }
    }
    None
}

/// The target, with its properties if it has some. What was known of an earlier one is kept where it has none.
#[tactic(auto, unfolding(crate::specs::Files::target))]
fn target(input: &LexedText, at: usize, file: &mut File) -> Result<usize, TreeFault>
    requires { Within input.now at }
    ensures gives { Gives (λ next. (file_view file.new, next)) result (Files.target (file_view file.old) (source input.now) at) }
    ensures ok { IfOk result (Further input.now at) }
    ensures err { IfErr result (Refuses input.now) }
{
    let word = key(input, at, b"target")?;
    let (name, brace) = name(input, word)?;
    file.target = Some(name);
    if !is_symbol(input, brace, b'{') {
        return Ok(brace);
    }
    let end = group_end(input, brace, b'{', b'}')?;
    file.timeouts = timeouts(input, brace + 1, end)?;
    file.decentralized = decentralized(input, brace + 1, end);
    Ok(end + 1)
}

/// Reads what stands at the top of a file into it.
#[tactic(auto, unfolding(crate::specs::Files::top), using(std::proofs::lemmas::List::map_push))]
fn item(input: &LexedText, at: usize, file: &mut File) -> Result<usize, TreeFault>
    requires { Within input.now at }
    ensures gives { Gives (λ next. (file_view file.new, next)) result (Files.top (file_view file.old) (source input.now) at) }
    ensures ok { IfOk result (Further input.now at) }
    ensures err { IfErr result (Refuses input.now) }
{
    if is_key(input, at, b"target") {
        return target(input, at, file);
    }
    if is_key(input, at, b"import") {
        let (import, end) = import(input, at)?;
        file.imports.push(import)?;
        return Ok(end);
    }
    if is_preamble(input, at) {
        return preamble(input, at);
    }
    if is_reactor(input, at) {
        let (reactor, end) = reactor(input, at)?;
        file.reactors.push(reactor)?;
        return Ok(end);
    }
    Err(TreeFault::Unexpected(at))
}

/// A file in which nothing stands.
fn empty(alloc: Global) -> File
    ensures { file_view result ≡ Files.empty_file }
{
    File {
        target: None,
        timeouts: Vec::new(alloc),
        decentralized: None,
        imports: Vec::new(alloc),
        reactors: Vec::new(alloc),
    }
}

/// Reads what stands at the top of a file with its attributes, or a semicolon, into it.
#[tactic(auto, unfolding(crate::specs::Files::next_top))]
fn next_item(input: &LexedText, at: usize, file: &mut File) -> Result<usize, TreeFault>
    requires { Within input.now at }
    ensures gives { Gives (λ next. (file_view file.new, next)) result (Files.next_top (file_view file.old) (source input.now) at) }
    ensures ok { IfOk result (Further input.now at) }
    ensures err { IfErr result (Refuses input.now) }
{
    if is_symbol(input, at, b';') {
        return Ok(at + 1);
    }
    // An enclave is said of an instance. No attribute of what stands here changes the program.
    let (_, first) = attributes(input, at)?;
    item(input, first, file)
}

/// The whole text. Semicolons may stand between what stands at its top.
pub fn file(input: &LexedText) -> Result<File, TreeFault>
    ensures gives { Gives file_view result (Files.whole_file (source input.now)) }
    ensures err { IfErr result (Refuses input.now) }
{
    let mut file = empty(input.alloc);
    let mut next = 0;
    'items: while is_there(input, next) {
        next = next_item(input, next, &mut file)?;
    }
    Ok(file)
}
