//! The files of a program, read.

ghost use Rattle.std.specs.Prelude.{◌≡◌, ◌<◌, IfErr, IfOk, None, OnOk, Some, length};
ghost use Rattle.lft_whole_parser.specs.inner.Imports.Files.{AreSources, HasOneMore, next_path};
ghost use Rattle.lft_whole_driver.specs.{Lowered.AreFilesOf, inner.{Lowered.BeginsAs, Unlowered.{IsImportRefusedAt, IsOfNext, IsOfRest, IsOfUnread}}};
ghost use Rattle.lft_whole_driver.specs.Unlowered.{IsOfReading, Says};

use crate::told::{Unlowered, unlowered_by};
use lft_load::files::{Failure, read_ordinary};
use lft_load::{Fault, Part};
use lft_whole::sources::{NoProgram, Place, Why, shown_path};
use lft_whole_parser::imports::Sources;
use std::alloc::{AllocError, Global};
use std::rt::Files;

/// How many bytes all imported files may have together.
// A byte that is read may take thirty in memory, and many paths may lead to one file.
const MOST_IMPORTED: u64 = 1 << 26;

/// Why an imported file isn't read.
fn cause_of(failure: &Failure) -> &'static str {
    // The limit is of all imported files, of which `read_ordinary` doesn't know.
    if failure.fault.name == "TooLarge" {
        return "with it the imported files have more than 64 MiB";
    }
    failure.cause.unwrap_or("it can't be read")
}

/// Which file can't be read, and why, if that is known.
fn about(alloc: Global, path: &str, failure: &Failure) -> Result<String, AllocError> {
    let mut text = shown_path(alloc, path)?;
    text.push_str(": ")?;
    text.push_str(cause_of(failure))?;
    text.push_str(". ")?;
    Ok(text)
}

/// Why a program isn't lowered whose import at this place names a file that can't be read.
fn unread(
    alloc: Global,
    sources: &Sources,
    path: &str,
    place: Place,
    failure: &Failure,
) -> Unlowered
    ensures { Says (IsImportRefusedAt sources.now.files.items place) result }
{
    match about(alloc, path, failure) {
        Ok(about) => {
            let stop = NoProgram::at(Why::NotRead, place.file, place.token);
            unlowered_by(alloc, sources.files(), stop, about.as_str())
        }
        Err(error) => Unlowered::from(error),
    }
}

/// Whether want of memory is why a file isn't read. It says nothing of the file.
fn is_of_memory(failure: &Failure) -> bool {
    matches!(failure.fault.part, Part::Memory)
}

/// The bytes of the file that is wanted, of which there may be so many.
fn read_wanted<F: Files>(
    rt: &F,
    alloc: Global,
    sources: &Sources,
    path: &str,
    most: u64,
) -> Result<Vec<u8>, Unlowered>
    requires sources { AreSources sources.now }
    requires wanted { next_path sources.now ≡ Some path.now }
    ensures { IfErr result (Says (IsOfUnread sources.now.files.items)) }
{
    match read_ordinary(rt, alloc, path, most) {
        Ok(text) => Ok(text),
        Err(failure) if is_of_memory(&failure) => Err(Unlowered::from(failure)),
        Err(failure) => match sources.import() {
            Some(place) => Err(unread(alloc, sources, path, place, &failure)),
            // The program itself isn't read here, so this doesn't come.
            None => Err(Unlowered::from(failure)),
        },
    }
}

/// Takes the text of the file that is wanted.
fn give(alloc: Global, sources: &mut Sources, text: Vec<u8>) -> Result<(), Unlowered>
    requires { AreSources sources.old }
    ensures sources { OnOk result (AreSources sources.new) }
    ensures read { OnOk result (HasOneMore text.items sources.old sources.new) }
    ensures refused { IfErr result (Says (IsOfNext text.items sources.old)) }
{
    match sources.give(text) {
        Ok(()) => Ok(()),
        Err(stop) => Err(unlowered_by(alloc, sources.files(), stop, "")),
    }
}

/// Reads the files that are wanted, at any depth of imports.
fn read_rest<F: Files>(rt: &F, alloc: Global, sources: &mut Sources) -> Result<(), Unlowered>
    requires sources { AreSources sources.old }
    requires begun { 0 < length sources.old.files.items }
    ensures sources { OnOk result (AreSources sources.new) }
    ensures all { OnOk result (next_path sources.new ≡ None) }
    ensures first { OnOk result (BeginsAs sources.old.files.items sources.new.files.items) }
    ensures refused { IfErr result (Says (IsOfRest sources.old.files.items)) }
{
    // One limit for all of them, as a program may import any number.
    let mut left = MOST_IMPORTED;
    for _ in 0..u64::MAX {
        let Some(path) = sources.wanted() else {
            return Ok(());
        };
        let text = read_wanted(rt, alloc, sources, path, left)?;
        left = left.saturating_sub(text.len() as u64);
        give(alloc, sources, text)?;
    }
    // so many files fit in no memory
    Err(Unlowered::from(Fault::no_memory()))
}

/// The files of the program whose path and text these are.
pub(crate) fn read_sources<F: Files>(
    rt: &F,
    alloc: Global,
    path: &str,
    text: &[u8],
) -> Result<Sources, Unlowered>
    ensures files { IfOk result (λ sources. AreFilesOf path.now text.now sources.files.items) }
    ensures refused { IfErr result (Says (IsOfReading path.now text.now)) }
{
    let mut sources = Sources::of(alloc, path)?;
    give(alloc, &mut sources, Vec::from_slice(alloc, text)?)?;
    read_rest(rt, alloc, &mut sources)?;
    Ok(sources)
}
