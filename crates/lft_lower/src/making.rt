//! The core tree of a whole program.

ghost use Rattle.std.specs.Prelude.{◌≡◌, IfErr, IfOk, None, OnOk, true};
ghost use Rattle.lft_whole.specs.declared.sources.stop.NoProgram.TheVariants.{NoMemory};
ghost use Rattle.lft_elaborate.specs.inner.Refused.{IfRefused};
ghost use Rattle.lft_lower.specs.inner.{Refused.{IsDecentralized, IsOfFederation}, Programs.{IsCentralized, decentralized_in}};
ghost use Rattle.lft_lower.specs.inner.Reactors.{IsLowering, IsProgram};

use crate::instances::needed;
use crate::maker::Maker;
use crate::meanings::naming::names;
use crate::meanings::notes::Notes;
use crate::meanings::room::Room;
use crate::reactors::reactors;
use lft_classes::{InheritedParameter, Shape};
use lft_elaborate::Settings;
use lft_tree::Ast;
use lft_whole::sources::{NoProgram, SourceFile, Why};
use std::alloc::Global;

/// A program that is lowered: its core tree, under the names of the source, and what is said of it.
// A tree and no text: names with brackets stand in tables and recorders as the runtime writes them.
#[derive(Drop)]
pub struct Lowering {
    pub tree: Ast,
    pub notes: Vec<String>,
}

/// What is said of the target.
fn note_target(notes: &mut Notes, files: &[SourceFile]) -> Result<(), NoProgram>
    ensures { IfErr result (λ stop. stop ≡ NoMemory) }
{
    // Of the first file alone, which is the one that is run.
    if let Some(file) = files.first() {
        for timeout in &file.tree.timeouts {
            notes.timeout(timeout)?;
        }
    }
    Ok(())
}

/// Where a program says that its coordination is decentralized.
fn decentralized(files: &[SourceFile]) -> Option<usize>
    ensures { result ≡ decentralized_in files.now }
{
    files.first()?.tree.decentralized
}

/// What is said of a federated program. One whose coordination is decentralized is refused.
fn note_federated(notes: &mut Notes, files: &[SourceFile], main: &Shape) -> Result<(), NoProgram>
    ensures known { OnOk result (main.now.class.reactor.now.is_federated ≡ true → decentralized_in files.now ≡ None) }
    ensures cause { IfErr result (IfRefused (λ r. (main.now.class.reactor.now.is_federated ≡ true) × IsDecentralized files.now r)) }
{
    // One process has no coordination, whatever its target says of it.
    if !main.class.reactor.is_federated {
        return Ok(());
    }
    if let Some(token) = decentralized(files) {
        return Err(NoProgram::at(Why::Decentralized, 0, token));
    }
    notes.words(
        0,
        main.class.reactor.at,
        "federated: the program is taken as that of one process. Merge the rows of all federates, sorted by tag. Of requests to stop, the end is that of one process.",
    )?;
    Ok(())
}

/// What is said of the enclaves in a reactor.
fn note_enclaves(notes: &mut Notes, shape: &Shape) -> Result<(), NoProgram>
    ensures { IfErr result (λ stop. stop ≡ NoMemory) }
{
    for inherited in &shape.members {
        if let Some(instance) = inherited.instance()
            && instance.is_enclave
        {
            notes.words(
                inherited.file,
                instance.name.at,
                "enclave: its rows have to stand in the order of tags among the others.",
            )?;
        }
    }
    Ok(())
}

/// What is said of the parameters of the main reactor.
fn note_defaults(notes: &mut Notes, main: &Shape) -> Result<(), NoProgram>
    ensures { IfErr result (λ stop. stop ≡ NoMemory) }
{
    for number in 0..main.parameters.len() {
        // No other parameter decides anything that is judged.
        if main.is_sized(number) || main.is_timed(number) {
            let InheritedParameter { file, parameter } = main.parameters[number];
            notes.default(file, parameter.name.at, parameter.name.text.as_str())?;
        }
    }
    Ok(())
}

/// What is said of a program before its core tree is made.
fn notes<'a>(
    alloc: Global,
    files: &'a [SourceFile],
    settings: &Settings,
    used: &[usize],
) -> Result<Notes<'a>, NoProgram>
    ensures known { OnOk result (IsCentralized files.now settings.now) }
    ensures cause { IfErr result (IfRefused (IsOfFederation files.now settings.now)) }
{
    let mut notes = Notes::of(alloc, files);
    note_target(&mut notes, files)?;
    if let Some(main) = settings.shape_of(0) {
        note_federated(&mut notes, files, main)?;
    }
    for setting in used.iter().copied() {
        if let Some(shape) = settings.shape_of(setting) {
            note_enclaves(&mut notes, shape)?;
        }
    }
    if let Some(main) = settings.shape_of(0) {
        note_defaults(&mut notes, main)?;
    }
    Ok(notes)
}

/// The core tree of a program. Its settings are known, and so are those that are used.
fn lowered(
    alloc: Global,
    files: &[SourceFile],
    settings: &Settings,
    used: &[usize],
) -> Result<Lowering, NoProgram>
    ensures made { IfOk result (λ lowering. IsProgram files.now settings.now used.now → IsLowering files.now lowering.tree) }
{
    let mut notes = notes(alloc, files, settings, used)?;
    let mut room = Room::new();
    let names = names(alloc, settings, used, &mut room)?;
    let needed = needed(alloc, &settings.shapes)?;
    let maker = Maker {
        alloc,
        files,
        settings,
        names: &names,
        needed: &needed,
    };
    let items = reactors(maker, &mut room, &mut notes, used)?;
    let tree = Ast {
        // A target is a range of tokens of one core text, and no such text is made.
        target: None,
        items,
    };
    Ok(Lowering {
        tree,
        notes: notes.into_lines(),
    })
}

/// The core tree of the program that these files are.
pub fn lower(alloc: Global, files: &[SourceFile]) -> Result<Lowering, NoProgram>
    ensures made { IfOk result (λ lowering. IsLowering files.now lowering.tree) }
{
    let mut settings = Settings::of(alloc, files)?;
    let used = settings.counted()?;
    let lowering = lowered(alloc, files, &settings, &used)?;
    Ok(lowering)
}
