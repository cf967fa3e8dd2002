//! The flat program of a whole one, in names of the source.

ghost use Rattle.std.specs.Prelude.{◌≡◌, ◌≢◌, IfErr, IfOk, false};
ghost use Rattle.lft_whole_parser.specs.Imports.Files.{AreOfTexts};
ghost use Rattle.lft_whole_driver.specs.{Lowered.{IsOfFiles, IsProgramOfFiles}, inner.Unlowered.IsUnloweredFrom, Unlowered.IsUnloweredOf};
ghost use Rattle.lft_program.specs.declared.refusal.Refusal.TheVariants as refusals;

use crate::reading::read_sources;
use crate::told::{Unlowered, unlowered_by, unlowered_tree};
use lft_ir::Program;
use lft_load::Fault;
use lft_lower::lower;
use lft_program::{Refusal, flattened};
use lft_whole::sources::SourceFile;
use std::alloc::Global;
use std::rt::Files;

/// The flat program of a whole one, and what is said of it, a line each.
#[derive(Drop)]
pub struct Whole {
    pub program: Program,
    pub notes: Vec<String>,
}

/// Whether memory is refused, so that no cause was found.
fn is_no_memory(refusal: &Refusal) -> bool
    ensures other { result ≡ false → refusal.now ≢ refusals.NoMemory }
{
    matches!(refusal, Refusal::NoMemory)
}

/// The flat program of these files.
fn program_of(alloc: Global, files: &[SourceFile]) -> Result<Whole, Unlowered>
    requires { AreOfTexts files.now }
    ensures program { IfOk result (λ whole. IsOfFiles files.now whole.program) }
    ensures refused { IfErr result (IsUnloweredFrom files.now) }
{
    let lowering = match lower(alloc, files) {
        Ok(lowering) => lowering,
        Err(stop) => return Err(unlowered_by(alloc, files, stop, "")),
    };
    match flattened(alloc, &lowering.tree) {
        Ok(program) => Ok(Whole {
            program,
            notes: lowering.notes,
        }),
        Err(refusal) => {
            // Told apart first: of want of memory there is nothing to tell.
            if is_no_memory(&refusal) {
                return Err(Unlowered::from(Fault::no_memory()));
            }
            Err(unlowered_tree(alloc, files, &lowering.tree, &refusal))
        }
    }
}

/// The flat program of the program whose path and text these are; the path is for its imports, which are read. Its
/// names are those of the source, as `main.b[2].out[0]`.
pub fn whole_program<F: Files>(
    rt: &F,
    alloc: Global,
    path: &str,
    text: &[u8],
) -> Result<Whole, Unlowered>
    ensures program { IfOk result (λ whole. IsProgramOfFiles path.now text.now whole.program) }
    ensures refused { IfErr result (IsUnloweredOf path.now text.now) }
{
    let sources = read_sources(rt, alloc, path, text)?;
    program_of(alloc, sources.files())
}
