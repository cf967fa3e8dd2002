//! The files of a program: which is to be read next, and which file each import names.

ghost use Rattle.std.specs.Prelude.{◌≡◌, ◌+◌, [], ◌∷◌, None, IfErr, IfOk, IfSome, OnOk, option_and_then, option_map, length, slice_get};
ghost use Rattle.lft_whole_parser.specs.Imports.{Paths.normal as normal_path, Files.{AreNumbered, EachOnce, IsWhole, paths_of_files}};
ghost use Rattle.lft_whole_parser.specs.inner.Imports.Files.{Adds, AreTokensApart, AreCounted, AreSources, HasOneMore, IsAskedBy, IsKnown, IsNamedBy, IsRefusalOf, RefusesNext, next_path, paths_of};

use crate::imports::asked::FileNumbers;
use crate::imports::paths::normal;
use crate::imports::reading::{Text, read_text};
use lft_tag::NoMemory;
use lft_whole::sources::{NoProgram, Place, SourceFile};
use std::alloc::Global;

/// The numbers of the files that a file imports. Its text may be refused, or the path of an import.
fn numbers_of(
    alloc: Global,
    asked: &mut FileNumbers,
    number: usize,
    path: &str,
    read: &Text,
) -> Result<Vec<usize>, NoProgram>
    requires { IsKnown asked.old }
    ensures known { OnOk result (IsKnown asked.new) }
    ensures added { OnOk result (Adds asked.old.paths.items (IsAskedBy number path.now read.now.tree.imports.items) asked.new.paths.items) }
    ensures numbers { IfOk result (λ numbers. AreNumbered (paths_of asked.new) path.now read.now.tree.imports.items numbers.items) }
    ensures read { OnOk result (read.now.refused ≡ None) }
    ensures refused { IfErr result (IsRefusalOf number read.now) }
{
    match read.refused {
        Some(refused) => Err(NoProgram::at(refused.why, number, refused.token)),
        None => asked.numbers(alloc, number, path, read.tree.imports.as_slice()),
    }
}

/// A file of what is read of its text, with the number of its first token among those of all files.
fn file_of(path: String, text: Vec<u8>, first: usize, read: Text, imports: Vec<usize>) -> SourceFile
    ensures { result ≡ record { path = path; tree = read.tree; imports = imports; spots = read.spots; text = text; first = first } }
{
    SourceFile {
        path,
        tree: read.tree,
        imports,
        spots: read.spots,
        text,
        first,
    }
}

/// So many tokens with those behind them, if these can be counted.
fn tokens_behind(tokens: usize, count: usize) -> Option<usize>
    ensures { IfSome result (λ sum. sum ≡ tokens + count) }
{
    tokens.checked_add(count)
}

/// The files of a program, each once by the normal form of its path. They are read in the order in which they
/// are asked for: the program itself, what it imports, what these import.
// It asks for files and reads none, so its clauses speak of texts alone.
#[derive(Drop)]
pub struct Sources {
    alloc: Global,
    files: Vec<SourceFile>,
    /// How many tokens the files have, with the end of each.
    tokens: usize,
    asked: FileNumbers,
}

impl Sources {
    /// No file yet. The first that is wanted is the one at this path.
    pub fn of(alloc: Global, path: &str) -> Result<Sources, NoMemory>
        ensures sources { IfOk result AreSources }
        ensures files { IfOk result (λ sources. sources.files.items ≡ []) }
        ensures paths { IfOk result (λ sources. paths_of sources.asked ≡ normal_path path.now ∷ []) }
    {
        let mut asked = FileNumbers::new(alloc);
        asked.ask(normal(alloc, path)?, None)?;
        Ok(Sources {
            alloc,
            files: Vec::new(alloc),
            tokens: 0,
            asked,
        })
    }

    /// The path of the file that is to be read next. When there is none, all are read.
    pub fn wanted(&self) -> Option<&str>
        ensures { option_map (λ path. path.now) result ≡ next_path self.now }
    {
        // A file has the number of its path, so the next one is behind as many as are read.
        match self.asked.paths.get(self.files.len()) {
            Some(wanted) => Some(wanted.path.as_str()),
            None => None,
        }
    }

    /// The import that names the file that is to be read next. The program itself has none.
    pub fn import(&self) -> Option<Place>
        ensures kept { result ≡ option_and_then (λ wanted. wanted.import) (slice_get self.now.asked.paths.items (length self.now.files.items)) }
        ensures named { AreSources self.now → IfSome (next_path self.now) (λ path. IsNamedBy self.now.files.items (length self.now.files.items) path result) }
    {
        match self.asked.paths.get(self.files.len()) {
            Some(wanted) => wanted.import,
            None => None,
        }
    }

    /// The files, by number. The program itself is number 0.
    pub fn files(&self) -> &[SourceFile]
        ensures files { result.now ≡ self.now.files.items }
        ensures once { AreSources self.now → EachOnce (paths_of_files result.now) }
        ensures counted { AreSources self.now → AreCounted result.now }
        ensures apart { AreSources self.now → AreTokensApart result.now }
        ensures whole { AreSources self.now → next_path self.now ≡ None → IsWhole result.now }
    {
        self.files.as_slice()
    }

    /// Takes the text of the file that is wanted. Where it is refused, the file is among those read, so that its
    /// place can be told, and no other is to be given. Where none is wanted, nothing happens.
    pub fn give(&mut self, text: Vec<u8>) -> Result<(), NoProgram>
        requires { AreSources self.old }
        ensures sources { OnOk result (AreSources self.new) }
        ensures read { OnOk result (HasOneMore text.items self.old self.new) }
        ensures refused { IfErr result (RefusesNext text.items self.old self.new.files.items) }
        ensures none { next_path self.old ≡ None → self.new ≡ self.old }
    {
        let number = self.files.len();
        let Some(wanted) = self.wanted() else {
            return Ok(());
        };
        // A copy: the list that has the path may grow below, by what the file imports.
        let path = String::from_str(self.alloc, wanted)?;
        let read = read_text(self.alloc, text.as_slice())?;
        let first = self.tokens;
        let count = read.spots.len();
        // More tokens than there are numbers fit into no memory, so no cause is needed for them.
        let Some(tokens) = tokens_behind(first, count) else {
            return Err(NoProgram::NoMemory);
        };
        self.tokens = tokens;
        match numbers_of(self.alloc, &mut self.asked, number, path.as_str(), &read) {
            Ok(imports) => {
                self.files.push(file_of(path, text, first, read, imports))?;
                Ok(())
            }
            Err(stop) => {
                let imports = Vec::new(self.alloc);
                self.files.push(file_of(path, text, first, read, imports))?;
                Err(stop)
            }
        }
    }
}
