//! The paths of the files that are asked for, each once.

ghost use Rattle.std.specs.Prelude.{◌≡◌, ℕ, List, ◌∷◌, ◌++◌, None, Some, [], IfErr, IfOk, OnOk, slice_get, string_bytes};
ghost use Rattle.std.specs.BTreeMap.{get_by_text};
ghost use Rattle.lft_whole_parser.specs.{inner.Imports.Files.{Adds, IsAskedBy, IsKnown, IsUnreadPath, paths_of}, Imports.Files.AreNumbered};

use crate::imports::paths::imported;
use lft_tag::NoMemory;
use lft_whole::Import;
use lft_whole::sources::{NoProgram, Place, Why};
use std::alloc::Global;
use std::collections::BTreeMap;
use std::str::from_utf8;

/// A file that is asked for, and the import that names it. The program itself has none.
#[derive(Drop)]
pub(crate) struct WantedFile {
    pub(crate) path: String,
    pub(crate) import: Option<Place>,
}

/// The files that are asked for: by number, and the number of each path.
#[derive(Drop)]
pub(crate) struct FileNumbers {
    pub(crate) paths: Vec<WantedFile>,
    pub(crate) known: BTreeMap<String, usize>,
}

impl FileNumbers {
    /// Nothing is asked for.
    pub(crate) fn new(alloc: Global) -> FileNumbers
        ensures known { IsKnown result }
        ensures none { (path : List ℕ) → get_by_text result.known path ≡ None }
        ensures empty { result.paths.items ≡ [] }
    {
        FileNumbers {
            paths: Vec::new(alloc),
            known: BTreeMap::new(alloc),
        }
    }

    /// Asks for a path that wasn't asked for yet.
    pub(crate) fn ask(&mut self, path: String, import: Option<Place>) -> Result<(), NoMemory>
        requires known { IsKnown self.old }
        requires new { get_by_text self.old.known (string_bytes path) ≡ None }
        ensures known { OnOk result (IsKnown self.new) }
        ensures paths { OnOk result (self.new.paths.items ≡ self.old.paths.items ++ record { path = path; import = import } ∷ []) }
    {
        // A copy: the list owns the paths by number, and the map finds the number of one that was asked for.
        self.known.insert(path.clone()?, self.paths.len())?;
        self.paths.push(WantedFile { path, import })?;
        Ok(())
    }

    /// The number of a path, which is asked for if it wasn't yet.
    pub(crate) fn number(&mut self, path: String, import: Option<Place>) -> Result<usize, NoMemory>
        requires { IsKnown self.old }
        ensures known { OnOk result (IsKnown self.new) }
        ensures added { OnOk result (Adds self.old.paths.items (λ wanted. wanted ≡ record { path = path; import = import }) self.new.paths.items) }
        ensures number { IfOk result (λ n. slice_get (paths_of self.new) n ≡ Some (string_bytes path)) }
    {
        match self.known.get(path.as_str()).copied() {
            Some(number) => Ok(number),
            None => {
                let number = self.paths.len();
                self.ask(path, import)?;
                Ok(number)
            }
        }
    }

    /// The numbers of the files that imports name, in the file of this number and path.
    pub(crate) fn numbers(
        &mut self,
        alloc: Global,
        file: usize,
        path: &str,
        imports: &[Import],
    ) -> Result<Vec<usize>, NoProgram>
        requires { IsKnown self.old }
        ensures known { OnOk result (IsKnown self.new) }
        ensures added { OnOk result (Adds self.old.paths.items (IsAskedBy file path.now imports.now) self.new.paths.items) }
        ensures numbers { IfOk result (λ numbers. AreNumbered (paths_of self.new) path.now imports.now numbers.items) }
        ensures refused { IfErr result (IsUnreadPath file imports.now) }
    {
        let mut numbers = Vec::new(alloc);
        for place in 0..imports.len() {
            let import = &imports[place];
            let Ok(named) = from_utf8(import.path.as_slice()) else {
                return Err(NoProgram::at(Why::NotRead, file, import.at));
            };
            let wanted = imported(alloc, path, named)?;
            let token = import.at;
            let number = self.number(wanted, Some(Place { file, token }))?;
            numbers.push(number)?;
        }
        Ok(numbers)
    }
}
