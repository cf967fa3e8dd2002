//! What the names of reactors mean in each file.

ghost use Rattle.std.specs.Prelude.{◌≡◌, ◌≤◌, ◌<◌, ◌++◌, ℕ, List, [], Some, false, IfNone, IfOk, IfSome, OnOk, map, slice_get};
ghost use Rattle.lft_resolve.specs.inner.Tests.{texts};
ghost use Rattle.lft_whole.specs.declared.{sources.source.SourceFile.SourceFile, tree.{Import.Import, ImportedName.ImportedName}};
ghost use Rattle.lft_classes.specs.inner.Scopes.{in_scope, meaning_in, class_at, name_in, IsOf, AreNumberedClasses, IsOwn, IsImport, IsMain, IsMainClassAt, AreScopes, placed, reactors_in, reactors_of_file, EachMeans, HasImports, HasMeaning, HasOwn, IsGiven, IsMeantScope, IsOnce, IsOwnScope, IsScopeOf, IsOwnAt, AreOwnScopes, MeansAt, AreMeantScopes, reactors_before};

use lft_lists::item_at;
use lft_resolve::index::Index;
use lft_tag::NoMemory;
use lft_whole::sources::{NoProgram, SourceFile, Why};
use lft_whole::{Import, Reactor};
use std::alloc::Global;

/// A reactor as it is written, its number among those of all files, and the number of its file.
#[derive(Clone, Copy)]
pub struct Class<'a> {
    pub number: usize,
    pub file: usize,
    pub reactor: &'a Reactor,
}

/// A name, the reactor that it means, and the token that says so.
#[derive(Clone, Copy)]
struct NamedReactor<'a> {
    name: &'a str,
    class: Class<'a>,
    at: usize,
}

/// What the names of reactors mean in a file.
#[derive(Drop)]
struct Scope<'a> {
    names: Index<'a>,
    meanings: Vec<NamedReactor<'a>>,
}

/// The reactors of all files, by number, and what their names mean in each file.
#[derive(Drop)]
pub(crate) struct ReactorNames<'a> {
    classes: Vec<Class<'a>>,
    scopes: Vec<Scope<'a>>,
}

/// The names alone.
fn names_of<'a>(alloc: Global, meanings: &[NamedReactor<'a>]) -> Result<Vec<&'a str>, NoMemory>
    ensures { IfOk result (λ v. texts v.items ≡ map (λ m. m.name.now) meanings.now) }
{
    let mut names = Vec::new(alloc);
    for meaning in meanings {
        names.push(meaning.name)?;
    }
    Ok(names)
}

impl<'a> Scope<'a> {
    /// The scope with these meanings. Of a name that stands twice the first one counts.
    fn of(alloc: Global, meanings: Vec<NamedReactor<'a>>) -> Result<Scope<'a>, NoMemory>
        ensures { IfOk result (IsScopeOf meanings.entry.items) }
    {
        let texts = names_of(alloc, &meanings)?;
        let names = Index::of(alloc, &texts)?;
        Ok(Scope { names, meanings })
    }

    /// The reactor of this name.
    fn get(&self, name: &str) -> Option<Class<'a>>
        ensures { result ≡ in_scope self.now name.now }
    {
        match self.names.get(name) {
            Some(place) => match self.meanings.get(place) {
                Some(meaning) => Some(meaning.class),
                None => None,
            },
            None => None,
        }
    }
}

/// Puts the name of a reactor behind others, if it has one.
fn push_named<'a>(meanings: &mut Vec<NamedReactor<'a>>, class: Class<'a>) -> Result<(), NoMemory>
    ensures own { OnOk result ((files : List SourceFile) → IsOf files class.entry → EachMeans (IsOwnAt files class.entry.file) meanings.old.items → EachMeans (IsOwnAt files class.entry.file) meanings.new.items) }
    ensures kept { OnOk result ((q : List ℕ) (n : ℕ) → HasMeaning meanings.old.items q n → HasMeaning meanings.new.items q n) }
    ensures has { OnOk result ((q : List ℕ) → name_in class.entry ≡ Some q → HasMeaning meanings.new.items q class.entry.number) }
{
    let Some(name) = &class.reactor.name else {
        return Ok(());
    };
    meanings.push(NamedReactor {
        name: name.text.as_str(),
        class,
        at: class.reactor.at,
    })?;
    Ok(())
}

/// The reactors of a file that have a name. All its reactors are put behind those of the files before it.
fn own_scope<'a>(
    alloc: Global,
    number: usize,
    file: &'a SourceFile,
    classes: &mut Vec<Class<'a>>,
) -> Result<Scope<'a>, NoMemory>
    ensures own { IfOk result (λ scope. (files : List SourceFile) → slice_get files number ≡ Some file.now → placed classes.old.items ≡ reactors_before files number → IsOwnScope files number scope) }
    ensures classes { OnOk result (placed classes.new.items ≡ placed classes.old.items ++ reactors_of_file (number, file.now)) }
    ensures numbers { OnOk result (AreNumberedClasses classes.old.items → AreNumberedClasses classes.new.items) }
{
    let mut meanings = Vec::new(alloc);
    for place in 0..file.tree.reactors.len() {
        let class = Class {
            number: classes.len(),
            file: number,
            reactor: &file.tree.reactors[place],
        };
        push_named(&mut meanings, class)?;
        classes.push(class)?;
    }
    let scope = Scope::of(alloc, meanings)?;
    Ok(scope)
}

/// The reactor that an import of this name from a file gives: no main one.
fn exported<'a>(own: &[Scope<'a>], target: usize, name: &str) -> Option<Class<'a>>
    ensures some { IfSome result (λ class. (class.reactor.now.is_main ≡ false) × ((files : List SourceFile) → AreOwnScopes files own.now → IsOwn files target name.now class)) }
{
    // Among its own reactors alone: what a file imports it doesn't hand on.
    let Some(scope) = own.get(target) else {
        return None;
    };
    match scope.get(name) {
        Some(class) if !class.reactor.is_main => Some(class),
        _ => None,
    }
}

/// Puts the names that an import gives behind others.
fn push_names<'a>(
    meanings: &mut Vec<NamedReactor<'a>>,
    own: &[Scope<'a>],
    number: usize,
    target: usize,
    import: &'a Import,
) -> Result<(), NoProgram>
    ensures meant { OnOk result ((files : List SourceFile) → IsImport files number target import.now → AreOwnScopes files own.now → EachMeans (MeansAt files number) meanings.old.items → EachMeans (MeansAt files number) meanings.new.items) }
    ensures kept { OnOk result ((q : List ℕ) (n : ℕ) → HasMeaning meanings.old.items q n → HasMeaning meanings.new.items q n) }
    ensures all { OnOk result ((files : List SourceFile) → AreOwnScopes files own.now → (which : ℕ) (name : ImportedName) → slice_get import.now.names.items which ≡ Some name → IsGiven files target name meanings.new.items) }
{
    for place in 0..import.names.len() {
        let imported = &import.names[place];
        let Some(class) = exported(own, target, imported.name.text.as_str()) else {
            return Err(NoProgram::at(Why::NotImported, number, imported.name.at));
        };
        meanings.push(NamedReactor {
            name: imported.alias.text.as_str(),
            class,
            at: imported.alias.at,
        })?;
    }
    Ok(())
}

/// Puts the names that the imports of a file give behind others.
fn push_imports<'a>(
    meanings: &mut Vec<NamedReactor<'a>>,
    own: &[Scope<'a>],
    number: usize,
    file: &'a SourceFile,
) -> Result<(), NoProgram>
    ensures meant { OnOk result ((files : List SourceFile) → slice_get files number ≡ Some file.now → AreOwnScopes files own.now → EachMeans (MeansAt files number) meanings.old.items → EachMeans (MeansAt files number) meanings.new.items) }
    ensures kept { OnOk result ((q : List ℕ) (n : ℕ) → HasMeaning meanings.old.items q n → HasMeaning meanings.new.items q n) }
    ensures all { OnOk result ((files : List SourceFile) → slice_get files number ≡ Some file.now → AreOwnScopes files own.now → HasImports files number meanings.new.items) }
{
    // Equal, of a file that was read to its end. One that was refused has no numbers.
    let count = file.tree.imports.len().min(file.imports.len());
    for place in 0..count {
        let import = &file.tree.imports[place];
        push_names(meanings, own, number, file.imports[place], import)?;
    }
    Ok(())
}

/// What the names of reactors mean in a file without its imports.
fn own_meanings<'a>(
    alloc: Global,
    own: &[Scope<'a>],
    number: usize,
) -> Result<Vec<NamedReactor<'a>>, NoMemory>
    ensures meant { IfOk result (λ v. (files : List SourceFile) → AreOwnScopes files own.now → EachMeans (MeansAt files number) v.items) }
    ensures all { IfOk result (λ v. (files : List SourceFile) → AreOwnScopes files own.now → HasOwn files number v.items) }
{
    let Some(scope) = own.get(number) else {
        return Ok(Vec::new(alloc));
    };
    // A copy: imports are put behind it, and the scope itself is still asked for what the file hands on.
    let meanings = Vec::from_slice(alloc, &scope.meanings)?;
    Ok(meanings)
}

/// Refuses a name that means two reactors. One reactor may be imported twice.
fn refuse_twice(scope: &Scope, number: usize) -> Result<(), NoProgram>
    ensures once { OnOk result (IsOnce scope.now) }
{
    for place in 0..scope.meanings.len() {
        let meaning = item_at(&scope.meanings, place);
        if let Some(other) = scope.get(meaning.name)
            && other.number != meaning.class.number
        {
            return Err(NoProgram::at(Why::TwoReactors, number, meaning.at));
        }
    }
    Ok(())
}

/// What the names of reactors mean in a file: its own, and then those that it imports.
fn scope_of<'a>(
    alloc: Global,
    own: &[Scope<'a>],
    number: usize,
    file: &'a SourceFile,
) -> Result<Scope<'a>, NoProgram>
    ensures meant { IfOk result (λ scope. (files : List SourceFile) → slice_get files number ≡ Some file.now → AreOwnScopes files own.now → IsMeantScope files number scope) }
{
    let mut meanings = own_meanings(alloc, own, number)?;
    push_imports(&mut meanings, own, number, file)?;
    let scope = Scope::of(alloc, meanings)?;
    refuse_twice(&scope, number)?;
    Ok(scope)
}

/// The reactors of all files that have a name, file by file. All reactors are put in, where there are none yet.
fn own_scopes<'a>(
    alloc: Global,
    files: &'a [SourceFile],
    classes: &mut Vec<Class<'a>>,
) -> Result<Vec<Scope<'a>>, NoMemory>
    ensures own { IfOk result (λ own. placed classes.old.items ≡ [] → AreOwnScopes files.now own.items) }
    ensures classes { OnOk result (placed classes.old.items ≡ [] → placed classes.new.items ≡ reactors_in files.now) }
    ensures numbers { OnOk result (AreNumberedClasses classes.old.items → AreNumberedClasses classes.new.items) }
{
    let mut own = Vec::new(alloc);
    for number in 0..files.len() {
        let scope = own_scope(alloc, number, &files[number], classes)?;
        own.push(scope)?;
    }
    Ok(own)
}

/// What the names of reactors mean in each file.
fn all_scopes<'a>(
    alloc: Global,
    files: &'a [SourceFile],
    own: &[Scope<'a>],
) -> Result<Vec<Scope<'a>>, NoProgram>
    ensures meant { IfOk result (λ scopes. AreOwnScopes files.now own.now → AreMeantScopes files.now scopes.items) }
{
    let mut scopes = Vec::new(alloc);
    for number in 0..files.len() {
        let scope = scope_of(alloc, own, number, &files[number])?;
        scopes.push(scope)?;
    }
    Ok(scopes)
}

impl<'a> ReactorNames<'a> {
    /// The reactors of the files, and what their names mean.
    pub(crate) fn of(alloc: Global, files: &'a [SourceFile]) -> Result<ReactorNames<'a>, NoProgram>
        ensures scopes { IfOk result (AreScopes files.now) }
    {
        let mut classes = Vec::new(alloc);
        // The names of all files come before the first import, as files may import each other.
        let own = own_scopes(alloc, files, &mut classes)?;
        let scopes = all_scopes(alloc, files, &own)?;
        Ok(ReactorNames { classes, scopes })
    }

    /// The reactor of this number.
    pub(crate) fn class(&self, number: usize) -> Option<Class<'a>>
        ensures { result ≡ class_at self.now number }
    {
        self.classes.get(number).copied()
    }

    /// How many reactors there are.
    pub(crate) fn len(&self) -> usize {
        self.classes.len()
    }

    /// What the name means in the file.
    pub(crate) fn get(&self, file: usize, name: &str) -> Option<Class<'a>>
        ensures { result ≡ meaning_in self.now file name.now }
    {
        match self.scopes.get(file) {
            Some(scope) => scope.get(name),
            None => None,
        }
    }

    /// The next main reactor of the first file, from this number on.
    fn next_main(&self, from: usize) -> Option<(usize, Class<'a>)>
        ensures some { IfSome result (λ found. IsMainClassAt self.now found.0 found.1 × (from ≤ found.0) × (found.0 < usize.MAX)) }
        ensures first { IfSome result (λ found. (number : ℕ) (c : Class) → from ≤ number → number < found.0 → IsMainClassAt self.now number c → ⊥) }
        ensures none { IfNone result ((number : ℕ) (c : Class) → from ≤ number → IsMainClassAt self.now number c → ⊥) }
    {
        for place in from..self.classes.len() {
            let class = item_at(&self.classes, place);
            if class.file == 0 && class.reactor.is_main {
                return Some((place, class));
            }
        }
        None
    }

    /// The main reactor of the first file, which ends at the token.
    pub(crate) fn main(&self, end: usize) -> Result<Class<'a>, NoProgram>
        ensures main { IfOk result (IsMain self.now) }
    {
        let Some((place, class)) = self.next_main(0) else {
            return Err(NoProgram::at(Why::NoMain, 0, end));
        };
        // It never saturates: a reactor stands at the place before.
        if let Some((_, second)) = self.next_main(place.saturating_add(1)) {
            return Err(NoProgram::at(Why::TwoMains, 0, second.reactor.at));
        }
        Ok(class)
    }
}
