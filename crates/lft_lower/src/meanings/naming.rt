//! The names of reactors in the core tree.

ghost use Rattle.std.specs.Prelude.{◌≡◌, ℕ, List, IfErr, IfOk, OnOk, bytes_eq, cond, false, string_bytes, true};
ghost use Rattle.std.specs.BTreeSet.{contains_text};
ghost use Rattle.lft_elaborate.specs.inner.Refused.{IfRefused};
ghost use Rattle.lft_lower.specs.inner.Meanings.{Names.{AreNamesApart, AreNamesTaken, texts}, Refused.IsPassed};

use crate::meanings::room::Room;
use lft_classes::Work;
use lft_elaborate::{Numbered, Settings};
use lft_whole::sources::{NoProgram, Why};
use std::alloc::{AllocError, Global};
use std::collections::BTreeSet;

/// The names of settings that were found, by number. They are taken.
#[derive(Drop)]
struct CoreNames {
    alloc: Global,
    taken: BTreeSet<String>,
    found: Vec<Option<String>>,
}

impl CoreNames {
    /// No names yet, for so many settings.
    fn of(alloc: Global, count: usize) -> Result<CoreNames, AllocError>
        ensures { IfOk result AreNamesTaken }
    {
        let mut found = Vec::new(alloc);
        for _ in 0..count {
            found.push(None)?;
        }
        Ok(CoreNames {
            alloc,
            taken: BTreeSet::new(alloc),
            found,
        })
    }

    /// Whether a name is taken.
    fn is_taken(&self, name: &str) -> bool
        ensures { result ≡ contains_text self.now.taken name.now }
    {
        self.taken.contains(name)
    }

    /// The name of a reactor, with the number of its setting where it is taken.
    fn free(&self, name: &str, setting: usize) -> Result<String, AllocError> {
        let number = if self.is_taken(name) {
            Some(setting as u64)
        } else {
            None
        };
        Numbered { name, number }.spelled(self.alloc)
    }

    /// Takes such a name.
    fn take(&mut self, name: &str, setting: usize, work: &Work) -> Result<String, NoProgram>
        ensures free { IfOk result (λ name. contains_text self.old.taken (string_bytes name) ≡ false) }
        ensures taken { IfOk result (λ name. (q : List ℕ) → contains_text self.new.taken q ≡ cond (bytes_eq (string_bytes name) q) true (contains_text self.old.taken q)) }
        ensures found { self.new.found ≡ self.old.found }
        ensures cause { IfErr result (IfRefused (IsPassed work.now.main)) }
    {
        let name = self.free(name, setting)?;
        // No other setting has the number.
        if self.is_taken(name.as_str()) {
            return Err(work.refused(Why::TooMuch));
        }
        self.taken.insert(name.clone()?)?;
        Ok(name)
    }

    /// Finds the name of a setting of a reactor.
    fn put(&mut self, setting: usize, name: &str, work: &Work) -> Result<(), NoProgram>
        requires { AreNamesTaken self.old }
        ensures names { OnOk result (AreNamesTaken self.new) }
        ensures cause { IfErr result (IfRefused (IsPassed work.now.main)) }
    {
        let name = self.take(name, setting, work)?;
        if setting < self.found.len() {
            self.found[setting] = Some(name);
        }
        Ok(())
    }
}

/// The names of the settings that are used, by number. A reactor keeps its name; where another one has it
/// already, the number of the setting stands behind it.
pub fn names(
    alloc: Global,
    settings: &Settings,
    used: &[usize],
    room: &mut Room,
) -> Result<Vec<Option<String>>, NoProgram>
    ensures apart { IfOk result (λ names. AreNamesApart (texts names.items)) }
    ensures cause { IfErr result (IfRefused (IsPassed settings.now.work.main)) }
{
    let mut names = CoreNames::of(alloc, settings.settings.len())?;
    for setting in used.iter().copied() {
        if let Some(shape) = settings.shape_of(setting)
            && let Some(name) = &shape.class.reactor.name
        {
            room.spend(name.text.len(), &settings.work)?;
            names.put(setting, name.text.as_str(), &settings.work)?;
        }
    }
    Ok(names.found)
}
