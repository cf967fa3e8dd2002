//! Texts in order, none of them twice.

ghost use Rattle.std.specs.Prelude.{◌≡◌, ◌<◌, ℕ, List, ◌++◌, ◌∷◌, [], length, slice_get, string_bytes, true, false, Some, IfSome, IfNone, IfOk, OnOk};
ghost use Rattle.std.specs.Bool.{Decides};

use indexmap::IndexSet;
use lft_tag::NoMemory;
use std::alloc::Global;
use std::hash::{BuildHasher, FoldHasher, Hasher};
use std::marker::Model;

/// Makes the hashers of texts, all in one state, which a seed decides.
#[derive(Clone, Copy, Debug)]
struct SeededHash {
    first: FoldHasher,
}

impl SeededHash {
    fn new(seed: u64) -> SeededHash {
        let mut first = FoldHasher::default();
        first.write_u64(seed);
        SeededHash { first }
    }
}

impl BuildHasher for SeededHash {
    type Hasher = FoldHasher;

    ghost build_hasher = { λ s. s.first };

    fn build_hasher(&self) -> FoldHasher {
        self.first
    }
}

/// Texts by number, in the order in which they came. None stands there twice.
// One set, so that a text is found in one look-up and no text is kept twice.
#[derive(Debug, Drop)]
pub struct Texts {
    hash: SeededHash,
    set: IndexSet<String, SeededHash>,
}

impl Model for Texts {
    ghost use Rattle.std.specs.Prelude.{ℕ, map, List, string_bytes};
    ghost use Rattle.lft_ir.specs.inner.{Names.HasNoTwice, Places.AreUtf8};

    ghost Value = { List (List ℕ) };

    ghost view = { λ a. map string_bytes a.set.keys };

    ghost invariant = { λ a. HasNoTwice (map string_bytes a.set.keys) × AreUtf8 (map string_bytes a.set.keys) };
}

impl Texts {
    ghost use Rattle.lft_ir.specs.inner.{Names.HasNoTwice, Places.AreUtf8};

    /// No texts. The seed decides how they hash, and no answer: one that depends on all the texts to
    /// come keeps whoever writes them from choosing ones whose hashes collide.
    pub fn new(alloc: Global, seed: u64) -> Texts
        ensures { result ≡ [] }
    {
        let hash = SeededHash::new(seed);
        Texts {
            hash,
            set: IndexSet::with_hasher(alloc, hash),
        }
    }

    /// Does nothing. It is called for its clauses, where code has texts and a proof needs what all
    /// of them keep.
    pub fn keeps(&self)
        ensures distinct { HasNoTwice self.now }
        ensures utf8 { AreUtf8 self.now }
    {
        let _ = &self.set;
    }

    /// How many texts there are.
    pub fn len(&self) -> usize
        ensures count { result ≡ length self.now }
        ensures distinct { HasNoTwice self.now }
        ensures utf8 { AreUtf8 self.now }
    {
        self.set.len()
    }

    /// Puts the text last, or leaves all as it is where the text is there already and the answer
    /// is false.
    pub fn push(&mut self, text: String) -> Result<bool, NoMemory>
        ensures added { IfOk result (λ new. new ≡ true → self.new ≡ self.old ++ string_bytes text ∷ []) }
        ensures there { IfOk result (λ new. new ≡ false → (i : ℕ) × (slice_get self.old i ≡ Some (string_bytes text))) }
        ensures kept { IfOk result (λ new. new ≡ false → self.new ≡ self.old) }
        ensures distinct { HasNoTwice self.new }
    {
        Ok(self.set.insert(text)?)
    }

    /// Puts a text last that isn't there.
    pub fn push_new(&mut self, text: String) -> Result<(), NoMemory>
        requires new { (i : ℕ) → slice_get self.old i ≡ Some (string_bytes text) → ⊥ }
        ensures { OnOk result (self.new ≡ self.old ++ string_bytes text ∷ []) }
    {
        // Its answer is known: who calls this says that the text isn't there.
        self.push(text)?;
        Ok(())
    }

    /// The number of a text.
    pub fn find(&self, text: &str) -> Option<usize>
        ensures some { IfSome result (λ i. slice_get self.now i ≡ Some text.now) }
        ensures none { IfNone result ((i : ℕ) → slice_get self.now i ≡ Some text.now → ⊥) }
    {
        self.set.get_index_of(text)
    }

    /// The text of this number.
    pub fn get(&self, number: usize) -> &str
        requires { number < length self.now }
        ensures { slice_get self.now number ≡ Some result.now }
    {
        match self.set.get_index(number) {
            Some(text) => text.as_str(),
            // This doesn't come: the number is one of a text.
            None => "",
        }
    }

    /// Whether the two have the same texts in the same order.
    pub fn same(&self, other: &Texts) -> bool
        ensures { Decides result (self.now ≡ other.now) }
    {
        if self.len() != other.len() {
            return false;
        }
        for i in 0..self.len() {
            if self.get(i) != other.get(i) {
                return false;
            }
        }
        true
    }

    /// The same texts.
    pub fn copy(&self, alloc: Global) -> Result<Texts, NoMemory>
        ensures { IfOk result (λ copy. copy ≡ self.now) }
    {
        let hash = self.hash;
        let mut copy = Texts {
            hash,
            set: IndexSet::with_hasher(alloc, hash),
        };
        for number in 0..self.len() {
            let text = String::from_str(alloc, self.get(number))?;
            copy.push_new(text)?;
        }
        Ok(copy)
    }
}
