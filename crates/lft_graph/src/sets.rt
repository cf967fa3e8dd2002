//! Sets of numbers, as of reactions, a bit for each.

ghost use Rattle.std.specs.Prelude.{◌≡◌, ◌≢◌, ◌↔◌, ◌<◌, ◌≤◌, ◌⊎◌, ◌+◌, ◌*◌, ◌/◌, ◌^◌, ℕ, [], length, IsTrue, IfOk};
ghost use Rattle.lft_graph.specs.{Counts.Count, Sets.Has};

use lft_lists::item_at;
use lft_tag::NoMemory;
use std::alloc::Global;
use std::marker::Model;

/// A set of numbers: number r is bit r % 64 of word r / 64.
#[derive(Drop)]
pub struct Set {
    words: Vec<u64>,
}

impl Model for Set {
    ghost use Rattle.std.specs.Prelude.{List, ℕ};

    ghost Value = { List ℕ };

    ghost view = { λ set. set.words.items };
}

impl Set {
    /// No numbers, and room for none.
    pub fn empty(alloc: Global) -> Set
        ensures { result ≡ [] }
    {
        Set {
            words: Vec::new(alloc),
        }
    }

    /// No numbers, and room for those below a bound.
    pub fn with_room(alloc: Global, bound: usize) -> Result<Set, NoMemory>
        ensures room { IfOk result (λ set. length set ≡ bound / 64 + 1) }
        ensures none { IfOk result (λ set. (r : ℕ) → Has set r → ⊥) }
    {
        let words = vec![in alloc; 0; bound / 64 + 1]?;
        Ok(Set { words })
    }

    /// Adds the number.
    pub fn insert(&mut self, number: u32)
        requires { number < 64 * length self.old }
        ensures room { length self.new ≡ length self.old }
        ensures members { (r : ℕ) → Has self.new r ↔ ((r ≡ number) ⊎ Has self.old r) }
    {
        let bit = 1u64 << (number % 64);
        self.words[number as usize / 64] |= bit;
    }

    /// Adds the number, or takes it out where it is in the set.
    pub fn toggle(&mut self, number: u32)
        requires { number < 64 * length self.old }
        ensures room { length self.new ≡ length self.old }
        ensures others { (r : ℕ) → r ≢ number → Has self.new r ↔ Has self.old r }
        ensures put { (Has self.old number → ⊥) → Has self.new number }
        ensures taken { Has self.old number → Has self.new number → ⊥ }
    {
        let bit = 1u64 << (number % 64);
        self.words[number as usize / 64] ^= bit;
    }

    /// Adds the numbers of another set.
    pub fn add_all(&mut self, other: &Set)
        requires { length other.now ≤ length self.old }
        ensures room { length self.new ≡ length self.old }
        ensures members { (r : ℕ) → Has self.new r ↔ (Has self.old r ⊎ Has other.now r) }
    {
        for place in 0..other.words.len() {
            let word = item_at(other.words.as_slice(), place);
            // Most words of a large set are 0. There this set stays untouched, which may be far from the
            // processor.
            if word != 0 {
                self.words[place] |= word;
            }
        }
    }

    /// Whether the number is in the set.
    pub fn has(&self, number: u32) -> bool
        requires { number < 64 * length self.now }
        ensures { IsTrue result ↔ Has self.now number }
    {
        let word = item_at(self.words.as_slice(), number as usize / 64);
        (word >> (number % 64)) % 2 == 1
    }

    /// Whether none of 64 numbers is in the set: those from 64 times the word on.
    pub fn has_none(&self, word: usize) -> bool
        requires { word < length self.now }
        ensures { IsTrue result → (r : ℕ) → r / 64 ≡ word → Has self.now r → ⊥ }
    {
        item_at(self.words.as_slice(), word) == 0
    }

    /// How many numbers are in the set.
    pub(crate) fn count(&self) -> usize
        requires { 64 * length self.now < 2 ^ 64 }
        ensures { Count (Has self.now) (64 * length self.now) result }
    {
        let mut many = 0;
        for place in 0..self.words.len() {
            let word = item_at(self.words.as_slice(), place);
            many += word.count_ones() as usize;
        }
        many
    }

    /// Whether a number is in both sets.
    pub fn meets(&self, other: &Set) -> bool
        ensures { IsTrue result ↔ ((r : ℕ) × Has self.now r × Has other.now r) }
    {
        let words = self.words.len().min(other.words.len());
        for place in 0..words {
            let word = item_at(self.words.as_slice(), place);
            if word & other.words[place] != 0 {
                return true;
            }
        }
        false
    }
}
