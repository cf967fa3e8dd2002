//! How many places there are of each number.

ghost use Rattle.std.specs.Prelude.{◌≡◌, ◌+◌, ◌<◌, ℕ, IfOk, Some, length, replicate, slice_get, slice_set};

use lft_lists::item_at;
use lft_tag::NoMemory;
use std::alloc::Global;
use std::marker::Model;

/// A count for each number, from 0 on.
#[derive(Drop)]
pub struct Tally {
    counts: Vec<u64>,
}

impl Model for Tally {
    ghost use Rattle.std.specs.Prelude.{List, ℕ};

    ghost Value = { List ℕ };

    ghost view = { λ tally. tally.counts.items };
}

impl Tally {
    /// So many numbers, and no place of any.
    pub fn new(alloc: Global, numbers: usize) -> Result<Tally, NoMemory>
        ensures { IfOk result (λ tally. tally ≡ replicate numbers 0) }
    {
        let counts = vec![in alloc; 0; numbers]?;
        Ok(Tally { counts })
    }

    /// One place more of the number.
    pub fn add(&mut self, number: usize)
        requires number { number < length self.old }
        requires few { (n : ℕ) → slice_get self.old number ≡ Some n → n < 4000000 }
        ensures { (n : ℕ) → slice_get self.old number ≡ Some n → self.new ≡ slice_set self.old number (n + 1) }
    {
        let count = item_at(self.counts.as_slice(), number);
        self.counts[number] = count + 1;
    }

    /// The count of each number.
    pub fn as_slice(&self) -> &[u64]
        ensures { result.now ≡ self.now }
    {
        self.counts.as_slice()
    }
}
