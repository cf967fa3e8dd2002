//! Lists of numbers, by number.

ghost use Rattle.std.specs.Prelude.{◌≡◌, ℕ, [], ◌∷◌, ◌++◌, ◌<◌, length, Some, None, IfSome, IfNone, IfOk, OnOk, slice_get, slice_set};
ghost use Rattle.lft_queue.specs.inner.Coming.NumberLists.{list_at};

use lft_tag::NoMemory;
use std::alloc::Global;
use std::marker::Model;

/// For each number, from 0 on, a list of numbers.
#[derive(Drop)]
pub struct NumberLists {
    lists: Vec<Vec<u32>>,
}

impl Model for NumberLists {
    ghost use Rattle.std.specs.Prelude.{List, ℕ, map};

    ghost Value = { List (List ℕ) };

    ghost view = { λ lists. map (λ list. list.items) lists.lists.items };
}

impl NumberLists {
    /// So many empty lists.
    pub fn empty(alloc: Global, count: usize) -> Result<NumberLists, NoMemory>
        ensures long { IfOk result (λ lists. length lists ≡ count) }
        ensures none { IfOk result (λ lists. (n : ℕ) → list_at lists n ≡ []) }
    {
        let mut lists = Vec::new(alloc);
        for _ in 0..count {
            lists.reserve(1)?;
            lists.push_reserved(Vec::new(alloc));
        }
        Ok(NumberLists { lists })
    }

    /// The list of the number.
    pub fn of(&self, number: u32) -> &[u32]
        requires { number < length self.now }
        ensures { slice_get self.now number ≡ Some result.now }
    {
        self.lists[number as usize].as_slice()
    }

    /// The list of the number, if there is one.
    pub(crate) fn get(&self, number: u32) -> Option<&[u32]>
        ensures some { IfSome result (λ list. slice_get self.now number ≡ Some list.now) }
        ensures none { IfNone result (slice_get self.now number ≡ None) }
    {
        let place = number as usize;
        if place < self.lists.len() {
            Some(self.lists[place].as_slice())
        } else {
            None
        }
    }

    /// The list of the number, empty past the last one.
    pub fn at(&self, number: u32) -> &[u32]
        ensures { result.now ≡ list_at self.now number }
    {
        match self.lists.get(number as usize) {
            Some(list) => list.as_slice(),
            None => &[],
        }
    }

    /// Puts an item behind the list of the number.
    pub fn push(&mut self, number: u32, item: u32) -> Result<(), NoMemory>
        requires { number < length self.old }
        ensures { OnOk result (self.new ≡ slice_set self.old number (list_at self.old number ++ item ∷ [])) }
    {
        self.lists[number as usize].push(item)?;
        Ok(())
    }
}
