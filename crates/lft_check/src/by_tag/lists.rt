//! A list for each reaction.

ghost use Rattle.std.specs.Prelude.{◌≡◌, ℕ, ◌<◌, ◌++◌, ◌∷◌, [], length, List, Some, slice_get, slice_set, IfOk, OnOk};

use lft_tag::NoMemory;
use std::alloc::Global;
use std::marker::Model;

/// A list for each reaction, by its number.
#[derive(Drop)]
pub(crate) struct ByReaction<T: Copy + Drop> {
    rows: Vec<Vec<T>>,
}

impl<T: Copy + Drop> Model for ByReaction<T> {
    ghost use Rattle.std.specs.Prelude.{List, map};

    ghost Value = { List (List T) };

    ghost view = { λ l. map (λ row. row.items) l.rows.items };
}

impl<T: Copy + Drop> ByReaction<T> {
    /// So many empty lists.
    pub(crate) fn new(alloc: Global, count: usize) -> Result<ByReaction<T>, NoMemory>
        ensures count { IfOk result (λ lists. length lists ≡ count) }
        ensures empty { IfOk result (λ lists. (r : ℕ) (list : List T) → slice_get lists r ≡ Some list → list ≡ []) }
    {
        let mut rows = Vec::new(alloc);
        for _ in 0..count {
            rows.reserve(1)?;
            rows.push_reserved(Vec::new(alloc));
        }
        Ok(ByReaction { rows })
    }

    /// Adds an item behind the others of a list.
    pub(crate) fn push(&mut self, number: u32, item: T) -> Result<(), NoMemory>
        requires { number < length self.old }
        ensures { OnOk result ((list : List T) → slice_get self.old number ≡ Some list → self.new ≡ slice_set self.old number (list ++ item ∷ [])) }
    {
        self.rows[number as usize].push(item)?;
        Ok(())
    }

    /// The list of this number.
    pub(crate) fn at(&self, number: u32) -> &[T]
        requires { number < length self.now }
        ensures { slice_get self.now number ≡ Some result.now }
    {
        self.rows[number as usize].as_slice()
    }
}
