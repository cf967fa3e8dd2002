//! A causality loop, seen as a list.

ghost use Rattle.std.specs.Prelude.{◌≡◌};

use std::marker::Model;

/// A causality loop: each reaction directly precedes the next and the last the first, none stands
/// twice, and the one with the least number stands first.
#[derive(Debug, Drop)]
pub struct Loop {
    items: Vec<u32>,
}

impl Model for Loop {
    ghost use Rattle.std.specs.Prelude.{List, ℕ};

    ghost Value = { List ℕ };

    ghost view = { λ a. a.items.items };
}

impl Loop {
    /// The list of these reactions. It takes no memory.
    pub(crate) fn from_vec(items: Vec<u32>) -> Loop
        ensures { result ≡ items.items }
    {
        Loop { items }
    }

    /// The reactions in order.
    pub fn as_slice(&self) -> &[u32]
        ensures { result.now ≡ self.now }
    {
        self.items.as_slice()
    }
}
