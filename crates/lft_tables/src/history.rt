//! The bytes that something gave. They exist only in proofs.

ghost use Rattle.std.specs.Prelude.{◌≡◌, ◌++◌, ℕ, List, []};
ghost use Rattle.std.specs.Borrow.{ftrue};

use std::marker::{Model, PhantomData};

/// The bytes that something gave, for clauses alone. It takes no memory.
#[derive(Drop)]
pub struct Given {
    marker: PhantomData<u8>,
    pub ghost bytes: { List ℕ },
}

impl Model for Given {
    ghost also_owns = { λ _. ftrue };
}

impl Given {
    /// None yet.
    pub fn new() -> Given
        ensures { result.bytes ≡ [] }
    {
        Given {
            marker: PhantomData,
        }
    }

    /// These too.
    pub fn note(&mut self, _piece: &[u8])
        ensures { self.new.bytes ≡ self.old.bytes ++ _piece.now }
    {}
}
