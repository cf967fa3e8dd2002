//! What the records of a kind of table tell, read one after another.

use csv::ByteRecord;

/// A kind of table: its header, and what its records tell.
// Whoever has this can read a text in parts: so it is of rows and of external inputs.
pub trait TableReader: Sync {
    ghost use Rattle.std.specs.Prelude.{◌≡◌, ◌∷◌, ℕ, List, [], IfSome, IsTrue};
    ghost use Rattle.csv.specs.Records.{fields_of};
    ghost use Rattle.lft_tables.specs.{Records.records_of, Parts.HasNoQuote};

    /// What a record tells.
    type Item: Send + Drop;

    /// What the records so far let one guess of the next.
    type Guess: Copy + Send + Drop;

    /// The first record of a table.
    ghost header: { List (List ℕ) };

    /// The record tells the item.
    ghost tells: { Self → List (List ℕ) → Self.Item → Type 0 };

    /// The guess is one of this program.
    ghost is_guess: { Self → Self.Guess → Type 0 };

    /// Whether a line is the header's, with just its bytes.
    fn is_header_line(line: &[u8]) -> bool
        ensures one { IsTrue result → records_of line.now ≡ header ∷ [] }
        ensures quiet { IsTrue result → HasNoQuote line.now };

    /// The guess before the first record.
    fn first_guess(&self) -> Self::Guess
        ensures { is_guess self.now result };

    /// What a record tells, and the guess behind it. None where it has a fault.
    fn read(&self, guess: Self::Guess, fields: &ByteRecord) -> Option<(Self::Item, Self::Guess)>
        requires { is_guess self.now guess }
        ensures item { IfSome result (λ p. tells self.now (fields_of fields.now) p.0) }
        ensures guess { IfSome result (λ p. is_guess self.now p.1) };
}
