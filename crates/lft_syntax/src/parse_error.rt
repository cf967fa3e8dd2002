//! Why there is no tree.

ghost use Rattle.std.specs.Prelude.{◌≡◌};
ghost use Rattle.lft_syntax.specs.declared.parse_error.ParseError.TheVariants.{Memory};

use std::alloc::{AllocError, AllocFailed};

/// Why there is no tree.
#[derive(Drop)]
pub enum ParseError {
    /// Memory ran out.
    Memory,
    /// The token at this place, counted from 0, fits no tree.
    Unexpected(usize),
}

impl From<AllocError> for ParseError {
    ghost from_gives = { λ _ e. e ≡ Memory };

    fn from(_e: AllocError) -> ParseError {
        ParseError::Memory
    }
}

impl<T: Drop> From<AllocFailed<T>> for ParseError {
    ghost from_gives = { λ _ e. e ≡ Memory };

    fn from(_e: AllocFailed<T>) -> ParseError {
        ParseError::Memory
    }
}
