//! Why a text has no tokens, or no tree.

use std::alloc::AllocFailed;

/// Why a text has no tokens. Places count bytes from 0.
#[derive(Clone, Copy, Debug, PartialEq, Eq)]
pub enum LexFault {
    /// A byte that begins no token.
    BadChar(usize),
    /// A comment that isn't closed.
    OpenComment,
    /// Code that isn't closed.
    OpenCode,
    /// A string that isn't closed.
    OpenString,
    /// A number past 2^64 - 1.
    NumberTooLarge(usize),
    /// More than 1,048,576 bytes.
    TooLong,
    /// A growth of memory was refused.
    NoMemory,
}

impl<T: Drop> From<AllocFailed<T>> for LexFault {
    ghost use Rattle.std.specs.Prelude.{◌≡◌};
    ghost use Rattle.lft_syntax.specs.declared.fault.LexFault.TheVariants.{NoMemory};

    ghost from_gives = { λ _ e. e ≡ NoMemory };

    fn from(_refused: AllocFailed<T>) -> LexFault {
        LexFault::NoMemory
    }
}

/// Why tokens have no tree.
#[derive(Clone, Copy, Debug, PartialEq, Eq)]
pub enum SyntaxFault {
    /// No text with a tree begins with the first so many tokens; one more than there are where the
    /// text ends too soon.
    Unexpected(usize),
    /// A growth of memory was refused.
    NoMemory,
}
