//! Why a program isn't lowered, and where.

use crate::sources::why::Why;
use lft_tag::NoMemory;
use std::alloc::{AllocError, AllocFailed};

/// A token of a file: both by number, counted from 0.
#[derive(Clone, Copy, Debug, PartialEq, Eq)]
pub struct Place {
    pub file: usize,
    pub token: usize,
}

/// Why a program isn't lowered, and the token that shows it.
#[derive(Clone, Copy, Debug, PartialEq, Eq)]
pub struct FileRefusal {
    pub why: Why,
    pub place: Place,
}

/// Why there is no program.
#[derive(Clone, Copy, Debug, PartialEq, Eq)]
pub enum NoProgram {
    Refused(FileRefusal),
    NoMemory,
}

impl NoProgram {
    ghost use Rattle.std.specs.Prelude.{◌≡◌};

    /// The stop at a token of a file.
    pub fn at(why: Why, file: usize, token: usize) -> NoProgram
        ensures { result ≡ NoProgram.Refused (record { why = why; place = record { file = file; token = token } }) }
    {
        NoProgram::Refused(FileRefusal {
            why,
            place: Place { file, token },
        })
    }
}

impl From<AllocError> for NoProgram {
    ghost use Rattle.std.specs.Prelude.{◌≡◌};
    ghost use Rattle.lft_whole.specs.declared.sources.stop.NoProgram.TheVariants.{NoMemory};

    ghost from_gives = { λ _ e. e ≡ NoMemory };

    fn from(_error: AllocError) -> NoProgram {
        NoProgram::NoMemory
    }
}

impl<T: Drop> From<AllocFailed<T>> for NoProgram {
    ghost use Rattle.std.specs.Prelude.{◌≡◌};
    ghost use Rattle.lft_whole.specs.declared.sources.stop.NoProgram.TheVariants.{NoMemory};

    ghost from_gives = { λ _ e. e ≡ NoMemory };

    fn from(_error: AllocFailed<T>) -> NoProgram {
        NoProgram::NoMemory
    }
}

impl From<NoMemory> for NoProgram {
    ghost use Rattle.std.specs.Prelude.{◌≡◌};
    ghost use Rattle.lft_whole.specs.declared.sources.stop.NoProgram.TheVariants.{NoMemory};

    ghost from_gives = { λ _ e. e ≡ NoMemory };

    fn from(_error: NoMemory) -> NoProgram {
        NoProgram::NoMemory
    }
}
