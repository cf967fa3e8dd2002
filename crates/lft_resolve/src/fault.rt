//! Why a reactor has no table.

ghost use Rattle.std.specs.Prelude.{◌≡◌};
ghost use Rattle.lft_resolve.specs.declared.fault.ReactorFault.TheVariants as faults;

use std::alloc::AllocFailed;

/// Why a reactor has no table: a name in it is nothing, which a cause of refusal tells.
#[derive(Clone, Copy, PartialEq, Eq, Drop)]
pub enum ReactorFault {
    /// `new` of a name that no reactor has.
    UnknownReactor,
    /// A name that stands for nothing.
    UnknownName,
    /// A growth of memory was refused.
    NoMemory,
}

impl From<lft_tag::NoMemory> for ReactorFault {
    ghost from_gives = { λ _ e. e ≡ faults.NoMemory };

    fn from(_error: lft_tag::NoMemory) -> ReactorFault {
        ReactorFault::NoMemory
    }
}

impl<T: Drop> From<AllocFailed<T>> for ReactorFault {
    ghost from_gives = { λ _ e. e ≡ faults.NoMemory };

    fn from(_error: AllocFailed<T>) -> ReactorFault {
        ReactorFault::NoMemory
    }
}
