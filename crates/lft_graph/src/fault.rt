//! Why a program has no graph.

use crate::lists::Loop;
use lft_tag::NoMemory;
use std::alloc::{AllocError, AllocFailed};

/// Why a program has no graph.
#[derive(Debug, Drop)]
pub enum GraphFault {
    /// Some reaction precedes itself.
    CausalityLoop(Loop),
    /// A growth of memory was refused.
    NoMemory,
}

impl From<NoMemory> for GraphFault {
    ghost use Rattle.std.specs.Prelude.{◌≡◌};
    ghost use Rattle.lft_graph.specs.declared.fault.GraphFault.TheVariants.{NoMemory};

    ghost from_gives = { λ e r. r ≡ NoMemory };

    fn from(_error: lft_tag::NoMemory) -> GraphFault {
        GraphFault::NoMemory
    }
}

impl From<AllocError> for GraphFault {
    ghost use Rattle.std.specs.Prelude.{◌≡◌};
    ghost use Rattle.lft_graph.specs.declared.fault.GraphFault.TheVariants.{NoMemory};

    ghost from_gives = { λ e r. r ≡ NoMemory };

    fn from(_error: AllocError) -> GraphFault {
        GraphFault::NoMemory
    }
}

impl<T: Drop> From<AllocFailed<T>> for GraphFault {
    ghost use Rattle.std.specs.Prelude.{◌≡◌};
    ghost use Rattle.lft_graph.specs.declared.fault.GraphFault.TheVariants.{NoMemory};

    ghost from_gives = { λ e r. r ≡ NoMemory };

    fn from(_error: AllocFailed<T>) -> GraphFault {
        GraphFault::NoMemory
    }
}
