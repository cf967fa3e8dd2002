//! What a program means, written out: a whole one and a core one. It has laws alone, and no code.
//!
//! A core tree has the flat program of the tree written out. Where that is a whole program of which each
//! reaction has a trigger, the flat program is that of the whole program too, names included.

ghost use Rattle.lft_same.specs.inner.Expanded.Laws.{CoreLaw, JoinedLaw, OnlyLaw, PlacesLaw, SameLaw, WholeJoinLaw};

/// Definitions that are proved to agree. It does no work.
pub fn laws_of_programs()
    ensures core { CoreLaw }
    ensures only { OnlyLaw }
    ensures same { SameLaw }
    ensures joined { JoinedLaw }
    ensures whole { WholeJoinLaw }
    ensures places { PlacesLaw }
{}
