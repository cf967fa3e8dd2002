//! How names hash that are looked up.

ghost use Rattle.std.specs.Prelude.{◌≡◌};
ghost use Rattle.lft_resolve.specs.inner.{Hashing.{for_references, for_texts, seeded_by}, References.ref_trees, Tests.texts};

use lft_tree::Reference;
use std::hash::{BuildHasher, DefaultHasher, FoldHasher, Hash, Hasher};

/// Makes the hashers of some names, all in one state. What a map answers doesn't hang on it.
// Under std's fixed seed chosen names cost their square. The answers of an ordered map would have to be
// proved by the order of texts.
#[derive(Clone, Copy)]
pub struct NameHash {
    first: FoldHasher,
}

impl NameHash {
    /// The state that what was written to `names` decides.
    fn after(names: &DefaultHasher) -> NameHash
        ensures { result.first ≡ seeded_by names.now }
    {
        let mut first = FoldHasher::default();
        first.write_u64(names.finish());
        NameHash { first }
    }

    /// One that depends on all the names: whoever looks for names whose hashes collide under it
    /// changes it with each try.
    pub fn of(names: &[&str]) -> NameHash
        ensures { result.first ≡ for_texts (texts names.now) }
    {
        let mut hasher = DefaultHasher::new();
        // The end of each name is hashed too. Else all cuts of one row of letters shared a seed, and cuts that
        // collide under it could be chosen.
        names.hash(&mut hasher);
        NameHash::after(&hasher)
    }

    /// The same, of names of ports, timers and actions.
    pub fn of_references(names: &[&Reference]) -> NameHash
        ensures { result.first ≡ for_references (ref_trees names.now) }
    {
        let mut hasher = DefaultHasher::new();
        for name in names {
            name.head.hash(&mut hasher);
            name.port.hash(&mut hasher);
        }
        NameHash::after(&hasher)
    }
}

impl BuildHasher for NameHash {
    type Hasher = FoldHasher;

    ghost build_hasher = { λ s. s.first };

    fn build_hasher(&self) -> FoldHasher {
        self.first
    }
}
