//! How many instances there are, where they are more than may be.

ghost use Rattle.std.specs.Prelude.{◌≡◌, ◌<◌, ℕ, IfOk, true};
ghost use Rattle.lft_resolve.specs.{inner.Expansion.Contents.contained, Expansion.Paths.{Exists, IsMoreThan}};

use crate::expansion::walk::Contents;
use lft_tag::NoMemory;
use std::alloc::Global;

/// More instances aren't counted.
const MOST_COUNTED: usize = 1_000_000;

/// How many instances of the main reactor there are up to a million, and whether there are more. The table
/// has what each reactor contains, as `all_instances` takes it.
pub fn count_instances(
    alloc: Global,
    contents: &[Contents],
    main: u32,
) -> Result<(usize, bool), NoMemory>
    ensures counted { IfOk result (λ r. (n : ℕ) → n < r.0 → IsMoreThan (Exists (contained contents.now) main) n) }
    ensures more { IfOk result (λ r. r.1 ≡ true → (r.0 ≡ 1000000) × IsMoreThan (Exists (contained contents.now) main) r.0) }
{
    let mut left = Vec::new(alloc);
    left.push(main)?;
    for counted in 0..MOST_COUNTED {
        let Some(number) = left.pop() else {
            return Ok((counted, false));
        };
        let reactor = number as usize;
        // What is left to count takes memory: no more than there is to count.
        if reactor < contents.len() && left.len() <= MOST_COUNTED - counted {
            left.extend_from_slice(contents[reactor].instances.as_slice())?;
        }
    }
    Ok((MOST_COUNTED, !left.is_empty()))
}
