//! The short list of a reaction.

ghost use Rattle.std.specs.Prelude.{◌≡◌, IfOk};

use lft_lists::List;
use lft_tag::NoMemory;
use std::alloc::Global;

/// Some reactions in order.
pub(crate) type Members = List<u32>;

/// The same lists.
pub(crate) fn copy_members(alloc: Global, lists: &[Members]) -> Result<Vec<Members>, NoMemory>
    ensures { IfOk result (λ copies. copies.items ≡ lists.now) }
{
    let mut copies = Vec::new(alloc);
    for number in 0..lists.len() {
        copies.push(lists[number].copy(alloc)?)?;
    }
    Ok(copies)
}
