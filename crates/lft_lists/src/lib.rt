#![tactic(auto)]
//! Lists: the item at a place, a list of which contracts see the items, and lemmas that several crates
//! cite. A walk along the ways from number to number. Its specs name classes of bytes.

ghost use Rattle.std.specs.Prelude.{◌≡◌, ◌<◌, length, slice_get, Some};

mod list;
mod walk;

pub use list::List;
pub use walk::{Walked, Ways, walk_all};

/// The item at the place, counted from 0.
pub fn item_at<T: Copy>(items: &[T], place: usize) -> T
    requires { place < length items.now }
    ensures { slice_get items.now place ≡ Some result }
{
    // Lemmas speak of `slice_get`. Of an index proofs see the item or some default.
    items[place]
}
