#![tactic(auto)]
//! Which cause of refusal the reactors of a core program show, with the parts of the tree that show it. The
//! causes themselves are in `lft_resolve`.

mod checks;
mod circle;
mod declared;
mod finding;
mod mains;
mod member;
mod members;
mod misplaced;
mod names;
mod placed;
mod seen;
mod sources;
mod twice;
mod unknown;
mod witness;

pub use checks::{check_first, check_later, check_times};
pub use circle::circle_of;
pub use finding::Finding;
pub use names::reactors_among;
pub use placed::NameAt;
pub use witness::Witness;
