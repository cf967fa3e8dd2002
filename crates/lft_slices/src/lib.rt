#![tactic(auto)]
//! The cut of a trace: its runs by tag, for who asks what ran. No command calls it.

mod answers;
mod cuts;
mod cutting;
mod pieces;

pub use cuts::Cut;
pub use cutting::cut;
pub use lft_check::by_tag::{CutFault, Sliced};
pub use lft_rows::Slice;
pub use pieces::Piece;
