#![tactic(auto)]
//! The text of facts: why a trace breaks a rule, in statements that a reader can believe one by one.
//!
//! - `quotes`: the rows that facts name, with their lines and what each of them is to the facts.
//!
//! `tell` promises the text of the facts byte by byte, whether they are true or not. That they are is promised
//! of `find` in `lft_facts`. `explain` brings both together (`Explains`).

mod causes;
mod explaining;
mod hops;
mod laws;
mod neighbours;
mod orders;
pub mod quotes;
mod reads;
mod reasons;
mod rows;
mod runs;
mod sentences;
mod shortening;
mod telling;
mod ways;

pub use explaining::explain;
pub use laws::law_race;
pub use shortening::push_shown;
pub use telling::tell;
