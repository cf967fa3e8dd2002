#![tactic(auto)]
//! The settings in which the reactors of a program are used: how wide what is in them is, and how many things
//! there are.
//!
//! - `meanings`: what references of a reactor mean.
//! - `channels`: which channels of banks and multiports are joined, by number.
//!
//! No clause says how many things are counted, that a program is refused that passes a limit, or why one is
//! refused. Of a reference alone `meaning_of` says why.

pub mod channels;
mod counts;
pub mod meanings;
mod names;
mod path;
mod places;
mod settings;
mod values;
mod widths;

pub use names::{Numbered, name_of};
pub use settings::{Setting, Settings};
