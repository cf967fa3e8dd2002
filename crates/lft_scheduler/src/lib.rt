#![tactic(auto)]
//! What a recording may start next: its open runs, the events that are to happen, how far each reaction is at
//! the tag that is run, the stop. No row is looked at again.

mod advancing;
mod agenda;
mod answering;
mod events;
mod firings;
mod found;
mod listeners;
mod open;
mod opening;
mod same;
mod stopping;
mod telling;
mod turn;
mod turning;
mod writing;

pub use agenda::Agenda;
pub use answering::{committed, has_long_delay, may_make_all};
pub use found::NextRun;
pub use open::OpenRun;
pub use opening::begun;
pub use same::same_reads;
