//! The events to come, and what rows cause at later tags.

mod at_once;
mod channels;
mod coming;
mod listeners;
mod number_lists;
mod scheduling;
mod unread;
mod writes;

pub use at_once::is_undelayed;
pub use channels::Channels;
pub use coming::Coming;
pub use listeners::NameListeners;
pub use number_lists::NumberLists;
pub use scheduling::pass_on;
pub use unread::UnreadPorts;
pub use writes::{Writes, written_port};
