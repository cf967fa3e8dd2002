//! The events that rows make from a tag on, in a queue that each row is fed to.

mod beginning;
mod feeding;
mod reading;

pub(crate) use beginning::first_events;
pub(crate) use feeding::feed;
pub(crate) use reading::read_inputs;
