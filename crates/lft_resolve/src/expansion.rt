//! What flattening computes over numbers alone: all instances of a main reactor in pre-order, the
//! numbers of what they declare, which connection leads into each port, and where the chain of
//! connections into it begins. Where there is a limit or a loop: how many instances there are, and
//! the way back along connections.

mod census;
mod joins;
mod nesting;
mod numbering;
mod origins;
mod settings;
mod walk;
mod ways;

pub use census::count_instances;
pub use joins::{Connections, End, Join, PortSources, Site, find_sources};
pub use nesting::Children;
pub use numbering::{Thing, count_things, first_numbers, list_things};
pub use origins::{Reached, find_origins};
pub use settings::{Clock, Given, Parameters, Values};
pub use walk::{Contents, Instance, WalkFault, all_instances};
pub use ways::way_back;
