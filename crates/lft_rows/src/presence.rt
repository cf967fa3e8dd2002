//! What is present in a trace: the causes of events, and what they make present, trigger and
//! collide at a tag. Of the rules on rows it knows nothing.

mod causes;
mod causing;
mod clashes;
mod due;
mod events;
mod inputs;
mod lookup;
mod needed;
mod pairs;
mod present;
mod triggered;

pub use causes::{EventCause, cause_tag, moved, position, skip};
pub use clashes::sooner;
pub use events::{Presence, presence_of};
pub use lookup::{first_after, first_cause, last_before, last_cause};
pub use needed::needed_of;
