//! Tables of what each reactor of a tree declares, by the reactors' numbers. No cause of refusal holds of the
//! tree that a reactor shows by itself.

mod clocks;
mod cues;
mod declaring;
mod ends;
mod joins;
mod main_place;
mod numbers;
mod settings;
mod sheets;

pub use cues::reactions;
pub use declaring::declarations;
pub use joins::connections;
pub use main_place::main_number;
pub use numbers::contents;
pub use settings::parameters;
pub use sheets::{ActionSheet, Cue, Cues, Declarations, NamedThing, Reactions, TimerSheet};
