//! What each reactor of a file declares, with a place for each name.

use crate::expansion::{Clock, End};

/// What a name in a reactor stands for: a port of its own or of an instance that it contains, or an
/// action of its own by its place.
#[derive(Clone, Copy, PartialEq, Eq, Drop)]
pub enum NamedThing {
    Port(End),
    Action(u32),
}

/// What a reaction is triggered by. A timer is one of the reactor, by its place.
#[derive(Clone, Copy, PartialEq, Eq, Drop)]
pub enum Cue {
    Startup,
    Shutdown,
    Timer(u32),
    On(NamedThing),
}

/// What the names of a reaction stand for, each list in order of declaration. A timer as a use isn't
/// kept.
#[derive(Drop)]
pub struct Cues {
    pub triggers: Vec<Cue>,
    pub uses: Vec<NamedThing>,
    pub effects: Vec<NamedThing>,
}

/// The reactions of a reactor, in order of declaration.
#[derive(Drop)]
pub struct Reactions {
    pub reactions: Vec<Cues>,
}

/// A timer of a reactor; a time that is left out is 0.
#[derive(Clone, Copy, PartialEq, Eq, Drop)]
pub struct TimerSheet {
    pub offset: Clock,
    pub period: Clock,
}

/// An action of a reactor; a time that is left out is 0.
#[derive(Clone, Copy, PartialEq, Eq, Drop)]
pub struct ActionSheet {
    pub is_physical: bool,
    pub min_delay: Clock,
}

/// The ports of a reactor, by whether each is an input, its timers and its actions, in order of
/// declaration.
#[derive(Drop)]
pub struct Declarations {
    pub inputs: Vec<bool>,
    pub timers: Vec<TimerSheet>,
    pub actions: Vec<ActionSheet>,
}
