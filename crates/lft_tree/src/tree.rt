//! The parts of the tree of a program text. A part that has a place in the text has it as the number of a
//! token, counted from 0. What contracts see of the tree has no places: two names of one spelling stay one name to
//! the grammar. The parser knows the places. A second reading of the text would have to find each part by the sizes
//! of those before it.

/// A unit of time.
#[derive(Clone, Copy, Debug, PartialEq, Eq)]
pub enum TimeUnit {
    Nanosecond,
    Microsecond,
    Millisecond,
    Second,
    Minute,
    Hour,
    Day,
    Week,
}

/// A time as written: a count of units. Only 0 may stand without a unit.
// No nanoseconds: 2^64 - 1 weeks overflow 64 bits, and the tree would need a fault of its own.
#[derive(Clone, Copy, Debug, PartialEq, Eq)]
pub struct Time {
    pub count: u64,
    pub unit: Option<TimeUnit>,
}

/// A time, or the parameter of the reactor that has it. It begins at the token `at`.
#[derive(Debug, Drop)]
pub enum TimeExpression {
    Written { time: Time, at: usize },
    Parameter { name: String, at: usize },
}

/// The tokens from the number `start` up to, without, the number `end`, counted from 0. They are
/// read and mean nothing.
// They aren't dropped, so that uniqueness speaks of the whole tree.
#[derive(Clone, Copy, Debug, PartialEq, Eq)]
pub struct TokenRange {
    pub start: usize,
    pub end: usize,
}

/// A name, or a port of a contained instance: `name` or `instance.port`. It begins at the token `at`.
#[derive(Debug, Drop)]
pub struct Reference {
    pub head: String,
    pub port: Option<String>,
    pub at: usize,
}

/// A parameter of a reactor with its default. Its name is the token `at`.
#[derive(Debug, Drop)]
pub struct Parameter {
    pub name: String,
    pub default: Time,
    pub at: usize,
}

/// A port. Its name is the token `at`.
#[derive(Debug, Drop)]
pub struct Port {
    pub name: String,
    pub is_input: bool,
    pub at: usize,
}

/// A timer. Its name is the token `at`.
#[derive(Debug, Drop)]
pub struct Timer {
    pub name: String,
    pub offset: Option<TimeExpression>,
    pub period: Option<TimeExpression>,
    pub at: usize,
}

/// An action. Its name is the token `at`.
#[derive(Debug, Drop)]
pub struct Action {
    pub name: String,
    pub is_physical: bool,
    pub min_delay: Option<TimeExpression>,
    pub at: usize,
}

/// What a reaction is triggered by.
#[derive(Debug, Drop)]
pub enum Trigger {
    Startup,
    Shutdown,
    Reference(Reference),
}

/// A reaction; its code and its own name mean nothing and aren't kept. It begins at the token `at`.
#[derive(Debug, Drop)]
pub struct Reaction {
    pub triggers: Vec<Trigger>,
    pub uses: Vec<Reference>,
    pub effects: Vec<Reference>,
    pub at: usize,
}

/// A value that `new` gives to a parameter. The parameter's name is the token `at`.
#[derive(Debug, Drop)]
pub struct Assignment {
    pub name: String,
    pub value: TimeExpression,
    pub at: usize,
}

/// A contained instance of a reactor. Its name is the token `at`, that of the reactor `reactor_at`.
#[derive(Debug, Drop)]
pub struct Instance {
    pub name: String,
    pub reactor: String,
    pub given: Vec<Assignment>,
    pub at: usize,
    pub reactor_at: usize,
}

/// Connections of sources to destinations, joined in order. The arrow between them is the token `arrow`.
// Two lists, and no list of pairs: where their lengths differ the text has a tree, and its program is refused.
#[derive(Debug, Drop)]
pub struct Connection {
    pub sources: Vec<Reference>,
    pub destinations: Vec<Reference>,
    pub delay: Option<TimeExpression>,
    pub arrow: usize,
}

/// What a reactor declares. State variables and preambles mean nothing.
#[derive(Debug, Drop)]
pub enum Member {
    Port(Port),
    Timer(Timer),
    Action(Action),
    State(TokenRange),
    Preamble(TokenRange),
    Reaction(Reaction),
    Instance(Instance),
    Connection(Connection),
}

/// A reactor. Only the main one may be without a name. Its name is the token `at`; without one it is the
/// word `main`, which stands before `reactor`.
#[derive(Debug, Drop)]
pub struct Reactor {
    pub is_main: bool,
    pub name: Option<String>,
    pub parameters: Vec<Parameter>,
    pub members: Vec<Member>,
    pub at: usize,
}

/// What stands at the top of a file.
#[derive(Debug, Drop)]
pub enum Item {
    Preamble(TokenRange),
    Reactor(Reactor),
}
