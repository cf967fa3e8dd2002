//! The parts of the tree of a whole Lingua Franca text, as far as its coordination needs them. Code, types,
//! states, methods, preambles and attributes have no part. A place is the number of a token, counted from 0.

ghost use Rattle.std.specs.Prelude.{string_bytes};
ghost use Rattle.lft_whole.specs.Names.{IsFree, IsFree-prop};

use lft_tree::{Time, TimeUnit};

/// A name that something is given: a word that isn't reserved. It is the token `at`.
#[derive(Debug, Drop)]
pub struct Name {
    pub text: String,
    pub at: usize,
    pub ghost free: { IsFree (string_bytes text) } by { IsFree-prop (string_bytes text) },
}

/// A port, action or timer, or a port of a contained instance or bank: `head` or `head.port`. In
/// `interleaved(..)` the channels are outermost. Its place is that of `head`.
#[derive(Debug, Drop)]
pub struct Reference {
    pub head: Name,
    pub port: Option<Name>,
    pub is_interleaved: bool,
}

/// What is given to a parameter, or where a time stands.
#[derive(Debug, Drop)]
pub enum WrittenValue {
    /// A whole number, or a time where it has a unit. From 2^64 on it counts as 2^64 - 1. A 0 isn't negative.
    Number {
        is_negative: bool,
        count: u64,
        unit: Option<TimeUnit>,
    },
    /// One word, which may be reserved, as a parameter's name or `forever`.
    Word(String),
    /// Code between `{=` and `=}`.
    Code,
    /// A string, a decimal number, a list, a word with points.
    // None of these is a width or a time, so no more of it is kept.
    Other,
}

/// A value as written. It begins at the token `at`.
#[derive(Debug, Drop)]
pub struct Expression {
    pub value: WrittenValue,
    pub at: usize,
}

/// What a term of a width is.
#[derive(Debug, Drop)]
pub enum Count {
    /// A number. From 2^64 on it counts as 2^64 - 1.
    Number(u64),
    /// One word, which may be reserved: a parameter's name.
    Word(String),
    /// `widthof(..)`.
    WidthOf(Reference),
    /// Code between `{=` and `=}`.
    Code,
    /// Nothing at all, as in `input[] in`. It is the one term of its width.
    Open,
}

/// A term of a width. It begins at the token `at`; that of an open width is its `[`.
#[derive(Debug, Drop)]
pub struct Term {
    pub count: Count,
    pub at: usize,
}

/// The sum of these terms, of which there is one at least.
#[derive(Debug, Drop)]
pub struct Width {
    pub terms: Vec<Term>,
}

/// A parameter of a reactor. It is a time by its type, or without a type by its default, which has a unit or is 0.
#[derive(Debug, Drop)]
pub struct Parameter {
    pub name: Name,
    pub is_time: bool,
    pub default: Option<Expression>,
}

/// A port. One without a width is no multiport.
#[derive(Debug, Drop)]
pub struct Port {
    pub name: Name,
    pub is_input: bool,
    pub width: Option<Width>,
}

/// A timer. Its values behind the period mean nothing.
#[derive(Debug, Drop)]
pub struct Timer {
    pub name: Name,
    pub offset: Option<Expression>,
    pub period: Option<Expression>,
}

/// An action. Its values behind the spacing mean nothing.
#[derive(Debug, Drop)]
pub struct Action {
    pub name: Name,
    pub is_physical: bool,
    pub min_delay: Option<Expression>,
    pub spacing: Option<Expression>,
}

/// What a reaction is triggered by.
#[derive(Debug, Drop)]
pub enum Trigger {
    Startup,
    Shutdown,
    /// The word `reset`, of modes. It is the token `at`.
    Reset { at: usize },
    Reference(Reference),
}

/// What a reaction may write.
#[derive(Debug, Drop)]
pub enum Effect {
    /// `reset(..)` or `history(..)`, of modes. The word is the token `at`.
    Mode { at: usize },
    Reference(Reference),
}

/// A reaction. The word `reaction` is the token `at`. One without triggers may be written, and is refused later.
#[derive(Debug, Drop)]
pub struct Reaction {
    pub triggers: Vec<Trigger>,
    pub uses: Vec<Reference>,
    pub effects: Vec<Effect>,
    pub at: usize,
}

/// A value that `new` gives to a parameter.
#[derive(Debug, Drop)]
pub struct Assignment {
    pub name: Name,
    pub value: Expression,
}

/// A contained instance of a reactor, or with a width a bank.
#[derive(Debug, Drop)]
pub struct Instance {
    pub name: Name,
    pub width: Option<Width>,
    pub reactor: Name,
    pub given: Vec<Assignment>,
    /// It has the attribute `@enclave`.
    pub is_enclave: bool,
}

/// Connections of sources to destinations. It begins at the token `at`; its arrow is the token `arrow`. Each
/// side has one reference at least.
#[derive(Debug, Drop)]
pub struct Connection {
    pub sources: Vec<Reference>,
    /// `(..)+`: the sources over and over.
    pub is_broadcast: bool,
    /// The arrow is `~>`.
    pub is_physical: bool,
    pub destinations: Vec<Reference>,
    pub delay: Option<Expression>,
    pub at: usize,
    pub arrow: usize,
}

/// What no core program has in its place.
#[derive(Clone, Copy, Debug, PartialEq, Eq)]
pub enum Foreign {
    Mode,
    Mutation,
    Watchdog,
}

/// What a reactor declares, in order.
#[derive(Debug, Drop)]
pub enum Member {
    Port(Port),
    Timer(Timer),
    Action(Action),
    Reaction(Reaction),
    Instance(Instance),
    Connection(Connection),
    /// A mode, mutation or watchdog. It begins at the token `at`.
    Foreign { what: Foreign, at: usize },
}

/// A reactor. It begins at the token `at`, with `main`, `federated`, `realtime` or `reactor`.
#[derive(Debug, Drop)]
pub struct Reactor {
    /// It is run: `main` or `federated` stands before it.
    pub is_main: bool,
    pub is_federated: bool,
    pub name: Option<Name>,
    pub parameters: Vec<Parameter>,
    /// The reactors behind `extends`.
    pub bases: Vec<Name>,
    pub members: Vec<Member>,
    pub at: usize,
}

/// A reactor of another file: its name there, and here. Without `as` both are the same token.
#[derive(Debug, Drop)]
pub struct ImportedName {
    pub name: Name,
    pub alias: Name,
}

/// An import. Its path is what stands between the quotes of the token `at`, as it is written.
#[derive(Debug, Drop)]
pub struct Import {
    pub names: Vec<ImportedName>,
    pub path: Vec<u8>,
    pub at: usize,
}

/// A `timeout` among the properties of the target. Its word is the token `at`.
#[derive(Debug, Drop)]
pub struct Timeout {
    pub time: Time,
    pub at: usize,
}

/// What a file has, each in the order of the text.
#[derive(Debug, Drop)]
pub struct File {
    /// The name behind the last `target`.
    pub target: Option<Name>,
    /// The timeouts among the last properties of a target.
    pub timeouts: Vec<Timeout>,
    /// The first `coordination: decentralized` among the last properties of a target, by its first token.
    pub decentralized: Option<usize>,
    pub imports: Vec<Import>,
    pub reactors: Vec<Reactor>,
}
