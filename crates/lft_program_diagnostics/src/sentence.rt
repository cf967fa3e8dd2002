//! The sentences that tell why a program is refused.

ghost use Rattle.std.specs.Prelude.{◌≡◌, ◌++◌, [], OnOk, get_or, map, option_map, string_bytes};
ghost use Rattle.lft_program_diagnostics.specs.{Sentences.{said, words_in}, inner.Sentences.way_in};

use lft_lists::item_at;
use lft_tag::NoMemory;

const NO_REACTOR: [&str; 3] = [
    "",
    " has an instance of ",
    ", which is no reactor of the text",
];

const NO_PORT: [&str; 4] = [
    "in ",
    " ",
    " is an instance of ",
    ", which has no port named ",
];

const NO_PARAMETER: [&str; 4] = [
    "",
    " gives an instance of ",
    " a value for ",
    ", which is no parameter of it",
];

const LONG_CHAIN: [&str; 3] = [
    "the delays from ",
    " to ",
    " sum to more than 10^18 nanoseconds",
];

/// What is said, without the names in it. Each has a cause.
#[derive(Clone, Copy)]
pub enum Sentence {
    NoMain,
    TwoMains,
    SameReactors,
    SameThings,
    GivenTwice,
    UnknownReactor,
    Recursive,
    UnknownName,
    UnknownInstance,
    UnknownPort,
    UnknownParameter,
    WrongPlace,
    MainPort,
    TwoSources,
    Cycle,
    Widths,
    NoTrigger,
    NamedTwice,
    LongTime,
    LongDefault,
    LongChain,
    TooMany,
}

impl Sentence {
    /// Its words. A name stands behind each of them, but behind the last where none is left.
    pub(crate) fn words(self) -> &'static [&'static str]
        ensures { map (λ word. word.now) result.now ≡ words_in self }
    {
        match self {
            Sentence::NoMain => &["no reactor is the main one"],
            Sentence::TwoMains => &["two reactors are main ones"],
            Sentence::SameReactors => &["two reactors are named "],
            Sentence::SameThings => &["", " has two things named "],
            Sentence::GivenTwice => &["the instance ", " gives the parameter ", " two values"],
            Sentence::UnknownReactor => &NO_REACTOR,
            Sentence::Recursive => &["", " contains itself"],
            Sentence::UnknownName => &["nothing in ", " is named "],
            Sentence::UnknownInstance => &["", " has no instance named "],
            Sentence::UnknownPort => &NO_PORT,
            Sentence::UnknownParameter => &NO_PARAMETER,
            Sentence::WrongPlace => &["in ", " ", " is ", ", and "],
            Sentence::MainPort => &["the main reactor has a port, "],
            Sentence::TwoSources => &["in ", " ", " is the end of "],
            Sentence::Cycle => &["connections alone form a loop"],
            Sentence::Widths => &["in ", " a connection joins ", " names to "],
            Sentence::NoTrigger => &["a reaction of ", " has no trigger"],
            Sentence::NamedTwice => &["a reaction of ", " names ", " twice among "],
            Sentence::LongTime => &["a time of ", " is past 10^18 nanoseconds"],
            Sentence::LongDefault => &["the default of ", " in ", " is past 10^18 nanoseconds"],
            Sentence::LongChain => &LONG_CHAIN,
            Sentence::TooMany => &["the program has ", ", and may have "],
        }
    }

    /// What to write, where the sentence alone tells that.
    pub fn way(self) -> Option<&'static str>
        ensures { option_map (λ way. way.now) result ≡ way_in self }
    {
        match self {
            Sentence::NoMain => Some("Write `main reactor { .. }`, with instances of the others."),
            Sentence::TwoMains => Some("Take `main` from one of them."),
            Sentence::SameReactors | Sentence::SameThings => Some("Give one of them another name."),
            Sentence::MainPort => Some(
                "A main reactor has no ports. What comes from outside is a physical action.",
            ),
            Sentence::TwoSources => Some(
                "One connection may end at a port, or reactions of one reactor write it.",
            ),
            Sentence::Cycle => Some("No delay breaks such a loop: a reaction has to stand in it."),
            Sentence::Widths => Some("Write as many names behind the arrow as before it."),
            Sentence::NoTrigger => Some("Write one between the parentheses, as `startup`."),
            Sentence::NamedTwice => Some("Write it once. A trigger is read too."),
            Sentence::LongTime | Sentence::LongDefault => Some(
                "That is some 31 years. No time may be longer.",
            ),
            Sentence::LongChain => Some(
                "That is some 31 years. No chain of connections may delay longer.",
            ),
            _ => None,
        }
    }
}

/// The name with that place; nothing where there is none.
fn name_of(names: &[String], place: usize) -> &str
    ensures { result.now ≡ get_or (map string_bytes names.now) place [] }
{
    if place < names.len() {
        names[place].as_str()
    } else {
        ""
    }
}

/// Puts a word and the name behind it behind the text.
fn push_both(out: &mut String, word: &str, name: &str) -> Result<(), NoMemory>
    ensures { OnOk result (string_bytes out.new ≡ string_bytes out.old ++ (word.now ++ name.now)) }
{
    out.push_str(word)?;
    out.push_str(name)?;
    Ok(())
}

/// Puts the words behind the text, with a name behind each, as far as there are names.
pub(crate) fn push_said(out: &mut String, words: &[&str], names: &[String]) -> Result<(), NoMemory>
    ensures { OnOk result (string_bytes out.new ≡ string_bytes out.old ++ said (map (λ word. word.now) words.now) (map string_bytes names.now)) }
{
    for place in 0..words.len() {
        let word = item_at(words, place);
        push_both(out, word, name_of(names, place))?;
    }
    Ok(())
}
