//! Faults, and the line that each prints.

ghost use Rattle.std.specs.Prelude.{◌≡◌, ◌<◌, ◌++◌, IfOk, OnOk, flat_map, string_bytes};
ghost use Rattle.std.specs.Char.{encode_utf8, Escape.escape_default};
ghost use Rattle.lft_resolve.specs.Causes.{number_of as program_number};
ghost use Rattle.lft_load.specs.Faults.{lex_number, syntax_number, graph_number, table_number, IsFaultOfPart, IsFaultOfPath};
ghost use Rattle.lft_load.specs.Words.{in_line, names_words, one_line};
ghost use Rattle.lft_load.specs.declared.fault.Part.TheVariants as part;

use crate::words::push_names;
use lft_graph::GraphFault;
use lft_ir::Program;
use lft_program::ProgramFault;
use lft_syntax::{LexFault, SyntaxFault};
use lft_tag::Tag;
use lft_text_diagnostics::words::is_format;
use lft_trace::TraceFault;
use std::alloc::{AllocError, Global};
use std::fmt;
use thiserror::Error;

/// The part of the product that a fault comes from.
#[derive(Clone, Copy, Debug, PartialEq, Eq)]
pub enum Part {
    Lex,
    Syntax,
    Program,
    Graph,
    Externals,
    Trace,
    Check,
    Pool,
    Cards,
    Write,
    Read,
    Bundle,
    Memory,
    Lower,
}

impl Part {
    fn word(self) -> &'static str {
        match self {
            Part::Lex => "lex",
            Part::Syntax => "syntax",
            Part::Program => "program",
            Part::Graph => "graph",
            Part::Externals => "externals",
            Part::Trace => "trace",
            Part::Check => "check",
            Part::Pool => "pool",
            Part::Cards => "cards",
            Part::Write => "write",
            Part::Read => "read",
            Part::Bundle => "bundle",
            Part::Memory => "memory",
            Part::Lower => "lower",
        }
    }
}

impl fmt::Display for Part {
    fn fmt<W: fmt::Write>(&self, f: &mut fmt::Formatter<W>) -> fmt::Result {
        f.write_str(self.word())
    }
}

/// What a fault's line tells beside its name: a byte counted from 0, a token counted from 1, a line
/// of a table counted from 1, a tag, or some words, as a path.
// A line or a byte takes no memory. Words are copied, and where that is refused the fault is `memory` 1.
#[derive(Debug, Drop, PartialEq, Eq)]
pub enum Detail {
    Nothing,
    At(usize),
    Token(usize),
    Line(u32),
    Tag(Tag),
    Words(String),
}

impl fmt::Display for Detail {
    fn fmt<W: fmt::Write>(&self, f: &mut fmt::Formatter<W>) -> fmt::Result {
        match self {
            Detail::Nothing => Ok(()),
            Detail::At(at) => write!(f, " at={at}"),
            Detail::Token(token) => write!(f, " token={token}"),
            Detail::Line(line) => write!(f, " line={line}"),
            Detail::Tag(tag) => write!(f, " time={} microstep={}", tag.time, tag.micro),
            Detail::Words(words) => write!(f, " {words}"),
        }
    }
}

/// Puts the letter's escape behind the line, as `\n`.
fn push_escape(line: &mut String, letter: char) -> Result<(), AllocError>
    ensures { OnOk result (string_bytes line.new ≡ string_bytes line.old ++ flat_map encode_utf8 (escape_default letter)) }
{
    for sign in letter.escape_default() {
        line.push(sign)?;
    }
    Ok(())
}

/// Puts a letter of a path behind the line: a control character, as a line feed, and a format character by its escape.
fn push_letter(line: &mut String, letter: char) -> Result<(), AllocError>
    ensures { OnOk result (string_bytes line.new ≡ string_bytes line.old ++ flat_map encode_utf8 (in_line letter)) }
{
    if letter.is_control() || is_format(letter) {
        push_escape(line, letter)?;
    } else {
        line.push(letter)?;
    }
    Ok(())
}

/// The path in one line, so that a fault stays one line.
fn one_line(alloc: Global, path: &str) -> Result<String, AllocError>
    ensures { IfOk result (λ line. string_bytes line ≡ one_line path.now) }
{
    let mut line = String::new(alloc);
    for letter in path.chars() {
        push_letter(&mut line, letter)?;
    }
    Ok(line)
}

/// The names of a loop's reactions, with a space between two.
fn loop_words(alloc: Global, program: &Program, reactions: &[u32]) -> Result<String, AllocError>
    ensures { IfOk result (λ words. string_bytes words ≡ names_words program.now reactions.now) }
{
    let mut words = String::new(alloc);
    push_names(&mut words, program, reactions)?;
    Ok(words)
}

/// A refusal, by its part and its number there, with the words of its line.
#[derive(Debug, Drop, Error)]
#[error("fault {part} {number} {name}{detail}")]
pub struct Fault {
    pub part: Part,
    pub number: u32,
    pub name: &'static str,
    pub detail: Detail,
}

impl Fault {
    /// A fault with no detail. It takes no memory.
    pub fn plain(part: Part, number: u32, name: &'static str) -> Fault
        ensures part { result.part ≡ part }
        ensures number { result.number ≡ number }
    {
        Fault {
            part,
            number,
            name,
            detail: Detail::Nothing,
        }
    }

    /// A fault of a line of a table. It takes no memory.
    pub fn of_line(part: Part, number: u32, name: &'static str, line: u32) -> Fault
        ensures part { result.part ≡ part }
        ensures number { result.number ≡ number }
    {
        Fault {
            part,
            number,
            name,
            detail: Detail::Line(line),
        }
    }

    /// A growth of `lftrace` itself was refused. It takes no memory.
    pub fn no_memory() -> Fault
        ensures part { result.part ≡ part.Memory }
        ensures number { result.number ≡ 1 }
    {
        Fault::plain(Part::Memory, 1, "NoMemory")
    }

    /// A fault that tells a path, or want of memory where the path can't be kept.
    pub fn of_path(alloc: Global, part: Part, number: u32, name: &'static str, path: &str) -> Fault
        ensures { IsFaultOfPath result part number path.now }
    {
        match one_line(alloc, path) {
            Ok(words) => Fault {
                detail: Detail::Words(words),
                ..Fault::plain(part, number, name)
            },
            Err(_) => Fault::no_memory(),
        }
    }

    /// The fault of a text that has no tokens.
    pub fn lex(fault: LexFault) -> Fault
        ensures part { result.part ≡ part.Lex }
        ensures number { result.number ≡ lex_number fault }
    {
        match fault {
            LexFault::BadChar(at) => Fault {
                detail: Detail::At(at),
                ..Fault::plain(Part::Lex, 1, "BadChar")
            },
            LexFault::OpenComment => Fault::plain(Part::Lex, 2, "OpenComment"),
            LexFault::OpenCode => Fault::plain(Part::Lex, 3, "OpenCode"),
            LexFault::OpenString => Fault::plain(Part::Lex, 4, "OpenString"),
            LexFault::NumberTooLarge(at) => Fault {
                detail: Detail::At(at),
                ..Fault::plain(Part::Lex, 5, "NumberTooLarge")
            },
            LexFault::TooLong => Fault::plain(Part::Lex, 6, "TooLong"),
            LexFault::NoMemory => Fault::plain(Part::Lex, 7, "NoMemory"),
        }
    }

    /// The fault of tokens that have no tree.
    pub fn syntax(fault: SyntaxFault) -> Fault
        ensures part { result.part ≡ part.Syntax }
        ensures number { result.number ≡ syntax_number fault }
    {
        match fault {
            SyntaxFault::Unexpected(token) => Fault {
                detail: Detail::Token(token),
                ..Fault::plain(Part::Syntax, 1, "Unexpected")
            },
            SyntaxFault::NoMemory => Fault::plain(Part::Syntax, 2, "NoMemory"),
        }
    }

    /// The fault of a tree that has no flat program.
    pub fn program(fault: ProgramFault) -> Fault
        ensures part { result.part ≡ part.Program }
        ensures number { result.number ≡ program_number fault }
    {
        let (number, name) = fault.cause();
        Fault::plain(Part::Program, number, name)
    }

    /// The fault of a program without a graph. It names a loop's reactions; where their names
    /// can't be kept, it is want of memory.
    pub fn graph(alloc: Global, program: &Program, fault: &GraphFault) -> Fault
        ensures { IsFaultOfPart result part.Graph (graph_number fault.now) }
    {
        match fault {
            GraphFault::CausalityLoop(reactions) => {
                match loop_words(alloc, program, reactions.as_slice()) {
                    Ok(words) => Fault {
                        detail: Detail::Words(words),
                        ..Fault::plain(Part::Graph, 1, "CausalityLoop")
                    },
                    Err(_) => Fault::no_memory(),
                }
            }
            GraphFault::NoMemory => Fault::plain(Part::Graph, 2, "NoMemory"),
        }
    }

    /// The fault of a text that is no table of external inputs.
    pub fn externals(fault: TraceFault) -> Fault
        ensures part { result.part ≡ part.Externals }
        ensures number { result.number ≡ table_number fault }
    {
        Fault::table(Part::Externals, fault)
    }

    /// The fault of a text that is no trace table.
    pub fn trace(fault: TraceFault) -> Fault
        ensures part { result.part ≡ part.Trace }
        ensures number { result.number ≡ table_number fault }
    {
        Fault::table(Part::Trace, fault)
    }

    fn table(part: Part, fault: TraceFault) -> Fault
        ensures part { result.part ≡ part }
        ensures number { result.number ≡ table_number fault }
    {
        match fault {
            TraceFault::BadHeader => Fault::plain(part, 1, "BadHeader"),
            TraceFault::BadFieldCount(line) => Fault::of_line(part, 2, "BadFieldCount", line),
            TraceFault::BadEvent(line) => Fault::of_line(part, 3, "BadEvent", line),
            TraceFault::BadNumber(line) => Fault::of_line(part, 4, "BadNumber", line),
            TraceFault::UnknownName(line) => Fault::of_line(part, 5, "UnknownName", line),
            TraceFault::FieldInPlace(line) => Fault::of_line(part, 6, "FieldInPlace", line),
            TraceFault::DuplicateExternal(line) => {
                Fault::of_line(part, 7, "DuplicateExternal", line)
            }
            TraceFault::NoStop => Fault::plain(part, 8, "NoStop"),
            TraceFault::TwoStops(line) => Fault::of_line(part, 9, "TwoStops", line),
            TraceFault::TooManyRows => Fault::plain(part, 10, "TooManyRows"),
            TraceFault::NotCsv => Fault::plain(part, 11, "NotCsv"),
            TraceFault::NoMemory => Fault::plain(part, 12, "NoMemory"),
        }
    }
}
