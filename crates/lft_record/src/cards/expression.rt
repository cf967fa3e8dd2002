//! Expressions: what they are, how they are read, and the numbers that they give.

ghost use Rattle.std.specs.Prelude.{◌≡◌, ◌<◌, ℕ, pos, List, length, slice_get, unwrap_or, Some, None, IfOk, IfSome, IfNone};
ghost use Rattle.lft_ir.specs.Parts.{inputs};
ghost use Rattle.std.specs.Int.{int_wrap, w64};
ghost use Rattle.lft_record.specs.Expressions.{IsExpression, IsInput, IsLiteral, IsTerm, expression_value, input_value, term_value};

use lft_ir::{Name, Program, Reaction, Trigger, Value};
use lft_model::Reads;
use lft_tag::{NoMemory, Tag};
use lft_trace::names::read_thing;
use lft_trace::number::read_value;
use std::alloc::Global;
use std::marker::Model;

/// One summand of an expression.
#[derive(Clone, Copy, PartialEq, Eq, Drop)]
pub enum Summand {
    Number(i64),
    /// The state word before the run.
    State,
    /// The time of the run's tag.
    Time,
    /// The input at this place among the reaction's inputs, counted from 0, triggers before uses.
    Input(usize),
}

/// The terms that are added up, in order.
#[derive(Drop)]
pub struct Sum {
    terms: Vec<Summand>,
}

impl Model for Sum {
    ghost use Rattle.std.specs.Prelude.{List};
    ghost use Rattle.lft_record.specs.declared.cards.expression.Summand.{Summand};

    ghost Value = { List Summand };

    ghost view = { λ a. a.terms.items };
}

impl Sum {
    /// The expression of these terms. It takes no memory.
    pub(crate) fn from_vec(terms: Vec<Summand>) -> Sum
        ensures { result ≡ terms.items }
    {
        Sum { terms }
    }

    /// The terms in order.
    pub fn as_slice(&self) -> &[Summand]
        ensures { result.now ≡ self.now }
    {
        self.terms.as_slice()
    }

    /// The sum of the terms, which wraps as an i64.
    pub(crate) fn value(&self, tag: Tag, state: i64, reads: &Reads) -> i64
        ensures { result ≡ expression_value tag state reads.now self.now }
    {
        let mut sum: i64 = 0;
        let terms = self.terms.as_slice();
        for at in 0..terms.len() {
            sum = sum.wrapping_add(terms[at].value(tag, state, reads));
        }
        sum
    }
}

impl Summand {
    // What the term adds to a sum that wraps.
    fn value(self, tag: Tag, state: i64, reads: &Reads) -> i64
        ensures { result ≡ int_wrap w64 (term_value tag state reads.now self) }
    {
        match self {
            Summand::Number(number) => number,
            Summand::State => state,
            Summand::Time => wrapped(tag.time),
            Summand::Input(place) => number_of(read_at(reads, place)),
        }
    }
}

// The time as an i64. A time that was recorded is far below where it wraps.
fn wrapped(time: u64) -> i64
    ensures { result ≡ int_wrap w64 (pos time) }
{
    time.cast_signed()
}

// What is read at a place among the inputs.
fn read_at(reads: &Reads, place: usize) -> Option<Value>
    ensures { result ≡ unwrap_or (slice_get reads.now place) None }
{
    let reads = reads.as_slice();
    if place < reads.len() {
        reads[place]
    } else {
        None
    }
}

// The number that is read: 0 where the input is absent or bare.
fn number_of(read: Option<Value>) -> i64
    ensures { result ≡ int_wrap w64 (input_value read) }
{
    match read {
        Some(Value::Int(number)) => number,
        Some(Value::Bare) => 0,
        None => 0,
    }
}

/// The expression that a text spells for a reaction, if it spells one.
pub(crate) fn read_expression(
    alloc: Global,
    program: &Program,
    reaction: u32,
    text: &[u8],
) -> Result<Option<Sum>, NoMemory>
    requires { reaction < length program.now.reactions }
    ensures some { IfOk result (λ found. IfSome found (IsExpression program.now reaction text.now)) }
    ensures none { IfOk result (λ found. IfNone found ((terms : List Summand) → IsExpression program.now reaction text.now terms → ⊥)) }
{
    let mut terms = Vec::new(alloc);
    // No name has a `+` in it, so no piece is cut in the middle.
    for piece in text.split(|byte| *byte == b'+') {
        match read_term(program, reaction, piece) {
            Some(term) => terms.push(term)?,
            None => return Ok(None),
        }
    }
    Ok(Some(Sum::from_vec(terms)))
}

// The term that a text spells for a reaction, if it spells one.
fn read_term(program: &Program, reaction: u32, text: &[u8]) -> Option<Summand>
    requires { reaction < length program.now.reactions }
    ensures some { IfSome result (IsTerm program.now reaction text.now) }
    ensures none { IfNone result ((term : Summand) → IsTerm program.now reaction text.now term → ⊥) }
{
    // Before names, so that a text has one meaning whatever a program calls its inputs.
    match read_literal(text) {
        Some(term) => Some(term),
        None => match read_input(program, reaction, text) {
            Some(place) => Some(Summand::Input(place)),
            None => None,
        },
    }
}

// The term that a text spells whatever the program is.
fn read_literal(text: &[u8]) -> Option<Summand>
    ensures some { IfSome result (IsLiteral text.now) }
    ensures none { IfNone result ((term : Summand) → IsLiteral text.now term → ⊥) }
{
    if text == b"state".as_slice() {
        Some(Summand::State)
    } else if text == b"time".as_slice() {
        Some(Summand::Time)
    } else {
        match read_value(text) {
            Some(Value::Int(number)) => Some(Summand::Number(number)),
            _ => None,
        }
    }
}

// The place of the input that a text names, if it names one of the reaction's.
fn read_input(program: &Program, reaction: u32, text: &[u8]) -> Option<usize>
    requires { reaction < length program.now.reactions }
    ensures some { IfSome result (IsInput program.now reaction text.now) }
    ensures none { IfNone result ((place : ℕ) → IsInput program.now reaction text.now place → ⊥) }
{
    match read_thing(program, text) {
        Some(name) => place_of(program.reaction(reaction), name),
        None => None,
    }
}

// Where the name stands among the reaction's inputs, if it is one.
fn place_of(reaction: &Reaction, name: Name) -> Option<usize>
    ensures some { IfSome result (λ place. slice_get (inputs reaction.now) place ≡ Some name) }
    ensures none { IfNone result ((place : ℕ) → slice_get (inputs reaction.now) place ≡ Some name → ⊥) }
{
    let mut place = 0;
    let triggers = reaction.triggers.as_slice();
    for at in 0..triggers.len() {
        if let Trigger::On(input) = triggers[at] {
            if input == name {
                return Some(place);
            }
            place += 1;
        }
    }
    let uses = reaction.uses.as_slice();
    for at in 0..uses.len() {
        if uses[at] == name {
            return Some(place + at);
        }
    }
    None
}
