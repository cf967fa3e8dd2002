//! The cards of a program, gathered by reaction.

ghost use Rattle.std.specs.Prelude.{◌≡◌, ◌<◌, length, slice_get, Some, None, true, false, not, IfOk, IfSome, IfNone, All};
ghost use Rattle.lft_record.specs.{inner.Scripts.{Adds, is_taken, with_entry}, Scripts.{bodies_at, blank}};

mod answer;
mod card;
mod card_table;
mod expression;
mod fault;
mod fields;
mod kind;

use crate::cards::card::{Card, CardEntry};
pub use answer::card_answer;
pub use card::{CardStep, CardSteps, CardValue};
pub use card_table::read_cards;
pub use expression::{Sum, Summand};
pub use fault::CardFault;
use lft_ir::Program;
use lft_tag::NoMemory;
use std::alloc::Global;
use std::marker::Model;

/// What the bodies of one reaction answer: how many there are, their steps, and the state word that
/// each leaves. Where no number is given there are none, and where no word is given it is kept.
#[derive(Drop)]
pub struct Script {
    pub bodies: Option<u32>,
    pub steps: CardSteps,
    pub state: Option<Sum>,
}

impl Script {
    // A script that nothing was added to.
    fn new(alloc: Global) -> Script
        ensures { result ≡ blank }
    {
        Script {
            bodies: None,
            steps: CardSteps::new(alloc),
            state: None,
        }
    }

    // Adds what a card tells; false where it was told before.
    fn add(&mut self, entry: CardEntry) -> Result<bool, NoMemory>
        ensures free { IfOk result (λ new. new ≡ not (is_taken self.old entry)) }
        ensures added { IfOk result (λ new. new ≡ true → self.new ≡ with_entry self.old entry) }
    {
        match entry {
            CardEntry::Bodies(count) => {
                if self.bodies.is_some() {
                    return Ok(false);
                }
                self.bodies = Some(count);
            }
            CardEntry::Step(step) => self.steps.push(step)?,
            CardEntry::State(expression) => {
                if self.state.is_some() {
                    return Ok(false);
                }
                self.state = Some(expression);
            }
        }
        Ok(true)
    }
}

/// A script for each reaction of a program.
#[derive(Drop)]
pub struct Cards {
    scripts: Vec<Script>,
}

impl Model for Cards {
    ghost use Rattle.std.specs.Prelude.{List};
    ghost use Rattle.lft_record.specs.declared.cards.Script.{Script};

    ghost Value = { List Script };

    ghost view = { λ a. a.scripts.items };
}

impl Cards {
    /// A blank script for each reaction of the program.
    pub(crate) fn new(alloc: Global, program: &Program) -> Result<Cards, NoMemory>
        ensures long { IfOk result (λ cards. length cards ≡ length program.now.reactions) }
        ensures blank { IfOk result (All (λ script. script ≡ blank)) }
    {
        let mut scripts = Vec::new(alloc);
        for _ in 0..program.reactions() {
            if scripts.push(Script::new(alloc)).is_err() {
                return Err(NoMemory);
            }
        }
        Ok(Cards { scripts })
    }

    /// Adds a card to the script of its reaction; false where that was told before.
    pub(crate) fn add(&mut self, card: Card) -> Result<bool, NoMemory>
        requires { card.reaction < length self.old }
        ensures { IfOk result (Adds self.old self.new card) }
    {
        self.scripts[card.reaction as usize].add(card.entry)
    }

    /// The script of a reaction, if the program has it. It takes no memory.
    pub fn script(&self, reaction: u32) -> Option<&Script>
        ensures some { IfSome result (λ script. slice_get self.now reaction ≡ Some script.now) }
        ensures none { IfNone result (slice_get self.now reaction ≡ None) }
    {
        self.scripts.get(reaction as usize)
    }

    /// How many bodies the reaction has: 0 where none were given. It takes no memory.
    pub fn bodies(&self, reaction: u32) -> u32
        ensures { result ≡ bodies_at self.now reaction }
    {
        match self.script(reaction) {
            Some(script) => script.bodies.unwrap_or(0),
            None => 0,
        }
    }
}
