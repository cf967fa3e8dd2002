//! What one card tells.

use crate::cards::expression::Sum;
use lft_ir::Name;
use lft_lists::List;

/// What a card writes or schedules: presence alone, or a number.
#[derive(Drop)]
pub enum CardValue {
    Bare,
    Int(Sum),
}

/// A step of a body. A schedule has the extra delay in nanoseconds.
#[derive(Drop)]
pub enum CardStep {
    Write(Name, CardValue),
    Schedule(Name, CardValue, u64),
    Stop,
}

/// The steps of a body in order.
pub type CardSteps = List<CardStep>;

/// What a card adds to the script of its reaction.
#[derive(Drop)]
pub(crate) enum CardEntry {
    Bodies(u32),
    Step(CardStep),
    State(Sum),
}

/// A card: a reaction, and what is told of its bodies.
#[derive(Drop)]
pub(crate) struct Card {
    pub(crate) reaction: u32,
    pub(crate) entry: CardEntry,
}
