#![tactic(auto)]
//! Recordings that are written as trace tables, also by cards: tables of what bodies answer.
//!
//! The law of a recording by cards is `card_law`. So one that stopped at an answer, as by a collision, stopped
//! at an answer of the cards. That `NoBody` comes only where a reaction has run as often as its card says isn't
//! promised.

mod answer;
mod bodies;
mod cards;
mod fault;
mod recording;

pub use answer::record_plan;
pub use bodies::{CardCode, FollowsCards, Scripted, card_bodies};
pub use cards::{
    CardFault, CardStep, CardSteps, CardValue, Cards, Script, Sum, Summand, card_answer, read_cards,
};
pub use fault::{cards_fault, stop_fault};
pub use recording::record_to;
