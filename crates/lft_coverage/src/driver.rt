//! From three texts, or a plan and a text, to a verdict, and to what an accepted trace exercised.

mod covered;
mod front;
mod texts;

pub use texts::cover_plan;
