#![tactic(auto)]
//! Facts behind the first breach of a trace: each of them is true, and together they give the breach.
//!
//! Beside the facts that are enough stand others, which no promise chooses, as the event that is nearest to
//! what is absent (`IsNearest`). They are true too.

mod across;
mod adding;
mod cause;
mod chain;
mod collision;
mod early;
mod facts;
mod feeding;
mod finding;
mod firings;
mod nearest;
mod neighbours;
mod passing;
mod race;
mod reads;
mod reasons;
mod row_reasons;
mod rows;
mod stopping;
mod triggers;
mod ways;

pub use facts::{Cause, Fact, Facts, Reason, RowFact, ThingKind};
pub use finding::find;
