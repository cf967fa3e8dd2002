//! What a run answered, as one value.

ghost use Rattle.std.specs.Prelude.{◌≡◌};

use lft_ir::Value;
use lft_lists::List;
use std::marker::Model;

/// What a run scheduled for an action: extra delays in nanoseconds with their values, in order.
pub type Schedulings = List<(u64, Value)>;

/// What a run answered for one effect.
#[derive(Debug, Drop)]
pub enum Outcome {
    /// The last value that was written to the port, if one was.
    Written(Option<Value>),
    /// What was scheduled for the action.
    Scheduled(Schedulings),
}

/// What a run answered: an outcome for each effect of its reaction, in order, and whether it
/// requested a stop.
#[derive(Debug, Drop)]
pub struct Answer {
    outcomes: Vec<Outcome>,
    stops: bool,
}

impl Model for Answer {
    ghost use Rattle.std.specs.Prelude.{map};
    ghost use Rattle.lft_model.specs.Runs.{Answer as TheAnswer};

    ghost Value = { TheAnswer };

    ghost use Rattle.lft_rows.specs.inner.Answers.Answers.{as_outcome};

    ghost view = { λ a. record { outcomes = map as_outcome a.outcomes.items; stops = a.stops } };
}

impl Answer {
    ghost use Rattle.std.specs.Prelude.{map};
    ghost use Rattle.lft_rows.specs.inner.Answers.Answers.{as_outcome};

    /// The answer of these outcomes. It takes no memory.
    pub(crate) fn from_parts(outcomes: Vec<Outcome>, stops: bool) -> Answer
        ensures { result ≡ record { outcomes = map as_outcome outcomes.items; stops = stops } }
    {
        Answer { outcomes, stops }
    }

    /// The outcome for each effect, in order. It takes no memory.
    pub fn outcomes(&self) -> &[Outcome]
        ensures { map as_outcome result.now ≡ self.now.outcomes }
    {
        self.outcomes.as_slice()
    }

    /// Whether a stop was requested. It takes no memory.
    pub fn stops(&self) -> bool
        ensures { result ≡ self.now.stops }
    {
        self.stops
    }
}
