//! What two runs of one reaction at one tag show beside one another.

use lft_ir::steps::Step;
use lft_ir::{Name, Value};
use std::marker::Model;

/// A step of a run, and the place of its row.
#[derive(Clone, Copy, Drop)]
pub struct Placed {
    pub row: u32,
    pub step: Step,
}

/// A write of a port: the place of its row, and the value.
#[derive(Clone, Copy, Drop)]
pub struct LastWrite {
    pub row: u32,
    pub value: Value,
}

/// A scheduling of an action: the place of its row, the extra delay in nanoseconds, and the value.
#[derive(Clone, Copy, Drop)]
pub struct Scheduling {
    pub row: u32,
    pub delay: u64,
    pub value: Value,
}

/// A statement about the runs of one reaction at one tag in two traces of a plan. Rows are named by
/// their places, counted from 0; the row at place 0 stands in line 2 of its table.
#[derive(Clone, Copy, Drop)]
pub enum Contrast {
    /// What a run wrote last to a port: in the two traces it isn't the same value.
    Written {
        port: u32,
        first: Option<LastWrite>,
        second: Option<LastWrite>,
    },
    /// What a run scheduled for an action, at this place among its schedulings: in the two traces it
    /// isn't the same.
    Scheduled {
        action: u32,
        place: usize,
        first: Option<Scheduling>,
        second: Option<Scheduling>,
    },
    /// Where a run requested a stop first: in one of the two traces it did not.
    Requested {
        first: Option<u32>,
        second: Option<u32>,
    },
    /// A run starts in these rows.
    Starts {
        first: u32,
        second: u32,
    },
    /// What a run read in both traces of the input at this place among its inputs.
    Read {
        place: usize,
        name: Name,
        read: Option<Value>,
    },
    /// A run has the same history in both traces: so many earlier runs of its instance.
    Earlier {
        instance: u32,
        count: u32,
    },
    /// At the tags before the runs both traces have the same runs, so many.
    Before {
        count: u32,
    },
}

/// Such statements in the order in which they are told.
#[derive(Drop)]
pub struct Contrasts {
    items: Vec<Contrast>,
}

impl Model for Contrasts {
    ghost use Rattle.std.specs.Prelude.{List};
    ghost use Rattle.lft_pair.specs.declared.contrasting.contrasts.Contrast.{Contrast};

    ghost Value = { List Contrast };

    ghost view = { λ a. a.items.items };
}

impl Contrasts {
    ghost use Rattle.std.specs.Prelude.{◌≡◌};

    /// The statements of the list. It takes no memory.
    pub(crate) fn from_vec(items: Vec<Contrast>) -> Contrasts
        ensures { result ≡ items.items }
    {
        Contrasts { items }
    }

    /// The statements in order. It takes no memory.
    pub fn as_slice(&self) -> &[Contrast]
        ensures { result.now ≡ self.now }
    {
        self.items.as_slice()
    }
}
