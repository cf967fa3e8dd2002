//! The rows of a trace.

ghost use Rattle.std.specs.Prelude.{◌≡◌, ◌↔◌, ◌++◌, IsTrue, OnOk, OnErr, take};

use crate::steps::fits::row_fits;
use crate::{Name, Program, Value};
use lft_tag::{MAX_ROWS, NoMemory, Tag};
use std::marker::Model;

/// What a row tells of a run. A schedule has the extra delay in nanoseconds.
#[derive(Clone, Copy, PartialEq, Eq, Debug, Drop)]
pub enum Step {
    Start,
    Read(Name, Value),
    Write(Name, Value),
    Schedule(Name, Value, u64),
    Stop,
    End,
}

/// A row of a trace: a step of the run of a reaction at a tag by a worker.
// Fields lie in memory in this order. The two short numbers fill eight bytes together, so there is
// no gap before `step`; apart from one another they would make a row of 72 bytes.
#[derive(Clone, Copy, PartialEq, Eq, Debug, Drop)]
pub struct Row {
    pub tag: Tag,
    pub worker: u32,
    pub reaction: u32,
    pub step: Step,
}

const _: () = prove!(size_of::<Row>() == 64);

/// The rows of a trace in order.
#[derive(Debug, Drop)]
pub struct Rows {
    items: Vec<Row>,
}

impl Model for Rows {
    ghost use Rattle.std.specs.Prelude.{List};
    ghost use Rattle.lft_ir.specs.declared.steps.row.Row.{Row};

    ghost Value = { List Row };

    ghost view = { λ a. a.items.items };
}

impl Rows {
    ghost use Rattle.lft_ir.specs.Steps.Fits.{RowsFit};

    /// The rows of the list. It takes no memory.
    pub fn from_vec(items: Vec<Row>) -> Rows
        ensures { result ≡ items.items }
    {
        Rows { items }
    }

    /// The rows in order.
    pub fn as_slice(&self) -> &[Row]
        ensures { result.now ≡ self.now }
    {
        self.items.as_slice()
    }

    /// Adds rows behind the others. Where memory is refused the rows stay as they were.
    pub fn append(&mut self, more: &[Row]) -> Result<(), NoMemory>
        ensures ok { OnOk result (self.new ≡ self.old ++ more.now) }
        ensures err { OnErr result (self.new ≡ self.old) }
    {
        match self.items.extend_from_slice(more) {
            Ok(()) => return Ok(()),
            Err(_) => return Err(NoMemory),
        }
    }

    /// Keeps the first so many rows. It takes no memory.
    pub fn truncate(&mut self, len: usize)
        ensures { self.new ≡ take len self.old }
    {
        self.items.truncate(len);
    }

    /// Whether all numbers are of the program, all tags recorded and all delays at most 10^18, in
    /// at most 4,000,000 rows. It takes no memory.
    pub fn fits(&self, program: &Program) -> bool
        ensures { IsTrue result ↔ RowsFit program.now self.now }
    {
        if self.items.len() > MAX_ROWS {
            return false;
        }
        for at in 0..self.items.len() {
            if !row_fits(self.items[at], program) {
                return false;
            }
        }
        true
    }
}
