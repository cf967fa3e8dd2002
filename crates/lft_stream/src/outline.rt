//! What the rows of a tag ask for, found in one pass over them.

ghost use Rattle.std.specs.Prelude.{◌≡◌, ◌+◌, ◌++◌, ◌∷◌, [], ◌<◌, List, length, IsTrue};
ghost use Rattle.lft_ir.specs.declared.steps.row.Row.{Row as TheRow};
ghost use Rattle.lft_model.specs.Accepted.{runs_in};
ghost use Rattle.lft_stream.specs.inner.Outlines.{IsSpan, IsOutlineTo, IsOutline, AreEffectsOf};

use lft_ir::steps::{Row, Step, row_at};
use std::alloc::Global;

/// The places from the first up to, without, the end.
#[derive(Clone, Copy, PartialEq, Eq, Drop)]
struct PlaceRange {
    first: usize,
    end: usize,
}

/// Which reactions start among the rows of a tag, and where the rows stand that do more than start and end.
// Most rows are starts and ends. So what is read, and what rows cause, is asked of the few that may tell it.
#[derive(Drop)]
pub(crate) struct Outline {
    /// The reactions that start, in order.
    started: Vec<u32>,
    /// The place past the last row that reads, or 0.
    reads: usize,
    /// From the first row that writes, schedules or asks for the stop up to the last.
    effects: PlaceRange,
}

/// Adds the reaction. It is false where memory is refused.
fn add(started: &mut Vec<u32>, reaction: u32) -> bool
    ensures { IsTrue result → started.new.items ≡ started.old.items ++ reaction ∷ [] }
{
    match started.push(reaction) {
        Ok(()) => true,
        Err(_) => false,
    }
}

impl PlaceRange {
    /// No place.
    fn none() -> PlaceRange
        ensures { (u : List TheRow) → IsSpan u 0 result }
    {
        PlaceRange { first: 0, end: 0 }
    }

    /// With the next effect, which is at the place.
    fn up_to(self, place: usize) -> PlaceRange
        requires { place < 9223372036854775807 }
        ensures { (u : List TheRow) → IsSpan u place self → IsSpan u (place + 1) result }
    {
        let end = place + 1;
        // No effect so far: behind one stands no place 0.
        if self.end == 0 {
            return PlaceRange { first: place, end };
        }
        PlaceRange {
            first: self.first,
            end,
        }
    }
}

impl Outline {
    /// Of no rows.
    pub(crate) fn new(alloc: Global) -> Outline
        ensures { (u : List TheRow) → IsOutlineTo u 0 result }
    {
        Outline {
            started: Vec::new(alloc),
            reads: 0,
            effects: PlaceRange::none(),
        }
    }

    /// Goes on past the row at the place. It is false where memory is refused.
    fn pass(&mut self, own: &[Row], place: usize) -> bool
        requires { place < length own.now }
        ensures { IsTrue result → IsOutlineTo own.now place self.old → IsOutlineTo own.now (place + 1) self.new }
    {
        let row = row_at(own, place);
        match row.step {
            Step::Start => return add(&mut self.started, row.reaction),
            Step::Read(_, _) => self.reads = place + 1,
            Step::Write(_, _) => self.effects = self.effects.up_to(place),
            Step::Schedule(_, _, _) => self.effects = self.effects.up_to(place),
            Step::Stop => self.effects = self.effects.up_to(place),
            Step::End => {}
        }
        true
    }

    /// Goes on to the rows of a tag. It is false where memory is refused.
    pub(crate) fn find(&mut self, own: &[Row]) -> bool
        ensures { IsTrue result → IsOutline own.now self.new }
    {
        self.started.clear();
        self.reads = 0;
        self.effects = PlaceRange::none();
        for place in 0..own.len() {
            if !self.pass(own, place) {
                return false;
            }
        }
        true
    }

    /// The reactions that start, in order.
    pub(crate) fn started(&self) -> &[u32]
        ensures { result.now ≡ self.now.started.items }
    {
        self.started.as_slice()
    }

    /// How many start.
    pub(crate) fn runs(&self, own: &[Row]) -> u32
        requires outline { IsOutline own.now self.now }
        requires few { length own.now < 4294967296 }
        ensures { result ≡ runs_in own.now }
    {
        // The rows are passed for what the contract says of them.
        let _ = own;
        self.started.len() as u32
    }

    /// The place past the last row that reads, or 0.
    pub(crate) fn reads_end(&self) -> usize
        ensures { result ≡ self.now.reads }
    {
        self.reads
    }

    /// Of the rows those from the first effect up to the last.
    pub(crate) fn effects<'a>(&self, own: &'a [Row]) -> &'a [Row]
        requires { IsOutline own.now self.now }
        ensures { AreEffectsOf own.now result.now }
    {
        &own[self.effects.first..self.effects.end]
    }
}
