//! Rows that break none of the rules 1 to 5, sliced by tag.

ghost use Rattle.std.specs.Prelude.{◌≡◌, ◌<◌, ◌≤◌, ◌↔◌, length, Some, IsTrue, IfOk, IfSome, IfNone, slice_get};
ghost use Rattle.lft_ir.specs.{Sound.IsNameOf, declared.steps.row.Row.Row as TheRow};
ghost use Rattle.lft_graph.specs.Graph.{IsGraphOf};
ghost use Rattle.lft_model.specs.{Presence.{At, IsPresent, Triggered}, Accepted.runs_in};
ghost use Rattle.lft_rows.specs.Presence.Clashes.{IsClash};
ghost use Rattle.lft_check.specs.inner.ByTag.Slices.{AreSlices, IsCuttable, IsFirstMissing, IsFirstMissingFrom};

use crate::by_tag::missing::first_missing;
use crate::by_tag::slicing::Caused;
use crate::by_tag::started::started_of;
use lft_graph::Graph;
use lft_ir::steps::{Row, row_at};
use lft_ir::{Name, Program, Value};
use lft_rows::Slice;
use lft_rows::presence::Presence;
use lft_tag::{NoMemory, Tag};
use std::alloc::Global;
use std::marker::Model;

/// The rows of a plan's trace, sliced by tag, with what they cause: all that the rules 6 to 10 are
/// judged by. None of the rows breaks one of the rules 1 to 5.
#[derive(Drop)]
pub struct Sliced<'a> {
    presence: Presence<'a>,
    slices: Vec<Slice>,
    missing: Option<(Tag, u32)>,
    due: Vec<bool>,
    runs: u32,
}

impl<'a> Model for Sliced<'a> {
    ghost use Rattle.lft_rows.specs.Presence.Traces.{TraceParts};

    ghost Value = { TraceParts };

    ghost view = { λ a. a.presence };

    ghost use Rattle.lft_check.specs.inner.ByTag.Indexes.{IsIndexed};

    ghost invariant = { λ a. IsIndexed a.presence a.slices.items a.missing a.due.items a.runs };
}

impl<'a> Sliced<'a> {
    ghost use Rattle.lft_check.specs.inner.ByTag.Indexes.{IsCaused};

    /// Slices with what their rows cause. It takes no memory.
    pub(crate) fn from_parts(slices: Vec<Slice>, caused: Caused<'a>) -> Sliced<'a>
        requires rules { IsCuttable caused.presence }
        requires slices { AreSlices caused.presence.rows slices.items }
        requires caused { IsCaused caused }
        ensures { result ≡ caused.entry.presence }
    {
        Sliced {
            presence: caused.presence,
            slices,
            missing: caused.missing,
            due: caused.due,
            runs: caused.runs,
        }
    }

    /// Does nothing. It is called for its clause, where code has sliced rows and a proof needs
    /// what they all keep: they break none of the rules 1 to 5.
    pub fn keeps(&self)
        ensures rules { IsCuttable self.now }
    {
        // To read a field is enough to have what the type keeps.
        let _ = &self.slices;
    }

    /// The events of the rows, and what they cause.
    pub fn presence(&self) -> &Presence<'a>
        ensures { result.now ≡ self.now }
    {
        &self.presence
    }

    /// The rows that were sliced.
    pub fn rows(&self) -> &[Row]
        ensures value { result.now ≡ self.now.rows }
        ensures rules { IsCuttable self.now }
    {
        self.presence.rows()
    }

    /// The rows at each tag that has some, ascending by tag.
    pub fn slices(&self) -> &[Slice]
        ensures { AreSlices self.now.rows result.now }
    {
        self.slices.as_slice()
    }

    /// The graph of the program.
    pub fn graph(&self) -> &Graph
        ensures { IsGraphOf self.now.plan.program result.now }
    {
        self.presence.plan().graph()
    }

    /// How many reactions the program has.
    pub fn reactions(&self) -> usize
        ensures count { result ≡ length self.now.plan.program.reactions }
        ensures few { result ≤ 10000 }
    {
        self.presence.plan().program().reactions()
    }

    /// How many runs the rows have.
    pub fn runs(&self) -> u32
        ensures { result ≡ runs_in self.now.rows }
    {
        self.runs
    }

    /// The flat program.
    pub fn program(&self) -> &Program
        ensures value { result.now ≡ self.now.plan.program }
        ensures rules { IsCuttable self.now }
    {
        self.presence.plan().program()
    }

    /// The least tag up to the stop at which a reaction is triggered and has no run, and the least
    /// such reaction.
    pub fn missing(&self) -> Option<(Tag, u32)>
        ensures { IsFirstMissing self.now result }
    {
        self.missing
    }

    /// The same from the low tag on. Its time is at most 10^18.
    pub fn missing_from(&self, alloc: Global, low: Tag) -> Result<Option<(Tag, u32)>, NoMemory>
        requires { low.time ≤ 1000000000000000000 }
        ensures { IfOk result (IsFirstMissingFrom self.now low) }
    {
        // Asked for what sliced rows keep: they break none of the rules 1 to 5.
        self.keeps();
        // Found once more: who judges from the first tag on needs the runs once, so none are kept.
        let started = started_of(alloc, self.rows(), self.reactions())?;
        first_missing(alloc, &self.presence, &started, low, &mut [])
    }

    /// Whether the row at the place is known to be of a run whose reaction is triggered at its tag.
    /// Where no run is missing, each start row of such a run is.
    fn is_marked(&self, place: usize) -> bool
        ensures { IsTrue result → (row : TheRow) → slice_get self.now.rows place ≡ Some row → Triggered self.now.plan self.now.rows row.tag row.reaction }
    {
        place < self.due.len() && self.due[place]
    }

    /// Whether the reaction of the row at the place is triggered at the tag of the row.
    pub fn is_due(&self, place: usize) -> bool
        requires { place < length self.now.rows }
        ensures { (row : TheRow) → slice_get self.now.rows place ≡ Some row → IsTrue result ↔ Triggered self.now.plan self.now.rows row.tag row.reaction }
    {
        if self.is_marked(place) {
            return true;
        }
        // Asked for what sliced rows keep: their reactions are the program's.
        self.keeps();
        let row = row_at(self.presence.rows(), place);
        self.presence.triggered(row.tag, row.reaction)
    }

    /// The least tag up to the stop at which two causes give a port or an action an event.
    pub fn clash(&self) -> Option<Tag>
        ensures { IsClash self.now result }
    {
        self.presence().clash()
    }

    /// The value of an event of the port or action at the tag, if it has one.
    pub(crate) fn value_at(&self, tag: Tag, name: Name) -> Option<Value>
        requires { IsNameOf self.now.plan.program name }
        ensures some { IfSome result (λ v. At self.now.plan self.now.rows tag name v) }
        ensures none { IfNone result (IsPresent self.now.plan self.now.rows tag name → ⊥) }
    {
        self.presence().value_at(tag, name)
    }
}
