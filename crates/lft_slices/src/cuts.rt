//! The runs of sliced rows, by tag.

ghost use Rattle.std.specs.Prelude.{◌≡◌, ◌<◌, List, Option, length, IfOk};
ghost use Rattle.lft_tag.specs.declared.Tag.{Tag as TheTag};
ghost use Rattle.lft_ir.specs.declared.parts.Value.{Value as Carried};
ghost use Rattle.lft_model.specs.{Presence.{Collision, Inputs}, Accepted.AreTags};
ghost use Rattle.lft_rows.specs.Presence.{Clashes.IsClash, Traces.AreDue};
ghost use Rattle.lft_check.specs.ByTag.Slices.{IsGap};
ghost use Rattle.lft_slices.specs.Pieces.{IsTagAt, AreRuns};

use crate::pieces::{Piece, Pieces};
use lft_check::by_tag::Sliced;
use lft_model::Reads;
use lft_rows::presence::Presence;
use lft_tag::{NoMemory, Tag};
use std::alloc::Global;
use std::marker::Model;

/// The rows of a plan's trace, cut by tag, with the runs at each tag. None of the rows breaks one of
/// the rules 1 to 5.
// The judge asks the sliced rows alone. The runs by tag are for those who ask what ran.
#[derive(Drop)]
pub struct Cut<'a> {
    sliced: Sliced<'a>,
    pieces: Pieces,
}

impl<'a> Model for Cut<'a> {
    ghost use Rattle.lft_rows.specs.Presence.Traces.{TraceParts};

    ghost Value = { TraceParts };

    ghost view = { λ a. a.sliced };

    ghost use Rattle.lft_slices.specs.inner.Pieces.{ArePieces};

    ghost invariant = { λ a. ArePieces a.sliced.rows a.pieces };
}

impl<'a> Cut<'a> {
    ghost use Rattle.lft_slices.specs.inner.Pieces.{ArePieces};

    /// The cut of sliced rows with their runs. It takes no memory.
    pub(crate) fn from_parts(sliced: Sliced<'a>, pieces: Pieces) -> Cut<'a>
        requires { ArePieces sliced.rows pieces }
        ensures { result ≡ sliced.entry }
    {
        Cut { sliced, pieces }
    }

    /// The rows, sliced by tag.
    pub fn sliced(&self) -> &Sliced<'a>
        ensures { result.now ≡ self.now }
    {
        &self.sliced
    }

    /// The events of the rows, and what they cause.
    pub(crate) fn presence(&self) -> &Presence<'a>
        ensures { result.now ≡ self.now }
    {
        self.sliced.presence()
    }

    /// The tags with a run, ascending.
    pub fn tags(&self) -> &[Tag]
        ensures { AreTags self.now.rows result.now }
    {
        self.pieces.tags.as_slice()
    }

    /// The runs at the k-th tag with a run, counted from 0, by reaction number.
    pub fn slice(&self, k: usize) -> &[Piece]
        requires { (tags : List TheTag) × AreTags self.now.rows tags × (k < length tags) }
        ensures { (g : TheTag) → IsTagAt self.now.rows k g → AreRuns self.now.rows g result.now }
    {
        self.pieces.at(k)
    }

    /// The least tag up to the stop without any run at which a reaction is triggered, and the least
    /// such reaction. It takes no memory.
    pub fn gap(&self) -> Option<(Tag, u32)>
        ensures { IsGap self.now result }
    {
        self.sliced.gap(self.tags())
    }

    /// The least tag up to the stop at which two causes give a port or an action an event.
    pub fn clash(&self) -> Option<Tag>
        ensures { IsClash self.now result }
    {
        self.presence().clash()
    }

    /// The reactions that are triggered at the tag, ascending. The tag may lie past the stop. Each
    /// reaction is asked.
    pub fn due(&self, alloc: Global, tag: Tag) -> Result<Vec<u32>, NoMemory>
        ensures { IfOk result (λ due. AreDue self.now tag due.items) }
    {
        self.presence().due(alloc, tag)
    }

    /// What the reaction reads at the tag, where no port and no action has two causes: each of its
    /// inputs in order, triggers before uses.
    pub fn inputs(&self, alloc: Global, tag: Tag, reaction: u32) -> Result<Reads, NoMemory>
        requires reaction { reaction < length self.now.plan.program.reactions }
        requires no_clash { Collision self.now.plan self.now.rows tag → ⊥ }
        ensures inputs { IfOk result (Inputs self.now.plan self.now.rows tag reaction) }
        ensures only { IfOk result (λ reads. (other : List (Option Carried)) → Inputs self.now.plan self.now.rows tag reaction other → other ≡ reads) }
    {
        self.presence().inputs(alloc, tag, reaction)
    }
}
