//! What the runs of a cut read and answered.

ghost use Rattle.std.specs.Prelude.{◌≡◌, IfOk};
ghost use Rattle.lft_tag.specs.declared.Tag.{Tag as TheTag};
ghost use Rattle.lft_model.specs.Runs.{reads_at, answer_at};
ghost use Rattle.lft_slices.specs.Pieces.{IsRunPiece};

use crate::cuts::Cut;
use crate::pieces::Piece;
use lft_ir::steps::row_at;
use lft_model::Reads;
use lft_rows::answers::{Answer, answer_of_run, reads_of_run};
use lft_tag::NoMemory;
use std::alloc::Global;

impl<'a> Cut<'a> {
    /// What the run read. It looks at the rows from the start row of the run to its end row once, and
    /// then at the run's own steps once for each input.
    pub fn reads(&self, alloc: Global, piece: Piece) -> Result<Reads, NoMemory>
        requires { (g : TheTag) × IsRunPiece self.now.rows g piece }
        ensures { (g : TheTag) → IsRunPiece self.now.rows g piece → IfOk result (λ reads. reads ≡ reads_at self.now.plan self.now.rows g piece.reaction) }
    {
        let rows = self.sliced().rows();
        let place = piece.start as usize;
        let start = row_at(rows, place);
        reads_of_run(alloc, self.presence().plan(), rows, place, start)
    }

    /// What the run answered. It looks at the rows from the start row of the run to its end row once,
    /// and then at the run's own steps once for each effect.
    pub fn answer(&self, alloc: Global, piece: Piece) -> Result<Answer, NoMemory>
        requires { (g : TheTag) × IsRunPiece self.now.rows g piece }
        ensures { (g : TheTag) → IsRunPiece self.now.rows g piece → IfOk result (λ answer. answer ≡ answer_at self.now.plan self.now.rows g piece.reaction) }
    {
        let rows = self.sliced().rows();
        let place = piece.start as usize;
        let start = row_at(rows, place);
        answer_of_run(alloc, self.presence().plan(), rows, place, start)
    }
}
