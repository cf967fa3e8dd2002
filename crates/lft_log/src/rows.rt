//! The rows of a log, and the plan that its external inputs make of another.

ghost use Rattle.std.specs.Prelude.{◌≡◌, ◌++◌, ◌∷◌, ◌≤◌, ◌<◌, List, [], ℕ, true, length, drop, slice_range, IfOk, IfSome, OnOk, MatchOption};
ghost use Rattle.lft_model.specs.Plans.{PlanParts};
ghost use Rattle.lft_ir.specs.Steps.Fits.{RowsFit};
ghost use Rattle.lft_log.specs.{Logs.{AreLines, HasManyRows}, inner.Told.{HasRead, IsReadOn, IsReadSoFar}, Told.TellsPlan};

use crate::front::read_front;
use crate::lines::{below_header, is_whole, whole_lines};
use crate::telling::tell_all;
use lft_ir::steps::Row;
use lft_model::Plan;
use lft_monitor::{Follower, Progress};
use lft_tag::{MAX_ROWS, NoMemory};
use lft_trace::ReactionNumbers;
use std::alloc::Global;

/// No part of a log that is read at once has more bytes.
// No line has more bytes, so each stands in one part.
const MOST: usize = 1 << 20;

/// The rows with which a log begins.
#[derive(Drop)]
pub struct FirstRows {
    pub rows: Vec<Row>,
    /// Others are left out: the log has more than a table may have.
    pub is_cut: bool,
}

/// The rows of a log so far, and what follows them: no external input may be late.
#[derive(Drop)]
pub(crate) struct LogRows {
    numbers: ReactionNumbers,
    rows: Vec<Row>,
    is_cut: bool,
    follower: Follower,
}

/// Where the whole lines of a part of a text end that begins at the place. None where no line ends.
fn lines_end(text: &[u8], begin: usize) -> Option<usize>
    requires { begin < length text.now }
    ensures within { IfSome result (λ end. (begin < end) × (end ≤ length text.now)) }
    ensures lines { IfSome result (λ end. AreLines (slice_range text.now begin end)) }
{
    let size = (text.len() - begin).min(MOST);
    let whole = whole_lines(&text[begin..begin + size]);
    if whole > 0 { Some(begin + whole) } else { None }
}

impl LogRows {
    /// Goes on past whole lines. It is false where no more is to be read.
    fn add_lines(&mut self, alloc: Global, plan: &mut Plan, lines: &[u8]) -> Result<bool, NoMemory>
        requires lines { AreLines lines.now }
        requires stands { (base : PlanParts) × (bytes rest : List ℕ) × IsReadSoFar base plan.old bytes (lines.now ++ rest) self.old }
        ensures program { plan.new.program ≡ plan.old.program }
        ensures read { IfOk result (λ on. (base : PlanParts) (bytes behind : List ℕ) → IsReadSoFar base plan.old bytes (lines.now ++ behind) self.old → IsReadOn on base plan.new bytes behind self.new) }
    {
        // The fault of a line isn't told here, so its number may be any.
        let front = read_front(
            alloc,
            plan.program(),
            &mut self.numbers,
            lines,
            0,
            0,
            &mut self.follower.rows,
        )?;
        if self.follower.next().len() > MAX_ROWS - self.rows.len() {
            self.is_cut = true;
            return Ok(false);
        }
        let taken = tell_all(&mut self.follower, plan, &front, 0);
        self.follower.cut(taken.rows);
        self.rows.extend_from_slice(self.follower.next())?;
        if taken.fault.is_some() {
            return Ok(false);
        }
        match self.follower.go_on(alloc, plan)? {
            Progress::GoesOn => Ok(true),
            _ => Ok(false),
        }
    }

    /// Goes on past the lines of a text. It gives where those that are read end, or nothing where no more is
    /// to be read.
    fn add_text(
        &mut self,
        alloc: Global,
        plan: &mut Plan,
        text: &[u8],
    ) -> Result<Option<usize>, NoMemory>
        requires { (base : PlanParts) × (bytes rest : List ℕ) × IsReadSoFar base plan.old bytes (text.now ++ rest) self.old }
        ensures program { plan.new.program ≡ plan.old.program }
        ensures within { IfOk result (λ o. IfSome o (λ n. n ≤ length text.now)) }
        ensures read { IfOk result (λ o. (base : PlanParts) (bytes behind : List ℕ) → IsReadSoFar base plan.old bytes (text.now ++ behind) self.old → MatchOption o (HasRead base plan.new bytes self.new) (λ n. IsReadSoFar base plan.new bytes (drop n text.now ++ behind) self.new)) }
    {
        let mut begin = 0;
        while begin < text.len() {
            let Some(end) = lines_end(text, begin) else {
                return Ok(Some(begin));
            };
            if !self.add_lines(alloc, plan, &text[begin..end])? {
                return Ok(None);
            }
            begin = end;
        }
        Ok(Some(begin))
    }

    /// Goes on past the lines of a text behind which no more come. A last line without its end counts only
    /// if nothing can be missing of it.
    fn add_last(&mut self, alloc: Global, plan: &mut Plan, text: &[u8]) -> Result<(), NoMemory>
        requires { (base : PlanParts) × (bytes : List ℕ) × IsReadSoFar base plan.old bytes (text.now ++ 10 ∷ []) self.old }
        ensures program { plan.new.program ≡ plan.old.program }
        ensures read { OnOk result ((base : PlanParts) (bytes : List ℕ) → IsReadSoFar base plan.old bytes (text.now ++ 10 ∷ []) self.old → HasRead base plan.new bytes self.new) }
    {
        let Some(end) = self.add_text(alloc, plan, text)? else {
            return Ok(());
        };
        let last = &text[end..text.len()];
        if !is_whole(last) {
            return Ok(());
        }
        let mut line = Vec::from_slice(alloc, last)?;
        line.push(b'\n')?;
        // Behind the last line nothing is read, wherever it ended.
        let _ = self.add_text(alloc, plan, line.as_slice())?;
        Ok(())
    }
}

/// The rows of the first lines of a log, up to one that isn't to be followed; the plan becomes the one that
/// the external inputs among them make of it. A breach that is told ends them too, and more rows than a
/// table may have. None where the log has no header. A last line without its end counts only if nothing
/// can be missing of it.
pub fn rows_of_log(
    alloc: Global,
    plan: &mut Plan,
    log: &[u8],
) -> Result<Option<FirstRows>, NoMemory>
    ensures program { plan.new.program ≡ plan.old.program }
    ensures told { IfOk result (λ o. IfSome o (λ first. (others : List (List (List ℕ))) × (rest : List ℕ) × TellsPlan plan.old (log.now ++ 10 ∷ []) plan.new first.rows.items others rest)) }
    ensures fit { IfOk result (λ o. IfSome o (λ first. RowsFit plan.new.program first.rows.items)) }
    ensures cut { IfOk result (λ o. IfSome o (λ first. first.is_cut ≡ true → HasManyRows plan.old.program (log.now ++ 10 ∷ []))) }
{
    let Some(body) = below_header(log) else {
        return Ok(None);
    };
    // Asked for what every plan keeps: its external events stand in order.
    plan.keeps();
    let mut read = LogRows {
        numbers: ReactionNumbers::new(alloc, plan.program())?,
        rows: Vec::new(alloc),
        is_cut: false,
        follower: Follower::new(alloc, plan)?,
    };
    read.add_last(alloc, plan, body)?;
    Ok(Some(FirstRows {
        rows: read.rows,
        is_cut: read.is_cut,
    }))
}
