//! Where the runs of a trace start, as its rows are read one tag after another.

ghost use Rattle.std.specs.Prelude.{◌≡◌, ◌↔◌, ◌<◌, length, List, IsTrue, MatchOption, IfOk};
ghost use Rattle.lft_ir.specs.{Parts.Parts, declared.steps.row.Row.Row as TheRow, Steps.Fits.RowsFit};
ghost use Rattle.lft_model.specs.{Plans.PlanParts, Breaches.Legal, Runs.Ran};
ghost use Rattle.lft_races.specs.Runs.{StartsAt};
ghost use Rattle.lft_pair.specs.inner.Places.{AreLastStarts, AreRowsUpTo, AreRowsAfter};

use lft_ir::steps::{Row, is_start, row_at};
use lft_lists::item_at;
use lft_races::is_start_at;
use lft_tag::{NoMemory, Tag};
use std::alloc::Global;

/// How many rows of a trace are read, and for each reaction the place of its last start among them,
/// or 0.
// So the other trace is gone through once: a search for each run would cost runs times rows.
#[derive(Drop)]
pub(crate) struct StartPlaces {
    pub read: usize,
    pub places: Vec<usize>,
}

/// Whether the row at the place starts the reaction's run at the tag.
fn starts_at(rows: &[Row], tag: Tag, reaction: u32, place: usize) -> bool
    ensures { IsTrue result ↔ StartsAt rows.now tag reaction place }
{
    // The place may be of no row at all: 0 stands for none, and the trace may be empty.
    place < rows.len() && is_start_at(rows, tag, reaction, place)
}

/// No row is read.
pub(crate) fn no_starts(alloc: Global, reactions: usize) -> Result<StartPlaces, NoMemory>
    ensures as_long { IfOk result (λ starts. length starts.places.items ≡ reactions) }
    ensures none_read { IfOk result (λ starts. starts.read ≡ 0) }
    ensures kept { IfOk result (λ starts. (t : List TheRow) → AreLastStarts t starts.read starts.places.items) }
{
    // 0 will do for none: who looks up a place asks the row there.
    let places = vec![in alloc; 0; reactions]?;
    Ok(StartPlaces { read: 0, places })
}

impl StartPlaces {
    /// Reads on, up to the first row after the tag.
    fn read_to(&mut self, rows: &[Row], tag: Tag)
        requires fit { (program : Parts) × RowsFit program rows.now × (length self.old.places.items ≡ length program.reactions) }
        requires legal { (plan : PlanParts) × Legal plan rows.now }
        requires kept { AreLastStarts rows.now self.old.read self.old.places.items }
        requires read { AreRowsUpTo rows.now self.old.read tag }
        ensures as_long { length self.new.places.items ≡ length self.old.places.items }
        ensures kept { AreLastStarts rows.now self.new.read self.new.places.items }
        ensures read { AreRowsUpTo rows.now self.new.read tag }
        ensures rest { AreRowsAfter rows.now self.new.read tag }
    {
        for place in self.read..rows.len() {
            let row = row_at(rows, place);
            if tag.is_before(row.tag) {
                return;
            }
            if is_start(&row.step) {
                self.places[row.reaction as usize] = place;
            }
            self.read = place + 1;
        }
    }

    /// The place where the reaction's run at the tag starts, if it has one there. Tags are to be
    /// asked for in order, since rows are read once.
    pub(crate) fn find(&mut self, rows: &[Row], tag: Tag, reaction: u32) -> Option<usize>
        requires fit { (program : Parts) × RowsFit program rows.now × (length self.old.places.items ≡ length program.reactions) }
        requires legal { (plan : PlanParts) × Legal plan rows.now }
        requires kept { AreLastStarts rows.now self.old.read self.old.places.items }
        requires read { AreRowsUpTo rows.now self.old.read tag }
        requires reaction { reaction < length self.old.places.items }
        ensures as_long { length self.new.places.items ≡ length self.old.places.items }
        ensures kept { AreLastStarts rows.now self.new.read self.new.places.items }
        ensures read { AreRowsUpTo rows.now self.new.read tag }
        ensures found { MatchOption result (¬ Ran rows.now tag reaction) (StartsAt rows.now tag reaction) }
    {
        self.read_to(rows, tag);
        let place = item_at(self.places.as_slice(), reaction as usize);
        if starts_at(rows, tag, reaction, place) {
            Some(place)
        } else {
            None
        }
    }
}
