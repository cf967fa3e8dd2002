//! What is kept of the rows so far.

ghost use Rattle.std.specs.Prelude.{◌≡◌, ℕ, List, [], ◌++◌, ◌+◌, ◌<◌, take, slice_range, length, Some, None, IsTrue, IfOk, IfSome, Contains};
ghost use Rattle.lft_ir.specs.{declared.steps.row.Row.Row as TheRow, Steps.Fits.RowsFit};
ghost use Rattle.lft_graph.specs.inner.Sets.{AreAncestors};
ghost use Rattle.lft_tag.specs.Tags.{UpTo, earlier, earliest};
ghost use Rattle.lft_model.specs.{Presence.{stop, requests, Triggered}, Runs.Ran, Accepted.IsAccepted};
ghost use Rattle.lft_rows.specs.inner.{Marks.{AreMarks, AreBefore as HaveMarksTo, IsLaid}, Slices.{IsSlice, Rises}};
ghost use Rattle.lft_stream.specs.inner.{Outlines.IsOutline, Dues.{AreDues, AreDuesAt, NoneDueBefore}};
ghost use Rattle.lft_stream.specs.inner.{Kept.{KeepRules, IsLater, stopped_stream, IsStreamOf, RisesAt, IsAtHand, IsJudged}, Present.AreShown};

use crate::dues::Dues;
use crate::effort::Effort;
use crate::hearing::is_all_heard;
use crate::order::Precedence;
use crate::outline::Outline;
use crate::presence::PresentNames;
use crate::reads::{have_read, is_woken};
use crate::start_tags::StartTags;
use lft_ir::Program;
use lft_ir::steps::{Row, is_stop, row_at};
use lft_lists::item_at;
use lft_model::Plan;
use lft_queue::coming::{Channels, Coming, NameListeners, UnreadPorts, Writes, pass_on};
use lft_rows::{Marks, Slice};
use lft_tag::{NoMemory, Tag};
use std::alloc::Global;

/// How many runs legal rows have, and at how many different tags.
#[derive(Clone, Copy, PartialEq, Eq, Debug, Drop)]
pub struct RunCounts {
    pub runs: u32,
    pub tags: u32,
}

/// What is kept of rows at finished tags.
#[derive(Drop)]
pub(crate) struct Stream {
    /// The external stop, or what the rows so far ask for.
    pub stop: Tag,
    /// The tag of the last row.
    tag: Option<Tag>,
    runs: u32,
    tags: u32,
    dues: Dues,
    starts: StartTags,
    writes: Writes,
    listeners: NameListeners,
    channels: Channels,
    coming: Coming,
    unread: UnreadPorts,
    effort: Effort,
    presence: PresentNames,
    /// Of the rows at the tag at hand.
    outline: Outline,
}

/// The earlier of two tags.
pub fn earlier_of(tag: Tag, other: Tag) -> Tag
    ensures { result ≡ earlier tag other }
{
    if tag.is_before(other) { tag } else { other }
}

/// The stop of rows, where these stand behind others with this stop.
fn stop_behind(program: &Program, stop: Tag, rows: &[Row]) -> Tag
    requires { RowsFit program.now rows.now }
    ensures { result ≡ earliest stop (requests rows.now) }
{
    let mut last = stop;
    for place in 0..rows.len() {
        let row = row_at(rows, place);
        if is_stop(&row.step) {
            let asked = row.tag.after(0, 0);
            if asked.is_before(last) {
                last = asked;
            }
        }
    }
    last
}

/// The rows at the tag of the row at the place, where this is the first of them.
fn slice_from(rows: &[Row], first: usize) -> Slice
    requires place { first < length rows.now }
    requires rises { Rises rows.now }
    requires begins { RisesAt rows.now first }
    ensures slice { IsSlice rows.now result }
    ensures first { result.first ≡ first }
    ensures ends { RisesAt rows.now result.end }
{
    let tag = row_at(rows, first).tag;
    let mut end = first + 1;
    while end < rows.len() && row_at(rows, end).tag.is_same(tag) {
        end += 1;
    }
    Slice { tag, first, end }
}

/// Whether the reaction, which has a run at the tag, is triggered there, where the stop is the last.
/// What was due there is due later now.
fn is_triggered(
    dues: &mut Dues,
    writes: &Writes,
    coming: &Coming,
    marks: &Marks,
    presence: &PresentNames,
    plan: &Plan,
    reaction: u32,
    tag: Tag,
    last: Tag,
) -> bool
    requires reaction { reaction < length plan.now.program.reactions }
    requires laid { IsLaid plan.now.program marks.now }
    requires long { length writes.now ≡ length plan.now.program.ports }
    requires dues { (t : List TheRow) × AreDues plan.now t dues.old }
    ensures dues { (t : List TheRow) → last ≡ stop plan.now t → Ran t tag reaction → AreDues plan.now t dues.old → AreDues plan.now t dues.new }
    ensures triggered { IsTrue result → (d u : List TheRow) → last ≡ stop plan.now (d ++ u) → Ran (d ++ u) tag reaction → AreShown plan.now d u tag writes.now coming.now.queue → AreDues plan.now (d ++ u) dues.old → Triggered plan.now (d ++ u) tag reaction }
{
    // The dues go on wherever the reaction has a run, so they are asked first.
    dues.run(plan, reaction, tag, last)
        || is_woken(writes, coming, marks, presence, plan, tag, reaction)
}

/// Whether each of the reactions, which have runs at the tag, is triggered there, where the stop is the last.
/// What was due there is due later now.
fn are_triggered(
    dues: &mut Dues,
    writes: &Writes,
    coming: &Coming,
    marks: &Marks,
    presence: &PresentNames,
    plan: &Plan,
    started: &[u32],
    tag: Tag,
    last: Tag,
) -> bool
    requires exist { (r : ℕ) → Contains started.now r → r < length plan.now.program.reactions }
    requires laid { IsLaid plan.now.program marks.now }
    requires long { length writes.now ≡ length plan.now.program.ports }
    requires dues { (t : List TheRow) × AreDuesAt plan.now t started.now tag last dues.old }
    ensures dues { (t : List TheRow) → AreDuesAt plan.now t started.now tag last dues.old → AreDues plan.now t dues.new }
    ensures triggered { IsTrue result → (d u : List TheRow) → AreDuesAt plan.now (d ++ u) started.now tag last dues.old → AreShown plan.now d u tag writes.now coming.now.queue → (r : ℕ) → Contains started.now r → Triggered plan.now (d ++ u) tag r }
{
    for place in 0..started.len() {
        let reaction = item_at(started, place);
        if !is_triggered(
            dues, writes, coming, marks, presence, plan, reaction, tag, last,
        ) {
            return false;
        }
    }
    true
}

impl Stream {
    /// What is kept before the first row, where so much may be looked at.
    pub(crate) fn new(alloc: Global, plan: &Plan, effort: Effort) -> Result<Stream, NoMemory>
        ensures { IfOk result (IsStreamOf plan.now []) }
    {
        let program = plan.program();
        // The smaller are made first: the ways out behind one have to drop it.
        let starts = StartTags::new(alloc, program)?;
        let writes = Writes::new(alloc, program)?;
        let unread = UnreadPorts::new(alloc, program)?;
        let channels = Channels::new(alloc, program)?;
        let listeners = NameListeners::new(alloc, plan)?;
        Ok(Stream {
            stop: plan.externals().stop(),
            tag: None,
            runs: 0,
            tags: 0,
            dues: Dues::new(alloc, plan)?,
            starts,
            writes,
            effort: effort.of_program(program, &listeners, &channels),
            listeners,
            channels,
            coming: Coming::new(alloc, effort.most_events()),
            unread,
            presence: PresentNames::new(alloc, program),
            outline: Outline::new(alloc),
        })
    }

    /// Whether the tag is later than the last row's, and up to the stop.
    fn may_reach(&self, tag: Tag) -> bool
        ensures later { IsTrue result → IsLater self.now.tag tag }
        ensures in_time { IsTrue result → UpTo tag self.now.stop }
    {
        let is_later = match self.tag {
            Some(last) => last.is_before(tag),
            None => true,
        };
        is_later && !self.stop.is_before(tag)
    }

    /// Adds a tag with so many runs. It is false where a count would be too great.
    fn count(&mut self, tag: Tag, runs: u32) -> bool
        ensures stop { self.new.stop ≡ self.old.stop }
        ensures dues { self.new.dues ≡ self.old.dues }
        ensures starts { self.new.starts ≡ self.old.starts }
        ensures writes { self.new.writes ≡ self.old.writes }
        ensures listeners { self.new.listeners ≡ self.old.listeners }
        ensures channels { self.new.channels ≡ self.old.channels }
        ensures coming { self.new.coming ≡ self.old.coming }
        ensures unread { self.new.unread ≡ self.old.unread }
        ensures tag { IsTrue result → self.new.tag ≡ Some tag }
        ensures runs { IsTrue result → self.new.runs ≡ self.old.runs + runs }
        ensures tags { IsTrue result → self.new.tags ≡ self.old.tags + 1 }
    {
        // Rows come part by part, and no clause bounds how many come in all.
        match (self.runs.checked_add(runs), self.tags.checked_add(1)) {
            (Some(runs), Some(tags)) => {
                self.tag = Some(tag);
                self.runs = runs;
                self.tags = tags;
                true
            }
            _ => false,
        }
    }

    /// Whether the runs of a slice are right, by what is kept; that goes on past the slice.
    fn judge_slice(&mut self, plan: &Plan, marks: &Marks, rows: &[Row], slice: Slice) -> bool
        requires fit { RowsFit plan.now.program rows.now }
        requires slice { IsSlice rows.now slice }
        requires marks { AreMarks plan.now.program rows.now slice.first slice.end marks.now }
        requires outline { IsOutline (slice_range rows.now slice.first slice.end) self.old.outline }
        requires hand { (done : List TheRow) × IsAtHand plan.now done rows.now slice self.old }
        ensures stop { self.new.stop ≡ self.old.stop }
        ensures tag { self.new.tag ≡ self.old.tag }
        ensures runs { self.new.runs ≡ self.old.runs }
        ensures tags { self.new.tags ≡ self.old.tags }
        ensures coming { self.new.coming ≡ self.old.coming }
        ensures unread { self.new.unread ≡ self.old.unread }
        ensures listeners { self.new.listeners ≡ self.old.listeners }
        ensures channels { self.new.channels ≡ self.old.channels }
        ensures outline { self.new.outline ≡ self.old.outline }
        ensures judged { IsTrue result → (done : List TheRow) → IsAtHand plan.now done rows.now slice self.old → IsJudged plan.now done rows.now slice self.new }
    {
        let program = plan.program();
        let own = &rows[slice.first..slice.end];
        let started = self.outline.started();
        let effects = self.outline.effects(own);
        self.presence
            .find(plan, &self.channels, &self.coming, own, slice.tag);
        // All writes of the tag are taken before its reads are looked at: the last one counts, and the order of
        // runs was asked before.
        self.writes.pass_all(program, effects, slice.tag);
        self.starts.begin_all(program, started, slice.tag);
        if !self.effort.allows(
            program,
            &self.presence,
            &self.listeners,
            &self.channels,
            own,
        ) || !are_triggered(
            &mut self.dues,
            &self.writes,
            &self.coming,
            marks,
            &self.presence,
            plan,
            started,
            slice.tag,
            self.stop,
        ) || !have_read(
            &self.writes,
            &self.coming,
            marks,
            &self.presence,
            plan,
            rows,
            slice,
            started,
        ) {
            return false;
        }
        is_all_heard(
            plan,
            &self.coming,
            &self.listeners,
            &self.starts,
            effects,
            slice.tag,
        )
    }

    /// Goes on past the rows of a slice. It is false where they may break a rule, or too much is to be
    /// looked at.
    fn add_slice(
        &mut self,
        plan: &Plan,
        order: &mut Precedence,
        marks: &mut Marks,
        rows: &[Row],
        slice: Slice,
    ) -> bool
        requires fit { RowsFit plan.now.program rows.now }
        requires kept { KeepRules plan.now rows.now }
        requires slice { IsSlice rows.now slice }
        requires marks { HaveMarksTo plan.now.program slice.first marks.old }
        requires stands { (done : List TheRow) × IsStreamOf plan.now (done ++ take slice.first rows.now) self.old }
        requires order { IfSome order.old (AreAncestors plan.now.program) }
        ensures order { IfSome order.new (AreAncestors plan.now.program) }
        ensures marks { IsTrue result → HaveMarksTo plan.now.program slice.end marks.new }
        ensures stands { IsTrue result → (done : List TheRow) → IsStreamOf plan.now (done ++ take slice.first rows.now) self.old → IsStreamOf plan.now (done ++ take slice.end rows.now) self.new }
    {
        let program = plan.program();
        let own = &rows[slice.first..slice.end];
        if !self.may_reach(slice.tag)
            || !self.outline.find(own)
            || !order.is_kept(plan, own)
            || !self
                .coming
                .reach(plan.externals(), &self.listeners, slice.tag)
        {
            return false;
        }
        // A request of the tag holds for its runs too: one microstep later is the stop.
        let effects = self.outline.effects(own);
        self.stop = stop_behind(program, self.stop, effects);
        let read = slice.first + self.outline.reads_end();
        marks.pass_all(program, rows, slice.first, read);
        if !self.judge_slice(plan, marks, rows, slice) {
            return false;
        }
        self.coming.drop_until(slice.tag);
        let met = self.unread.pass_all(program, effects, slice.tag);
        self.coming.note(met);
        let runs = self.outline.runs(own);
        pass_on(
            &mut self.coming,
            &mut self.writes,
            &self.channels,
            plan,
            effects,
            slice.tag,
            self.stop,
        ) && self.count(slice.tag, runs)
    }

    /// Goes on past rows that break none of the rules 1 to 5, tag by tag. It is false where they may
    /// break a rule, or too much is to be looked at.
    pub(crate) fn add_kept(
        &mut self,
        plan: &Plan,
        order: &mut Precedence,
        marks: &mut Marks,
        rows: &[Row],
    ) -> bool
        requires fit { RowsFit plan.now.program rows.now }
        requires kept { KeepRules plan.now rows.now }
        requires marks { HaveMarksTo plan.now.program 0 marks.old }
        requires stands { (done : List TheRow) × IsStreamOf plan.now done self.old }
        requires order { IfSome order.old (AreAncestors plan.now.program) }
        ensures stands { IsTrue result → (done : List TheRow) → IsStreamOf plan.now done self.old → IsStreamOf plan.now (done ++ rows.now) self.new }
        ensures order { IfSome order.new (AreAncestors plan.now.program) }
        ensures laid { IsTrue result → IsLaid plan.now.program marks.new }
    {
        let mut first = 0;
        while first < rows.len() {
            let slice = slice_from(rows, first);
            if !self.add_slice(plan, order, marks, rows, slice) {
                return false;
            }
            first = slice.end;
        }
        true
    }

    /// Makes the tag the stop, where it is earlier.
    pub(crate) fn stop_at(&mut self, stop: Tag)
        ensures { self.new ≡ stopped_stream self.old stop }
    {
        self.stop = earlier_of(stop, self.stop);
    }

    /// Whether nothing is due before the tag.
    pub(crate) fn is_timely(&self, low: Tag) -> bool
        ensures { IsTrue result → NoneDueBefore self.now.stop low self.now.dues }
    {
        self.dues.none_before(low, self.stop)
    }

    /// Whether no two events are known to meet.
    pub(crate) fn is_apart(&self) -> bool
        ensures { IsTrue result → self.now.coming.clash ≡ None }
    {
        self.coming.is_apart()
    }

    /// The counts, where nothing is owed up to the stop.
    pub(crate) fn finish(&mut self, plan: &Plan) -> Option<RunCounts>
        ensures { IfSome result (λ c. (t : List TheRow) → IsStreamOf plan.now t self.old → IsAccepted plan.now t c.runs c.tags) }
    {
        let stop = self.stop;
        if self.dues.none_owed(stop)
            && self.coming.is_over(plan.externals(), &self.listeners, stop)
        {
            Some(RunCounts {
                runs: self.runs,
                tags: self.tags,
            })
        } else {
            None
        }
    }
}
