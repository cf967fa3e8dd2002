//! The open run of each worker, by the place of its start row; the last start of each reaction.

ghost use Rattle.std.specs.Prelude.{◌≡◌, ℕ, ◌==◌, ◌<◌, cond, length, Option, Some, None, IfOk, OnOk, IsTrue, slice_get};
ghost use Rattle.lft_rows.specs.inner.Places.{far_place_of, place_of, last_of};

use lft_lists::item_at;
use lft_tag::{NoMemory, Tag};
use std::alloc::Global;
use std::collections::BTreeMap;

/// So many workers, those with the least numbers, have their places in a list.
const NEAR: usize = 1_024;

/// The place of the start row of each worker's open run, by the worker's number in a map. The numbers
/// come from the trace: in a map by hashes whoever writes it could make them collide.
#[derive(Drop)]
pub(crate) struct FarRuns {
    places: BTreeMap<u32, usize>,
}

impl FarRuns {
    /// The place of the start row of the worker's open run, if it has one.
    fn of(&self, worker: u32) -> Option<usize>
        ensures { result ≡ far_place_of self.now worker }
    {
        self.places.get(&worker).copied()
    }

    /// The worker's open run is now that of the start row at the place.
    fn begin(&mut self, worker: u32, place: usize) -> Result<(), NoMemory>
        ensures { OnOk result ((w : ℕ) → far_place_of self.new w ≡ cond (worker == w) (Some place) (far_place_of self.old w)) }
    {
        match self.places.insert(worker, place) {
            Ok(_) => Ok(()),
            Err(_) => Err(NoMemory),
        }
    }

    /// Whether no worker has an open run.
    fn are_none(&self) -> bool
        ensures { IsTrue result → (w : ℕ) → far_place_of self.now w ≡ None }
    {
        self.places.is_empty()
    }

    /// The worker has no open run now.
    fn end(&mut self, worker: u32)
        ensures { (w : ℕ) → far_place_of self.new w ≡ cond (worker == w) None (far_place_of self.old w) }
    {
        let _place = self.places.remove(&worker);
    }
}

/// Whether none of the places is there.
fn are_all_none(places: &[Option<usize>]) -> bool
    ensures { IsTrue result → (k : ℕ) (place : Option ℕ) → slice_get places.now k ≡ Some place → place ≡ None }
{
    // Asked once behind a pass, so no count of open runs is kept for each row.
    for number in 0..places.len() {
        if item_at(places, number).is_some() {
            return false;
        }
    }
    true
}

/// The place of the start row of each worker's open run.
// Traces mostly number their workers from 0 on, and each row asks for its worker.
#[derive(Drop)]
pub(crate) struct OpenRuns {
    near: Vec<Option<usize>>,
    far: FarRuns,
}

impl OpenRuns {
    /// No run is open.
    pub(crate) fn new(alloc: Global) -> Result<OpenRuns, NoMemory>
        ensures { IfOk result (λ runs. (w : ℕ) → place_of runs w ≡ None) }
    {
        let near = vec![in alloc; None; NEAR]?;
        let places = BTreeMap::new(alloc);
        Ok(OpenRuns {
            near,
            far: FarRuns { places },
        })
    }

    /// The place of the start row of the worker's open run, if it has one.
    pub(crate) fn of(&self, worker: u32) -> Option<usize>
        ensures { result ≡ place_of self.now worker }
    {
        match self.near.get(worker as usize) {
            Some(place) => *place,
            None => self.far.of(worker),
        }
    }

    /// Whether no worker has an open run.
    pub(crate) fn are_none(&self) -> bool
        ensures { IsTrue result → (w : ℕ) → place_of self.now w ≡ None }
    {
        are_all_none(self.near.as_slice()) && self.far.are_none()
    }

    /// The worker's open run is now that of the start row at the place.
    pub(crate) fn begin(&mut self, worker: u32, place: usize) -> Result<(), NoMemory>
        ensures { OnOk result ((w : ℕ) → place_of self.new w ≡ cond (worker == w) (Some place) (place_of self.old w)) }
    {
        let number = worker as usize;
        if number < self.near.len() {
            self.near[number] = Some(place);
            Ok(())
        } else {
            self.far.begin(worker, place)
        }
    }

    /// The worker has no open run now.
    pub(crate) fn end(&mut self, worker: u32)
        ensures { (w : ℕ) → place_of self.new w ≡ cond (worker == w) None (place_of self.old w) }
    {
        let number = worker as usize;
        if number < self.near.len() {
            self.near[number] = None;
        } else {
            self.far.end(worker);
        }
    }
}

/// The tag at which each reaction started last.
#[derive(Drop)]
pub(crate) struct LastStarts {
    tags: Vec<Option<Tag>>,
}

impl LastStarts {
    /// No reaction has started.
    pub(crate) fn new(alloc: Global, reactions: usize) -> Result<LastStarts, NoMemory>
        ensures none { IfOk result (λ starts. (r : ℕ) → last_of starts r ≡ None) }
        ensures count { IfOk result (λ starts. length starts.tags.items ≡ reactions) }
    {
        let tags = vec![in alloc; None; reactions]?;
        Ok(LastStarts { tags })
    }

    /// The tag at which the reaction started last, if it did.
    pub(crate) fn of(&self, reaction: u32) -> Option<Tag>
        ensures { result ≡ last_of self.now reaction }
    {
        match self.tags.get(reaction as usize) {
            Some(tag) => *tag,
            None => None,
        }
    }

    /// The reaction's last start is now at the tag.
    pub(crate) fn begin(&mut self, reaction: u32, tag: Tag)
        requires { reaction < length self.old.tags.items }
        ensures count { length self.new.tags.items ≡ length self.old.tags.items }
        ensures last { (r : ℕ) → last_of self.new r ≡ cond (reaction == r) (Some tag) (last_of self.old r) }
    {
        self.tags[reaction as usize] = Some(tag);
    }
}
