//! What a run answered for its effects, and in which rows.

ghost use Rattle.std.specs.Prelude.{◌≡◌, IfOk, length, slice_get};
ghost use Rattle.lft_pair.specs.Runs.{request_of_step as the_request_of, last_write as the_last_write, schedulings as the_schedulings, first_request as the_first_request};
ghost use Rattle.lft_pair.specs.inner.Answered.{writing as the_writing, action_scheduled as the_scheduled, AreLastWrites, AreSchedulings};

use crate::answers::count_of;
use crate::contrasting::contrasts::{LastWrite, Placed, Scheduling};
use lft_ir::Name;
use lft_ir::steps::Step;
use lft_lists::item_at;
use lft_tag::NoMemory;
use std::alloc::Global;
use std::collections::BTreeMap;
use std::marker::Model;

/// The port that the row writes and the write, if it is one.
fn writing(placed: Placed) -> Option<(u32, LastWrite)>
    ensures { result ≡ the_writing placed }
{
    match placed.step {
        Step::Write(Name::Port(port), value) => Some((
            port,
            LastWrite {
                row: placed.row,
                value,
            },
        )),
        _ => None,
    }
}

/// The last write of each port in the run.
fn writes_of(alloc: Global, steps: &[Placed]) -> Result<BTreeMap<u32, LastWrite>, NoMemory>
    ensures { IfOk result (AreLastWrites steps.now) }
{
    let mut writes = BTreeMap::new(alloc);
    for place in 0..steps.len() {
        if let Some(write) = writing(item_at(steps, place)) {
            let _before = writes.insert(write.0, write.1)?;
        }
    }
    Ok(writes)
}

/// The action that the row schedules and the scheduling, if it is one.
fn scheduled(placed: Placed) -> Option<(u32, Scheduling)>
    ensures { result ≡ the_scheduled placed }
{
    match placed.step {
        Step::Schedule(Name::Action(action), value, delay) => Some((
            action,
            Scheduling {
                row: placed.row,
                delay,
                value,
            },
        )),
        _ => None,
    }
}

/// The schedulings of a run: how many each action has, and each under its action and its place among
/// those of the action.
#[derive(Drop)]
struct ScheduledSteps {
    counts: BTreeMap<u32, usize>,
    items: BTreeMap<(u32, usize), Scheduling>,
}

/// The schedulings of the run.
fn schedulings_of(alloc: Global, steps: &[Placed]) -> Result<ScheduledSteps, NoMemory>
    ensures { IfOk result (λ all. AreSchedulings steps.now all.counts all.items) }
{
    let mut counts = BTreeMap::new(alloc);
    let mut items = BTreeMap::new(alloc);
    for place in 0..steps.len() {
        if let Some(found) = scheduled(item_at(steps, place)) {
            let count = count_of(&counts, found.0);
            let _before = items.insert((found.0, count), found.1)?;
            let _count = counts.insert(found.0, count + 1)?;
        }
    }
    Ok(ScheduledSteps { counts, items })
}

/// What a run answered, to be looked up by port and by action.
// A run may have thousands of rows, and its reaction thousands of effects. So the rows are gone
// through once, and each effect is looked up.
#[derive(Drop)]
pub(crate) struct RunAnswers<'a> {
    steps: &'a [Placed],
    writes: BTreeMap<u32, LastWrite>,
    schedulings: ScheduledSteps,
}

impl<'a> Model for RunAnswers<'a> {
    ghost use Rattle.std.specs.Prelude.{List};
    ghost use Rattle.lft_pair.specs.{declared.contrasting.contrasts.Placed.Placed, inner.Answered.AreEffectsOfRun};

    ghost Value = { List Placed };

    ghost view = { λ a. a.steps.now };

    ghost invariant = { λ a. AreEffectsOfRun a.steps.now a.writes a.schedulings.counts a.schedulings.items };
}

impl<'a> RunAnswers<'a> {
    /// What the run answered.
    pub(crate) fn new(alloc: Global, steps: &'a [Placed]) -> Result<RunAnswers<'a>, NoMemory>
        ensures { IfOk result (λ answered. answered ≡ steps.now) }
    {
        let writes = writes_of(alloc, steps)?;
        let schedulings = schedulings_of(alloc, steps)?;
        Ok(RunAnswers {
            steps,
            writes,
            schedulings,
        })
    }

    /// The last write of the port in the run.
    pub(crate) fn last_write(&self, port: u32) -> Option<LastWrite>
        ensures { result ≡ the_last_write self.now port }
    {
        self.writes.get(&port).copied()
    }

    /// How many schedulings of the action are in the run.
    pub(crate) fn count(&self, action: u32) -> usize
        ensures { result ≡ length (the_schedulings self.now action) }
    {
        count_of(&self.schedulings.counts, action)
    }

    /// The scheduling of the action in the run that stands at this place among them, if there is one.
    pub(crate) fn scheduling(&self, action: u32, place: usize) -> Option<Scheduling>
        ensures { result ≡ slice_get (the_schedulings self.now action) place }
    {
        self.schedulings.items.get(&(action, place)).copied()
    }
}

/// The place of the row, if it requests a stop.
fn request_of(placed: Placed) -> Option<u32>
    ensures { result ≡ the_request_of placed }
{
    match placed.step {
        Step::Stop => Some(placed.row),
        _ => None,
    }
}

/// The place of the first row of the run that requests a stop.
pub(crate) fn first_request(steps: &[Placed]) -> Option<u32>
    ensures { result ≡ the_first_request steps.now }
{
    for place in 0..steps.len() {
        if let Some(row) = request_of(item_at(steps, place)) {
            return Some(row);
        }
    }
    None
}
