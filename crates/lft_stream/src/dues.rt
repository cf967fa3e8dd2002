//! When the triggers of each reaction are due.

ghost use Rattle.std.specs.Prelude.{◌≡◌, ℕ, List, [], ◌<◌, length, filter_map, Some, IfOk, IfSome, IsTrue, slice_get};
ghost use Rattle.lft_ir.specs.{Sound.IsTriggerOf, declared.{parts.Trigger.Trigger as TheTrigger, steps.row.Row.Row as TheRow}};
ghost use Rattle.lft_model.specs.{Presence.{stop, Triggered}, Runs.Ran};
ghost use Rattle.lft_stream.specs.declared.due.Due.{Due as TheDue};
ghost use Rattle.lft_stream.specs.inner.Dues.{timed as the_timed, AreTriggersDue, AreDues, IsOwed, NoneOwed, IsDueBefore, NoneDueBefore, GoOn, IsSomePresent};

use crate::due::Due;
use crate::turns::Turns;
use lft_ir::Trigger;
use lft_lists::item_at;
use lft_model::Plan;
use lft_rows::presence::needed_of;
use lft_tag::{NoMemory, Tag};
use smallvec::SmallVec;
use std::alloc::Global;
use std::marker::Model;

/// Up to so many dues a run looks at each; of more, at those whose turn it is.
const FEW: usize = 16;

/// Some dues of a reaction. Most reactions have one, and each run asks for it, so it stands in place.
type DueList = SmallVec<Due, 1>;

/// When some triggers of a reaction are due.
#[derive(Drop)]
struct Beats {
    dues: DueList,
    /// The turns of the dues, where these are many. Where one is missing or wrong, a run that is triggered may be
    /// taken for one that isn't.
    // In a box, since most reactions have none and each has the room for it.
    turns: Option<Box<Turns>>,
}

impl Model for Beats {
    ghost use Rattle.std.specs.Prelude.{List};
    ghost use Rattle.lft_stream.specs.declared.due.Due.{Due};

    ghost Value = { List Due };

    ghost view = { λ beats. beats.dues.items };
}

/// For each reaction when those of its triggers are due that wait for no event.
#[derive(Drop)]
pub(crate) struct Dues {
    lists: Vec<Beats>,
}

impl Model for Dues {
    ghost use Rattle.std.specs.Prelude.{List};
    ghost use Rattle.lft_stream.specs.declared.due.Due.{Due};

    ghost Value = { List (List Due) };

    ghost view = { λ dues. dues.lists.items };
}

/// The trigger, where it waits for no event.
fn timed(trigger: Trigger) -> Option<Trigger>
    ensures { result ≡ the_timed trigger }
{
    match trigger {
        Trigger::On(_) => None,
        _ => Some(trigger),
    }
}

/// When those of some triggers that wait for no event are due before the first row.
fn first_dues(alloc: Global, plan: &Plan, triggers: &[Trigger]) -> Result<DueList, NoMemory>
    requires { (k : ℕ) (x : TheTrigger) → slice_get triggers.now k ≡ Some x → IsTriggerOf plan.now.program x }
    ensures { IfOk result (λ dues. (r : ℕ) → AreTriggersDue plan.now [] r (filter_map the_timed triggers.now) dues.items) }
{
    let mut dues = SmallVec::new(alloc);
    for place in 0..triggers.len() {
        match timed(item_at(triggers, place)) {
            Some(trigger) => {
                dues.push(Due::first(plan, trigger))?;
            }
            None => {}
        }
    }
    Ok(dues)
}

/// Whether none of these is up to the stop.
fn none_owed(dues: &[Due], last: Tag) -> bool
    ensures { IsTrue result → (k : ℕ) (due : TheDue) → slice_get dues.now k ≡ Some due → ¬ IsOwed last due }
{
    for place in 0..dues.len() {
        if item_at(dues, place).is_owed(last) {
            return false;
        }
    }
    true
}

/// Whether none of these is before the tag, where the stop is the last.
fn none_before(dues: &[Due], low: Tag, last: Tag) -> bool
    ensures { IsTrue result → (k : ℕ) (due : TheDue) → slice_get dues.now k ≡ Some due → ¬ IsDueBefore last low due }
{
    for place in 0..dues.len() {
        if item_at(dues, place).is_before(low, last) {
            return false;
        }
    }
    true
}

/// The turns of these dues, where they are many.
fn turns_of(alloc: Global, dues: &[Due]) -> Result<Option<Box<Turns>>, NoMemory> {
    if dues.len() <= FEW {
        return Ok(None);
    }
    let mut turns = Turns::new(alloc, dues.len())?;
    for place in 0..dues.len() {
        turns.put(place, item_at(dues, place).time());
    }
    Ok(Some(Box::new(alloc, turns)?))
}

/// Whether what stands at the place is due at the tag, where the stop is the last. Then it is due later now.
/// None where 64 bits hold no such time.
fn meet(dues: &mut [Due], place: usize, tag: Tag, last: Tag) -> Option<bool>
    requires { place < length dues.old }
    ensures due { GoOn last tag dues.old dues.new }
    ensures present { IfSome result (λ yes. IsTrue yes → IsSomePresent last tag dues.old) }
{
    let due = item_at(dues, place);
    if !due.is_at(tag, last) {
        return Some(false);
    }
    let next = due.next()?;
    dues[place] = next;
    Some(true)
}

/// Whether one of the triggers is present at the tag, where the stop is the last. Those that were due there are
/// due later now. It is false too where 64 bits hold no such time.
fn meet_all(dues: &mut [Due], tag: Tag, last: Tag) -> bool
    ensures due { GoOn last tag dues.old dues.new }
    ensures present { IsTrue result → IsSomePresent last tag dues.old }
{
    let mut is_present = false;
    for place in 0..dues.len() {
        let Some(is_met) = meet(dues, place, tag, last) else {
            return false;
        };
        is_present = is_present || is_met;
    }
    is_present
}

/// The same, where only those are looked at whose turn it is.
fn meet_in_turn(dues: &mut [Due], turns: &mut Turns, tag: Tag, last: Tag) -> bool
    ensures due { GoOn last tag dues.old dues.new }
    ensures present { IsTrue result → IsSomePresent last tag dues.old }
{
    turns.go_to(dues, tag.time);
    let mut is_present = false;
    // Nothing is proved of turns, so the loop has a bound of its own, and each place is looked at before it
    // is used.
    for _ in 0..dues.len() {
        let Some(place) = turns.take() else {
            return is_present;
        };
        if place >= dues.len() {
            return false;
        }
        let Some(true) = meet(dues, place, tag, last) else {
            return false;
        };
        is_present = true;
        turns.put(place, item_at(dues, place).time());
    }
    is_present
}

impl Beats {
    /// These dues.
    fn new(alloc: Global, dues: DueList) -> Result<Beats, NoMemory>
        ensures { IfOk result (λ beats. beats ≡ dues.items) }
    {
        let turns = turns_of(alloc, dues.as_slice())?;
        Ok(Beats { dues, turns })
    }

    /// The dues, in the order of their triggers.
    fn as_slice(&self) -> &[Due]
        ensures { result.now ≡ self.now }
    {
        self.dues.as_slice()
    }

    /// Whether one of the triggers is present at the tag, where the stop is the last. Those that were due there
    /// are due later now. It is false too where 64 bits hold no such time.
    fn meet(&mut self, tag: Tag, last: Tag) -> bool
        ensures due { GoOn last tag self.old self.new }
        ensures present { IsTrue result → IsSomePresent last tag self.old }
    {
        let dues = self.dues.as_mut_slice();
        // What is due at the stop has no turn. A reaction runs there once.
        if let Some(turns) = &mut self.turns {
            if !tag.is_same(last) {
                return meet_in_turn(dues, turns, tag, last);
            }
        }
        meet_all(dues, tag, last)
    }
}

impl Dues {
    /// When all triggers are due before the first row. Of timers that fire in step the first stands for the others.
    pub(crate) fn new(alloc: Global, plan: &Plan) -> Result<Dues, NoMemory>
        ensures { IfOk result (AreDues plan.now []) }
    {
        let program = plan.program();
        let mut lists = Vec::new(alloc);
        for number in 0..program.reactions() {
            let needed = needed_of(alloc, program, number as u32)?;
            let dues = first_dues(alloc, plan, needed.as_slice())?;
            lists.push(Beats::new(alloc, dues)?)?;
        }
        Ok(Dues { lists })
    }

    /// When the triggers of the reaction of this number are due.
    fn of(&self, number: usize) -> &[Due]
        requires { number < length self.now }
        ensures { slice_get self.now number ≡ Some result.now }
    {
        self.lists[number].as_slice()
    }

    /// Whether the reaction, which has a run at the tag, is triggered there, where the stop is the last.
    /// What was due there is due later now.
    pub(crate) fn run(&mut self, plan: &Plan, reaction: u32, tag: Tag, last: Tag) -> bool
        requires reaction { reaction < length plan.now.program.reactions }
        requires dues { (t : List TheRow) × AreDues plan.now t self.old }
        ensures dues { (t : List TheRow) → last ≡ stop plan.now t → Ran t tag reaction → AreDues plan.now t self.old → AreDues plan.now t self.new }
        ensures triggered { IsTrue result → (t : List TheRow) → last ≡ stop plan.now t → Ran t tag reaction → AreDues plan.now t self.old → Triggered plan.now t tag reaction }
    {
        // The plan is passed for what the contract says of it.
        let _ = plan;
        self.lists[reaction as usize].meet(tag, last)
    }

    /// Whether nothing is due up to the stop.
    pub(crate) fn none_owed(&self, last: Tag) -> bool
        ensures { IsTrue result → NoneOwed last self.now }
    {
        for number in 0..self.lists.len() {
            if !none_owed(self.of(number), last) {
                return false;
            }
        }
        true
    }

    /// Whether nothing is due before the tag, where the stop is the last.
    pub(crate) fn none_before(&self, low: Tag, last: Tag) -> bool
        ensures { IsTrue result → NoneDueBefore last low self.now }
    {
        for number in 0..self.lists.len() {
            if !none_before(self.of(number), low, last) {
                return false;
            }
        }
        true
    }
}
