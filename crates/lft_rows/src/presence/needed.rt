//! The triggers of a reaction without the timers whose firings are those of another one.

ghost use Rattle.std.specs.Prelude.{◌≡◌, ◌↔◌, ℕ, ◌<◌, length, Some, IsTrue, IfOk, OnOk, slice_get};
ghost use Rattle.lft_ir.specs.{Sound.IsTriggerOf, declared.parts.Trigger.Trigger as TheTrigger};
ghost use Rattle.lft_rows.specs.declared.presence.needed.Beat.{Beat as TheBeat};
ghost use Rattle.lft_rows.specs.inner.Presence.Needed.{AreNeeded, AreNeededOf, IsMultiple, InStep, IsBeatOf, AreAdded};

use lft_ir::{Program, Trigger};
use lft_lists::item_at;
use lft_tag::NoMemory;
use std::alloc::Global;

/// When a timer fires, and its number. The phase is the offset without whole periods.
// Timers of one period and phase fire in step from the greatest of their offsets on. So they stand
// together in the order of beats, and the first of them makes all firings of the others.
#[derive(Clone, Copy, PartialEq, Eq, PartialOrd, Ord, Drop)]
pub(crate) struct Beat {
    period: u64,
    phase: u64,
    offset: u64,
    number: u32,
}

/// The beat of the timer.
fn beat_of(program: &Program, number: u32) -> Beat
    requires { number < length program.now.timers }
    ensures beat { IsBeatOf program.now result }
    ensures number { result.number ≡ number }
{
    let timer = program.timer(number);
    let offset = timer.offset;
    let period = timer.period;
    let phase = if period == 0 { offset } else { offset % period };
    Beat {
        period,
        phase,
        offset,
        number,
    }
}

/// Whether the time is a whole number of periods.
fn is_multiple(time: u64, period: u64) -> bool
    ensures { IsTrue result ↔ IsMultiple time period }
{
    if period == 0 {
        time == 0
    } else {
        time % period == 0
    }
}

/// Whether there is an earlier beat, and the later one is in step with it: of one period, and begun
/// some periods after it.
fn is_covered(earlier: Option<Beat>, later: Beat) -> bool
    ensures { IsTrue result ↔ ((first : TheBeat) × (earlier ≡ Some first) × InStep first later) }
{
    match earlier {
        Some(first) => {
            first.period == later.period
                && first.offset <= later.offset
                && is_multiple(later.offset - first.offset, later.period)
        }
        None => false,
    }
}

/// Adds the timers of the beats, without those whose firings are made by the one added last.
fn add_timers(beats: &[Beat], needed: &mut Vec<Trigger>) -> Result<(), NoMemory>
    ensures { OnOk result (AreAdded beats.now (length beats.now) needed.old.items needed.new.items) }
{
    let mut last = None;
    for place in 0..beats.len() {
        let beat = item_at(beats, place);
        if !is_covered(last, beat) {
            needed.push(Trigger::Timer(beat.number))?;
            last = Some(beat);
        }
    }
    Ok(())
}

/// Some of the triggers: where one of all is present, one of these is. Of timers that fire in step
/// the first one stands for the others.
fn needed_triggers(
    alloc: Global,
    program: &Program,
    triggers: &[Trigger],
) -> Result<Vec<Trigger>, NoMemory>
    requires { (k : ℕ) (trigger : TheTrigger) → slice_get triggers.now k ≡ Some trigger → IsTriggerOf program.now trigger }
    ensures { IfOk result (λ needed. AreNeeded program.now triggers.now needed.items) }
{
    let mut beats = Vec::new(alloc);
    let mut needed = Vec::new(alloc);
    for place in 0..triggers.len() {
        let trigger = item_at(triggers, place);
        if let Trigger::Timer(number) = trigger {
            beats.push(beat_of(program, number))?;
        } else {
            needed.push(trigger)?;
        }
    }
    beats.sort_unstable();
    add_timers(beats.as_slice(), &mut needed)?;
    Ok(needed)
}

/// Triggers of the reaction that stand for all of its triggers.
pub fn needed_of(alloc: Global, program: &Program, reaction: u32) -> Result<Vec<Trigger>, NoMemory>
    requires { reaction < length program.now.reactions }
    ensures { IfOk result (λ needed. AreNeededOf program.now reaction needed.items) }
{
    let triggers = program.reaction(reaction).triggers.as_slice();
    let needed = needed_triggers(alloc, program, triggers)?;
    Ok(needed)
}
