//! The timers that lead: of those that trigger a reaction and beat alike, the first.

ghost use Rattle.std.specs.Prelude.{◌≡◌, ◌↔◌, ◌⊎◌, ◌<◌, ℕ, true, length, slice_get, Some, IfOk, OnOk, IfSome, IsTrue, Contains};
ghost use Rattle.lft_ir.specs.declared.parts.Trigger.{Trigger as TriggerOf};
ghost use Rattle.lft_scheduler.specs.inner.{Listeners.{beat as the_beat, IsLeader, IsLive}, Filling.{HaveLeaders, AreLeading, TimerStartsBefore}};

use lft_ir::{Program, Timer, Trigger};
use lft_lists::item_at;
use lft_tag::NoMemory;
use std::alloc::Global;
use std::collections::BTreeMap;

// The timer's period, and how far its offset goes past whole periods.
fn beat(timer: &Timer) -> (u64, u64)
    ensures { result ≡ the_beat timer.now }
{
    if timer.period == 0 {
        (0, timer.offset)
    } else {
        (timer.period, timer.offset % timer.period)
    }
}

// Whether the timer starts before the other one, if there is one, or as soon and has the lesser number.
fn starts_before(program: &Program, number: u32, other: Option<u32>) -> bool
    requires number { number < length program.now.timers }
    requires other { IfSome other (λ m. m < length program.now.timers) }
    ensures { IsTrue result ↔ TimerStartsBefore program.now number other }
{
    let Some(leader) = other else {
        return true;
    };
    let offset = program.timer(number).offset;
    let first = program.timer(leader).offset;
    offset < first || (offset == first && number < leader)
}

// The leader of each beat of the timers among the triggers.
fn leaders(
    alloc: Global,
    program: &Program,
    triggers: &[Trigger],
) -> Result<BTreeMap<(u64, u64), u32>, NoMemory>
    requires { (n : ℕ) → Contains triggers.now (TriggerOf.Timer n) → n < length program.now.timers }
    ensures { IfOk result (HaveLeaders program.now triggers.now) }
{
    let mut leaders = BTreeMap::new(alloc);
    'triggers: for place in 0..triggers.len() {
        if let Trigger::Timer(number) = item_at(triggers, place) {
            let its_beat = beat(program.timer(number));
            let leader = leaders.get(&its_beat).copied();
            if starts_before(program, number, leader) {
                let _before = leaders.insert(its_beat, number)?;
            }
        }
    }
    Ok(leaders)
}

// The timers that lead among the triggers are marked.
fn mark_leaders(
    alloc: Global,
    program: &Program,
    triggers: &[Trigger],
    marked: &mut [bool],
) -> Result<(), NoMemory>
    requires known { (n : ℕ) → Contains triggers.now (TriggerOf.Timer n) → n < length program.now.timers }
    requires as_long { length marked.old ≡ length program.now.timers }
    ensures count { length marked.new ≡ length marked.old }
    ensures each { OnOk result ((n : ℕ) → (slice_get marked.new n ≡ Some true) ↔ ((slice_get marked.old n ≡ Some true) ⊎ IsLeader program.now triggers.now n)) }
{
    let leaders = leaders(alloc, program, triggers)?;
    'triggers: for place in 0..triggers.len() {
        if let Trigger::Timer(number) = item_at(triggers, place) {
            let leader = leaders.get(&beat(program.timer(number))).copied();
            if leader == Some(number) {
                marked[number as usize] = true;
            }
        }
    }
    Ok(())
}

// Whether it leads among the triggers of a reaction, for each timer.
fn leading(alloc: Global, program: &Program) -> Result<Vec<bool>, NoMemory>
    ensures { IfOk result (λ marked. AreLeading program.now (length program.now.reactions) marked.items) }
{
    let mut marked = vec![in alloc; false; program.timers()]?;
    'reactions: for number in 0..program.reactions() {
        let triggers = program.reaction(number as u32).triggers.as_slice();
        mark_leaders(alloc, program, triggers, &mut marked)?;
    }
    Ok(marked)
}

/// The timers that lead among the triggers of a reaction.
// Where thousands of timers trigger one reaction at each tag, it is told by one of them.
pub(crate) fn live_timers(alloc: Global, program: &Program) -> Result<Vec<u32>, NoMemory>
    ensures { IfOk result (λ live. (n : ℕ) → Contains live.items n ↔ IsLive program.now n) }
{
    let marked = leading(alloc, program)?;
    let mut live = Vec::new(alloc);
    'timers: for number in 0..program.timers() {
        if marked[number] {
            live.push(number as u32)?;
        }
    }
    Ok(live)
}
