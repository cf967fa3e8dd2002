//! The events of the external inputs.

ghost use Rattle.std.specs.Prelude.{[], None, IfOk};
ghost use Rattle.lft_scheduler.specs.inner.Events.{HasEvents};

use lft_ir::Name;
use lft_ir::steps::Event;
use lft_lists::item_at;
use lft_model::Plan;
use lft_queue::{Queue, QueueFault};
use lft_tag::NoMemory;
use std::alloc::Global;

/// The events of the external inputs up to the stop: those of no rows.
pub(crate) fn first_events(alloc: Global, plan: &Plan) -> Result<Queue, NoMemory>
    ensures { IfOk result (HasEvents plan.now [] (record { time = 0; micro = 0 }) plan.now.externals.stop None) }
{
    // Asked for what every plan keeps: of a sound one no two external events collide.
    plan.keeps();
    let externals = plan.externals();
    let stop = externals.stop();
    let events = externals.events();
    // All of them from the beginning: an input is then one look-up, and an external event collides like any
    // other.
    let mut queue = Queue::new(alloc);
    for at in 0..events.len() {
        let event = item_at(events, at);
        if !stop.is_before(event.tag) {
            if let Err(QueueFault::NoMemory) = queue.put(
                event.tag,
                Name::Action(event.action),
                event.value,
            ) {
                return Err(NoMemory);
            }
        }
    }
    Ok(queue)
}
