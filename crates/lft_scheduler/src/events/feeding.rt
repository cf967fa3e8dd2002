//! The events of a run's steps go into the queue.

ghost use Rattle.std.specs.Prelude.{◌≡◌, ◌<◌, ◌≤◌, ◌+◌, ◌++◌, ◌∷◌, [], ℕ, List, length, slice_get, Some, None, IfOk, Contains};
ghost use Rattle.lft_tag.specs.Tags.{UpTo, IsRecorded};
ghost use Rattle.lft_scheduler.specs.inner.{Listeners.{IsArrival, IsWatched, AreArrivals}, Events.{HasEvents, IsEventPut, IsFedTo, KnowsAgain}};
ghost use Rattle.lft_ir.specs.{declared.steps.row.{Row.Row as RowOf, Step.Step as StepOf}, Steps.Fits.StepFits};
ghost use Rattle.lft_model.specs.Recorded.{run_row, committed_rows};

use crate::listeners::Arrivals;
use lft_ir::steps::Step;
use lft_ir::{Name, Value};
use lft_lists::item_at;
use lft_model::Plan;
use lft_queue::{Queue, QueueFault};
use lft_tag::{NoMemory, Tag};

// Puts an event in, where it is up to the last tag and earlier than the collision that was found.
// Gives the earliest collision.
fn put(
    queue: &mut Queue,
    last: Tag,
    clash: Option<Tag>,
    tag: Tag,
    name: Name,
    value: Value,
) -> Result<Option<Tag>, NoMemory>
    ensures { IfOk result (λ found. IsEventPut last clash tag name value queue.old queue.new found) }
{
    if last.is_before(tag) {
        return Ok(clash);
    }
    if let Some(least) = clash {
        if !tag.is_before(least) {
            return Ok(clash);
        }
    }
    match queue.put(tag, name, value) {
        Ok(()) => return Ok(clash),
        Err(QueueFault::Collision) => return Ok(Some(tag)),
        Err(QueueFault::NoMemory) => return Err(NoMemory),
    }
}

// Puts the event of a watched port in, at which a write of its origin at the tag arrives. Where the origin
// was written already at this tag, its event takes another value.
fn feed_port(
    queue: &mut Queue,
    plan: &Plan,
    last: Tag,
    clash: Option<Tag>,
    tag: Tag,
    number: u32,
    value: Value,
    again: bool,
) -> Result<Option<Tag>, NoMemory>
    requires recorded { IsRecorded tag }
    requires number { number < length plan.now.program.ports }
    ensures { (t : List RowOf) (w r o : ℕ) (ports : List ℕ) → IsArrival plan.now.program o number → IsWatched plan.now.program number → ¬ Contains ports number → IsFedTo plan.now t (run_row w tag r (Step.Write (Name.Port o) value)) last ports clash queue.old → KnowsAgain plan.now t tag o again → IfOk result (λ found. IsFedTo plan.now t (run_row w tag r (Step.Write (Name.Port o) value)) last (ports ++ number ∷ []) found queue.new) }
{
    let at = tag.plus(plan.program().port(number).shift);
    if again {
        // What the earlier write put there; nothing where that was past the last tag or the collision.
        let _replaced = queue.remove(at, Name::Port(number));
    }
    put(queue, last, clash, at, Name::Port(number), value)
}

// Puts the events of a write of the origin at the tag in, at the ports that are watched.
fn feed_write(
    queue: &mut Queue,
    plan: &Plan,
    arrivals: &Arrivals,
    last: Tag,
    clash: Option<Tag>,
    tag: Tag,
    origin: u32,
    value: Value,
) -> Result<Option<Tag>, NoMemory>
    requires recorded { IsRecorded tag }
    requires arrivals { AreArrivals plan.now.program arrivals.now }
    ensures { (t : List RowOf) (w : ℕ) (r : ℕ) → UpTo tag last → HasEvents plan.now t tag last clash queue.old → IfOk result (λ found. HasEvents plan.now (t ++ run_row w tag r (Step.Write (Name.Port origin) value) ∷ []) tag last found queue.new) }
{
    // Asked for what every plan keeps: of a sound one an origin has an event where it is written.
    plan.keeps();
    let again = queue.get(tag, Name::Port(origin)).is_some();
    let mut found = clash;
    let ports = arrivals.of(origin);
    for place in 0..ports.len() {
        found = feed_port(
            queue,
            plan,
            last,
            found,
            tag,
            item_at(ports, place),
            value,
            again,
        )?;
    }
    Ok(found)
}

// Puts the event of a scheduling at the tag in.
fn feed_schedule(
    queue: &mut Queue,
    plan: &Plan,
    last: Tag,
    clash: Option<Tag>,
    tag: Tag,
    action: u32,
    value: Value,
    delay: u64,
) -> Result<Option<Tag>, NoMemory>
    requires recorded { IsRecorded tag }
    requires action { action < length plan.now.program.actions }
    requires delay { delay ≤ 1000000000000000000 }
    ensures { (t : List RowOf) (w : ℕ) (r : ℕ) → HasEvents plan.now t tag last clash queue.old → IfOk result (λ found. HasEvents plan.now (t ++ run_row w tag r (Step.Schedule (Name.Action action) value delay) ∷ []) tag last found queue.new) }
{
    let min_delay = plan.program().action(action).min_delay;
    put(
        queue,
        last,
        clash,
        tag.after(min_delay, delay),
        Name::Action(action),
        value,
    )
}

// Puts the events of a step at the tag in.
fn feed_step(
    queue: &mut Queue,
    plan: &Plan,
    arrivals: &Arrivals,
    last: Tag,
    clash: Option<Tag>,
    tag: Tag,
    step: Step,
) -> Result<Option<Tag>, NoMemory>
    requires recorded { IsRecorded tag }
    requires fits { StepFits plan.now.program step }
    requires arrivals { AreArrivals plan.now.program arrivals.now }
    ensures { (t : List RowOf) (w : ℕ) (r : ℕ) → UpTo tag last → HasEvents plan.now t tag last clash queue.old → IfOk result (λ found. HasEvents plan.now (t ++ run_row w tag r step ∷ []) tag last found queue.new) }
{
    match step {
        Step::Write(Name::Port(origin), value) => {
            return feed_write(queue, plan, arrivals, last, clash, tag, origin, value);
        }
        Step::Schedule(Name::Action(action), value, delay) => {
            return feed_schedule(queue, plan, last, clash, tag, action, value, delay);
        }
        _ => return Ok(clash),
    }
}

/// Puts the watched events of the steps of a run at the tag in, as far as they are up to the last tag.
/// Gives the least tag at which two causes give one port or action an event, if there is one. The
/// arrivals are those of the plan's program; it costs what the steps' watched ports and actions are.
pub(crate) fn feed(
    queue: &mut Queue,
    plan: &Plan,
    arrivals: &Arrivals,
    last: Tag,
    tag: Tag,
    steps: &[Step],
) -> Result<Option<Tag>, NoMemory>
    requires recorded { IsRecorded tag }
    requires fit { (k : ℕ) (s : StepOf) → slice_get steps.now k ≡ Some s → StepFits plan.now.program s }
    requires arrivals { AreArrivals plan.now.program arrivals.now }
    ensures { (t : List RowOf) (w : ℕ) (r : ℕ) → UpTo tag last → HasEvents plan.now t tag last None queue.old → IfOk result (λ found. HasEvents plan.now (t ++ committed_rows w tag r steps.now) tag last found queue.new) }
{
    let mut found = None;
    for at in 0..steps.len() {
        found = feed_step(queue, plan, arrivals, last, found, tag, item_at(steps, at))?;
    }
    Ok(found)
}
