//! The steps of an answer: whether they may be made, and their rows.

ghost use Rattle.std.specs.Prelude.{◌≡◌, ◌↔◌, ◌<◌, length, Contains, IsTrue, IfOk};
ghost use Rattle.lft_model.specs.Recorded.{MayAnswer, committed_rows};
ghost use Rattle.lft_scheduler.specs.Answering.{MayAll, HasLongDelay};

use lft_ir::Name;
use lft_ir::steps::{Row, Step};
use lft_model::Plan;
use lft_tag::{MAX_TIME, NoMemory, Tag};
use std::alloc::Global;

// Whether the name is one of the names.
fn has_name(names: &[Name], name: Name) -> bool
    ensures { IsTrue result ↔ Contains names.now name }
{
    for at in 0..names.len() {
        if names[at] == name {
            return true;
        }
    }
    false
}

// Whether the reaction may make the step between its reads and its end.
fn may_make(plan: &Plan, reaction: u32, step: Step) -> bool
    requires { reaction < length plan.now.program.reactions }
    ensures { IsTrue result ↔ MayAnswer plan.now reaction step }
{
    let program = plan.program();
    let effects = program.reaction(reaction).effects.as_slice();
    match step {
        Step::Write(Name::Port(port), _) => return has_name(effects, Name::Port(port)),
        Step::Schedule(Name::Action(action), _, _) => {
            return has_name(effects, Name::Action(action)) && !program.action(action).physical;
        }
        Step::Stop => return true,
        _ => return false,
    }
}

/// Whether the reaction may make all the steps.
pub fn may_make_all(plan: &Plan, reaction: u32, steps: &[Step]) -> bool
    requires { reaction < length plan.now.program.reactions }
    ensures { IsTrue result ↔ MayAll plan.now reaction steps.now }
{
    for at in 0..steps.len() {
        if !may_make(plan, reaction, steps[at]) {
            return false;
        }
    }
    true
}

/// Whether a step schedules with an extra delay past 10^18.
pub fn has_long_delay(steps: &[Step]) -> bool
    ensures { IsTrue result ↔ HasLongDelay steps.now }
{
    for at in 0..steps.len() {
        match steps[at] {
            Step::Schedule(_, _, delay) if delay > MAX_TIME => return true,
            _ => (),
        }
    }
    false
}

/// A row for each step, and the end row.
pub fn committed(
    alloc: Global,
    worker: u32,
    tag: Tag,
    reaction: u32,
    steps: &[Step],
) -> Result<Vec<Row>, NoMemory>
    ensures { IfOk result (λ rows. rows.items ≡ committed_rows worker tag reaction steps.now) }
{
    let mut rows = Vec::new(alloc);
    for at in 0..steps.len() {
        let step = steps[at];
        rows.push(Row {
            tag,
            worker,
            reaction,
            step,
        })?;
    }
    rows.push(Row {
        tag,
        worker,
        reaction,
        step: Step::End,
    })?;
    Ok(rows)
}
