//! Rules 2 to 5: what a reader of a wrong row asks next.

ghost use Rattle.std.specs.Prelude.{◌≡◌, ◌+◌, ◌<◌, ◌≤◌, List, length, IfSome, OnOk};
ghost use Rattle.lft_ir.specs.{declared.{parts.Name.TheVariants.Action as TheAction, steps.row.Row.Row as TheRow}, Steps.Fits.{RowsFit, StepFits}};
ghost use Rattle.lft_model.specs.{declared.breach.Breach.Breach as TheBreach, Plans.PlanParts};
ghost use Rattle.lft_facts.specs.{Facts.IsRowFact, Reasons.{IsReason, IsThingOfKind}, inner.Enough.Adds, Enough.{IsOwnReason, wrong_row}};

use crate::across::{across, later_tag};
use crate::adding::add;
use crate::facts::{Fact, Reason, RowFact, ThingKind};
use crate::stopping::stop_reason;
use lft_ir::steps::{Row, Step, is_end, is_start, row_at};
use lft_ir::{Name, Program};
use lft_model::Plan;
use lft_races::{first_start, is_end_at, is_open_since, is_start_at};
use lft_tag::NoMemory;

/// The row before this one in which its worker ended that run.
fn ended_before(rows: &[Row], row: u32) -> Option<Reason>
    requires { row < length rows.now }
    ensures holds { IfSome result (λ c. (plan : PlanParts) → IsReason plan rows.now c) }
    ensures own { IfSome result (λ c. (b : TheBreach) → b.row ≡ row + 2 → IsOwnReason b c) }
{
    let own = row_at(rows, row as usize);
    for place in 0..row {
        if is_end_at(rows, own.worker, own.tag, own.reaction, place) {
            return Some(Reason::EndedIn { row, end: place });
        }
    }
    None
}

/// The row before this one in which its worker last started a run, if that is open.
fn own_open(rows: &[Row], row: u32) -> Option<Reason>
    requires { row < length rows.now }
    ensures holds { IfSome result (λ c. (plan : PlanParts) → IsReason plan rows.now c) }
    ensures own { IfSome result (λ c. (b : TheBreach) → b.row ≡ row + 2 → IsOwnReason b c) }
{
    let worker = row_at(rows, row as usize).worker;
    // Backwards: of the worker's starts only the last can be open, and to
    // ask it of one goes over the rows behind it.
    for back in 0..row {
        let place = row - 1 - back;
        let other = row_at(rows, place as usize);
        if is_start(&other.step) && other.worker == worker {
            return if is_open_since(rows, place, row, worker) {
                Some(Reason::HasOpen { row, start: place })
            } else {
                None
            };
        }
    }
    None
}

/// The row before this one in which another worker started that run, if it is open.
fn open_elsewhere(rows: &[Row], row: u32) -> Option<Reason>
    requires { row < length rows.now }
    ensures holds { IfSome result (λ c. (plan : PlanParts) → IsReason plan rows.now c) }
    ensures own { IfSome result (λ c. (b : TheBreach) → b.row ≡ row + 2 → IsOwnReason b c) }
{
    let own = row_at(rows, row as usize);
    let start = first_start(rows, row, own.tag, own.reaction)?;
    let worker = row_at(rows, start as usize).worker;
    if worker != own.worker && is_open_since(rows, start, row, worker) {
        Some(Reason::OpenOn { row, start })
    } else {
        None
    }
}

/// The row after this one that starts that run.
fn later_start(rows: &[Row], row: u32) -> Option<Reason>
    requires few { length rows.now ≤ 4000000 }
    requires row { row < length rows.now }
    ensures holds { IfSome result (λ c. (plan : PlanParts) → IsReason plan rows.now c) }
    ensures own { IfSome result (λ c. (b : TheBreach) → b.row ≡ row + 2 → IsOwnReason b c) }
{
    let own = row_at(rows, row as usize);
    // Where rows were written in a wrong order, the start stands behind the row that needs it.
    for place in row as usize + 1..rows.len() {
        if is_start_at(rows, own.tag, own.reaction, place) {
            let start = place as u32;
            return Some(Reason::StartsIn { row, start });
        }
    }
    None
}

/// The first row after this one that ends a run of its reaction by another worker or at another tag.
fn other_end(rows: &[Row], row: u32) -> Option<Reason>
    requires few { length rows.now ≤ 4000000 }
    requires row { row < length rows.now }
    ensures holds { IfSome result (λ c. (plan : PlanParts) → IsReason plan rows.now c) }
    ensures own { IfSome result (λ c. (b : TheBreach) → b.row ≡ row + 2 → IsOwnReason b c) }
{
    let own = row_at(rows, row as usize);
    for place in row as usize + 1..rows.len() {
        let other = row_at(rows, place);
        // One of the two is right and the other isn't, as where a recorder wrote a wrong number.
        if is_end(&other.step)
            && other.reaction == own.reaction
            && (other.worker == own.worker) != other.tag.is_same(own.tag)
        {
            let end = place as u32;
            return Some(Reason::EndsOther { row, end });
        }
    }
    None
}

/// The last row of the worker of this one.
fn last_row(rows: &[Row], row: u32) -> Option<Reason>
    requires few { length rows.now ≤ 4000000 }
    requires row { row < length rows.now }
    ensures holds { IfSome result (λ c. (plan : PlanParts) → IsReason plan rows.now c) }
    ensures own { IfSome result (λ c. (b : TheBreach) → b.row ≡ row + 2 → IsOwnReason b c) }
{
    let worker = row_at(rows, row as usize).worker;
    for back in 0..rows.len() {
        let place = rows.len() - 1 - back;
        if row_at(rows, place).worker == worker {
            let last = place as u32;
            return Some(Reason::LastOfWorker { row, last });
        }
    }
    None
}

/// The port that feeds another one, if that is another one.
fn origin_reason(program: &Program, port: u32) -> Option<Reason>
    requires { port < length program.now.ports }
    ensures holds { IfSome result (λ c. (plan : PlanParts) (t : List TheRow) → plan.program ≡ program.now → IsReason plan t c) }
    ensures own { IfSome result (λ c. (b : TheBreach) → IsOwnReason b c) }
{
    let origin = program.port(port).origin;
    if origin == port {
        None
    } else {
        Some(Reason::FedBy { port, origin })
    }
}

/// The port that feeds the one that the row names, if that is another one.
fn named_feed(program: &Program, step: Step) -> Option<Reason>
    requires { StepFits program.now step }
    ensures holds { IfSome result (λ c. (plan : PlanParts) (t : List TheRow) → plan.program ≡ program.now → IsReason plan t c) }
    ensures own { IfSome result (λ c. (b : TheBreach) → IsOwnReason b c) }
{
    match step {
        Step::Write(Name::Port(port), _) => origin_reason(program, port),
        _ => None,
    }
}

/// What the action is.
fn kind_of(program: &Program, action: u32) -> ThingKind
    requires { action < length program.now.actions }
    ensures { IsThingOfKind program.now (TheAction action) result }
{
    if program.action(action).physical {
        ThingKind::Physical
    } else {
        ThingKind::Logical
    }
}

/// What the step names, where such a step isn't of such a thing.
fn named_kind(program: &Program, step: Step) -> Option<Reason>
    requires { StepFits program.now step }
    ensures holds { IfSome result (λ c. (plan : PlanParts) (t : List TheRow) → plan.program ≡ program.now → IsReason plan t c) }
    ensures own { IfSome result (λ c. (b : TheBreach) → IsOwnReason b c) }
{
    match step {
        Step::Write(Name::Action(action), _) => Some(Reason::KindOf {
            name: Name::Action(action),
            kind: kind_of(program, action),
        }),
        Step::Schedule(Name::Port(port), _, _) => Some(Reason::KindOf {
            name: Name::Port(port),
            kind: ThingKind::Port,
        }),
        Step::Schedule(Name::Action(action), _, _) => {
            // Of a logical action nothing is odd: such a step is of such a thing.
            if program.action(action).physical {
                Some(Reason::KindOf {
                    name: Name::Action(action),
                    kind: kind_of(program, action),
                })
            } else {
                None
            }
        }
        _ => None,
    }
}

/// Puts where the run of a row that isn't open stands behind the facts.
fn add_of_order(rows: &[Row], row: u32, facts: &mut Vec<Fact>) -> Result<(), NoMemory>
    requires few { length rows.now ≤ 4000000 }
    requires row { row < length rows.now }
    ensures { OnOk result ((b : TheBreach) (plan : PlanParts) → b.row ≡ row + 2 → Adds b plan rows.now facts.old.items facts.new.items) }
{
    add(facts, ended_before(rows, row))?;
    add(facts, own_open(rows, row))?;
    add(facts, open_elsewhere(rows, row))?;
    add(facts, later_start(rows, row))?;
    Ok(())
}

/// Puts the inputs of a reaction behind the facts.
fn add_of_inputs(plan: &Plan, rows: &[Row], row: u32, facts: &mut Vec<Fact>) -> Result<(), NoMemory>
    requires fit { RowsFit plan.now.program rows.now }
    requires row { row < length rows.now }
    ensures { OnOk result ((b : TheBreach) → Adds b plan.now rows.now facts.old.items facts.new.items) }
{
    let reaction = row_at(rows, row as usize).reaction;
    add(facts, Some(Reason::Inputs { reaction }))
}

/// Puts the effects of a reaction, and what is odd of the name that it wrote or scheduled, behind the
/// facts.
fn add_of_effects(
    plan: &Plan,
    rows: &[Row],
    row: u32,
    facts: &mut Vec<Fact>,
) -> Result<(), NoMemory>
    requires fit { RowsFit plan.now.program rows.now }
    requires row { row < length rows.now }
    ensures { OnOk result ((b : TheBreach) → Adds b plan.now rows.now facts.old.items facts.new.items) }
{
    let own = row_at(rows, row as usize);
    let reaction = own.reaction;
    add(facts, Some(Reason::Effects { reaction }))?;
    add(facts, named_kind(plan.program(), own.step))?;
    add(facts, named_feed(plan.program(), own.step))?;
    Ok(())
}

/// Puts where else a run of the reaction is ended, the last row of the worker, and the first row at a later
/// tag behind the facts.
fn add_of_end(rows: &[Row], row: u32, facts: &mut Vec<Fact>) -> Result<(), NoMemory>
    requires few { length rows.now ≤ 4000000 }
    requires row { row < length rows.now }
    ensures { OnOk result ((b : TheBreach) (plan : PlanParts) → b.row ≡ row + 2 → Adds b plan rows.now facts.old.items facts.new.items) }
{
    add(facts, other_end(rows, row))?;
    add(facts, last_row(rows, row))?;
    add(facts, later_tag(rows, row))?;
    Ok(())
}

/// Puts what a reader of a wrong row asks next behind the facts.
pub(crate) fn add_row_reasons(
    plan: &Plan,
    rows: &[Row],
    fact: RowFact,
    facts: &mut Vec<Fact>,
) -> Result<(), NoMemory>
    requires fit { RowsFit plan.now.program rows.now }
    requires fact { IsRowFact plan.now rows.now fact }
    ensures { OnOk result ((b : TheBreach) → b.row ≡ wrong_row fact + 2 → Adds b plan.now rows.now facts.old.items facts.new.items) }
{
    match fact {
        RowFact::AfterStop { .. } => add(facts, stop_reason(plan, rows)),
        RowFact::NotOpen { row } => add_of_order(rows, row, facts),
        RowFact::NotInput { row } => add_of_inputs(plan, rows, row, facts),
        RowFact::NotEffect { row } => add_of_effects(plan, rows, row, facts),
        RowFact::Unended { row } => add_of_end(rows, row, facts),
        RowFact::Late { row, .. } => add(facts, across(rows, row)),
        // Each of these names the other row already.
        RowFact::StartsAgain { .. } | RowFact::Busy { .. } | RowFact::ReadAgain { .. } => Ok(()),
    }
}
