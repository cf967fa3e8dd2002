//! What reactors declare, by number.

ghost use Rattle.std.specs.Prelude.{◌≡◌, map, flat_map, option_to_list, Any, IfOk};
ghost use Rattle.std.specs.List.{AllZip};
ghost use Rattle.lft_tree.specs.Tree.{ReactorTree, reactors_of};
ghost use Rattle.lft_resolve.specs.{Causes.{NoneHolds, later_causes}, Kinds.timer_times};
ghost use Rattle.lft_resolve.specs.inner.{Lacking.{LacksPlace, TimeLacksPlace}, Places.{IsIndexOf, place_in}};
ghost use Rattle.lft_resolve.specs.inner.{References.{action_trees, port_trees, timer_trees}, Tables.IsOwn};
ghost use Rattle.lft_resolve.specs.inner.Sheets.{AreDeclarations, IsActionSheet, IsDeclarations, IsTimerSheet};

use crate::by_number::clocks::clock_or_zero;
use crate::by_number::sheets::{ActionSheet, Declarations, TimerSheet};
use crate::index::Index;
use crate::members;
use crate::own::Own;
use crate::scopes::Scopes;
use lft_tag::NoMemory;
use lft_tree::{Action, Port, Timer};
use std::alloc::Global;

/// Whether each of the ports is an input.
fn port_inputs(alloc: Global, ports: &[&Port]) -> Result<Vec<bool>, NoMemory>
    ensures { IfOk result (λ v. v.items ≡ map (λ x. x.is_input) (port_trees ports.now)) }
{
    let mut inputs = Vec::new(alloc);
    for port in ports {
        inputs.push(port.is_input)?;
    }
    Ok(inputs)
}

/// The timers of a reactor whose parameters have these places.
fn timer_sheets(
    alloc: Global,
    parameters: &Index,
    timers: &[&Timer],
) -> Result<Vec<TimerSheet>, NoMemory>
    requires { Any (LacksPlace (place_in parameters.now)) (flat_map timer_times (timer_trees timers.now)) → ⊥ }
    ensures { IfOk result (λ v. (r : ReactorTree) → IsIndexOf parameters.now (map (λ p. p.name) r.parameters) → AllZip (IsTimerSheet r) (timer_trees timers.now) v.items) }
{
    let mut sheets = Vec::new(alloc);
    for timer in timers {
        let offset = clock_or_zero(parameters, &timer.offset);
        let period = clock_or_zero(parameters, &timer.period);
        sheets.push(TimerSheet { offset, period })?;
    }
    Ok(sheets)
}

/// The actions of a reactor whose parameters have these places.
fn action_sheets(
    alloc: Global,
    parameters: &Index,
    actions: &[&Action],
) -> Result<Vec<ActionSheet>, NoMemory>
    requires { Any (LacksPlace (place_in parameters.now)) (flat_map (λ a. option_to_list a.min_delay) (action_trees actions.now)) → ⊥ }
    ensures { IfOk result (λ v. (r : ReactorTree) → IsIndexOf parameters.now (map (λ p. p.name) r.parameters) → AllZip (IsActionSheet r) (action_trees actions.now) v.items) }
{
    let mut sheets = Vec::new(alloc);
    for action in actions {
        let min_delay = clock_or_zero(parameters, &action.min_delay);
        sheets.push(ActionSheet {
            is_physical: action.is_physical,
            min_delay,
        })?;
    }
    Ok(sheets)
}

/// What the reactor declares.
fn declarations_of(alloc: Global, own: &Own) -> Result<Declarations, NoMemory>
    requires { (r : ReactorTree) × IsOwn r own.now × (TimeLacksPlace r → ⊥) }
    ensures { IfOk result (λ made. (r : ReactorTree) → IsOwn r own.now → IsDeclarations r made) }
{
    let own_timers = members::timers(alloc, &own.reactor.members)?;
    let own_actions = members::actions(alloc, &own.reactor.members)?;
    Ok(Declarations {
        inputs: port_inputs(alloc, &own.declared_ports)?,
        timers: timer_sheets(alloc, &own.parameters, &own_timers)?,
        actions: action_sheets(alloc, &own.parameters, &own_actions)?,
    })
}

/// The ports, timers and actions of each reactor, where reactors are numbered from 0 in the order
/// of the file. A named time is the place of the reactor's parameter of that name.
pub fn declarations(alloc: Global, scopes: &Scopes) -> Result<Vec<Declarations>, NoMemory>
    requires { NoneHolds (later_causes (reactors_of scopes.now)) }
    ensures { IfOk result (λ v. AreDeclarations (reactors_of scopes.now) v.items) }
{
    let mut table = Vec::new(alloc);
    for own in &scopes.file().owns {
        table.push(declarations_of(alloc, own)?)?;
    }
    Ok(table)
}
