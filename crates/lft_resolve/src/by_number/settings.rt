//! The parameters of reactors and what `new` gives to them, by number.

ghost use Rattle.std.specs.Prelude.{◌≡◌, List, None, map, flat_map, Any, IfOk};
ghost use Rattle.std.specs.List.{AllZip};
ghost use Rattle.lft_tree.specs.{Tree.{ReactorTree, nanoseconds, reactors_of}, View.{assignment_view, parameter_view}};
ghost use Rattle.lft_resolve.specs.Causes.{NoneHolds, first_causes, later_causes};
ghost use Rattle.lft_resolve.specs.inner.{Lacking.{AreInstancesOf, LacksName, LacksPlace, TimeLacksPlace}, Places.{IsIndexOf, place_in}};
ghost use Rattle.lft_resolve.specs.inner.{References.instance_trees, Sheets.{AreValuesGiven, AreParameters, IsGiven, IsParameters, kept}};
ghost use Rattle.lft_resolve.specs.inner.Tables.{IsFile, IsOwn};

use crate::by_number::clocks::{clock, kept};
use crate::expansion::{Given, Parameters};
use crate::file::ReactorTable;
use crate::index::Index;
use crate::own::Own;
use crate::scopes::Scopes;
use lft_tag::NoMemory;
use lft_tree::{Assignment, Instance, Parameter};
use std::alloc::Global;

/// The defaults of the parameters.
fn default_times(alloc: Global, parameters: &[Parameter]) -> Result<Vec<u64>, NoMemory>
    ensures { IfOk result (λ v. v.items ≡ map (λ x. kept (nanoseconds x.default)) (map parameter_view parameters.now)) }
{
    let mut defaults = Vec::new(alloc);
    for parameter in parameters {
        defaults.push(kept(parameter.default))?;
    }
    Ok(defaults)
}

/// What is given to the parameter of this name, of those that have the inner places. The time is
/// one of the reactor whose parameters have the outer ones.
fn given_one(outer: &Index, inner: &Index, assignment: &Assignment) -> Given
    requires name { LacksName inner.now (assignment_view assignment.now) → ⊥ }
    requires time { LacksPlace (place_in outer.now) (assignment_view assignment.now).value → ⊥ }
    ensures { (r : ReactorTree) (i : ReactorTree) → IsIndexOf outer.now (map (λ p. p.name) r.parameters) → IsIndexOf inner.now (map (λ p. p.name) i.parameters) → IsGiven r i (assignment_view assignment.now) result }
{
    match inner.get(assignment.name.as_str()) {
        Some(place) => Given {
            place,
            clock: clock(outer, &assignment.value),
        },
        None => unreachable!(),
    }
}

/// What is given to the parameters that have the inner places.
fn given_all(
    alloc: Global,
    outer: &Index,
    inner: &Index,
    assignments: &[Assignment],
) -> Result<Vec<Given>, NoMemory>
    requires names { Any (LacksName inner.now) (map assignment_view assignments.now) → ⊥ }
    requires times { Any (LacksPlace (place_in outer.now)) (map (λ a. a.value) (map assignment_view assignments.now)) → ⊥ }
    ensures { IfOk result (λ v. (r : ReactorTree) (i : ReactorTree) → IsIndexOf outer.now (map (λ p. p.name) r.parameters) → IsIndexOf inner.now (map (λ p. p.name) i.parameters) → AllZip (IsGiven r i) (map assignment_view assignments.now) v.items) }
{
    let mut given = Vec::new(alloc);
    for assignment in assignments {
        let one = given_one(outer, inner, assignment);
        given.push(one)?;
    }
    Ok(given)
}

/// What is given to the instances of a reactor whose parameters have these places.
fn given_to_each(
    alloc: Global,
    file: &ReactorTable,
    parameters: &Index,
    instances: &[&Instance],
) -> Result<Vec<Vec<Given>>, NoMemory>
    requires instances { AreInstancesOf file.now (instance_trees instances.now) }
    requires times { Any (LacksPlace (place_in parameters.now)) (flat_map (λ i. map (λ a. a.value) i.given) (instance_trees instances.now)) → ⊥ }
    ensures { IfOk result (λ v. (rs : List ReactorTree) (r : ReactorTree) → IsFile rs file.now → IsIndexOf parameters.now (map (λ p. p.name) r.parameters) → AllZip (AreValuesGiven rs r) (instance_trees instances.now) (map (λ g. g.items) v.items)) }
{
    let mut given = Vec::new(alloc);
    for instance in instances {
        let inner = match file.reactor(instance.reactor.as_str()) {
            Some(inner) => inner,
            None => unreachable!(),
        };
        let one = given_all(alloc, parameters, &inner.parameters, &instance.given)?;
        given.push(one)?;
    }
    Ok(given)
}

/// The defaults of a reactor's parameters and what it gives to those of its instances.
fn parameters_of(alloc: Global, file: &ReactorTable, own: &Own) -> Result<Parameters, NoMemory>
    requires instances { AreInstancesOf file.now (instance_trees own.now.contained.items) }
    requires times { (r : ReactorTree) × IsOwn r own.now × (TimeLacksPlace r → ⊥) }
    ensures { IfOk result (λ p. (rs : List ReactorTree) (r : ReactorTree) → IsFile rs file.now → IsOwn r own.now → IsParameters rs r p) }
{
    Ok(Parameters {
        defaults: default_times(alloc, &own.reactor.parameters)?,
        given: given_to_each(alloc, file, &own.parameters, &own.contained)?,
    })
}

/// The defaults of each reactor's parameters in nanoseconds and what it gives to those of its
/// instances, where reactors are numbered from 0 in the order of the file. A time that is too long
/// is kept as one nanosecond more than the greatest.
pub fn parameters(alloc: Global, scopes: &Scopes) -> Result<Vec<Parameters>, NoMemory>
    requires first { NoneHolds (first_causes (reactors_of scopes.now)) }
    requires later { NoneHolds (later_causes (reactors_of scopes.now)) }
    ensures { IfOk result (λ v. AreParameters (reactors_of scopes.now) v.items) }
{
    let file = scopes.file();
    let mut table = Vec::new(alloc);
    for own in &file.owns {
        table.push(parameters_of(alloc, file, own)?)?;
    }
    Ok(table)
}
