//! What the connections of each reactor join, by place.

ghost use Rattle.std.specs.Prelude.{◌≢◌, ◌++◌, List, None, Some, Any, IfOk, IfErr, OnOk, option_map, option_to_list};
ghost use Rattle.std.specs.List.{AllZip};
ghost use Rattle.lft_tree.specs.{Tree.{ReactorTree, reactors_of}, View.{connection_view, time_view}};
ghost use Rattle.lft_resolve.specs.Causes.{NoneHolds, later_causes};
ghost use Rattle.lft_resolve.specs.inner.{Lost.{HasLost, IsLostTime, LosesIn}, Tables.{IsFile, IsOwn}};
ghost use Rattle.lft_resolve.specs.inner.Sheets.{AreConnections, IsClock, IsConnections, IsDelay, IsJoin, Single, singles_in};
ghost use Rattle.lft_resolve.specs.declared.fault.ReactorFault.TheVariants as faults;

use crate::by_number::clocks::kept;
use crate::by_number::ends::end;
use crate::expansion::{Clock, Connections, Join};
use crate::file::ReactorTable;
use crate::own::Own;
use crate::scopes::Scopes;
use crate::{ReactorFault, members};
use lft_tag::NoMemory;
use lft_tree::{Connection, TimeExpression};
use std::alloc::Global;

/// What a time in a reactor is.
fn clock(own: &Own, time: &TimeExpression) -> Result<Clock, ReactorFault>
    ensures ok { IfOk result (λ clock. (r : ReactorTree) → IsOwn r own.now → IsClock r (time_view time.now) clock) }
    ensures lost { IfErr result (λ f. f ≢ faults.NoMemory → (r : ReactorTree) → IsOwn r own.now → IsLostTime r (time_view time.now)) }
{
    match time {
        TimeExpression::Written { time, .. } => Ok(Clock::Fixed(kept(*time))),
        TimeExpression::Parameter { name, .. } => match own.parameters.get(name.as_str()) {
            Some(place) => Ok(Clock::Parameter(place)),
            None => Err(ReactorFault::UnknownName),
        },
    }
}

/// What a delay in a reactor is, if there is one.
fn delay(own: &Own, time: &Option<TimeExpression>) -> Result<Option<Clock>, ReactorFault>
    ensures ok { IfOk result (λ delay. (r : ReactorTree) → IsOwn r own.now → IsDelay r (option_map time_view time.now) delay) }
    ensures lost { IfErr result (λ f. f ≢ faults.NoMemory → (r : ReactorTree) → IsOwn r own.now → Any (IsLostTime r) (option_to_list (option_map time_view time.now))) }
{
    match time {
        Some(time) => match clock(own, time) {
            Ok(clock) => Ok(Some(clock)),
            Err(fault) => Err(fault),
        },
        None => Ok(None),
    }
}

/// Puts what the connection joins at the end, each of its sources with one of its destinations.
fn push_joins(
    joins: &mut Vec<Join>,
    file: &ReactorTable,
    own: &Own,
    connection: &Connection,
) -> Result<(), ReactorFault>
    ensures ok { OnOk result ((rs : List ReactorTree) (r : ReactorTree) → IsFile rs file.now → IsOwn r own.now → (singles : List Single) → AllZip (IsJoin rs r) singles joins.old.items → AllZip (IsJoin rs r) (singles ++ singles_in (connection_view connection.now)) joins.new.items) }
    ensures lost { IfErr result (λ f. f ≢ faults.NoMemory → (rs : List ReactorTree) (r : ReactorTree) → IsFile rs file.now → IsOwn r own.now → LosesIn rs r (connection_view connection.now)) }
{
    let delay = delay(own, &connection.delay)?;
    for (from, to) in connection.sources.iter().zip(&connection.destinations) {
        let from = end(file, own, from)?;
        let to = end(file, own, to)?;
        joins.push(Join { from, to, delay })?;
    }
    Ok(())
}

/// What a reactor's connections join.
fn joins_of(alloc: Global, file: &ReactorTable, own: &Own) -> Result<Connections, ReactorFault>
    ensures ok { IfOk result (λ made. (rs : List ReactorTree) (r : ReactorTree) → IsFile rs file.now → IsOwn r own.now → IsConnections rs r made) }
    ensures lost { IfErr result (λ f. f ≢ faults.NoMemory → (rs : List ReactorTree) (r : ReactorTree) → IsFile rs file.now → IsOwn r own.now → HasLost rs r) }
{
    let declared = members::connections(alloc, &own.reactor.members)?;
    let mut joins = Vec::new(alloc);
    for connection in &declared {
        push_joins(&mut joins, file, own, connection)?;
    }
    Ok(Connections { joins })
}

fn connections_among(alloc: Global, file: &ReactorTable) -> Result<Vec<Connections>, ReactorFault>
    ensures ok { IfOk result (λ v. (rs : List ReactorTree) → IsFile rs file.now → AreConnections rs v.items) }
    ensures lost { IfErr result (λ f. f ≢ faults.NoMemory → (rs : List ReactorTree) → IsFile rs file.now → Any (HasLost rs) rs) }
{
    let mut table = Vec::new(alloc);
    for own in &file.owns {
        table.push(joins_of(alloc, file, own)?)?;
    }
    Ok(table)
}

/// What the connections of each reactor join, by number: reactors are numbered from 0 in the order
/// of the file. Each source is joined to the destination at its place in the list.
pub fn connections(alloc: Global, scopes: &Scopes) -> Result<Vec<Connections>, NoMemory>
    requires { NoneHolds (later_causes (reactors_of scopes.now)) }
    ensures { IfOk result (λ v. AreConnections (reactors_of scopes.now) v.items) }
{
    match connections_among(alloc, scopes.file()) {
        Ok(table) => Ok(table),
        Err(fault) => match fault {
            ReactorFault::NoMemory => Err(NoMemory),
            _ => unreachable!(),
        },
    }
}
