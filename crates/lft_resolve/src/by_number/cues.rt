//! What the names of each reactor's reactions stand for, by place.

ghost use Rattle.std.specs.Prelude.{◌≢◌, List, Any, IfOk, IfErr, IsSomeAnd, map};
ghost use Rattle.std.specs.List.{AllZip};
ghost use Rattle.lft_tree.specs.{Tree.{ReactorTree, reactors_of}, View.{reaction_view, ref_views, trigger_view}};
ghost use Rattle.lft_resolve.specs.Causes.{NoneHolds, later_causes};
ghost use Rattle.lft_resolve.specs.inner.{Lost.{HasLost, IsLost}, Tables.{IsFile, IsOwn}, Sheets.{AreCues, AreReactions, IsCue, IsReactions, IsSpot}};
ghost use Rattle.lft_resolve.specs.{Kinds.{reaction_refs, ref_in}, Sheets.without_timers, declared.kinds.Role.TheVariants.{Effect, Read}};
ghost use Rattle.lft_resolve.specs.declared.fault.ReactorFault.TheVariants as faults;

use crate::by_number::ends::{narrow, spot, timer};
use crate::by_number::sheets::{Cue, Cues, NamedThing, Reactions};
use crate::file::ReactorTable;
use crate::own::Own;
use crate::scopes::Scopes;
use crate::{ReactorFault, members};
use lft_tag::NoMemory;
use lft_tree::{Reaction, Reference, Trigger};
use std::alloc::Global;

/// What a trigger stands for. A timer is sought first: it is the one thing that may stand here and
/// isn't a port or an action.
fn cue(file: &ReactorTable, own: &Own, trigger: &Trigger) -> Result<Cue, ReactorFault>
    ensures ok { IfOk result (λ cue. (rs : List ReactorTree) (r : ReactorTree) → IsFile rs file.now → IsOwn r own.now → IsCue rs r (trigger_view trigger.now) cue) }
    ensures lost { IfErr result (λ f. f ≢ faults.NoMemory → (rs : List ReactorTree) (r : ReactorTree) → IsFile rs file.now → IsOwn r own.now → IsSomeAnd (ref_in (trigger_view trigger.now)) (λ ref. IsLost rs r (Read, ref))) }
{
    match trigger {
        Trigger::Startup => Ok(Cue::Startup),
        Trigger::Shutdown => Ok(Cue::Shutdown),
        Trigger::Reference(reference) => match timer(own, reference) {
            Some(place) => Ok(Cue::Timer(narrow(place)?)),
            None => match spot(file, own, reference) {
                Ok(spot) => Ok(Cue::On(spot)),
                Err(fault) => Err(fault),
            },
        },
    }
}

/// What the triggers stand for.
fn triggers(
    alloc: Global,
    file: &ReactorTable,
    own: &Own,
    triggers: &[Trigger],
) -> Result<Vec<Cue>, ReactorFault>
    ensures ok { IfOk result (λ v. (rs : List ReactorTree) (r : ReactorTree) → IsFile rs file.now → IsOwn r own.now → AllZip (IsCue rs r) (map trigger_view triggers.now) v.items) }
    ensures lost { IfErr result (λ f. f ≢ faults.NoMemory → (rs : List ReactorTree) (r : ReactorTree) → IsFile rs file.now → IsOwn r own.now → Any (λ t. IsSomeAnd (ref_in t) (λ ref. IsLost rs r (Read, ref))) (map trigger_view triggers.now)) }
{
    let mut cues = Vec::new(alloc);
    for trigger in triggers {
        cues.push(cue(file, own, trigger)?)?;
    }
    Ok(cues)
}

/// What the uses stand for, but for those of timers.
fn uses(
    alloc: Global,
    file: &ReactorTable,
    own: &Own,
    references: &[Reference],
) -> Result<Vec<NamedThing>, ReactorFault>
    ensures ok { IfOk result (λ v. (rs : List ReactorTree) (r : ReactorTree) → IsFile rs file.now → IsOwn r own.now → AllZip (IsSpot rs r) (without_timers r (ref_views references.now)) v.items) }
    ensures lost { IfErr result (λ f. f ≢ faults.NoMemory → (rs : List ReactorTree) (r : ReactorTree) → IsFile rs file.now → IsOwn r own.now → Any (λ ref. IsLost rs r (Read, ref)) (ref_views references.now)) }
{
    let mut spots = Vec::new(alloc);
    for reference in references {
        match timer(own, reference) {
            Some(_) => {}
            None => spots.push(spot(file, own, reference)?)?,
        }
    }
    Ok(spots)
}

/// What the effects stand for.
fn effects(
    alloc: Global,
    file: &ReactorTable,
    own: &Own,
    references: &[Reference],
) -> Result<Vec<NamedThing>, ReactorFault>
    ensures ok { IfOk result (λ v. (rs : List ReactorTree) (r : ReactorTree) → IsFile rs file.now → IsOwn r own.now → AllZip (IsSpot rs r) (ref_views references.now) v.items) }
    ensures lost { IfErr result (λ f. f ≢ faults.NoMemory → (rs : List ReactorTree) (r : ReactorTree) → IsFile rs file.now → IsOwn r own.now → Any (λ ref. IsLost rs r (Effect, ref)) (ref_views references.now)) }
{
    let mut spots = Vec::new(alloc);
    for reference in references {
        spots.push(spot(file, own, reference)?)?;
    }
    Ok(spots)
}

/// What the names of a reaction stand for.
fn cues_of(
    alloc: Global,
    file: &ReactorTable,
    own: &Own,
    reaction: &Reaction,
) -> Result<Cues, ReactorFault>
    ensures ok { IfOk result (λ made. (rs : List ReactorTree) (r : ReactorTree) → IsFile rs file.now → IsOwn r own.now → AreCues rs r (reaction_view reaction.now) made) }
    ensures lost { IfErr result (λ f. f ≢ faults.NoMemory → (rs : List ReactorTree) (r : ReactorTree) → IsFile rs file.now → IsOwn r own.now → Any (IsLost rs r) (reaction_refs (reaction_view reaction.now))) }
{
    Ok(Cues {
        triggers: triggers(alloc, file, own, &reaction.triggers)?,
        uses: uses(alloc, file, own, &reaction.uses)?,
        effects: effects(alloc, file, own, &reaction.effects)?,
    })
}

/// What the names of a reactor's reactions stand for.
fn reactions_in(alloc: Global, file: &ReactorTable, own: &Own) -> Result<Reactions, ReactorFault>
    ensures ok { IfOk result (λ made. (rs : List ReactorTree) (r : ReactorTree) → IsFile rs file.now → IsOwn r own.now → IsReactions rs r made) }
    ensures lost { IfErr result (λ f. f ≢ faults.NoMemory → (rs : List ReactorTree) (r : ReactorTree) → IsFile rs file.now → IsOwn r own.now → HasLost rs r) }
{
    let declared = members::reactions(alloc, &own.reactor.members)?;
    let mut reactions = Vec::new(alloc);
    for reaction in &declared {
        reactions.push(cues_of(alloc, file, own, reaction)?)?;
    }
    Ok(Reactions { reactions })
}

fn reactions_among(alloc: Global, file: &ReactorTable) -> Result<Vec<Reactions>, ReactorFault>
    ensures ok { IfOk result (λ v. (rs : List ReactorTree) → IsFile rs file.now → AreReactions rs v.items) }
    ensures lost { IfErr result (λ f. f ≢ faults.NoMemory → (rs : List ReactorTree) → IsFile rs file.now → Any (HasLost rs) rs) }
{
    let mut table = Vec::new(alloc);
    for own in &file.owns {
        table.push(reactions_in(alloc, file, own)?)?;
    }
    Ok(table)
}

/// What the names of each reactor's reactions stand for, by number: reactors are numbered from 0 in
/// the order of the file.
pub fn reactions(alloc: Global, scopes: &Scopes) -> Result<Vec<Reactions>, NoMemory>
    requires { NoneHolds (later_causes (reactors_of scopes.now)) }
    ensures { IfOk result (λ v. AreReactions (reactors_of scopes.now) v.items) }
{
    match reactions_among(alloc, scopes.file()) {
        Ok(table) => Ok(table),
        Err(fault) => match fault {
            ReactorFault::NoMemory => Err(NoMemory),
            _ => unreachable!(),
        },
    }
}
