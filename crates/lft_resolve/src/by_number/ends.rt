//! What the names in a reactor stand for, by place.

ghost use Rattle.std.specs.Prelude.{◌≡◌, ◌≢◌, List, None, false, IfOk, IfErr, MatchOption};
ghost use Rattle.lft_tree.specs.{Tree.ReactorTree, View.ref_view};
ghost use Rattle.lft_resolve.specs.inner.{Lost.{IsNamedTimer, LacksKind, inner_ref, is_port_kind, is_spot}, Sheets.{IsEnd, IsSpot}, Tables.{IsFile, IsOwn}};
ghost use Rattle.lft_resolve.specs.{Kinds.inner_kind, Sheets.is_timer};
ghost use Rattle.lft_resolve.specs.declared.fault.ReactorFault.TheVariants as faults;

use crate::ReactorFault;
use crate::by_number::sheets::NamedThing;
use crate::expansion::End;
use crate::file::ReactorTable;
use crate::own::Own;
use lft_tag::NoMemory;
use lft_tree::Reference;

/// A place in 32 bits. No list that can be held is longer.
pub(crate) fn narrow(place: usize) -> Result<u32, NoMemory>
    ensures { IfOk result (λ n. n ≡ place) }
{
    if place > u32::MAX as usize {
        return Err(NoMemory);
    }
    Ok(place as u32)
}

/// The port of a contained instance that a name with a point stands for.
fn inner_end(file: &ReactorTable, own: &Own, head: &str, name: &str) -> Result<End, ReactorFault>
    ensures ok { IfOk result (λ end. (rs : List ReactorTree) (r : ReactorTree) → IsFile rs file.now → IsOwn r own.now → IsEnd rs r (inner_ref head.now name.now) end) }
    ensures lost { IfErr result (λ f. f ≢ faults.NoMemory → (rs : List ReactorTree) (r : ReactorTree) → IsFile rs file.now → IsOwn r own.now → inner_kind rs r head.now name.now ≡ None) }
{
    match file.inside(own, head) {
        Some((instance, inner)) => match inner.ports.get(name) {
            Some(port) => Ok(End::Inner {
                instance,
                port: narrow(port)?,
            }),
            None => Err(ReactorFault::UnknownName),
        },
        None => Err(ReactorFault::UnknownName),
    }
}

/// The port that a name in a reactor stands for.
pub(crate) fn end(
    file: &ReactorTable,
    own: &Own,
    reference: &Reference,
) -> Result<End, ReactorFault>
    ensures ok { IfOk result (λ end. (rs : List ReactorTree) (r : ReactorTree) → IsFile rs file.now → IsOwn r own.now → IsEnd rs r (ref_view reference.now) end) }
    ensures lost { IfErr result (λ f. f ≢ faults.NoMemory → (rs : List ReactorTree) (r : ReactorTree) → IsFile rs file.now → IsOwn r own.now → LacksKind is_port_kind rs r (ref_view reference.now)) }
{
    match &reference.port {
        None => match own.ports.get(reference.head.as_str()) {
            Some(port) => Ok(End::Own(narrow(port)?)),
            None => Err(ReactorFault::UnknownName),
        },
        Some(name) => inner_end(file, own, reference.head.as_str(), name.as_str()),
    }
}

/// The port or action that a name in a reactor stands for.
pub(crate) fn spot(
    file: &ReactorTable,
    own: &Own,
    reference: &Reference,
) -> Result<NamedThing, ReactorFault>
    ensures ok { IfOk result (λ spot. (rs : List ReactorTree) (r : ReactorTree) → IsFile rs file.now → IsOwn r own.now → IsSpot rs r (ref_view reference.now) spot) }
    ensures lost { IfErr result (λ f. f ≢ faults.NoMemory → (rs : List ReactorTree) (r : ReactorTree) → IsFile rs file.now → IsOwn r own.now → LacksKind is_spot rs r (ref_view reference.now)) }
{
    match &reference.port {
        None => match own.ports.get(reference.head.as_str()) {
            Some(port) => Ok(NamedThing::Port(End::Own(narrow(port)?))),
            None => match own.actions.get(reference.head.as_str()) {
                Some(action) => Ok(NamedThing::Action(narrow(action)?)),
                None => Err(ReactorFault::UnknownName),
            },
        },
        Some(name) => {
            match inner_end(file, own, reference.head.as_str(), name.as_str()) {
                Ok(end) => Ok(NamedThing::Port(end)),
                Err(fault) => Err(fault),
            }
        }
    }
}

/// The place of the timer that a name in a reactor stands for, if it is one.
pub(crate) fn timer(own: &Own, reference: &Reference) -> Option<usize>
    ensures { (r : ReactorTree) → IsOwn r own.now → MatchOption result (is_timer r (ref_view reference.now).head (ref_view reference.now).port ≡ false) (IsNamedTimer r (ref_view reference.now)) }
{
    match &reference.port {
        None => own.timers.get(reference.head.as_str()),
        Some(_) => None,
    }
}
