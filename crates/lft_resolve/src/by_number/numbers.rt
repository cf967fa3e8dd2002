//! What reactors contain, by number.

ghost use Rattle.std.specs.Prelude.{◌≡◌, ◌≢◌, List, IfOk, IfErr};
ghost use Rattle.lft_tree.specs.{Tree.{ReactorTree, reactors_of}, View.reactor_view};
ghost use Rattle.lft_resolve.specs.Causes.{LacksReactor, UnknownReactor};
ghost use Rattle.lft_resolve.specs.inner.{Numbers.{AreContents, IsContents}, References.reactor_trees, Tables.{IsFile, IsOwn}};
ghost use Rattle.lft_resolve.specs.declared.fault.ReactorFault.TheVariants as faults;

use crate::ReactorFault;
use crate::expansion::Contents;
use crate::file::ReactorTable;
use crate::own::Own;
use crate::scopes::Scopes;
use std::alloc::Global;

/// What the reactor contains.
fn contents_of(alloc: Global, file: &ReactorTable, own: &Own) -> Result<Contents, ReactorFault>
    ensures ok { IfOk result (λ made. (rs : List ReactorTree) (r : ReactorTree) → IsFile rs file.now → IsOwn r own.now → IsContents rs r made) }
    ensures unknown { IfErr result (λ f. f ≢ faults.NoMemory → (f ≡ faults.UnknownReactor) × ((rs : List ReactorTree) (r : ReactorTree) → IsFile rs file.now → IsOwn r own.now → LacksReactor rs r)) }
{
    let mut instances = Vec::new(alloc);
    for instance in &own.contained {
        match file.number(instance.reactor.as_str()) {
            Some(number) => instances.push(number)?,
            None => return Err(ReactorFault::UnknownReactor),
        }
    }
    Ok(Contents { instances })
}

/// What each reactor of the file contains, where reactors are numbered from 0 in the order of the
/// file. The only fault beside want of memory is `UnknownReactor`.
pub fn contents(alloc: Global, scopes: &Scopes) -> Result<Vec<Contents>, ReactorFault>
    ensures ok { IfOk result (λ v. AreContents (reactors_of scopes.now) v.items) }
    ensures unknown { IfErr result (λ f. f ≢ faults.NoMemory → (f ≡ faults.UnknownReactor) × UnknownReactor (reactors_of scopes.now)) }
{
    let file = scopes.file();
    let mut table = Vec::new(alloc);
    for own in &file.owns {
        match contents_of(alloc, file, own) {
            Ok(made) => table.push(made)?,
            Err(fault) => return Err(fault),
        }
    }
    Ok(table)
}
