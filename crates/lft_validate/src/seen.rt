//! Names that were met.

ghost use Rattle.std.specs.Prelude.{◌≡◌, cond, not, true, false, IfOk, OnOk};
ghost use Rattle.lft_tree.specs.{Tree.RefTree, View.ref_view};
ghost use Rattle.lft_validate.specs.inner.Seen.{has_seen, same_ref};

use lft_resolve::hashing::NameHash;
use lft_tag::NoMemory;
use lft_tree::Reference;
use std::alloc::Global;
use std::collections::HashSet;

/// The names that were met so far: those of the reactor's own things, and those of ports of
/// contained instances.
#[derive(Drop)]
pub(crate) struct SeenNames<'a> {
    own: HashSet<&'a str, NameHash>,
    inner: HashSet<(&'a str, &'a str), NameHash>,
}

impl<'a> SeenNames<'a> {
    /// None was met. It is best if the hash depends on all the names to come.
    pub(crate) fn new(alloc: Global, hash: NameHash) -> SeenNames<'a>
        ensures { (q : RefTree) → has_seen result q ≡ false }
    {
        SeenNames {
            own: HashSet::with_hasher(alloc, hash),
            inner: HashSet::with_hasher(alloc, hash),
        }
    }

    /// Whether the name was met.
    pub(crate) fn has(&self, reference: &Reference) -> bool
        ensures { result ≡ has_seen self.now (ref_view reference.now) }
    {
        match &reference.port {
            None => self.own.contains(reference.head.as_str()),
            Some(port) => self
                .inner
                .contains(&(reference.head.as_str(), port.as_str())),
        }
    }

    /// Notes the name; false where it was met before.
    pub(crate) fn add(&mut self, reference: &'a Reference) -> Result<bool, NoMemory>
        ensures new { IfOk result (λ new. new ≡ not (has_seen self.old (ref_view reference.now))) }
        ensures added { OnOk result ((q : RefTree) → has_seen self.new q ≡ cond (same_ref (ref_view reference.now) q) true (has_seen self.old q)) }
    {
        match &reference.port {
            None => Ok(self.own.insert(reference.head.as_str())?),
            Some(port) => Ok(self.inner.insert((reference.head.as_str(), port.as_str()))?),
        }
    }
}
