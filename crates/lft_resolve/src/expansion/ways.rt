//! The way back along joins: from a port to the one from which a join leads into it, and so on.

ghost use Rattle.std.specs.Prelude.{◌<◌, IfOk, length};
ghost use Rattle.lft_resolve.specs.inner.Expansion.{Sources.AreInside, Ways.{HaveSites, IsWayBack}};

use crate::expansion::joins::{PortSources, Site};
use lft_lists::item_at;
use lft_tag::NoMemory;
use std::alloc::Global;

/// The joins on the way back from a port, the one into it first. The way ends at a port into which no join
/// leads, or where it comes back to the first port. On a way that comes to another port twice it never ends.
pub fn way_back(alloc: Global, found: &PortSources, port: usize) -> Result<Vec<Site>, NoMemory>
    requires inside { AreInside found.now.sources.items }
    requires known { port < length found.now.sources.items }
    requires sites { HaveSites found.now.sources.items found.now.sites.items }
    ensures { IfOk result (λ v. IsWayBack found.now.sources.items found.now.sites.items port v.items) }
{
    let mut way = Vec::new(alloc);
    let mut at = port;
    'back: for _ in 0..u64::MAX {
        let Some(source) = item_at(&found.sources, at) else {
            return Ok(way);
        };
        way.push(item_at(&found.sites, at))?;
        at = source.port as usize;
        if at == port {
            return Ok(way);
        }
    }
    // No memory has so many joins.
    Err(NoMemory)
}
