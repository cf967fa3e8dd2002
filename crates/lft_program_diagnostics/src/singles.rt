//! Where the single connections of a reactor stand.

ghost use Rattle.std.specs.Prelude.{◌≡◌, ◌≤◌, Some, IfSome, IfNone, length, option_map, slice_get};
ghost use Rattle.lft_tree.specs.{Tree.connection_in, View.{connection_view, member_view, reactor_view}};
ghost use Rattle.lft_resolve.specs.inner.Sheets.{Single, singles_of};
ghost use Rattle.lft_program_diagnostics.specs.inner.Singles.{IsSingleAt};

use lft_tree::{Connection, Member, Reactor};

/// The member, if it is a connection.
fn as_connection(member: &Member) -> Option<&Connection>
    ensures { option_map (λ x. connection_view x.now) result ≡ connection_in (member_view member.now) }
{
    match member {
        Member::Connection(connection) => Some(connection),
        _ => None,
    }
}

/// The connection that has the single one with that number among those of the reactor, and the place of both
/// names in its lists.
pub(crate) fn single_in(reactor: &Reactor, number: usize) -> Option<(&Connection, usize)>
    ensures some { IfSome result (λ r. (s : Single) × (slice_get (singles_of (reactor_view reactor.now)) number ≡ Some s) × IsSingleAt s (connection_view r.0.now) r.1) }
    ensures none { IfNone result (length (singles_of (reactor_view reactor.now)) ≤ number) }
{
    let mut left = number;
    for member in 0..reactor.members.len() {
        if let Some(connection) = as_connection(&reactor.members[member]) {
            // Equal where a way is told of: sides that differ are another cause, which comes before.
            let width = connection.sources.len().min(connection.destinations.len());
            if left < width {
                return Some((connection, left));
            }
            left -= width;
        }
    }
    None
}
