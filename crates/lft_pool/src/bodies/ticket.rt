//! The leave to run one reaction once.

ghost use Rattle.std.specs.Prelude.{◌≡◌};

use lft_model::Reads;
use lft_tag::Tag;

/// Which run is begun, by which worker, and what its body is given. Anyone may make one: a book takes
/// an answer only to a ticket that one of its open runs has.
#[derive(Drop)]
pub struct Ticket {
    pub worker: u32,
    pub tag: Tag,
    pub reaction: u32,
    pub state: i64,
    pub reads: Reads,
}

/// The ticket of these parts.
pub fn ticket_of(worker: u32, tag: Tag, reaction: u32, state: i64, reads: Reads) -> Ticket
    ensures { result ≡ record { worker = worker; tag = tag; reaction = reaction; state = state; reads = reads } }
{
    Ticket {
        worker,
        tag,
        reaction,
        state,
        reads,
    }
}
