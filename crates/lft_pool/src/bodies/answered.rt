//! An answer beside the ticket that it was given to.

ghost use Rattle.std.specs.Prelude.{◌≡◌, IfOk};

use crate::bodies::done::Done;
use crate::bodies::law::Law;
use crate::bodies::ticket::Ticket;
use lft_tag::NoMemory;
use std::marker::{Model, PhantomData};

/// A ticket and its answer. An answer with `Ok` meets the law.
#[derive(Drop)]
pub struct Answered<L: Law> {
    ticket: Ticket,
    answer: Result<Done, NoMemory>,
    law: PhantomData<L>,
}

impl<L: Law> Model for Answered<L> {
    ghost use Rattle.std.specs.Prelude.{IfOk, Result};
    ghost use Rattle.lft_tag.specs.declared.NoMemory.{NoMemory};
    ghost use Rattle.lft_pool.specs.declared.bodies.{ticket.Ticket.Ticket, done.Done.Done};

    ghost Value = { Ticket × Result Done NoMemory };

    ghost view = { λ a. (a.ticket, a.answer) };

    ghost invariant = { λ a. IfOk a.answer (λ d. L.holds a.ticket.reaction a.ticket.tag a.ticket.state a.ticket.reads d) };
}

impl<L: Law> Answered<L> {
    /// The answer to a ticket. It takes no memory.
    pub(crate) fn new(ticket: Ticket, answer: Result<Done, NoMemory>) -> Answered<L>
        requires { IfOk answer (λ d. L.holds ticket.reaction ticket.tag ticket.state ticket.reads d) }
        ensures { result ≡ (ticket, answer) }
    {
        // Only bodies keep that their answers meet the law, so not even the book can make an answer up.
        Answered {
            ticket,
            answer,
            law: PhantomData,
        }
    }

    /// The ticket and the answer, which meets the law.
    pub fn into_parts(self) -> (Ticket, Result<Done, NoMemory>)
        ensures same { result ≡ self }
        ensures lawful { IfOk result.1 (λ d. L.holds result.0.reaction result.0.tag result.0.state result.0.reads d) }
    {
        let Answered {
            ticket,
            answer,
            law: _,
        } = self;
        (ticket, answer)
    }
}
