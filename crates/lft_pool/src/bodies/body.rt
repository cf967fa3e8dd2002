//! The code of one run, kept beside what is known of its answers.

ghost use Rattle.std.specs.Prelude.{◌≡◌, IfOk, Result};

use crate::bodies::answered::Answered;
use crate::bodies::done::Done;
use crate::bodies::law::Law;
use crate::bodies::ticket::Ticket;
use lft_model::Reads;
use lft_tag::{NoMemory, Tag};
use std::alloc::Global;
use std::marker::{Model, PhantomData};

/// A boxed closure that may go to another thread and is called once.
pub type BoxedCode = Box<dyn FnOnce(Tag, i64, Reads) -> Result<Done, NoMemory> + Send>;

/// What can be run once, by value. A body stands on this and not on a closure itself, since a
/// fact on a law can't stand beside a `dyn` value.
// A struct of one's own can name the definition of its answer, which a closure can't.
pub trait Code {
    ghost use Rattle.std.specs.Prelude.{◌≡◌, ℤ, List, Option, Result, IfSome, IsSome};
    ghost use Rattle.lft_tag.specs.declared.{Tag.Tag, NoMemory.NoMemory};
    ghost use Rattle.lft_ir.specs.declared.parts.Value.{Value};
    ghost use Rattle.lft_pool.specs.declared.bodies.done.Done.{Done};

    /// It may be run on every tag, word and reads.
    ghost can_run: { Self → Type 0 };

    /// A run of it may give this answer.
    ghost gives: { Self → Tag → ℤ → List (Option Value) → Result Done NoMemory → Type 0 };

    /// The same code can be had again, as often as it is asked for.
    ghost repeats: { Self → Type 0 } = { λ _. ⊥ };

    fn run(self, tag: Tag, state: i64, reads: Reads) -> Result<Done, NoMemory>
        requires { can_run self }
        ensures { gives self tag state reads result };

    /// The same code once more, where it can be had. It takes no memory.
    fn again(&self) -> Option<Self>
        ensures same { IfSome result (λ code. code ≡ self.now) }
        ensures some { repeats self.now → IsSome result };
}

impl Code for BoxedCode {
    ghost can_run = { λ c. BoxedCode.IsAlwaysCallable c };

    ghost gives = { λ c tag state reads answer. BoxedCode.post c tag state reads answer };

    fn run(self, tag: Tag, state: i64, reads: Reads) -> Result<Done, NoMemory> {
        self(tag, state, reads)
    }

    // A closure that is called once can't be had again.
    fn again(&self) -> Option<BoxedCode> {
        None
    }
}

/// The code of one run of a reaction. Contracts see the reaction alone; that the code may be run
/// and its answers meet the law is kept by this type.
#[derive(Drop)]
pub struct Body<L: Law, C: Code + Drop = BoxedCode> {
    reaction: u32,
    code: C,
    law: PhantomData<L>,
}

impl<L: Law, C: Code + Drop> Model for Body<L, C> {
    ghost use Rattle.std.specs.Prelude.{ℕ, IfOk};

    ghost Value = { ℕ };

    ghost view = { λ b. b.reaction };

    ghost invariant = { λ b. C.can_run b.code × ((tag : _) (state : _) (reads : _) (answer : _) → C.gives b.code tag state reads answer → IfOk answer (λ d. L.holds b.reaction tag state reads d)) };
}

impl<L: Law, C: Code + Drop> Body<L, C> {
    /// The body of a reaction. It takes no memory.
    pub fn new(reaction: u32, code: C) -> Body<L, C>
        requires callable { C.can_run code }
        requires lawful { (tag : _) (state : _) (reads : _) (answer : _) → C.gives code tag state reads answer → IfOk answer (λ d. L.holds reaction tag state reads d) }
        ensures { result ≡ reaction }
    {
        // That each answer meets the law is asked for here, so none is tested by it afterwards.
        Body {
            reaction,
            code,
            law: PhantomData,
        }
    }

    /// The reaction.
    pub fn reaction(&self) -> u32
        ensures { result ≡ self.now }
    {
        self.reaction
    }

    /// The reaction and the code. It takes no memory.
    pub(crate) fn into_parts(self) -> (u32, C)
        ensures reaction { result.0 ≡ self }
        ensures callable { C.can_run result.1 }
        ensures lawful { (tag : _) (state : _) (reads : _) (answer : _) → C.gives result.1 tag state reads answer → IfOk answer (λ d. L.holds result.0 tag state reads d) }
    {
        let Body {
            reaction,
            code,
            law: _,
        } = self;
        (reaction, code)
    }

    /// Runs the code once, with a copy of the ticket's reads. Where the copy is refused the answer
    /// is `NoMemory` and the code isn't run.
    pub fn call(self, alloc: Global, ticket: Ticket) -> Answered<L>
        requires { ticket.reaction ≡ self }
        ensures ticket { result.0 ≡ ticket }
        ensures lawful { IfOk result.1 (λ d. L.holds ticket.reaction ticket.tag ticket.state ticket.reads d) }
    {
        let Body {
            reaction: _,
            code,
            law: _,
        } = self;
        let answer = match Vec::from_slice(alloc, ticket.reads.as_slice()) {
            Ok(items) => code.run(ticket.tag, ticket.state, Reads::from_vec(items)),
            Err(_) => Err(NoMemory),
        };
        Answered::new(ticket, answer)
    }
}
