//! The bodies that are left, a list for each reaction.

ghost use Rattle.std.specs.Prelude.{◌≡◌, ◌<◌, ◌≤◌, ◌+◌, ◌-◌, length, IfOk, IfErr, OnOk, slice_index, slice_set, All};

mod answered;
mod body;
mod done;
mod law;
mod line;
mod same;
mod ticket;

use crate::bodies::line::BodiesLeft;
use crate::bodies::same::SameBodies;
pub use answered::Answered;
pub use body::{Body, BoxedCode, Code};
pub use done::{Done, Steps};
pub use law::{AnyAnswer, Law};
use lft_ir::Program;
use lft_tag::NoMemory;
use std::alloc::Global;
use std::marker::Model;
pub use ticket::{Ticket, ticket_of};

/// Why a body is handed back.
#[derive(Clone, Copy, PartialEq, Eq, Debug)]
pub enum PutFault {
    /// There is no list for its reaction.
    NoReaction,
    /// A growth of memory was refused.
    NoMemory,
}

/// The bodies that are left, in lists by reaction. Contracts see the lengths.
#[derive(Drop)]
pub struct Bodies<L: Law, C: Code + Drop = BoxedCode> {
    lists: Vec<BodiesLeft<L, C>>,
}

impl<L: Law, C: Code + Drop> Model for Bodies<L, C> {
    ghost use Rattle.std.specs.Prelude.{◌≡◌, ◌<◌, ℕ, List, map, length, slice_index_or};

    ghost Value = { List ℕ };

    ghost view = { λ b. map (λ q. q.1) b.lists.items };

    ghost invariant = { λ b. (r : ℕ) (d : _) → r < length b.lists.items → (slice_index_or b.lists.items r d).0 ≡ r };
}

impl<L: Law, C: Code + Drop> Bodies<L, C> {
    /// An empty list for each reaction of the program.
    pub fn new(alloc: Global, program: &Program) -> Result<Bodies<L, C>, NoMemory>
        ensures len { IfOk result (λ b. length b ≡ length program.now.reactions) }
        ensures empty { IfOk result (λ b. All (λ n. n ≡ 0) b) }
    {
        let mut lists = Vec::new(alloc);
        for reaction in 0..program.reactions() {
            lists.reserve(1)?;
            lists.push_reserved(BodiesLeft::new(alloc, reaction as u32));
        }
        Ok(Bodies { lists })
    }

    /// Puts a body behind the others of its reaction; where it can't it hands the body back, and
    /// all lists stay as they were.
    pub fn put(&mut self, body: Body<L, C>) -> Result<(), (Body<L, C>, PutFault)>
        ensures there { OnOk result (body < length self.old) }
        ensures ok { OnOk result (self.new ≡ slice_set self.old body (slice_index self.old body + 1)) }
        ensures err { IfErr result (λ e. (self.new ≡ self.old) × (e.0 ≡ body)) }
        ensures no_reaction { IfErr result (λ e. e.1 ≡ PutFault.NoReaction → length self.old ≤ body) }
    {
        let place = body.reaction() as usize;
        if place >= self.lists.len() {
            return Err((body, PutFault::NoReaction));
        }
        match self.lists[place].put(SameBodies::one(body)) {
            Ok(()) => return Ok(()),
            Err(same) => return Err((same.into_body(), PutFault::NoMemory)),
        }
    }

    /// Puts so many bodies with the same code behind the others of the reaction, in the memory of
    /// one; where it can't, all lists stay as they were.
    pub fn put_many(&mut self, reaction: u32, code: C, count: u64) -> Result<(), PutFault>
        requires callable { C.can_run code }
        requires lawful { (tag : _) (state : _) (reads : _) (answer : _) → C.gives code tag state reads answer → IfOk answer (λ d. L.holds reaction tag state reads d) }
        requires repeats { C.repeats code }
        ensures there { OnOk result (reaction < length self.old) }
        ensures ok { OnOk result (self.new ≡ slice_set self.old reaction (slice_index self.old reaction + count)) }
        ensures err { IfErr result (λ _. self.new ≡ self.old) }
        ensures no_reaction { IfErr result (λ e. e ≡ PutFault.NoReaction → length self.old ≤ reaction) }
    {
        let place = reaction as usize;
        if place >= self.lists.len() {
            return Err(PutFault::NoReaction);
        }
        if count == 0 {
            return Ok(());
        }
        match self.lists[place].put(SameBodies::new(reaction, code, count)) {
            Ok(()) => return Ok(()),
            Err(_) => return Err(PutFault::NoMemory),
        }
    }

    /// How many bodies of the reaction are left, 0 where it has no list. It takes no memory.
    pub fn left(&self, reaction: u32) -> u64
        ensures there { reaction < length self.now → result ≡ slice_index self.now reaction }
        ensures none { length self.now ≤ reaction → result ≡ 0 }
    {
        match self.lists.get(reaction as usize) {
            Some(list) => list.left(),
            None => 0,
        }
    }

    /// Takes the body of the reaction that was put first.
    pub fn take(&mut self, reaction: u32) -> Body<L, C>
        requires there { reaction < length self.old }
        requires some { 0 < slice_index self.old reaction }
        ensures body { result ≡ reaction }
        ensures fewer { self.new ≡ slice_set self.old reaction (slice_index self.old reaction - 1) }
    {
        self.lists[reaction as usize].take()
    }
}
