//! The bodies of one reaction that are left.

ghost use Rattle.std.specs.Prelude.{◌≡◌, ◌<◌, ◌+◌, ◌-◌, OnOk, IfErr};

use crate::bodies::body::{Body, Code};
use crate::bodies::law::Law;
use crate::bodies::same::SameBodies;
use std::alloc::Global;
use std::collections::VecDeque;
use std::marker::Model;

/// The bodies of a reaction that are left, in order. Contracts see the reaction and how many there
/// are.
#[derive(Drop)]
pub(crate) struct BodiesLeft<L: Law, C: Code + Drop> {
    reaction: u32,
    left: u64,
    runs: VecDeque<SameBodies<L, C>>,
}

impl<L: Law, C: Code + Drop> Model for BodiesLeft<L, C> {
    ghost use Rattle.std.specs.Prelude.{◌≡◌, ◌<◌, ℕ, All};
    ghost use Rattle.std.specs.List.{sum_by};

    ghost Value = { ℕ × ℕ };

    ghost view = { λ b. (b.reaction, b.left) };

    ghost invariant = { λ b. (b.left ≡ sum_by (λ s. s.1) b.runs.items) × All (λ s. (s.0 ≡ b.reaction) × (0 < s.1)) b.runs.items };
}

impl<L: Law, C: Code + Drop> BodiesLeft<L, C> {
    /// No bodies of the reaction.
    pub(crate) fn new(alloc: Global, reaction: u32) -> BodiesLeft<L, C>
        ensures { result ≡ (reaction, 0) }
    {
        BodiesLeft {
            reaction,
            left: 0,
            runs: VecDeque::new(alloc),
        }
    }

    /// How many bodies there are.
    pub(crate) fn left(&self) -> u64
        ensures { result ≡ self.now.1 }
    {
        self.left
    }

    /// Puts the bodies behind the others. Where memory is refused, or there would be more than a word
    /// counts, it hands them back.
    pub(crate) fn put(&mut self, bodies: SameBodies<L, C>) -> Result<(), SameBodies<L, C>>
        requires reaction { bodies.0 ≡ self.old.0 }
        requires some { 0 < bodies.1 }
        ensures ok { OnOk result (self.new ≡ (self.old.0, self.old.1 + bodies.1)) }
        ensures err { IfErr result (λ e. (self.new ≡ self.old) × (e ≡ bodies)) }
    {
        let Some(left) = self.left.checked_add(bodies.count()) else {
            return Err(bodies);
        };
        match self.runs.push_back(bodies) {
            Ok(()) => {
                self.left = left;
                Ok(())
            }
            Err(refused) => Err(refused.value),
        }
    }

    /// Takes the body that was put first.
    pub(crate) fn take(&mut self) -> Body<L, C>
        requires { 0 < self.old.1 }
        ensures body { result ≡ self.old.0 }
        ensures fewer { self.new ≡ (self.old.0, self.old.1 - 1) }
    {
        self.left -= 1;
        if self.runs[0].count() > 1 {
            self.runs[0].take()
        } else {
            // Some body is left, so something stands first.
            self.runs.pop_front().unwrap().into_body()
        }
    }
}
