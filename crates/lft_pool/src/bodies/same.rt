//! Bodies of one reaction that have the same code, kept by their count.

ghost use Rattle.std.specs.Prelude.{◌≡◌, ◌<◌, ◌-◌, IfOk};

use crate::bodies::body::{Body, Code};
use crate::bodies::law::Law;
use std::marker::{Model, PhantomData};

/// So many bodies of a reaction, one at least, of which each has this code. Contracts see the
/// reaction and the count.
// So 1,000,000 bodies with one code cost what one of them costs.
#[derive(Drop)]
pub(crate) struct SameBodies<L: Law, C: Code + Drop> {
    reaction: u32,
    code: C,
    count: u64,
    law: PhantomData<L>,
}

impl<L: Law, C: Code + Drop> Model for SameBodies<L, C> {
    ghost use Rattle.std.specs.Prelude.{ℕ, ◌<◌, IfOk};

    ghost Value = { ℕ × ℕ };

    ghost view = { λ s. (s.reaction, s.count) };

    ghost invariant = { λ s. C.can_run s.code × ((tag : _) (state : _) (reads : _) (answer : _) → C.gives s.code tag state reads answer → IfOk answer (λ d. L.holds s.reaction tag state reads d)) × (1 < s.count → C.repeats s.code) };
}

impl<L: Law, C: Code + Drop> SameBodies<L, C> {
    /// So many bodies with this code. It takes no memory.
    pub(crate) fn new(reaction: u32, code: C, count: u64) -> SameBodies<L, C>
        requires callable { C.can_run code }
        requires lawful { (tag : _) (state : _) (reads : _) (answer : _) → C.gives code tag state reads answer → IfOk answer (λ d. L.holds reaction tag state reads d) }
        requires repeats { 1 < count → C.repeats code }
        ensures { result ≡ (reaction, count) }
    {
        SameBodies {
            reaction,
            code,
            count,
            law: PhantomData,
        }
    }

    /// The one body.
    pub(crate) fn one(body: Body<L, C>) -> SameBodies<L, C>
        ensures { result ≡ (body, 1) }
    {
        let (reaction, code) = body.into_parts();
        SameBodies::new(reaction, code, 1)
    }

    /// How many there are.
    pub(crate) fn count(&self) -> u64
        ensures { result ≡ self.now.1 }
    {
        self.count
    }

    /// Takes one of several.
    pub(crate) fn take(&mut self) -> Body<L, C>
        requires { 1 < self.old.1 }
        ensures body { result ≡ self.old.0 }
        ensures fewer { self.new ≡ (self.old.0, self.old.1 - 1) }
    {
        // Of several the code can be had again, and that takes no memory: so this can't fail.
        let code = self.code.again().unwrap();
        self.count -= 1;
        Body::new(self.reaction, code)
    }

    /// One of them, in place of all.
    pub(crate) fn into_body(self) -> Body<L, C>
        ensures { result ≡ self.0 }
    {
        let SameBodies {
            reaction,
            code,
            count: _,
            law: _,
        } = self;
        Body::new(reaction, code)
    }
}
