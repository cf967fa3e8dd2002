//! The bodies of a recording by cards, and the law that they meet.

ghost use Rattle.std.specs.Prelude.{◌≡◌, ◌<◌, ℕ, IfOk, length, min, slice_index};
ghost use Rattle.lft_record.specs.Scripts.{bodies_at};

use crate::cards::{Cards, card_answer};
use lft_ir::Program;
use lft_model::Reads;
use lft_pool::{Bodies, Code, Done, Law};
use lft_tag::{NoMemory, Tag};
use std::alloc::Global;
use std::marker::{Brand, PhantomData};

/// The scripts that a recording is to follow, for contracts alone. They are known only at run time,
/// so a call at `Brand` picks them in its proof: those of the cards that it has.
pub trait Scripted {
    ghost use Rattle.std.specs.Prelude.{List};
    ghost use Rattle.lft_record.specs.declared.cards.Script.{Script};

    ghost scripts: { List Script };
}

impl Scripted for Brand {
    ghost use Rattle.std.specs.Prelude.{[]};

    ghost scripts = { [] };
}

/// The law that an answer is what these scripts say for its reaction, at its tag, with the state word
/// before the run and what it reads.
// A law is a type, and the cards are known at run time: the parameter stands for their scripts, and a
// proof picks it. The types of `record_cards` don't name it, so the pick ends with the call.
pub struct FollowsCards<S: Scripted> {
    scripts: PhantomData<S>,
}

impl<S: Scripted> Law for FollowsCards<S> {
    ghost use Rattle.lft_record.specs.Scripts.{card_law};

    ghost holds = { card_law S.scripts };
}

/// The code of a body of this reaction: it answers what the cards say.
// No body has an allocation of its own, and its relation names the definition of its answer. A reference
// to the cards, since a copy of an `Arc` may be refused.
#[derive(Drop)]
pub struct CardCode<'a> {
    alloc: Global,
    cards: &'a Cards,
    reaction: u32,
}

impl Code for CardCode<'_> {
    ghost use Rattle.std.specs.Prelude.{◌≡◌, IfOk};
    ghost use Rattle.lft_record.specs.Scripts.{card_done};

    ghost can_run = { λ _. Unit {0} };

    ghost gives = { λ code tag state reads answer. IfOk answer (λ done. done ≡ card_done code.cards.now code.reaction tag state reads) };

    ghost repeats = { λ _. Unit {0} };

    fn run(self, tag: Tag, state: i64, reads: Reads) -> Result<Done, NoMemory> {
        card_answer(self.alloc, self.cards, self.reaction, tag, state, &reads)
    }

    fn again(&self) -> Option<Self> {
        Some(CardCode {
            alloc: self.alloc,
            cards: self.cards,
            reaction: self.reaction,
        })
    }
}

/// The bodies that the cards give each reaction of the program, or `max_runs` of them where the cards
/// give more: no recording takes more. Those of a reaction are kept by their count, whatever it is.
/// Each answers what the cards say of its reaction.
pub fn card_bodies<'a, S: Scripted>(
    alloc: Global,
    program: &Program,
    cards: &'a Cards,
    max_runs: u32,
) -> Result<Bodies<FollowsCards<S>, CardCode<'a>>, NoMemory>
    requires { cards.now ≡ S.scripts }
    ensures lists { IfOk result (λ bodies. length bodies ≡ length program.now.reactions) }
    ensures counts { IfOk result (λ bodies. (r : ℕ) → r < length program.now.reactions → slice_index bodies r ≡ min (bodies_at cards.now r) max_runs) }
{
    let mut bodies = Bodies::new(alloc, program)?;
    for reaction in 0..program.reactions() {
        let reaction = reaction as u32;
        let count = cards.bodies(reaction).min(max_runs);
        let code = CardCode {
            alloc,
            cards,
            reaction,
        };
        // Each reaction has a list, so of the two faults only this one can come.
        if bodies.put_many(reaction, code, u64::from(count)).is_err() {
            return Err(NoMemory);
        }
    }
    Ok(bodies)
}
