//! Which name the next row of a run has, guessed.

ghost use Rattle.std.specs.Prelude.{◌≡◌, ◌<◌, length, slice_get};
ghost use Rattle.lft_ir.specs.Parts.{inputs};

use crate::kind::RowKind;
use lft_ir::steps::{Row, Step};
use lft_ir::{Name, Program, Reaction};

/// Among how many names the one that a row had is looked for.
const AHEAD: usize = 4;

/// Places in the inputs and in the effects of the reaction of a run. Rows mostly name both in
/// order, so the next name is looked for there first. What is found is compared with the row's
/// field: nothing that is read depends on a place.
#[derive(Clone, Copy)]
pub struct NextNames {
    input: usize,
    effect: usize,
}

impl NextNames {
    /// The places at which a run starts.
    pub(crate) fn first() -> NextNames {
        NextNames {
            input: 0,
            effect: 0,
        }
    }

    /// The name that a row of this event may have.
    #[inline(always)]
    pub(crate) fn guess(self, program: &Program, reaction: u32, kind: RowKind) -> Option<Name>
        requires { reaction < length program.now.reactions }
    {
        match kind {
            RowKind::Read => input_at(program.reaction(reaction), self.input),
            RowKind::Write => effect_at(program.reaction(reaction), self.effect),
            RowKind::Schedule => effect_at(program.reaction(reaction), self.effect),
            RowKind::Start => None,
            RowKind::Stop => None,
            RowKind::End => None,
        }
    }

    /// The places behind the name of this row.
    #[inline(always)]
    pub(crate) fn after(self, program: &Program, row: Row) -> NextNames
        requires { row.reaction < length program.now.reactions }
    {
        match row.step {
            Step::Start => NextNames::first(),
            Step::Read(name, _) => self.after_input(program.reaction(row.reaction), name),
            Step::Write(name, _) => self.after_effect(program.reaction(row.reaction), name),
            Step::Schedule(name, _, _) => self.after_effect(program.reaction(row.reaction), name),
            Step::Stop => self,
            Step::End => self,
        }
    }

    // The places behind this input, where it is among the next few.
    fn after_input(self, reaction: &Reaction, name: Name) -> NextNames {
        for ahead in 0..AHEAD {
            let place = self.input.saturating_add(ahead);
            if input_at(reaction, place) == Some(name) {
                return NextNames {
                    input: place.saturating_add(1),
                    effect: self.effect,
                };
            }
        }
        self
    }

    // The places behind this effect, where it is among the next few.
    fn after_effect(self, reaction: &Reaction, name: Name) -> NextNames {
        for ahead in 0..AHEAD {
            let place = self.effect.saturating_add(ahead);
            if effect_at(reaction, place) == Some(name) {
                return NextNames {
                    input: self.input,
                    effect: place.saturating_add(1),
                };
            }
        }
        self
    }
}

// The input of the reaction at this place, triggers before uses.
fn input_at(reaction: &Reaction, place: usize) -> Option<Name>
    ensures { result ≡ slice_get (inputs reaction.now) place }
{
    let triggers = reaction.triggers.names();
    let uses = reaction.uses.as_slice();
    if place < triggers.len() {
        Some(triggers[place])
    } else {
        uses.get(place - triggers.len()).copied()
    }
}

// The effect of the reaction at this place.
fn effect_at(reaction: &Reaction, place: usize) -> Option<Name>
    ensures { result ≡ slice_get reaction.now.effects place }
{
    reaction.effects.as_slice().get(place).copied()
}
