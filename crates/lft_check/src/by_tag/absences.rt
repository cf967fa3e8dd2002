//! Up to when the inputs of a reaction are absent, many at a time: a run costs by the blocks of inputs
//! in which something happened, and not by the inputs.

ghost use Rattle.std.specs.Prelude.{◌≡◌, ◌↔◌, ◌≤◌, ◌<◌, ◌/◌, ℕ, Option, ◌⊎◌, ◌+◌, length, Some, IfOk, IsTrue, slice_get, slice_set};
ghost use Rattle.lft_tag.specs.{declared.Tag.Tag as TheTag, Tags.UpTo};
ghost use Rattle.lft_rows.specs.declared.presence.causes.EventCause.{EventCause as TheCause};
ghost use Rattle.lft_rows.specs.inner.{Presence.Causes.{IsCause, Leads}, Marks.HasSeat, Slices.IsSlice};
ghost use Rattle.lft_ir.specs.{Parts.inputs, Sound.IsNameOf, declared.parts.{Name.Name as TheName, Reaction.Reaction as TheReaction}};
ghost use Rattle.lft_model.specs.Presence.{IsPresent};
ghost use Rattle.lft_check.specs.inner.ByTag.{Absences.{IsAbsentUntil, AreAbsentUntil, IsUnknown, IsEarlier}, Walks.HasWalked};

use crate::by_tag::sliced::Sliced;
use crate::by_tag::walk::Walk;
use lft_ir::{Name, Program};
use lft_lists::item_at;
use lft_rows::Slice;
use lft_rows::presence::{cause_tag, moved, position, sooner};
use lft_tag::{NoMemory, Shift, Tag};
use std::alloc::Global;

/// So many inputs are one block.
pub(crate) const BLOCK: usize = 64;

/// For each block of the inputs of a reaction the tag before which it is absent; where there is none,
/// it is absent for good. A reaction with few inputs has no blocks.
// A look-up for each input of each run would cost by both.
#[derive(Drop)]
pub(crate) struct Absences {
    until: Vec<Option<Tag>>,
}

impl Absences {
    /// Nothing is known of so many inputs.
    fn new(alloc: Global, inputs: usize) -> Result<Absences, NoMemory>
        ensures { IfOk result IsUnknown }
    {
        let first = Tag { time: 0, micro: 0 };
        // A look at each of few inputs costs no more than to keep their block.
        let blocks = if inputs > BLOCK {
            inputs / BLOCK + 1
        } else {
            0
        };
        // No tag is before the first one, so this says nothing yet.
        let until = vec![in alloc; Some(first); blocks]?;
        Ok(Absences { until })
    }

    /// Whether it is known that the block is absent at the tag.
    fn has(&self, block: usize, tag: Tag) -> bool
        ensures { IsTrue result → (until : Option TheTag) × (slice_get self.now.until.items block ≡ Some until) × IsEarlier tag until }
    {
        if block >= self.until.len() {
            return false;
        }
        is_earlier(tag, self.until[block])
    }

    /// The block is absent before the tag, or for good.
    fn put(&mut self, block: usize, until: Option<Tag>)
        requires { block < length self.old.until.items }
        ensures { self.new.until.items ≡ slice_set self.old.until.items block until }
    {
        self.until[block] = until;
    }
}

/// Whether the tag is before the other one, if there is one.
fn is_earlier(tag: Tag, until: Option<Tag>) -> bool
    ensures { IsTrue result ↔ IsEarlier tag until }
{
    match until {
        Some(other) => tag.is_before(other),
        None => true,
    }
}

/// What is known of each reaction's inputs at first: nothing.
pub(crate) fn absences_of(alloc: Global, program: &Program) -> Result<Vec<Absences>, NoMemory>
    ensures as_long { IfOk result (λ absences. length absences.items ≡ length program.now.reactions) }
    ensures unknown { IfOk result (λ absences. (r : ℕ) (a : _) → slice_get absences.items r ≡ Some a → IsUnknown a) }
{
    let mut absences = Vec::new(alloc);
    for number in 0..program.reactions() {
        let reaction = program.reaction(number as u32);
        let inputs = reaction.triggers.names().len() + reaction.uses.as_slice().len();
        absences.push(Absences::new(alloc, inputs)?)?;
    }
    Ok(absences)
}

impl<'a> Sliced<'a> {
    /// The first tag from this one on to which the shift leads from a cause of the name.
    fn first_led(&self, name: u32, shift: Shift, tag: Tag) -> Option<Tag>
        ensures { (h : TheTag) (c : TheCause) → UpTo tag h → IsEarlier h result → IsCause self.now.plan self.now.rows c → ¬ Leads name (shift.time, shift.steps) h c }
    {
        let causes = self.presence().causes();
        let place = position(causes, name, shift, tag, false);
        if place == causes.len() {
            return None;
        }
        let first = item_at(causes, place);
        // Behind the causes of the name stand those of the next one.
        if first.name == name {
            Some(moved(cause_tag(first), shift))
        } else {
            None
        }
    }

    /// The first tag from this one on at which the name is present.
    fn first_from(&self, name: Name, tag: Tag) -> Option<Tag>
        requires { IsNameOf self.now.plan.program name }
        ensures { IsAbsentUntil self.now.plan self.now.rows name tag result }
    {
        let program = self.program();
        match name {
            Name::Port(number) => {
                let port = program.port(number);
                self.first_led(port.origin, port.shift, tag)
            }
            Name::Action(number) => {
                self.first_led(program.ports() as u32 + number, Shift::none(), tag)
            }
        }
    }

    /// The first tag from this one on at which one of the names from one place on before another is
    /// present.
    fn first_of(&self, names: &[Name], from: usize, to: usize, tag: Tag) -> Option<Tag>
        requires names { (k : ℕ) (n : TheName) → slice_get names.now k ≡ Some n → IsNameOf self.now.plan.program n }
        requires within { to ≤ length names.now }
        ensures { AreAbsentUntil self.now names.now from to tag result }
    {
        let mut first = None;
        let mut place = from;
        while place < to {
            first = sooner(first, self.first_from(item_at(names, place), tag));
            place += 1;
        }
        first
    }

    /// Whether all inputs in the block are absent at the tag of the slice, as far as that is looked at:
    /// it is false for a reaction with few inputs, and where one of them is present.
    pub(crate) fn is_quiet(
        &self,
        walk: &mut Walk,
        slice: Slice,
        reaction: u32,
        block: usize,
    ) -> bool
        requires slice { IsSlice self.now.rows slice }
        requires walked { HasWalked self.now slice walk.old }
        requires reaction { reaction < length self.now.plan.program.reactions }
        requires block { (x : TheReaction) → slice_get self.now.plan.program.reactions reaction ≡ Some x → block ≤ length (inputs x) / 64 }
        ensures walked { HasWalked self.now slice walk.new }
        ensures marks { walk.new.marks ≡ walk.old.marks }
        ensures quiet { IsTrue result → (x : TheReaction) (n : TheName) (k : ℕ) → slice_get self.now.plan.program.reactions reaction ≡ Some x → HasSeat x n k → k / 64 ≡ block → ¬ IsPresent self.now.plan self.now.rows slice.tag n }
    {
        let number = reaction as usize;
        if walk.absences[number].has(block, slice.tag) {
            return true;
        }
        if block >= walk.absences[number].until.len() {
            return false;
        }
        let names = walk.marks.inputs(self.program(), reaction);
        let from = block * BLOCK;
        let to = end_of(from, names.len());
        let until = self.first_of(names, from, to, slice.tag);
        walk.absences[number].put(block, until);
        is_earlier(slice.tag, until)
    }
}

/// The place past the block that begins at the place, in a list of this length.
pub(crate) fn end_of(from: usize, length: usize) -> usize
    requires { from ≤ length }
    ensures within { result ≤ length }
    ensures from { from ≤ result }
    ensures whole { (result ≡ length) ⊎ (result ≡ from + 64) }
    ensures block { result ≤ from + 64 }
{
    // Asked of what is left, as the sum could pass the greatest number.
    if length - from < BLOCK {
        length
    } else {
        from + BLOCK
    }
}
