//! The short list of what precedes a reaction directly.

ghost use Rattle.std.specs.Prelude.{◌≡◌, ◌↔◌, ℕ, ◌<◌, length, slice_get, Some, IfOk, OnOk, Contains, AllPairs};
ghost use Rattle.lft_ir.specs.{Sound.{IsNameOf, IsSound}, declared.parts.{Trigger.TheVariants.On, Name.Name}};
ghost use Rattle.lft_graph.specs.{Before.{Writes, IsLastWriter, IsBefore}, inner.Walks.{KnowsWriters, IsUndelayed, IsFeeder, NotesBelow, Covers, HasLists}};

use crate::members::Members;
use crate::writers::last_writers;
use lft_ir::{Name, Program, Trigger};
use lft_lists::item_at;
use lft_tag::NoMemory;
use std::alloc::Global;

// the last declared writer of the origin of a port that is reached without a delay
fn feeder(program: &Program, writers: &[Option<u32>], name: Name) -> Option<u32>
    requires named { IsNameOf program.now name }
    requires writers { KnowsWriters program.now (length program.now.reactions) writers.now }
    ensures found { (a : ℕ) → result ≡ Some a → IsFeeder program.now name a }
    ensures covers { (a o : ℕ) → Writes program.now a o → IsUndelayed program.now name o → (b : ℕ) × IsLastWriter program.now b o × (result ≡ Some b) }
{
    match name {
        Name::Port(number) => {
            let port = program.port(number);
            if port.shift.time == 0 && port.shift.steps == 0 {
                writers[port.origin as usize]
            } else {
                None
            }
        }
        Name::Action(_) => None,
    }
}

// adds the feeders of the uses
fn note_uses(
    program: &Program,
    writers: &[Option<u32>],
    uses: &[Name],
    found: &mut Vec<u32>,
) -> Result<(), NoMemory>
    requires named { (n : Name) → Contains uses.now n → IsNameOf program.now n }
    requires writers { KnowsWriters program.now (length program.now.reactions) writers.now }
    ensures { OnOk result (NotesBelow program.now (λ i n. slice_get uses.now i ≡ Some n) (length uses.now) found.old.items found.new.items) }
{
    'uses: for place in 0..uses.len() {
        if let Some(writer) = feeder(program, writers, item_at(uses, place)) {
            found.push(writer)?;
        }
    }
    Ok(())
}

// adds the feeders of the ports among the triggers
fn note_triggers(
    program: &Program,
    writers: &[Option<u32>],
    triggers: &[Trigger],
    found: &mut Vec<u32>,
) -> Result<(), NoMemory>
    requires named { (n : Name) → Contains triggers.now (On n) → IsNameOf program.now n }
    requires writers { KnowsWriters program.now (length program.now.reactions) writers.now }
    ensures { OnOk result (NotesBelow program.now (λ i n. slice_get triggers.now i ≡ Some (On n)) (length triggers.now) found.old.items found.new.items) }
{
    'triggers: for place in 0..triggers.len() {
        if let Trigger::On(name) = item_at(triggers, place) {
            if let Some(writer) = feeder(program, writers, name) {
                found.push(writer)?;
            }
        }
    }
    Ok(())
}

// the same numbers, ascending, each once
fn ascending(found: Vec<u32>) -> Vec<u32>
    ensures ascends { AllPairs (λ a b. a < b) result.items }
    ensures members { (a : ℕ) → Contains result.items a ↔ Contains found.items a }
{
    let mut all = found;
    all.sort_unstable();
    all.dedup();
    all
}

// the short list of a reaction
fn before_of(
    alloc: Global,
    program: &Program,
    writers: &[Option<u32>],
    number: u32,
) -> Result<Members, NoMemory>
    requires below { number < length program.now.reactions }
    requires writers { KnowsWriters program.now (length program.now.reactions) writers.now }
    ensures before { IfOk result (λ list. IsBefore program.now number list) }
    ensures covers { IfOk result (λ list. Covers program.now number list) }
{
    let reaction = program.reaction(number);
    let mut found = Vec::new(alloc);
    if reaction.place > 0 {
        found.push(number - 1)?;
    }
    note_triggers(program, writers, reaction.triggers.as_slice(), &mut found)?;
    note_uses(program, writers, reaction.uses.as_slice(), &mut found)?;
    Ok(Members::from_vec(ascending(found)))
}

/// The short lists of all reactions.
pub(crate) fn all_before(alloc: Global, program: &Program) -> Result<Vec<Members>, NoMemory>
    ensures lists { IfOk result (λ lists. HasLists program.now (length program.now.reactions) lists.items) }
    ensures sound { OnOk result (IsSound program.now) }
{
    let writers = last_writers(alloc, program)?;
    let mut lists = Vec::new(alloc);
    'reactions: for number in 0..program.reactions() {
        lists.push(before_of(alloc, program, &writers, number as u32)?)?;
    }
    Ok(lists)
}
