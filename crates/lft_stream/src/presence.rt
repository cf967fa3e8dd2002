//! What may be present at the tag at hand, for reactions that have many inputs.

ghost use Rattle.std.specs.Prelude.{◌≡◌, ◌<◌, ◌++◌, ◌∷◌, [], ℕ, List, length, Some, IsSome, IsTrue, Contains, slice_get};
ghost use Rattle.lft_ir.specs.declared.parts.{Name.{Name as TheName, TheVariants.Port as PortName}, Value.Value as TheValue};
ghost use Rattle.lft_ir.specs.declared.steps.row.{Row.Row as TheRow, Step.TheVariants.Write};
ghost use Rattle.lft_ir.specs.Steps.Fits.{RowsFit};
ghost use Rattle.lft_queue.specs.{Pending.value_of, inner.Coming.Channels.AreReadChannels};
ghost use Rattle.lft_stream.specs.inner.Present.{AreAllPresent, IsKnown};

use lft_ir::steps::{Row, is_start, row_at};
use lft_ir::{Name, Program};
use lft_lists::item_at;
use lft_model::Plan;
use lft_queue::coming::{Channels, Coming, written_port};
use lft_tag::Tag;
use std::alloc::Global;

/// Where a reaction with more inputs runs, what is present is listed.
const MANY: usize = 64;

/// A run looks at what is listed alone, where its reaction has more than so many times as many inputs. A look at
/// a name in the list costs more than one at the next input.
const SHARE: usize = 8;

/// The names that may be present at the tag at hand.
#[derive(Drop)]
pub(crate) struct PresentNames {
    names: Vec<Name>,
    /// Whether all that are present are among them. That is found out only where a reaction with many inputs runs.
    is_known: bool,
    /// Whether some reaction has many inputs.
    is_asked: bool,
}

/// How many inputs the reaction lists.
fn inputs_of(program: &Program, number: u32) -> usize
    requires { number < length program.now.reactions }
{
    let reaction = program.reaction(number);
    let uses = reaction.uses.as_slice().len();
    reaction.triggers.names().len().saturating_add(uses)
}

/// The most inputs that a reaction lists which starts in the rows.
fn most_inputs(program: &Program, rows: &[Row]) -> usize
    requires { RowsFit program.now rows.now }
{
    let mut most = 0;
    for place in 0..rows.len() {
        let row = row_at(rows, place);
        if is_start(&row.step) {
            most = inputs_of(program, row.reaction).max(most);
        }
    }
    most
}

/// Adds the name. It is false where there are so many already, or memory is refused.
fn add(names: &mut Vec<Name>, name: Name, most: usize) -> bool
    ensures { IsTrue result → names.new.items ≡ names.old.items ++ name ∷ [] }
{
    if names.len() >= most {
        return false;
    }
    match names.push(name) {
        Ok(()) => true,
        Err(_) => false,
    }
}

/// Adds the ports. It is false where there are more names than so many, or memory is refused.
fn add_ports(names: &mut Vec<Name>, ports: &[u32], most: usize) -> bool
    ensures kept { IsTrue result → (n : TheName) → Contains names.old.items n → Contains names.new.items n }
    ensures added { IsTrue result → (p : ℕ) → Contains ports.now p → Contains names.new.items (PortName p) }
{
    for place in 0..ports.len() {
        if !add(names, Name::Port(item_at(ports, place)), most) {
            return false;
        }
    }
    true
}

/// Adds the ports that are reached without a delay of those that the rows write. It is false where there are
/// more names than so many, or memory is refused.
fn add_written(names: &mut Vec<Name>, channels: &Channels, own: &[Row], most: usize) -> bool
    requires { (i o : ℕ) (x : TheRow) (v : TheValue) → slice_get own.now i ≡ Some x → x.step ≡ Write (PortName o) v → o < length channels.now.at_once }
    ensures { IsTrue result → (i o p : ℕ) (x : TheRow) (v : TheValue) (list : List ℕ) → slice_get own.now i ≡ Some x → x.step ≡ Write (PortName o) v → slice_get channels.now.at_once o ≡ Some list → Contains list p → Contains names.new.items (PortName p) }
{
    for place in 0..own.len() {
        let row = row_at(own, place);
        if let Some((port, _)) = written_port(&row.step) {
            if !add_ports(names, channels.at_once(port), most) {
                return false;
            }
        }
    }
    true
}

/// Adds the names of the queue's events at the tag. It is false where there are more names than so many, or
/// memory is refused.
fn add_waiting(names: &mut Vec<Name>, coming: &Coming, tag: Tag, most: usize) -> bool
    ensures kept { IsTrue result → (n : TheName) → Contains names.old.items n → Contains names.new.items n }
    ensures added { IsTrue result → (n : TheName) → IsSome (value_of tag n coming.now.queue) → Contains names.new.items n }
{
    for name in coming.names_at(tag) {
        if !add(names, name, most) {
            return false;
        }
    }
    true
}

/// Lists the names that may be present at the tag of the rows. It is false where there are more than so many,
/// or memory is refused.
fn list_present(
    names: &mut Vec<Name>,
    plan: &Plan,
    channels: &Channels,
    coming: &Coming,
    own: &[Row],
    tag: Tag,
    most: usize,
) -> bool
    requires fit { RowsFit plan.now.program own.now }
    requires channels { AreReadChannels plan.now.program channels.now }
    ensures { IsTrue result → AreAllPresent plan.now own.now tag coming.now.queue names.new.items }
{
    // Asked for what every program keeps: a port has one origin.
    let _ = plan.program();
    names.clear();
    add_written(names, channels, own, most) && add_waiting(names, coming, tag, most)
}

impl PresentNames {
    /// Nothing is known of any tag.
    pub(crate) fn new(alloc: Global, program: &Program) -> PresentNames {
        let mut is_asked = false;
        for number in 0..program.reactions() as u32 {
            is_asked = is_asked || inputs_of(program, number) > MANY;
        }
        PresentNames {
            names: Vec::new(alloc),
            is_known: false,
            is_asked,
        }
    }

    /// Goes on to the rows of a tag. What is present is known there, if a reaction starts that has far more inputs.
    pub(crate) fn find(
        &mut self,
        plan: &Plan,
        channels: &Channels,
        coming: &Coming,
        own: &[Row],
        tag: Tag,
    )
        requires fit { RowsFit plan.now.program own.now }
        requires channels { AreReadChannels plan.now.program channels.now }
        ensures { IsKnown plan.now own.now tag coming.now.queue self.new }
    {
        self.is_known = false;
        if self.is_asked {
            let most = most_inputs(plan.program(), own);
            if most > MANY {
                self.is_known = list_present(
                    &mut self.names,
                    plan,
                    channels,
                    coming,
                    own,
                    tag,
                    most / SHARE,
                );
            }
        }
    }

    /// Whether all that is present at the tag at hand is among the names.
    pub(crate) fn is_known(&self) -> bool
        ensures { result ≡ self.now.is_known }
    {
        self.is_known
    }

    /// The names.
    pub(crate) fn names(&self) -> &[Name]
        ensures { result.now ≡ self.now.names.items }
    {
        self.names.as_slice()
    }

    /// Whether the names are known, and far fewer than the reaction's inputs.
    pub(crate) fn serves(&self, program: &Program, reaction: u32) -> bool
        requires { reaction < length program.now.reactions }
        ensures { IsTrue result → IsTrue self.now.is_known }
    {
        self.is_known && inputs_of(program, reaction) / SHARE > self.names.len()
    }

    /// How many inputs of the reaction are looked at in a run.
    pub(crate) fn cost(&self, program: &Program, reaction: u32) -> usize
        requires { reaction < length program.now.reactions }
    {
        if self.serves(program, reaction) {
            self.names.len()
        } else {
            inputs_of(program, reaction)
        }
    }
}
