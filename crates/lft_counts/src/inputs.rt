//! Which inputs of a reaction were present together.

ghost use Rattle.std.specs.Prelude.{◌≡◌, ◌<◌, length, IfOk, IfSome};

use lft_ir::steps::{Row, Step};
use lft_ir::{Name, Program};
use lft_lists::item_at;
use lft_tag::NoMemory;
use std::alloc::Global;

/// Of a reaction with more inputs nothing is kept.
// One word holds what an input was present with. For more, the pairs grow as the square.
const MOST_INPUTS: usize = 64;

/// An input of a reaction, and those that some run of it read up to this one, itself too: a bit for each,
/// by its place among the inputs.
#[derive(Clone, Copy, Drop)]
pub struct ReadInput {
    pub name: Name,
    pub with: u64,
}

/// The inputs of a reaction: none where it has more than 64.
#[derive(Drop)]
pub struct ReadInputs {
    pub all: Vec<ReadInput>,
    /// The inputs that its last run read.
    read: u64,
    /// The place behind the last of them. Most runs read in order.
    next: usize,
}

impl ReadInputs {
    /// Before the first row.
    fn new(alloc: Global, names: &[Name]) -> Result<ReadInputs, NoMemory> {
        let mut all = Vec::new(alloc);
        if names.len() <= MOST_INPUTS {
            for place in 0..names.len() {
                all.push(ReadInput {
                    name: item_at(names, place),
                    with: 0,
                })?;
            }
        }
        Ok(ReadInputs {
            all,
            read: 0,
            next: 0,
        })
    }

    /// The place of an input.
    fn place_of(&self, name: Name) -> Option<usize>
        ensures { IfSome result (λ place. place < length self.now.all.items) }
    {
        if self.next < self.all.len() && item_at(self.all.as_slice(), self.next).name == name {
            return Some(self.next);
        }
        for place in 0..self.all.len() {
            if item_at(self.all.as_slice(), place).name == name {
                return Some(place);
            }
        }
        None
    }

    /// The run at hand reads an input.
    fn read(&mut self, name: Name) {
        if let Some(place) = self.place_of(name) {
            // The place is below 64. The remainder says so to the shift.
            self.read |= 1u64 << (place % 64);
            let input = item_at(self.all.as_slice(), place);
            self.all[place] = ReadInput {
                name,
                with: input.with | self.read,
            };
            self.next = place + 1;
        }
    }

    /// Goes on past a row of the reaction.
    fn add(&mut self, step: Step) {
        match step {
            Step::Start => {
                self.read = 0;
                self.next = 0;
            }
            Step::Read(name, _) => self.read(name),
            _ => {}
        }
    }
}

/// The inputs of all reactions, before the first row.
pub(crate) fn all_inputs(alloc: Global, program: &Program) -> Result<Vec<ReadInputs>, NoMemory>
    ensures { IfOk result (λ all. length all.items ≡ length program.now.reactions) }
{
    let mut all = Vec::with_capacity(alloc, program.reactions())?;
    for number in 0..program.reactions() {
        let names = program.reaction(number as u32).inputs(alloc)?;
        all.push(ReadInputs::new(alloc, names.as_slice())?)?;
    }
    Ok(all)
}

/// Goes on past a row.
pub(crate) fn add_row(inputs: &mut Vec<ReadInputs>, row: Row)
    requires { row.reaction < length inputs.old.items }
    ensures { length inputs.new.items ≡ length inputs.old.items }
{
    inputs[row.reaction as usize].add(row.step);
}
