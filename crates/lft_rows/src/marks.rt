//! Where each reaction read each of its inputs last.

ghost use Rattle.std.specs.Prelude.{◌≡◌, ℕ, ◌+◌, ◌<◌, ◌≤◌, length, Some, IfOk, OnOk, MatchOption, slice_get};
ghost use Rattle.lft_ir.specs.{Parts.{Parts, inputs as the_inputs}, declared.parts.Reaction.Reaction as TheReaction, Steps.Fits.RowsFit};
ghost use Rattle.lft_rows.specs.inner.Marks.{width, HasSeat, AreNoneFrom, IsLaid, Mark, IsMarkedBy, AreMarks, AreBefore};

use crate::seats::Inputs;
use lft_ir::steps::{Row, Step, row_at};
use lft_ir::{Name, Names, Program};
use lft_tag::NoMemory;
use std::alloc::Global;

/// For each input of each reaction the place past the row that read it last. Those of a reaction
/// stand together, in the order of its inputs.
#[derive(Drop)]
pub struct Marks {
    /// The inputs of each reaction. A timer is none, so that a reaction with many timers is asked
    /// for its few inputs alone.
    inputs: Vec<Inputs>,
    firsts: Vec<usize>,
    places: Vec<u32>,
    /// Where the next input is looked for first: a run mostly reads its inputs in order.
    guess: usize,
}

/// Adds marks that tell of no row.
fn add_marks(places: &mut Vec<u32>, count: usize) -> Result<(), NoMemory>
    requires { AreNoneFrom 0 places.old.items }
    ensures none { OnOk result (AreNoneFrom 0 places.new.items) }
    ensures count { OnOk result (length places.new.items ≡ length places.old.items + count) }
{
    for number in 0..count {
        places.push(0)?;
    }
    Ok(())
}

impl Marks {
    /// No row has read.
    pub fn new(alloc: Global, program: &Program) -> Result<Marks, NoMemory>
        ensures { IfOk result (AreBefore program.now 0) }
    {
        let mut inputs = Vec::new(alloc);
        let mut firsts = Vec::new(alloc);
        let mut places = Vec::new(alloc);
        for number in 0..program.reactions() {
            let names = program.reaction(number as u32).inputs(alloc)?;
            firsts.push(places.len())?;
            add_marks(&mut places, names.len())?;
            inputs.push(Inputs::new(alloc, Names::from_vec(names))?)?;
        }
        Ok(Marks {
            inputs,
            firsts,
            places,
            guess: 0,
        })
    }

    /// No row has read, once more.
    pub fn clear(&mut self)
        ensures { (program : Parts) → IsLaid program self.old → AreBefore program 0 self.new }
    {
        for seat in 0..self.places.len() {
            self.places[seat] = 0;
        }
    }

    /// The mark of the input that stands at the seat of the reaction.
    pub fn of(&self, program: &Program, reaction: u32, seat: usize) -> u32
        requires laid { IsLaid program.now self.now }
        requires seat { (x : TheReaction) × (slice_get program.now.reactions reaction ≡ Some x) × (seat < width x) }
        ensures { Mark self.now reaction seat result }
    {
        self.places[self.firsts[reaction as usize] + seat]
    }

    /// The inputs of the reaction, with their seats.
    fn known(&self, program: &Program, reaction: u32) -> &Inputs
        requires laid { IsLaid program.now self.now }
        requires reaction { reaction < length program.now.reactions }
        ensures { (x : TheReaction) × (slice_get program.now.reactions reaction ≡ Some x) × (result.now ≡ the_inputs x) }
    {
        &self.inputs[reaction as usize]
    }

    /// Where the seats of the reaction end at most.
    fn end_of(&self, program: &Program, reaction: u32) -> usize
        requires laid { IsLaid program.now self.now }
        requires reaction { reaction < length program.now.reactions }
        ensures { (x : TheReaction) (f : ℕ) → slice_get program.now.reactions reaction ≡ Some x → slice_get self.now.firsts.items reaction ≡ Some f → f + width x ≤ result }
    {
        let next = reaction as usize + 1;
        if next < self.firsts.len() {
            return self.firsts[next];
        }
        self.places.len()
    }

    /// The inputs of the reaction, in order.
    pub fn inputs(&self, program: &Program, reaction: u32) -> &[Name]
        requires laid { IsLaid program.now self.now }
        requires reaction { reaction < length program.now.reactions }
        ensures { (x : TheReaction) × (slice_get program.now.reactions reaction ≡ Some x) × (result.now ≡ the_inputs x) }
    {
        // The seats are close together. The inputs aren't, and many reactions have none.
        if self.firsts[reaction as usize] >= self.end_of(program, reaction) {
            return &[];
        }
        self.known(program, reaction).as_slice()
    }

    /// Where the name stands among the reaction's inputs, if it is one.
    pub fn seat(&self, program: &Program, reaction: u32, name: Name) -> Option<usize>
        requires laid { IsLaid program.now self.now }
        requires reaction { reaction < length program.now.reactions }
        ensures { (x : TheReaction) × (slice_get program.now.reactions reaction ≡ Some x) × MatchOption result ((k : ℕ) → ¬ HasSeat x name k) (HasSeat x name) }
    {
        self.known(program, reaction).seat(name, self.guess)
    }

    /// Sets the mark of the input that stands at the seat of the reaction.
    fn set(&mut self, program: &Program, reaction: u32, seat: usize, mark: u32)
        requires laid { IsLaid program.now self.old }
        requires seat { (x : TheReaction) × (slice_get program.now.reactions reaction ≡ Some x) × (seat < width x) }
        ensures { IsMarkedBy self.old reaction seat mark self.new }
    {
        let at = self.firsts[reaction as usize] + seat;
        self.places[at] = mark;
        // Any number may be guessed.
        self.guess = seat.wrapping_add(1);
    }

    /// Goes on past the row at the place.
    pub fn pass(&mut self, program: &Program, rows: &[Row], place: usize)
        requires fit { RowsFit program.now rows.now }
        requires place { place < length rows.now }
        requires marks { (low : ℕ) × (low ≤ place) × AreMarks program.now rows.now low place self.old }
        ensures { (low : ℕ) → low ≤ place → AreMarks program.now rows.now low place self.old → AreMarks program.now rows.now low (place + 1) self.new }
    {
        // Asked for what every program keeps: no input stands twice in its reaction.
        let _ = program.reactions();
        let row = row_at(rows, place);
        if let Step::Read(name, _) = row.step {
            if let Some(seat) = self.seat(program, row.reaction, name) {
                // There are 4,000,000 rows at most, so the place fits.
                self.set(program, row.reaction, seat, place as u32 + 1);
            }
        }
    }

    /// Goes on past the rows from one place up to, without, another.
    pub fn pass_all(&mut self, program: &Program, rows: &[Row], first: usize, end: usize)
        requires fit { RowsFit program.now rows.now }
        requires places { (first ≤ end) × (end ≤ length rows.now) }
        requires before { AreBefore program.now first self.old }
        ensures { AreMarks program.now rows.now first end self.new }
    {
        // Older marks tell of rows before the first of these, so nothing is wiped.
        for place in first..end {
            self.pass(program, rows, place);
        }
    }
}
