//! What was written last to each port.

ghost use Rattle.std.specs.Prelude.{◌≡◌, ℕ, List, Option, [], ◌∷◌, ◌++◌, ◌<◌, length, Some, None, IfOk, MatchOption, slice_get, slice_set};
ghost use Rattle.lft_tag.specs.declared.Tag.{Tag as TheTag};
ghost use Rattle.lft_ir.specs.{declared.{parts.Name.TheVariants.Port, steps.row.{Step.TheVariants.Write, Row.Row as TheRow}}, Steps.Fits.{RowFits, RowsFit}};
ghost use Rattle.lft_model.specs.Presence.{value_written};
ghost use Rattle.lft_queue.specs.{Coming.AtTag.AreAt, inner.Coming.Writes.{value_at_tag, AreWrites, AreEarlierWrites}};
ghost use Rattle.lft_queue.specs.declared.coming.writes.Written.{Written as TheWritten};

use lft_ir::steps::{Row, Step, row_at};
use lft_ir::{Name, Program, Value};
use lft_lists::item_at;
use lft_tag::{NoMemory, Tag};
use std::alloc::Global;
use std::marker::Model;

/// A write of a port.
#[derive(Clone, Copy, PartialEq, Eq, Drop)]
pub(crate) struct Written {
    tag: Tag,
    value: Value,
}

/// For each port its last write, if it is written.
#[derive(Drop)]
pub struct Writes {
    last: Vec<Option<Written>>,
}

impl Model for Writes {
    ghost use Rattle.std.specs.Prelude.{List, Option};
    ghost use Rattle.lft_queue.specs.declared.coming.writes.Written.{Written};

    ghost Value = { List (Option Written) };

    ghost view = { λ writes. writes.last.items };
}

/// The port that the step writes, with the value, if it writes one.
pub fn written_port(step: &Step) -> Option<(u32, Value)>
    ensures { MatchOption result ((p : ℕ) → value_written p step.now ≡ None) (λ x. step.now ≡ Write (Port x.0) x.1) }
{
    match step {
        Step::Write(Name::Port(port), value) => Some((*port, *value)),
        Step::Write(Name::Action(_), _) => None,
        Step::Start => None,
        Step::Read(_, _) => None,
        Step::Schedule(_, _, _) => None,
        Step::Stop => None,
        Step::End => None,
    }
}

impl Writes {
    /// No port is written.
    pub fn new(alloc: Global, program: &Program) -> Result<Writes, NoMemory>
        ensures { IfOk result (λ writes. (g : TheTag) → AreEarlierWrites program.now g writes) }
    {
        let last = vec![in alloc; None; program.ports()]?;
        Ok(Writes { last })
    }

    /// Goes on past a row.
    fn pass(&mut self, program: &Program, row: Row)
        requires fits { RowFits program.now row }
        requires ports { length self.old ≡ length program.now.ports }
        ensures ports { length self.new ≡ length program.now.ports }
        ensures passed { (rows : List TheRow) → AreWrites program.now rows row.tag self.old → AreWrites program.now (rows ++ row ∷ []) row.tag self.new }
    {
        let tag = row.tag;
        if let Some((port, value)) = written_port(&row.step) {
            self.last[port as usize] = Some(Written { tag, value });
        }
    }

    /// Goes on past the rows of a later tag.
    pub fn pass_all(&mut self, program: &Program, more: &[Row], tag: Tag)
        requires fit { RowsFit program.now more.now }
        requires at { AreAt more.now tag }
        requires writes { AreEarlierWrites program.now tag self.old }
        ensures { AreWrites program.now more.now tag self.new }
    {
        for place in 0..more.len() {
            self.pass(program, row_at(more, place));
        }
    }

    /// The value that is written last to the port, if that is at the tag.
    pub fn value_at(&self, tag: Tag, port: u32) -> Option<Value>
        requires { port < length self.now }
        ensures { (w : Option TheWritten) → slice_get self.now port ≡ Some w → result ≡ value_at_tag tag w }
    {
        match item_at(self.last.as_slice(), port as usize) {
            Some(write) => {
                // A write of an earlier tag isn't cleared, which would cost all ports
                // at each tag. Its tag tells it apart.
                if write.tag.is_same(tag) {
                    Some(write.value)
                } else {
                    None
                }
            }
            None => None,
        }
    }

    /// The same, and the write is kept no more.
    pub(crate) fn take(&mut self, tag: Tag, port: u32) -> Option<Value>
        requires { port < length self.old }
        ensures value { (w : Option TheWritten) → slice_get self.old port ≡ Some w → result ≡ value_at_tag tag w }
        ensures taken { self.new ≡ slice_set self.old port None }
    {
        let value = self.value_at(tag, port);
        self.last[port as usize] = None;
        value
    }
}
