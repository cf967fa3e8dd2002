//! Ports behind delays that no reaction reads.

ghost use Rattle.std.specs.Prelude.{◌≡◌, ◌≢◌, ◌⊎◌, ◌<◌, ◌∷◌, ◌++◌, [], ℕ, true, false, List, Option, length, Some, None, IfOk, IfSome, slice_get};
ghost use Rattle.lft_tag.specs.{declared.{Tag.Tag as TheTag, Shift.Shift as TheShift}, Shifts.shifted, Tags.{Before, UpTo, IsRecorded}};
ghost use Rattle.lft_ir.specs.declared.parts.{Name.TheVariants.Port as PortName, Value.Value as TheValue};
ghost use Rattle.lft_ir.specs.declared.steps.row.{Row.Row as TheRow, Step.TheVariants.Write};
ghost use Rattle.lft_ir.specs.Steps.Fits.{RowFits, RowsFit};
ghost use Rattle.lft_queue.specs.Coming.AtTag.{AreBefore, AreAt};
ghost use Rattle.lft_queue.specs.inner.Coming.{Coming.IsClear, Unread.{GoesAsFar, AreSoonest, IsWrittenAt, AreUnread, MeetsPastLast, AreFree}};

use crate::coming::coming::earlier_of;
use crate::coming::writes::written_port;
use crate::read_ports;
use lft_ir::steps::{Row, row_at};
use lft_ir::{Port, Program};
use lft_lists::item_at;
use lft_tag::{NoMemory, Shift, Tag};
use std::alloc::Global;
use std::marker::Model;

/// What is kept of ports behind delays that no reaction reads. Nobody waits for their events. Two of them
/// meet where the origin is written at two tags of one time.
// So the tag of its last write is enough: tags rise. Events of these ports would be one for each write.
#[derive(Drop)]
pub struct UnreadPorts {
    /// For each port, as an origin, the way to such a port where a write of it arrives soonest, if it does at
    /// a later time.
    soonest: Vec<Option<Shift>>,
    /// Whether it does of some port. Else nothing meets, and nothing more is kept.
    any: bool,
    /// For each port the tag at which it is written last, if it is.
    written: Vec<Option<Tag>>,
}

impl Model for UnreadPorts {
    ghost use Rattle.lft_queue.specs.inner.Coming.Unread.{UnreadParts};

    ghost Value = { UnreadParts };

    ghost view = { λ unread. record { soonest = unread.soonest.items; any = unread.any; written = unread.written.items } };
}

/// The nearer of a way and another, if there is one.
fn nearer_of(other: Option<Shift>, way: Shift) -> Shift
    ensures way { GoesAsFar result way }
    ensures other { IfSome other (λ s. GoesAsFar result s) }
{
    match other {
        Some(least) => {
            if least.time < way.time || (least.time == way.time && least.steps < way.steps) {
                least
            } else {
                way
            }
        }
        None => way,
    }
}

/// Whether the port isn't read, and a write arrives there later than at once.
fn is_unread(is_read: bool, port: &Port) -> bool
    ensures { result ≡ false → (is_read ≡ true) ⊎ ¬ (0 < port.now.shift.time) }
{
    !is_read && port.shift.time > 0
}

/// For each port, as an origin, the way to a port that no reaction reads where a write of it arrives
/// soonest, if it does at a later time.
fn soonest_of(alloc: Global, program: &Program) -> Result<Vec<Option<Shift>>, NoMemory>
    ensures { IfOk result (λ soonest. AreSoonest program.now (length program.now.ports) soonest.items) }
{
    let read = read_ports(alloc, program)?;
    let mut soonest = vec![in alloc; None; program.ports()]?;
    'ports: for number in 0..program.ports() {
        let port = program.port(number as u32);
        let origin = port.origin as usize;
        let least = nearer_of(soonest[origin], port.shift);
        if is_unread(item_at(read.as_slice(), number), port) {
            // The soonest will do: two writes of one time meet on each way that
            // takes time, and there first.
            soonest[origin] = Some(least);
        }
    }
    Ok(soonest)
}

/// Whether there is a way.
fn is_any(soonest: &[Option<Shift>]) -> bool
    ensures { result ≡ false → (o : ℕ) (way : Option TheShift) → slice_get soonest.now o ≡ Some way → way ≡ None }
{
    for place in 0..soonest.len() {
        if item_at(soonest, place).is_some() {
            return true;
        }
    }
    false
}

/// Where a write of an origin at the tag and one at an earlier tag arrive together by a way that takes time,
/// if they do.
fn meet_at(way: Shift, earlier: Tag, tag: Tag) -> Option<Tag>
    requires { IsRecorded tag }
    ensures { (h : TheTag) → IsClear result h → earlier.time ≡ tag.time → earlier.micro ≢ tag.micro → Before h (shifted tag (way.time, way.steps)) }
{
    // A way that takes time forgets the microstep of the write.
    if earlier.time == tag.time && earlier.micro != tag.micro {
        Some(tag.plus(way))
    } else {
        None
    }
}

impl UnreadPorts {
    /// No port is written.
    pub fn new(alloc: Global, program: &Program) -> Result<UnreadPorts, NoMemory>
        ensures { IfOk result (AreUnread program.now []) }
    {
        let soonest = soonest_of(alloc, program)?;
        let any = is_any(soonest.as_slice());
        let written = vec![in alloc; None; program.ports()]?;
        Ok(UnreadPorts {
            soonest,
            any,
            written,
        })
    }

    /// Where a write of the port at the tag meets its last one at an unread port, if it does.
    fn meets(&self, port: u32, tag: Tag) -> Option<Tag>
        requires recorded { IsRecorded tag }
        requires soonest { port < length self.now.soonest }
        requires written { port < length self.now.written }
        ensures { (h : TheTag) (s : TheShift) (k : TheTag) → IsClear result h → slice_get self.now.soonest port ≡ Some (Some s) → slice_get self.now.written port ≡ Some (Some k) → k.time ≡ tag.time → k.micro ≢ tag.micro → Before h (shifted tag (s.time, s.steps)) }
    {
        let soonest = item_at(self.soonest.as_slice(), port as usize);
        let written = item_at(self.written.as_slice(), port as usize);
        match (soonest, written) {
            (Some(soonest), Some(earlier)) => meet_at(soonest, earlier, tag),
            _ => None,
        }
    }

    /// Goes on past a row. Gives the tag at which what it writes meets an earlier write at an unread port, if
    /// it does.
    fn pass(&mut self, program: &Program, row: Row) -> Option<Tag>
        requires fits { RowFits program.now row }
        requires any { self.old.any ≡ true }
        requires soonest { length self.old.soonest ≡ length program.now.ports }
        requires written { length self.old.written ≡ length program.now.ports }
        ensures any { self.new.any ≡ true }
        ensures soonest { self.new.soonest ≡ self.old.soonest }
        ensures written { length self.new.written ≡ length self.old.written }
        ensures unread { (t : List TheRow) → ((i : ℕ) (x : TheRow) → slice_get t i ≡ Some x → UpTo x.tag row.tag) → AreUnread program.now t self.old → AreUnread program.now (t ++ row ∷ []) self.new }
        ensures free { (t : List TheRow) (o : ℕ) (v : TheValue) (h : TheTag) → IsClear result h → ((i : ℕ) (x : TheRow) → slice_get t i ≡ Some x → UpTo x.tag row.tag) → AreUnread program.now t self.old → row.step ≡ Write (PortName o) v → MeetsPastLast program.now t row.tag h o ⊎ IsWrittenAt t o row.tag }
    {
        let Some((port, _)) = written_port(&row.step) else {
            return None;
        };
        let met = self.meets(port, row.tag);
        self.written[port as usize] = Some(row.tag);
        met
    }

    /// Goes on past the rows of a later tag. Gives the least tag at which what they write meets an earlier
    /// write at an unread port, if it does.
    pub fn pass_all(&mut self, program: &Program, rows: &[Row], tag: Tag) -> Option<Tag>
        requires fit { RowsFit program.now rows.now }
        requires at { AreAt rows.now tag }
        requires soonest { length self.old.soonest ≡ length program.now.ports }
        requires written { length self.old.written ≡ length program.now.ports }
        ensures unread { (t : List TheRow) → AreBefore t tag → AreUnread program.now t self.old → AreUnread program.now (t ++ rows.now) self.new }
        ensures free { (t : List TheRow) (h : TheTag) → IsClear result h → AreBefore t tag → AreUnread program.now t self.old → AreFree program.now t rows.now tag h }
    {
        let mut clash = None;
        if !self.any {
            return clash;
        }
        for place in 0..rows.len() {
            let met = self.pass(program, row_at(rows, place));
            clash = earlier_of(clash, met);
        }
        clash
    }
}
