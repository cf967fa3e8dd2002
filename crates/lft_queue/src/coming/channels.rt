//! The ports behind delays, and the events that writes carry to them.

ghost use Rattle.std.specs.Prelude.{◌≡◌, ◌≢◌, ◌+◌, ◌<◌, ◌++◌, ℕ, Bool, true, false, List, IfOk, IsTrue, length, filter_map, slice_get, Some};
ghost use Rattle.lft_tag.specs.{declared.Tag.Tag as TheTag, Tags.{IsRecorded, Before, UpTo, after}};
ghost use Rattle.lft_ir.specs.declared.{parts.Name.Name as TheName, steps.{externals.Event.Event as TheEvent, row.Row.Row as TheRow}};
ghost use Rattle.lft_ir.specs.Steps.Fits.{RowFits, RowsFit};
ghost use Rattle.lft_queue.specs.inner.Coming.Channels.{is_behind as lies_behind, value_at_arrival, AreChannelsTo, AreReadChannels, AreCarried, carried_by};
ghost use Rattle.lft_queue.specs.inner.Coming.{AtOnce.{IsAwaited, is_undelayed as is_reached}, Coming.{to_come, IsClear, IsNoLater}, Lanes.held};
ghost use Rattle.lft_queue.specs.inner.Coming.Writes.{AreWrites, AreEarlierWrites, AreFewer};
ghost use Rattle.lft_queue.specs.inner.Reading.{is_read};
ghost use Rattle.lft_queue.specs.{Coming.AtTag.AreAt, declared.coming.coming.Coming.Coming as TheComing};

use crate::coming::at_once::is_undelayed;
use crate::coming::coming::Coming;
use crate::coming::number_lists::NumberLists;
use crate::coming::writes::{Writes, written_port};
use crate::read_ports;
use lft_ir::steps::{Row, row_at};
use lft_ir::{Name, Program, Value};
use lft_lists::item_at;
use lft_tag::{NoMemory, Tag};
use std::alloc::Global;

/// For each port, as an origin, the ports of it that some reaction reads.
// A port that no reaction reads isn't among them: its events would wait for nobody.
#[derive(Drop)]
pub struct Channels {
    /// Those that are reached without a delay.
    at_once: NumberLists,
    /// Those behind one.
    delayed: NumberLists,
}

/// Whether the port is marked, and is reached without a delay or lies behind one, whichever is asked for.
fn is_channel(program: &Program, marked: &[bool], number: u32, at_once: bool) -> bool
    requires marked { number < length marked.now }
    requires port { number < length program.now.ports }
    ensures { result ≡ false → slice_get marked.now number ≡ Some true → is_reached program.now number ≢ at_once }
{
    item_at(marked, number as usize) && is_undelayed(program, number) == at_once
}

/// For each port, as an origin, the marked ports of it that are reached without a delay, or those that lie
/// behind one.
fn channels_to(
    alloc: Global,
    program: &Program,
    marked: &[bool],
    at_once: bool,
) -> Result<NumberLists, NoMemory>
    requires { length marked.now ≡ length program.now.ports }
    ensures { IfOk result (λ lists. (test : ℕ → Bool) → ((p : ℕ) → p < length program.now.ports → slice_get marked.now p ≡ Some (test p)) → AreChannelsTo program.now test at_once lists) }
{
    let mut channels = NumberLists::empty(alloc, program.ports())?;
    for number in 0..program.ports() as u32 {
        if is_channel(program, marked, number, at_once) {
            channels.push(program.port(number).origin, number)?;
        }
    }
    Ok(channels)
}

impl Channels {
    /// Those of each port.
    pub fn new(alloc: Global, program: &Program) -> Result<Channels, NoMemory>
        ensures { IfOk result (AreReadChannels program.now) }
    {
        let marked = read_ports(alloc, program)?;
        let at_once = channels_to(alloc, program, marked.as_slice(), true)?;
        let delayed = channels_to(alloc, program, marked.as_slice(), false)?;
        Ok(Channels { at_once, delayed })
    }

    /// The ports that are reached without a delay of the port.
    pub fn at_once(&self, port: u32) -> &[u32]
        requires { port < length self.now.at_once }
        ensures { slice_get self.now.at_once port ≡ Some result.now }
    {
        self.at_once.of(port)
    }

    /// The ports that lie behind a delay of the port.
    pub fn delayed(&self, port: u32) -> &[u32]
        requires { port < length self.now.delayed }
        ensures { slice_get self.now.delayed port ≡ Some result.now }
    {
        self.delayed.of(port)
    }
}

/// Whether the port lies behind a delay of the origin.
fn is_behind(program: &Program, origin: u32, number: u32) -> bool
    ensures { result ≡ lies_behind program.now origin number }
{
    if number as usize >= program.ports() {
        return false;
    }
    program.port(number).origin == origin && !is_undelayed(program, number)
}

/// Puts an event in for each of the ports that lies behind a delay of the origin, which is written at the
/// tag, where it arrives up to the stop. It is false where memory is refused.
// This is what costs most: a write that arrives at thousands of inputs at different tags is thousands of events.
fn carry(
    coming: &mut Coming,
    program: &Program,
    targets: &[u32],
    origin: u32,
    tag: Tag,
    value: Value,
    last: Tag,
) -> bool
    requires { IsRecorded tag }
    ensures next { coming.new.next ≡ coming.old.next }
    ensures no_later { IsNoLater coming.old.clash coming.new.clash }
    ensures put { IsTrue result → (events : List TheEvent) (h : TheTag) (n : TheName) → UpTo h last → IsClear coming.new.clash h → to_come events coming.new h n ≡ to_come events coming.old h n ++ filter_map (value_at_arrival program.now origin tag value h n) targets.now }
{
    for place in 0..targets.len() {
        let target = item_at(targets, place);
        // The list has no others. Asked here, it needs no clause that says so.
        if is_behind(program, origin, target) {
            let arrives = tag.plus(program.port(target).shift);
            if !coming.put_until(last, arrives, Name::Port(target), value) {
                return false;
            }
        }
    }
    true
}

/// Where the row writes a port, puts in what the port's last write carries to those in its list, up
/// to the stop. A write is kept no more then, so a second row that writes the port finds none. It is false
/// where memory is refused.
fn carry_row(
    coming: &mut Coming,
    writes: &mut Writes,
    channels: &Channels,
    program: &Program,
    row: Row,
    last: Tag,
) -> bool
    requires fits { RowFits program.now row }
    requires ports { length writes.old ≡ length program.now.ports }
    requires channels { AreReadChannels program.now channels.now }
    ensures next { coming.new.next ≡ coming.old.next }
    ensures no_later { IsNoLater coming.old.clash coming.new.clash }
    ensures fewer { AreFewer writes.old writes.new }
    ensures carried { IsTrue result → (u : List TheRow) (count : ℕ) (start : TheComing) (h : TheTag) → UpTo h last → IsClear coming.new.clash h → slice_get u count ≡ Some row → AreCarried program.now (is_read program.now) u row.tag h count start coming.old writes.old → AreCarried program.now (is_read program.now) u row.tag h (count + 1) start coming.new writes.new }
{
    let Some((port, _)) = written_port(&row.step) else {
        return true;
    };
    let Some(value) = writes.take(row.tag, port) else {
        return true;
    };
    carry(
        coming,
        program,
        channels.delayed(port),
        port,
        row.tag,
        value,
        last,
    )
}

/// Puts in what the last writes of the rows, which are all at the tag, carry to the ports behind delays that
/// some reaction reads, up to the stop. It is false where memory is refused.
pub(crate) fn carry_all(
    coming: &mut Coming,
    writes: &mut Writes,
    channels: &Channels,
    program: &Program,
    rows: &[Row],
    tag: Tag,
    last: Tag,
) -> bool
    requires fit { RowsFit program.now rows.now }
    requires at { AreAt rows.now tag }
    requires channels { AreReadChannels program.now channels.now }
    requires writes { AreWrites program.now rows.now tag writes.old }
    ensures next { coming.new.next ≡ coming.old.next }
    ensures no_later { IsNoLater coming.old.clash coming.new.clash }
    ensures earlier { IsTrue result → AreEarlierWrites program.now (after tag 0) writes.new }
    ensures carried { IsTrue result → (events : List TheEvent) (h : TheTag) (n : TheName) → IsAwaited program.now n → Before tag h → UpTo h last → IsClear coming.new.clash h → to_come events coming.new h n ≡ to_come events coming.old h n ++ held (carried_by program.now rows.now tag n) h }
{
    for place in 0..rows.len() {
        if !carry_row(coming, writes, channels, program, row_at(rows, place), last) {
            return false;
        }
    }
    true
}
