//! How much is looked at before rows are given up.

ghost use Rattle.std.specs.Prelude.{◌≡◌, length};
ghost use Rattle.lft_ir.specs.Steps.Fits.{RowFits, RowsFit};

use crate::presence::PresentNames;
use lft_ir::Program;
use lft_ir::steps::{Row, is_start, row_at};
use lft_queue::coming::{Channels, NameListeners, written_port};

/// So many inputs, listeners and ports behind delays may be looked at for each row. Most programs need a few.
/// One in whose runs hundreds are looked at is judged sooner with an index of what the rows cause.
const PER_ROW: u64 = 16;

/// So many more may be looked at, so that much may be present once or twice.
const FIRST: u64 = 1024;

/// So many events may wait at once, which is some 25 MB. A program whose delays keep more on their way is
/// judged with less memory by that index.
const MOST_EVENTS: usize = 262_144;

/// How many of all these may still be looked at. None where rows that are given up are judged by nobody:
/// then all are looked at, and memory alone bounds the events that wait.
#[derive(Clone, Copy, PartialEq, Eq, Drop)]
pub(crate) struct Effort {
    left: Option<u64>,
}

/// How many of them are looked at for a row.
fn cost_of(
    program: &Program,
    presence: &PresentNames,
    listeners: &NameListeners,
    channels: &Channels,
    row: Row,
) -> usize
    requires fits { RowFits program.now row }
    requires ports { length listeners.now.ports ≡ length program.now.ports }
    requires channels { length channels.now.delayed ≡ length program.now.ports }
{
    if is_start(&row.step) {
        return presence.cost(program, row.reaction);
    }
    match written_port(&row.step) {
        Some((port, _)) => {
            let targets = channels.delayed(port).len();
            listeners.of(port).len().saturating_add(targets)
        }
        None => 0,
    }
}

/// Whether no row of the program costs more than is added for it.
fn is_cheap(program: &Program, listeners: &NameListeners, channels: &Channels) -> bool
    requires ports { length listeners.now.ports ≡ length program.now.ports }
    requires channels { length channels.now.delayed ≡ length program.now.ports }
{
    for number in 0..program.reactions() as u32 {
        let reaction = program.reaction(number);
        let uses = reaction.uses.as_slice().len();
        let inputs = reaction.triggers.as_slice().len().saturating_add(uses);
        if inputs as u64 > PER_ROW {
            return false;
        }
    }
    for port in 0..program.ports() as u32 {
        let targets = channels.delayed(port).len();
        let cost = listeners.of(port).len().saturating_add(targets);
        if cost as u64 > PER_ROW {
            return false;
        }
    }
    true
}

impl Effort {
    /// What may be looked at before the first row, where another judge stands behind.
    pub(crate) fn shared() -> Effort {
        Effort { left: Some(FIRST) }
    }

    /// The same, where rows that are given up are judged by nobody.
    pub(crate) fn alone() -> Effort {
        Effort { left: None }
    }

    /// The same for rows of this program. Where each costs so little that none is given up, nothing is counted.
    pub(crate) fn of_program(
        self,
        program: &Program,
        listeners: &NameListeners,
        channels: &Channels,
    ) -> Effort
        requires ports { length listeners.now.ports ≡ length program.now.ports }
        requires channels { length channels.now.delayed ≡ length program.now.ports }
    {
        if is_cheap(program, listeners, channels) {
            return Effort::alone();
        }
        self
    }

    /// So many events may wait at once.
    pub(crate) fn most_events(&self) -> usize {
        match self.left {
            Some(_) => MOST_EVENTS,
            None => usize::MAX,
        }
    }

    /// Whether all may be looked at that these rows need. No verdict hangs on the answer: it is
    /// always allowed to give up.
    pub(crate) fn allows(
        &mut self,
        program: &Program,
        presence: &PresentNames,
        listeners: &NameListeners,
        channels: &Channels,
        rows: &[Row],
    ) -> bool
        requires fit { RowsFit program.now rows.now }
        requires ports { length listeners.now.ports ≡ length program.now.ports }
        requires channels { length channels.now.delayed ≡ length program.now.ports }
    {
        let Some(most) = self.left else {
            return true;
        };
        let mut left = most;
        for place in 0..rows.len() {
            let row = row_at(rows, place);
            let cost = cost_of(program, presence, listeners, channels, row);
            // What a row doesn't use is left for later ones.
            match left.saturating_add(PER_ROW).checked_sub(cost as u64) {
                Some(rest) => left = rest,
                None => return false,
            }
        }
        self.left = Some(left);
        true
    }
}
