//! What the runs at the tag at hand may read, and what they read.

ghost use Rattle.std.specs.Prelude.{◌≡◌, ℕ, ◌<◌, ◌++◌, List, length, Some, IsSome, IsTrue, Contains, slice_get};
ghost use Rattle.lft_ir.specs.{declared.{steps.row.Row.Row as TheRow, parts.{Name.Name as TheName, Reaction.Reaction as TheReaction}}, Steps.Fits.RowsFit};
ghost use Rattle.lft_ir.specs.{Parts.inputs, Sound.IsNameOf};
ghost use Rattle.lft_model.specs.{Presence.{Shows, Inputs, Triggered}, Runs.{reads_at, read_of, steps_of}};
ghost use Rattle.lft_rows.specs.inner.{Marks.{AreMarks, IsLaid}, Slices.IsSlice};
ghost use Rattle.lft_queue.specs.inner.Coming.AtOnce.{IsAwaited};
ghost use Rattle.lft_stream.specs.inner.Present.{AreShown, IsKnown, AreReadsShown};

use crate::presence::PresentNames;
use lft_ir::steps::{Row, Step, row_at};
use lft_ir::{Name, Value};
use lft_lists::item_at;
use lft_model::Plan;
use lft_queue::coming::{Coming, Writes, is_undelayed};
use lft_rows::{Marks, Slice};
use lft_tag::Tag;

/// What may be read of the name, which some reaction reads, at the tag, of rows that are at the tag behind
/// rows that are at earlier ones: its value, or that it is absent.
fn shown(writes: &Writes, coming: &Coming, plan: &Plan, tag: Tag, name: Name) -> Option<Value>
    requires name { IsNameOf plan.now.program name × IsAwaited plan.now.program name }
    requires long { length writes.now ≡ length plan.now.program.ports }
    ensures { (d u : List TheRow) → AreShown plan.now d u tag writes.now coming.now.queue → Shows plan.now (d ++ u) tag name result }
{
    let program = plan.program();
    match name {
        Name::Port(number) => {
            if is_undelayed(program, number) {
                // Without a delay the event is the write itself, and in no queue.
                writes.value_at(tag, program.port(number).origin)
            } else {
                coming.value_at(tag, name)
            }
        }
        Name::Action(_) => coming.value_at(tag, name),
    }
}

/// Whether one of the names among the reaction's triggers is present at the tag, of such rows.
fn is_woken_by_any(writes: &Writes, coming: &Coming, plan: &Plan, tag: Tag, reaction: u32) -> bool
    requires reaction { reaction < length plan.now.program.reactions }
    requires long { length writes.now ≡ length plan.now.program.ports }
    ensures { IsTrue result → (d u : List TheRow) → AreShown plan.now d u tag writes.now coming.now.queue → Triggered plan.now (d ++ u) tag reaction }
{
    let names = plan.program().reaction(reaction).triggers.names();
    for place in 0..names.len() {
        if shown(writes, coming, plan, tag, item_at(names, place)).is_some() {
            return true;
        }
    }
    false
}

/// The same, where the reaction has many triggers: of the names that may be present alone.
fn is_woken_by_present(
    writes: &Writes,
    coming: &Coming,
    marks: &Marks,
    names: &[Name],
    plan: &Plan,
    tag: Tag,
    reaction: u32,
) -> bool
    requires reaction { reaction < length plan.now.program.reactions }
    requires laid { IsLaid plan.now.program marks.now }
    requires long { length writes.now ≡ length plan.now.program.ports }
    ensures { IsTrue result → (d u : List TheRow) → AreShown plan.now d u tag writes.now coming.now.queue → Triggered plan.now (d ++ u) tag reaction }
{
    let program = plan.program();
    let triggers = program.reaction(reaction).triggers.names().len();
    for place in 0..names.len() {
        let name = item_at(names, place);
        // The triggers come first among the inputs.
        if let Some(seat) = marks.seat(program, reaction, name) {
            if seat < triggers && shown(writes, coming, plan, tag, name).is_some() {
                return true;
            }
        }
    }
    false
}

/// Whether a port or an action triggers the reaction at the tag, of such rows.
pub(crate) fn is_woken(
    writes: &Writes,
    coming: &Coming,
    marks: &Marks,
    presence: &PresentNames,
    plan: &Plan,
    tag: Tag,
    reaction: u32,
) -> bool
    requires reaction { reaction < length plan.now.program.reactions }
    requires laid { IsLaid plan.now.program marks.now }
    requires long { length writes.now ≡ length plan.now.program.ports }
    ensures { IsTrue result → (d u : List TheRow) → AreShown plan.now d u tag writes.now coming.now.queue → Triggered plan.now (d ++ u) tag reaction }
{
    if presence.serves(plan.program(), reaction) {
        is_woken_by_present(writes, coming, marks, presence.names(), plan, tag, reaction)
    } else {
        is_woken_by_any(writes, coming, plan, tag, reaction)
    }
}

/// Whether the two are one value, or both none.
fn are_same(one: Option<Value>, other: Option<Value>) -> bool
    ensures { IsTrue result → one ≡ other }
{
    one == other
}

/// Whether the run of the reaction read of each input what was present, or nothing where nothing was.
fn has_read_each(
    writes: &Writes,
    coming: &Coming,
    marks: &Marks,
    plan: &Plan,
    rows: &[Row],
    slice: Slice,
    reaction: u32,
) -> bool
    requires fit { RowsFit plan.now.program rows.now }
    requires slice { IsSlice rows.now slice }
    requires reaction { reaction < length plan.now.program.reactions }
    requires marks { AreMarks plan.now.program rows.now slice.first slice.end marks.now }
    requires long { length writes.now ≡ length plan.now.program.ports }
    ensures { IsTrue result → (d u : List TheRow) → AreShown plan.now d u slice.tag writes.now coming.now.queue → Inputs plan.now (d ++ u) slice.tag reaction (reads_at plan.now rows.now slice.tag reaction) }
{
    let program = plan.program();
    let names = marks.inputs(program, reaction);
    for seat in 0..names.len() {
        let read = marks.read_at(program, rows, slice, reaction, seat);
        let present = shown(writes, coming, plan, slice.tag, item_at(names, seat));
        if !are_same(read, present) {
            return false;
        }
    }
    true
}

/// Whether the run of the reaction read something of each of the names that is an input of it.
fn has_read_present(
    marks: &Marks,
    names: &[Name],
    plan: &Plan,
    rows: &[Row],
    slice: Slice,
    reaction: u32,
) -> bool
    requires fit { RowsFit plan.now.program rows.now }
    requires slice { IsSlice rows.now slice }
    requires reaction { reaction < length plan.now.program.reactions }
    requires marks { AreMarks plan.now.program rows.now slice.first slice.end marks.now }
    ensures { IsTrue result → (x : TheReaction) (n : TheName) → slice_get plan.now.program.reactions reaction ≡ Some x → Contains (inputs x) n → Contains names.now n → IsSome (read_of (steps_of rows.now slice.tag reaction) n) }
{
    let program = plan.program();
    for place in 0..names.len() {
        if let Some(seat) = marks.seat(program, reaction, item_at(names, place)) {
            if marks
                .read_at(program, rows, slice, reaction, seat)
                .is_none()
            {
                return false;
            }
        }
    }
    true
}

/// Whether what the rows of the slice read was present. It is asked only where the names are known.
fn are_reads_shown(
    writes: &Writes,
    coming: &Coming,
    marks: &Marks,
    presence: &PresentNames,
    plan: &Plan,
    rows: &[Row],
    slice: Slice,
) -> bool
    requires fit { RowsFit plan.now.program rows.now }
    requires slice { IsSlice rows.now slice }
    requires laid { IsLaid plan.now.program marks.now }
    requires long { length writes.now ≡ length plan.now.program.ports }
    ensures { IsTrue result → IsTrue presence.now.is_known → (d u : List TheRow) → AreShown plan.now d u slice.tag writes.now coming.now.queue → AreReadsShown plan.now (d ++ u) slice.tag rows.now }
{
    if !presence.is_known() {
        return true;
    }
    let program = plan.program();
    for place in slice.first..slice.end {
        let row = row_at(rows, place);
        if let Step::Read(name, value) = row.step {
            if marks.seat(program, row.reaction, name).is_none()
                || !are_same(Some(value), shown(writes, coming, plan, slice.tag, name))
            {
                return false;
            }
        }
    }
    true
}

/// Whether the run of the reaction read what was present.
fn has_read(
    writes: &Writes,
    coming: &Coming,
    marks: &Marks,
    presence: &PresentNames,
    plan: &Plan,
    rows: &[Row],
    slice: Slice,
    reaction: u32,
) -> bool
    requires fit { RowsFit plan.now.program rows.now }
    requires slice { IsSlice rows.now slice }
    requires reaction { reaction < length plan.now.program.reactions }
    requires marks { AreMarks plan.now.program rows.now slice.first slice.end marks.now }
    requires long { length writes.now ≡ length plan.now.program.ports }
    ensures { IsTrue result → (d u : List TheRow) → AreShown plan.now d u slice.tag writes.now coming.now.queue → IsKnown plan.now u slice.tag coming.now.queue presence.now → (IsTrue presence.now.is_known → AreReadsShown plan.now (d ++ u) slice.tag rows.now) → Inputs plan.now (d ++ u) slice.tag reaction (reads_at plan.now rows.now slice.tag reaction) }
{
    if presence.serves(plan.program(), reaction) {
        has_read_present(marks, presence.names(), plan, rows, slice, reaction)
    } else {
        has_read_each(writes, coming, marks, plan, rows, slice, reaction)
    }
}

/// Whether the runs of these reactions in the slice read what was present.
pub(crate) fn have_read(
    writes: &Writes,
    coming: &Coming,
    marks: &Marks,
    presence: &PresentNames,
    plan: &Plan,
    rows: &[Row],
    slice: Slice,
    started: &[u32],
) -> bool
    requires fit { RowsFit plan.now.program rows.now }
    requires slice { IsSlice rows.now slice }
    requires exist { (r : ℕ) → Contains started.now r → r < length plan.now.program.reactions }
    requires marks { AreMarks plan.now.program rows.now slice.first slice.end marks.now }
    requires long { length writes.now ≡ length plan.now.program.ports }
    ensures { IsTrue result → (d u : List TheRow) → AreShown plan.now d u slice.tag writes.now coming.now.queue → IsKnown plan.now u slice.tag coming.now.queue presence.now → (r : ℕ) → Contains started.now r → Inputs plan.now (d ++ u) slice.tag r (reads_at plan.now rows.now slice.tag r) }
{
    if !are_reads_shown(writes, coming, marks, presence, plan, rows, slice) {
        return false;
    }
    for place in 0..started.len() {
        let reaction = item_at(started, place);
        if !has_read(writes, coming, marks, presence, plan, rows, slice, reaction) {
            return false;
        }
    }
    true
}
