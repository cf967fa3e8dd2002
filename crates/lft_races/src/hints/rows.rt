//! Conditions on rows.

ghost use Rattle.std.specs.Prelude.{◌↔◌, ◌<◌, length, IsTrue};
ghost use Rattle.lft_races.specs.Hints.Hints.{AllBefore, IsFirstOfWorker, IsPassed, IsSecond, NoneEnds, NoRowReads, NoneWrites};

use crate::is_start_at;
use lft_ir::steps::{Row, Step, is_start, row_at};
use lft_tag::Tag;

/// Whether no row before the place is of the worker of the row there.
pub(crate) fn is_first_of_worker(rows: &[Row], place: usize) -> bool
    requires { place < length rows.now }
    ensures { IsTrue result ↔ IsFirstOfWorker rows.now place }
{
    let worker = row_at(rows, place).worker;
    for before in 0..place {
        if row_at(rows, before).worker == worker {
            return false;
        }
    }
    true
}

/// Whether all rows are before the tag.
pub(crate) fn all_before(rows: &[Row], tag: Tag) -> bool
    ensures { IsTrue result ↔ AllBefore rows.now tag }
{
    for place in 0..rows.len() {
        if !row_at(rows, place).tag.is_before(tag) {
            return false;
        }
    }
    true
}

/// Whether no row reads.
pub(crate) fn none_reads(rows: &[Row]) -> bool
    ensures { IsTrue result ↔ NoRowReads rows.now }
{
    for place in 0..rows.len() {
        if matches!(row_at(rows, place).step, Step::Read(_, _)) {
            return false;
        }
    }
    true
}

/// Whether no row writes.
pub(crate) fn none_writes(rows: &[Row]) -> bool
    ensures { IsTrue result ↔ NoneWrites rows.now }
{
    for place in 0..rows.len() {
        if matches!(row_at(rows, place).step, Step::Write(_, _)) {
            return false;
        }
    }
    true
}

/// Whether a row is at a tag after this one.
pub(crate) fn is_passed(rows: &[Row], tag: Tag) -> bool
    ensures { IsTrue result ↔ IsPassed rows.now tag }
{
    for place in 0..rows.len() {
        if tag.is_before(row_at(rows, place).tag) {
            return true;
        }
    }
    false
}

/// Whether the row at the place starts a run that one before it starts.
pub(crate) fn is_second(rows: &[Row], place: usize) -> bool
    requires { place < length rows.now }
    ensures { IsTrue result ↔ IsSecond rows.now place }
{
    let row = row_at(rows, place);
    if !is_start(&row.step) {
        return false;
    }
    for earlier in 0..place {
        if is_start_at(rows, row.tag, row.reaction, earlier) {
            return true;
        }
    }
    false
}

/// Whether no row ends a run.
pub(crate) fn none_ends(rows: &[Row]) -> bool
    ensures { IsTrue result ↔ NoneEnds rows.now }
{
    for place in 0..rows.len() {
        if matches!(row_at(rows, place).step, Step::End) {
            return false;
        }
    }
    true
}
