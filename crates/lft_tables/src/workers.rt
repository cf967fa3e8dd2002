//! What the records of a text without a header tell, read in parts beside each other.

ghost use Rattle.std.specs.Prelude.{◌≡◌, ◌≤◌, ◌++◌, IfSome, false};
ghost use Rattle.std.specs.{List.AllZip, Thread.{IsSend, IsSync}};
ghost use Rattle.lft_tables.specs.{Records.records_of, inner.Parts.{HoldsItems, items_of}};

use crate::lines::cut_behind;
use crate::records::Records;
use crate::table::TableReader;
use lft_tag::MAX_ROWS;
use memchr::memchr;
use std::alloc::Global;
use std::thread::{Threads, join};

/// Texts of fewer bytes are read in one part: of them a thread costs more than it brings.
const SHORT: usize = 1 << 20;

/// Whether a text is read in one part.
pub fn is_one_part(text: &[u8], workers: u32) -> bool
    ensures { result ≡ false → 2 ≤ workers }
{
    workers < 2 || text.len() < SHORT
}

/// What the records of a text without a quotation mark tell, those of each part in a list of its own. None where it
/// has one, a record tells nothing, there are more than 4,000,000, or memory is refused.
// Text and workers are divided in two, in the same proportion, until a part has one worker.
// The parts stay lists: joined on the way back, half of a batch is copied twice while others wait.
#[cycle(parts)]
pub fn read_parts<R: Threads + Sync, K: TableReader>(
    rt: &R,
    alloc: Global,
    table: &K,
    text: &[u8],
    workers: u32,
) -> Option<Vec<Vec<K::Item>>>
    ensures { IfSome result (λ parts. HoldsItems (K.tells table.now) text.now (items_of parts.items)) }
{
    if is_one_part(text, workers) {
        return read_alone(alloc, table, text);
    }
    let low = workers / 2;
    let high = workers - low;
    // The share of the low workers is no longer than the text, since they are fewer than all.
    let share = text.len() / workers as usize;
    let Some((first, second)) = cut_behind(text, share * low as usize) else {
        return read_alone(alloc, table, text);
    };
    let front = move || -> Option<Vec<Vec<K::Item>>>
        requires { IsSync R.row × IsSync K.row × IsSend K.Item.row × IsSend K.Guess.row }
        ensures { IfSome result (λ parts. HoldsItems (K.tells table.entry.now) first.entry.now (items_of parts.items)) }
    { read_parts(rt, alloc, table, first, low) };
    let back = move || -> Option<Vec<Vec<K::Item>>>
        requires { IsSync R.row × IsSync K.row × IsSend K.Item.row × IsSend K.Guess.row }
        ensures { IfSome result (λ parts. HoldsItems (K.tells table.entry.now) second.entry.now (items_of parts.items)) }
    { read_parts(rt, alloc, table, second, high) };
    let (parts, more) = join(rt, front, back);
    append(parts?, more?)
}

// What the records of a text tell, as one part.
fn read_alone<K: TableReader>(alloc: Global, table: &K, text: &[u8]) -> Option<Vec<Vec<K::Item>>>
    ensures { IfSome result (λ parts. HoldsItems (K.tells table.now) text.now (items_of parts.items)) }
{
    only_part(alloc, read_plain(alloc, table, text)?)
}

/// What the records of a text without a quotation mark tell, by one worker. None as for `read_parts`.
// A line may end within quotes: no place of such a text is known to be one where a record begins.
pub fn read_plain<K: TableReader>(alloc: Global, table: &K, text: &[u8]) -> Option<Vec<K::Item>>
    ensures { IfSome result (λ items. HoldsItems (K.tells table.now) text.now items.items) }
{
    if memchr(b'"', text).is_some() {
        return None;
    }
    read_part(alloc, table, text, MAX_ROWS as u32)
}

/// What the records of a part of a table tell, the first one too.
///
/// It says nothing of why a part has none: a record with a fault, more records than `most`, or
/// want of memory. Which fault the whole table has is for who reads it whole to say.
fn read_part<K: TableReader>(
    alloc: Global,
    table: &K,
    text: &[u8],
    most: u32,
) -> Option<Vec<K::Item>>
    ensures { IfSome result (λ items. AllZip (K.tells table.now) (records_of text.now) items.items) }
{
    let mut records = Records::new(alloc, text, most);
    let mut items = Vec::new(alloc);
    let mut guess = table.first_guess();
    'lines: loop {
        match records.next() {
            Ok(true) => {}
            Ok(false) => return Some(items),
            Err(_) => return None,
        }
        let Some((item, next)) = table.read(guess, records.fields()) else {
            return None;
        };
        if items.push(item).is_err() {
            return None;
        }
        guess = next;
    }
}

// The items as the only part.
fn only_part<I: Drop>(alloc: Global, items: Vec<I>) -> Option<Vec<Vec<I>>>
    ensures { IfSome result (λ parts. items_of parts.items ≡ items.items) }
{
    let mut parts = Vec::new(alloc);
    if parts.push(items).is_err() {
        return None;
    }
    Some(parts)
}

// The parts, and more of them behind.
fn append<I: Drop>(parts: Vec<Vec<I>>, more: Vec<Vec<I>>) -> Option<Vec<Vec<I>>>
    ensures { IfSome result (λ all. all.items ≡ parts.items ++ more.items) }
{
    let mut all = parts;
    let mut more = more;
    if all.append(&mut more).is_err() {
        return None;
    }
    Some(all)
}
