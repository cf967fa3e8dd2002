//! The records that a reader gives, one at a time.

ghost use Rattle.std.specs.Prelude.{◌≡◌, ◌≢◌, ◌<◌, ◌≤◌, ◌+◌, ◌∷◌, ◌++◌, [], true, false, IfOk, IfErr, IfSome, OnOk, length, slice_index_or, take};
ghost use Rattle.csv.specs.{Records.{fields_of, partial_of}, declared.record.ByteRecord.ByteRecord as Row};
ghost use Rattle.lft_tables.specs.inner.Records.{HaveRead, IsCounted, IsNext, IsPast, IsPlain, IsPlainReader, IsUnread, fields_at_hand, records_left, records_unread};

use csv::{ByteRecord, ErrorKind, Reader, ReaderBuilder};
use lft_tag::NoMemory;
use std::alloc::Global;
use std::io::Read;

/// A record of a trace mostly has fewer bytes.
const BYTES: usize = 256;

/// A record of a trace has so many fields.
const FIELDS: usize = 8;

/// So many records are read at a time.
const AHEAD: usize = 32;

/// Why the records stop before their end.
#[derive(Clone, Copy, PartialEq, Eq)]
pub enum Unread {
    /// There are more than there may be.
    TooMany,
    /// The reader failed. A text in memory never does.
    NotCsv,
    NoMemory,
}

/// An empty record with room for most, where there is memory: the reader takes as many bytes at once as there is
/// room for.
fn empty_record(alloc: Global) -> ByteRecord
    ensures fields { fields_of result ≡ [] }
    ensures partial { partial_of result ≡ [] }
{
    match ByteRecord::with_capacity(alloc, BYTES, FIELDS) {
        Ok(fields) => fields,
        Err(_) => ByteRecord::new(alloc),
    }
}

/// Sees to it that a record stands at a place, which may be the one behind the last.
fn make_room(alloc: Global, ahead: &mut Vec<ByteRecord>, place: usize) -> Result<(), NoMemory>
    requires { place ≤ length ahead.old.items }
    ensures before { OnOk result (take place ahead.new.items ≡ take place ahead.old.items) }
    ensures there { OnOk result (place < length ahead.new.items) }
{
    if place == ahead.len() {
        ahead.push(empty_record(alloc))?;
    }
    Ok(())
}

/// Reads the next record to a place, if there is one.
#[inline(always)]
fn read_to<R: Read + Drop>(
    alloc: Global,
    reader: &mut Reader<R>,
    ahead: &mut Vec<ByteRecord>,
    place: usize,
) -> Result<bool, Unread>
    requires { place ≤ length ahead.old.items }
    ensures before { OnOk result (take place ahead.new.items ≡ take place ahead.old.items) }
    ensures there { OnOk result (place < length ahead.new.items) }
    ensures found { IfOk result (λ found. found ≡ true → IsPlainReader R.remaining reader.old → IsPlainReader R.remaining reader.new × ((row : Row) × (take (place + 1) ahead.new.items ≡ take place ahead.old.items ++ row ∷ []) × (records_unread R.remaining reader.old ≡ fields_of row ∷ records_unread R.remaining reader.new))) }
    ensures none { IfOk result (λ found. found ≡ false → IsPlainReader R.remaining reader.old → records_unread R.remaining reader.old ≡ []) }
    ensures refused { IfErr result (λ e. e ≢ Unread.TooMany) }
{
    match make_room(alloc, ahead, place) {
        Ok(()) => {}
        Err(_) => return Err(Unread::NoMemory),
    }
    match reader.read_byte_record(&mut ahead[place]) {
        Ok(found) => Ok(found),
        Err(e) => match e.kind() {
            ErrorKind::OutOfMemory => Err(Unread::NoMemory),
            _ => Err(Unread::NotCsv),
        },
    }
}

/// Reads the next records to the first places, and tells how many. Only where they are fewer than `AHEAD` none
/// follows.
fn read_ahead<R: Read + Drop>(
    alloc: Global,
    reader: &mut Reader<R>,
    ahead: &mut Vec<ByteRecord>,
) -> Result<usize, Unread>
    ensures there { IfOk result (λ count. (count ≤ 32) × (count ≤ length ahead.new.items)) }
    ensures read { IfOk result (λ count. IsPlainReader R.remaining reader.old → HaveRead R.remaining reader.old reader.new ahead.new.items count) }
    ensures refused { IfErr result (λ e. e ≢ Unread.TooMany) }
{
    for place in 0..AHEAD {
        if !read_to(alloc, reader, ahead, place)? {
            return Ok(place);
        }
    }
    Ok(AHEAD)
}

/// The records that a reader gives, the header included, one at a time. The first is line 1.
// Some are read before the first of them is looked at: it is faster where csv's reader and who looks at a record don't
// take turns at each.
#[derive(Drop)]
pub struct Records<R: Read + Drop> {
    alloc: Global,
    reader: Reader<R>,
    /// The records that were read at a time: the first `end` of these.
    ahead: Vec<ByteRecord>,
    end: usize,
    /// The place of the next one. The one at hand stands before it.
    next: usize,
    /// Whether none follows behind them.
    is_last: bool,
    /// What is at hand before the first record.
    none: ByteRecord,
    /// The line of the record at hand.
    pub line: u32,
    last: u32,
}

impl<R: Read + Drop> Records<R> {
    /// The records that a reader gives, before the first one is read. More than `last` are too many.
    pub fn new(alloc: Global, source: R, last: u32) -> Records<R>
        ensures unread { IfSome (R.remaining source) (λ text. IsUnread R.remaining result text last) }
        ensures last { result.last ≡ last }
    {
        Records {
            alloc,
            reader: ReaderBuilder::new()
                .has_headers(false)
                .flexible(true)
                .from_reader(alloc, source),
            ahead: Vec::new(alloc),
            end: 0,
            next: 0,
            is_last: false,
            none: ByteRecord::new(alloc),
            line: 0,
            last,
        }
    }

    /// The record at hand.
    #[inline(always)]
    pub fn fields(&self) -> &ByteRecord
        ensures { fields_of result.now ≡ fields_at_hand self.now }
    {
        // Before the first record no place is meant: that behind the last one.
        match self.ahead.get(self.next.wrapping_sub(1)) {
            Some(fields) => fields,
            None => &self.none,
        }
    }

    /// The same, where no other is to be read.
    pub fn into_fields(self) -> ByteRecord
        ensures { fields_of result ≡ fields_at_hand self }
    {
        let mut ahead = self.ahead;
        if self.next == 0 || ahead.len() < self.next {
            return self.none;
        }
        ahead.swap_remove(self.next - 1)
    }

    /// Goes on to the next record, if there is one. Where the reader fails, the error comes as soon as the records
    /// before the failure are read: up to 31 of them are then never given.
    #[inline(always)]
    pub fn next(&mut self) -> Result<bool, Unread>
        ensures found { IfOk result (λ found. found ≡ true → IsPlain R.remaining self.old → IsNext R.remaining self.old self.new) }
        ensures none { IfOk result (λ found. found ≡ false → IsPlain R.remaining self.old → records_left R.remaining self.old ≡ []) }
        ensures many { IfErr result (λ e. e ≡ Unread.TooMany → IsPlain R.remaining self.old → IsPast R.remaining self.old self.new) }
        ensures counted { IfOk result (λ found. found ≡ true → IsCounted self.old self.new) }
    {
        if self.next < self.end {
            return self.give();
        }
        if !self.go_on()? {
            return Ok(false);
        }
        self.give()
    }

    /// Goes on to the next of the records that were read.
    #[inline(always)]
    fn give(&mut self) -> Result<bool, Unread>
        requires { self.old.next < self.old.end }
        ensures found { IfOk result (λ found. (found ≡ true) × IsCounted self.old self.new) }
        ensures next { IfOk result (λ found. IsPlain R.remaining self.old → IsNext R.remaining self.old self.new) }
        ensures many { IfErr result (λ e. (e ≡ Unread.TooMany) × (IsPlain R.remaining self.old → IsPast R.remaining self.old self.new)) }
    {
        self.next += 1;
        if self.line >= self.last {
            return Err(Unread::TooMany);
        }
        self.line += 1;
        Ok(true)
    }

    /// Reads the next records, once all that were read are given, and tells whether there is one.
    #[inline(never)]
    fn go_on(&mut self) -> Result<bool, Unread>
        requires { self.old.end ≤ self.old.next }
        ensures found { IfOk result (λ found. found ≡ true → (self.new.next < self.new.end) × (IsPlain R.remaining self.old → IsPlain R.remaining self.new × (records_left R.remaining self.old ≡ records_left R.remaining self.new))) }
        ensures none { IfOk result (λ found. found ≡ false → IsPlain R.remaining self.old → records_left R.remaining self.old ≡ []) }
        ensures line { self.new.line ≡ self.old.line }
        ensures last { self.new.last ≡ self.old.last }
        ensures refused { IfErr result (λ e. e ≢ Unread.TooMany) }
    {
        if self.is_last {
            return Ok(false);
        }
        self.end = read_ahead(self.alloc, &mut self.reader, &mut self.ahead)?;
        self.next = 0;
        self.is_last = self.end < AHEAD;
        Ok(0 < self.end)
    }
}

/// The field of a record at a place.
#[inline(always)]
pub fn field(fields: &ByteRecord, at: usize) -> &[u8]
    requires { at < length (fields_of fields.now) }
    ensures { result.now ≡ slice_index_or (fields_of fields.now) at [] }
{
    match fields.get(at) {
        Some(field) => field,
        None => &[],
    }
}
