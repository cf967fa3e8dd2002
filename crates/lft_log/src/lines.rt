//! Lines of a table that comes in pieces.

ghost use Rattle.std.specs.Prelude.{◌≡◌, ◌≢◌, ◌↔◌, ◌⊎◌, ◌<◌, ◌≤◌, ◌+◌, ◌++◌, ◌∷◌, ℕ, List, [], Some, length, take, drop, slice_get, IfNone, IfSome, IsTrue, false, MatchOption};
ghost use Rattle.memchr.specs.Find.{OccursAt};
ghost use Rattle.lft_tables.specs.Parts.{EndsLine};
ghost use Rattle.lft_log.specs.Logs.{AreLines, ArePlain, LineBeginsWith, LineEndsWith, HasNoEnd, HasHeaderWords, IsHead, IsHeaderThen, IsOfInput, IsOneLine, IsWholeLine, IsWholeRow, IsWholeStop, fields, header_words};
ghost use Rattle.lft_log.specs.inner.Logs.{BeginsOdd, IsLoneReturn};

use memchr::{memchr, memchr_iter, memmem, memrchr};

/// A byte order mark. As with a table, one may stand before the header.
const MARK: &[u8] = b"\xEF\xBB\xBF";

/// The words of the header.
const WORDS: &[u8] = b"event,worker,time,microstep,reaction,name,value,delay";

/// What stands behind the header's words, if a text begins with them.
fn behind_words(text: &[u8]) -> Option<&[u8]>
    ensures { MatchOption result ((rest : List ℕ) → ¬ IsHeaderThen rest text.now) (λ rest. IsHeaderThen rest.now text.now) }
{
    match text.strip_prefix(MARK) {
        Some(text) => text.strip_prefix(WORDS),
        None => text.strip_prefix(WORDS),
    }
}

/// What stands below the header.
pub(crate) fn below_header(lines: &[u8]) -> Option<&[u8]>
    ensures some { IfSome result (λ rest. (head : List ℕ) × (lines.now ≡ head ++ rest.now) × IsHead head) }
    ensures none { IfNone result ((head rest : List ℕ) → lines.now ≡ head ++ rest → ¬ IsHead head) }
{
    let rest = behind_words(lines)?;
    if let Some(below) = rest.strip_prefix(b"\n") {
        return Some(below);
    }
    rest.strip_prefix(b"\r\n")
}

/// How many bytes there are up to the last end of a line.
pub(crate) fn whole_lines(text: &[u8]) -> usize
    ensures within { result ≤ length text.now }
    ensures lines { AreLines (take result text.now) }
    ensures rest { HasNoEnd (drop result text.now) }
{
    match memrchr(b'\n', text) {
        Some(place) => place + 1,
        None => 0,
    }
}

/// How many bytes stand before the first end of a line. It is all where no line ends.
pub(crate) fn before_end(text: &[u8]) -> usize
    ensures within { result ≤ length text.now }
    ensures none { HasNoEnd (take result text.now) }
    ensures end { result < length text.now → slice_get text.now result ≡ Some 10 }
{
    match memchr(b'\n', text) {
        Some(place) => place,
        None => text.len(),
    }
}

/// How many bytes the first of whole lines has.
pub(crate) fn first_line(lines: &[u8]) -> usize
    requires { EndsLine lines.now }
    ensures within { result ≤ length lines.now }
    ensures line { IsOneLine (take result lines.now) }
{
    before_end(lines) + 1
}

/// How many commas the line has.
fn commas(line: &[u8]) -> usize
    ensures { result + 1 ≡ fields line.now }
{
    memchr_iter(b',', line).count()
}

/// Whether the line is of an external input: it begins with the word of one, and has five parts. A row
/// has eight.
pub(crate) fn is_input(line: &[u8]) -> bool
    ensures { IsTrue result ↔ IsOfInput line.now }
{
    (begins_with(line, b"event,") || begins_with(line, b"stop,")) && commas(line) == 4
}

/// Whether the header's words stand in the line.
pub(crate) fn has_words(line: &[u8]) -> bool
    ensures { IsTrue result ↔ HasHeaderWords line.now }
{
    // Anywhere in it: a second log may begin with a byte order mark.
    memmem::find(line, WORDS).is_some()
}

/// Whether a carriage return stands at the place, and no line feed behind it.
fn is_lone(lines: &[u8], place: usize) -> bool
    requires { place < length lines.now }
    ensures not { result ≡ false → slice_get lines.now place ≡ Some 13 → slice_get lines.now (place + 1) ≡ Some 10 }
    ensures lone { IsTrue result → IsLoneReturn lines.now place }
{
    if lines[place] != b'\r' {
        return false;
    }
    place + 1 == lines.len() || lines[place + 1] != b'\n'
}

/// The first carriage return without a line feed behind it, or where the lines end.
fn lone_return(lines: &[u8]) -> usize
    ensures within { result ≤ length lines.now }
    ensures returns { (i : ℕ) → i < result → slice_get lines.now i ≡ Some 13 → slice_get lines.now (i + 1) ≡ Some 10 }
    ensures lone { result < length lines.now → IsLoneReturn lines.now result }
{
    let Some(first) = memchr(b'\r', lines) else {
        return lines.len();
    };
    for place in first..lines.len() {
        if is_lone(lines, place) {
            return place;
        }
    }
    lines.len()
}

/// The first quotation mark, or where the lines end.
fn first_quote(lines: &[u8]) -> usize
    ensures within { result ≤ length lines.now }
    ensures none { (i : ℕ) → i < result → slice_get lines.now i ≢ Some 34 }
    ensures quote { result < length lines.now → slice_get lines.now result ≡ Some 34 }
{
    match memchr(b'"', lines) {
        Some(place) => place,
        None => lines.len(),
    }
}

/// The first place where the header's words stand, or where the lines end.
fn first_words(lines: &[u8]) -> usize
    ensures within { result ≤ length lines.now }
    ensures none { (i : ℕ) → i < result → ¬ OccursAt lines.now header_words i }
    ensures words { result < length lines.now → OccursAt lines.now header_words result }
{
    match memmem::find(lines, WORDS) {
        Some(place) => place.min(lines.len()),
        None => lines.len(),
    }
}

/// How many bytes stand before the first line that isn't plain: with a quotation mark, a carriage return that
/// doesn't end it, or the words of the header. Of whole lines it is all where each is plain.
pub(crate) fn plain_lines(lines: &[u8]) -> usize
    ensures within { result ≤ length lines.now }
    ensures lines { AreLines (take result lines.now) }
    ensures plain { ArePlain (take result lines.now) }
    ensures odd { BeginsOdd (drop result lines.now) }
{
    let odd = first_quote(lines)
        .min(lone_return(lines))
        .min(first_words(lines));
    whole_lines(&lines[0..odd])
}

/// Whether nothing is there, or a carriage return alone.
fn is_end(rest: &[u8]) -> bool
    ensures { IsTrue result ↔ (rest.now ≡ []) ⊎ (rest.now ≡ 13 ∷ []) }
{
    rest.is_empty() || rest == b"\r".as_slice()
}

/// Whether the line, with a line feed behind it, is the header.
fn is_header(line: &[u8]) -> bool
    ensures { IsTrue result ↔ IsHead (line.now ++ 10 ∷ []) }
{
    match behind_words(line) {
        Some(rest) => is_end(rest),
        None => false,
    }
}

/// Whether the line begins with the word.
fn begins_with(line: &[u8], word: &[u8]) -> bool
    ensures { IsTrue result ↔ LineBeginsWith word.now line.now }
{
    line.starts_with(word)
}

/// Whether the line ends with the word.
fn ends_with(line: &[u8], word: &[u8]) -> bool
    ensures { IsTrue result ↔ LineEndsWith word.now line.now }
{
    line.ends_with(word)
}

/// Whether the line is a row whose last part is empty, of an event that has none there.
fn is_whole_row(line: &[u8]) -> bool
    ensures { IsTrue result ↔ IsWholeRow line.now }
{
    // A number at the end may be the front of a longer one. Behind an empty last part nothing can be missing.
    commas(line) == 7 && ends_with(line, b",") && !begins_with(line, b"schedule,")
}

/// Whether the line is a stop, whose last two parts are empty.
fn is_whole_stop(line: &[u8]) -> bool
    ensures { IsTrue result ↔ IsWholeStop line.now }
{
    commas(line) == 4 && ends_with(line, b",,") && begins_with(line, b"stop,")
}

/// Whether nothing can be missing of a last line but its end.
pub(crate) fn is_whole(line: &[u8]) -> bool
    ensures { IsTrue result ↔ IsWholeLine line.now }
{
    is_header(line) || is_whole_row(line) || is_whole_stop(line)
}
