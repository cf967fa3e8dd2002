//! Which lines of a part of a text are printed.

ghost use Rattle.std.specs.Prelude.{◌≡◌, ◌++◌, ◌≤◌, length, take, drop, IfOk, OnOk, string_bytes};
ghost use Rattle.lft_report.specs.Shortened.{line_ends as the_line_ends, left_out, shortened, shown_part};

use lft_ir::words::push_number;
use lft_lists::item_at;
use std::alloc::{AllocError, Global};

/// Of a part so many lines are printed, where not all are asked for.
// A run with thousands of triggers has thousands of facts.
const MOST: usize = 60;

/// Where the first so many lines of the bytes end.
fn end_of(bytes: &[u8], lines: usize) -> usize
    ensures within { result ≤ length bytes.now }
    ensures cut { shortened lines bytes.now ≡ take result bytes.now ++ left_out (drop result bytes.now) }
{
    let mut left = lines;
    for at in 0..bytes.len() {
        if left == 0 {
            return at;
        }
        let byte = item_at(bytes, at);
        if byte == b'\n' {
            left -= 1;
        }
    }
    bytes.len()
}

/// How many lines end in the bytes.
fn line_ends(bytes: &[u8]) -> usize
    ensures { result ≡ the_line_ends bytes.now }
{
    bytes.iter().filter(|byte| **byte == b'\n').count()
}

/// How many lines are left out.
fn left_out_text(alloc: Global, bytes: &[u8]) -> Result<String, AllocError>
    ensures { IfOk result (λ text. string_bytes text ≡ left_out bytes.now) }
{
    let mut text = String::new(alloc);
    if !bytes.is_empty() {
        text.push_str("  More lines, which `--all` prints: ")?;
        push_number(&mut text, line_ends(bytes) as u64)?;
        text.push_str("\n")?;
    }
    Ok(text)
}

/// Puts a part at the end of the text: all of it, or its first 60 lines and how many others there are.
pub fn push_shown(
    alloc: Global,
    text: &mut Vec<u8>,
    part: &[u8],
    all: bool,
) -> Result<(), AllocError>
    ensures { OnOk result (text.new.items ≡ text.old.items ++ shown_part all part.now) }
{
    if all {
        text.extend_from_slice(part)?;
        return Ok(());
    }
    let end = end_of(part, MOST);
    let rest = left_out_text(alloc, &part[end..])?;
    text.extend_from_slice(&part[..end])?;
    text.extend_from_slice(rest.as_bytes())?;
    Ok(())
}
