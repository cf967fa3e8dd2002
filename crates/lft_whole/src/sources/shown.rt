//! Paths and places in texts.

ghost use Rattle.std.specs.Prelude.{◌≡◌, ◌++◌, IfOk, OnOk, string_bytes};
ghost use Rattle.lft_whole.specs.Sources.Shown.{place_words, shown, shown_path as path_shown};

use crate::sources::source::SourceFile;
use lft_ir::words::push_number;
use std::alloc::{AllocError, Global};

/// A letter as it is written into texts.
fn shown_letter(letter: char) -> char
    ensures { result ≡ shown letter }
{
    // A path may come from anyone's text: a line end in it would begin a line that looks like one of ours.
    if ' ' <= letter && letter <= '~' {
        letter
    } else {
        '?'
    }
}

/// A path as it is written into texts: on one line, in printable ASCII.
pub fn shown_path(alloc: Global, path: &str) -> Result<String, AllocError>
    ensures { IfOk result (λ text. string_bytes text ≡ path_shown path.now) }
{
    let mut text = String::new(alloc);
    for letter in path.chars() {
        text.push(shown_letter(letter))?;
    }
    Ok(text)
}

/// Puts where a token of a file stands at the end of a text, as `path:line:column`.
pub fn push_place(
    alloc: Global,
    text: &mut String,
    file: &SourceFile,
    token: usize,
) -> Result<(), AllocError>
    ensures { OnOk result (string_bytes text.new ≡ string_bytes text.old ++ place_words file.now token) }
{
    let spot = file.spot(token);
    let path = shown_path(alloc, file.path.as_str())?;
    text.push_str(path.as_str())?;
    text.push_str(":")?;
    push_number(text, spot.line as u64)?;
    text.push_str(":")?;
    push_number(text, spot.column as u64)?;
    Ok(())
}
