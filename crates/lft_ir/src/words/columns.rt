//! Words in columns.

ghost use Rattle.std.specs.Prelude.{◌≡◌, ◌++◌, OnOk, string_bytes};
ghost use Rattle.lft_ir.specs.Words.Columns.{blanks, fill, padded};

use std::alloc::AllocError;

/// Puts so many blanks at the end of the text.
pub fn push_blanks(text: &mut String, count: usize) -> Result<(), AllocError>
    ensures { OnOk result (string_bytes text.new ≡ string_bytes text.old ++ blanks count) }
{
    for _blank in 0..count {
        text.push_str(" ")?;
    }
    Ok(())
}

/// Puts the blanks at the end of the text that a word lacks to the width.
pub fn push_fill(text: &mut String, width: usize, word: &str) -> Result<(), AllocError>
    ensures { OnOk result (string_bytes text.new ≡ string_bytes text.old ++ fill width word.now) }
{
    // A word that is wider than its column lacks none.
    push_blanks(text, width.saturating_sub(word.len()))?;
    Ok(())
}

/// Puts the word, and behind it the blanks that it lacks to the width, at the end of the text.
pub fn push_padded(text: &mut String, width: usize, word: &str) -> Result<(), AllocError>
    ensures { OnOk result (string_bytes text.new ≡ string_bytes text.old ++ padded width word.now) }
{
    text.push_str(word)?;
    push_fill(text, width, word)
}
