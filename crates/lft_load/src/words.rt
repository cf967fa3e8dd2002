//! Words of the lines that are printed: numbers, and names of reactions.

ghost use Rattle.std.specs.Prelude.{◌≡◌, ◌++◌, OnOk, string_bytes};
ghost use Rattle.lft_load.specs.Words.{field, names_words, spaced_name};

use itoa::Buffer;
use lft_ir::Program;
use lft_ir::words::push_reaction;
use std::alloc::AllocError;

/// Puts a word and a number at the end of a line.
pub fn push_field(line: &mut String, word: &str, number: u64) -> Result<(), AllocError>
    ensures { OnOk result (string_bytes line.new ≡ string_bytes line.old ++ field word.now number) }
{
    let mut buffer = Buffer::new();
    line.push_str(word)?;
    line.push_str(buffer.format(number))?;
    Ok(())
}

/// Puts a space and the name of a reaction at the end of a line.
fn push_spaced(line: &mut String, program: &Program, reaction: u32) -> Result<(), AllocError>
    ensures { OnOk result (string_bytes line.new ≡ string_bytes line.old ++ spaced_name program.now reaction) }
{
    line.push_str(" ")?;
    push_reaction(line, program, reaction)?;
    Ok(())
}

/// Puts the names of reactions at the end of a line, with a space between two.
pub fn push_names(line: &mut String, program: &Program, reactions: &[u32]) -> Result<(), AllocError>
    ensures { OnOk result (string_bytes line.new ≡ string_bytes line.old ++ names_words program.now reactions.now) }
{
    if reactions.is_empty() {
        return Ok(());
    }
    push_reaction(line, program, reactions[0])?;
    for at in 1..reactions.len() {
        push_spaced(line, program, reactions[at])?;
    }
    Ok(())
}
