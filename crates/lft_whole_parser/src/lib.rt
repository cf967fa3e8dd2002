#![tactic(auto)]
//! The parser of whole texts: a function for each part, from the place of its first token to the part and the
//! place behind it.
//!
//! - `imports`: the files of a program, each read once.

ghost use Rattle.std.specs.Prelude.{IfErr};
ghost use Rattle.lft_whole.specs.{inner.{Tokens.AreTokens, Parts.View.Gives}, Places.IsAmong, Parts.View.file_view};
ghost use Rattle.lft_whole_parser.specs.Files.{reads};

mod connections;
mod declarations;
mod files;
pub mod imports;
mod instances;
mod members;
mod reactions;
mod reactors;

use lft_whole::parts::lexed::LexedText;
use lft_whole::{File, Tokens, TreeFault};
use std::alloc::Global;

/// The tree of a text, from the text and its tokens.
pub fn parse(alloc: Global, text: &[u8], tokens: &Tokens) -> Result<File, TreeFault>
    requires lexed { AreTokens text.now tokens.now }
    ensures tree { Gives file_view result (reads text.now tokens.now) }
    ensures fault { IfErr result (IsAmong tokens.now) }
{
    let input = LexedText {
        alloc,
        text,
        tokens: tokens.as_slice(),
    };
    files::file(&input)
}
