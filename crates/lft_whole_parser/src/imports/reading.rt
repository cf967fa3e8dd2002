//! The tree of a text, and where its tokens stand.

ghost use Rattle.std.specs.Prelude.{◌≡◌, ◌<◌, Err, Some, IfOk, length};
ghost use Rattle.lft_whole.specs.{Pieces.tokens_of, declared.fault.TextFault.TheVariants.BadText};
ghost use Rattle.lft_whole_parser.specs.inner.Imports.Reads.{IsRead};

use crate::imports::spots::{spot_of, spots};
use crate::parse;
use lft_tag::NoMemory;
use lft_whole::sources::{Spot, Why};
use lft_whole::{File, TextFault, TreeFault, lex};
use std::alloc::Global;

/// Why a text has no tree, and the token that shows it.
#[derive(Clone, Copy)]
pub(crate) struct NoTree {
    pub(crate) why: Why,
    pub(crate) token: usize,
}

/// What is read of a text. One that is refused has no tree. Where it has no tokens, what shows it is its only
/// spot.
#[derive(Drop)]
pub(crate) struct Text {
    pub(crate) tree: File,
    pub(crate) spots: Vec<Spot>,
    pub(crate) refused: Option<NoTree>,
}

/// A file of nothing.
fn no_file(alloc: Global) -> File {
    File {
        target: None,
        timeouts: Vec::new(alloc),
        decentralized: None,
        imports: Vec::new(alloc),
        reactors: Vec::new(alloc),
    }
}

/// What is read of a text without tokens. They end at a byte.
fn without_tokens(alloc: Global, text: &[u8], at: usize) -> Result<Text, NoMemory>
    requires inside { at < length text.now }
    requires bad { tokens_of text.now ≡ Err (BadText at) }
    ensures { IfOk result (IsRead text.now) }
{
    let mut spots = Vec::new(alloc);
    spots.push(spot_of(text, at))?;
    Ok(without_tree(alloc, spots, Why::NotText, 0))
}

/// What is read of a text that is refused.
fn without_tree(alloc: Global, spots: Vec<Spot>, why: Why, token: usize) -> Text
    ensures spots { result.spots ≡ spots }
    ensures refused { result.refused ≡ Some (record { why = why; token = token }) }
{
    Text {
        tree: no_file(alloc),
        spots,
        refused: Some(NoTree { why, token }),
    }
}

/// The tree of a text, or why it has none.
pub(crate) fn read_text(alloc: Global, text: &[u8]) -> Result<Text, NoMemory>
    ensures { IfOk result (IsRead text.now) }
{
    // No `?`: a refusal is part of what is read, since its place is to be told. Want of memory alone ends the
    // call.
    let tokens = match lex(alloc, text) {
        Ok(tokens) => tokens,
        Err(TextFault::BadText(at)) => return without_tokens(alloc, text, at),
        Err(TextFault::NoMemory) => return Err(NoMemory),
    };
    let spots = spots(alloc, text, tokens.as_slice())?;
    match parse(alloc, text, &tokens) {
        Ok(tree) => Ok(Text {
            tree,
            spots,
            refused: None,
        }),
        Err(TreeFault::Unexpected(token)) => Ok(without_tree(alloc, spots, Why::Unexpected, token)),
        Err(TreeFault::Package(token)) => Ok(without_tree(alloc, spots, Why::Package, token)),
        Err(TreeFault::NoMemory) => Err(NoMemory),
    }
}
