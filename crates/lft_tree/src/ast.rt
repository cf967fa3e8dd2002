//! The tree of a program text.

ghost use Rattle.lft_tree.specs.{Identifiers.{HasIdentifiers, HasIdentifiers-prop}, ItemView.file_view};

use crate::tree::{Item, TokenRange};

/// The tree of a program text. The target is a range of tokens.
#[derive(Debug, Drop)]
pub struct Ast {
    pub target: Option<TokenRange>,
    pub items: Vec<Item>,
    // With dots in names two things could have one full name.
    pub ghost identifiers: { HasIdentifiers (file_view target items.items) } by { HasIdentifiers-prop (file_view target items.items) },
}
