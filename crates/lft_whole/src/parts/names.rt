//! Names and reserved words.

ghost use Rattle.std.specs.Prelude.{◌≡◌, IfOk, IfErr, string_bytes};
ghost use Rattle.lft_whole.specs.{inner.Parts.{Parsing.{Within, Further, Refuses, source}, View.{Gives, at_next}}, Parts.{View.name_view, Language.ignored}};
ghost use Rattle.lft_whole.specs.Parts.Parts as Parts;

use crate::parts::lexed::LexedText;
use crate::parts::tokens::peek;
use crate::{Name, TreeFault};
use lft_syntax::{Seen, is_reserved_word, text_of};

/// A word that isn't reserved.
#[tactic(auto, unfolding(crate::specs::Parts::Parts::name), using(crate::proofs::Names::identifier_ascii))]
pub fn name(input: &LexedText, at: usize) -> Result<(Name, usize), TreeFault>
    requires { Within input.now at }
    ensures gives { Gives (λ x. (name_view x.0, x.1)) result (Parts.name (source input.now) at) }
    ensures ok { IfOk result (λ x. Further input.now at x.1) }
    ensures stands { IfOk result (λ x. x.0.at ≡ at) }
    ensures err { IfErr result (Refuses input.now) }
{
    match peek(input, at) {
        Some(Seen::Letters(letters)) if !is_reserved_word(letters) => {
            let text = text_of(input.alloc, letters)?;
            Ok((Name { text, at }, at + 1))
        }
        _ => Err(TreeFault::Unexpected(at)),
    }
}

/// A name that means nothing.
#[tactic(auto, unfolding(crate::specs::Parts::Parts::name))]
pub fn skip_name(input: &LexedText, at: usize) -> Result<usize, TreeFault>
    requires { Within input.now at }
    ensures gives { Gives at_next result (ignored Parts.name (source input.now) at) }
    ensures ok { IfOk result (Further input.now at) }
    ensures err { IfErr result (Refuses input.now) }
{
    match peek(input, at) {
        Some(Seen::Letters(letters)) if !is_reserved_word(letters) => Ok(at + 1),
        _ => Err(TreeFault::Unexpected(at)),
    }
}
