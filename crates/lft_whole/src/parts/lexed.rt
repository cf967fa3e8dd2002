//! A text with its tokens, as the parser sees them.

ghost use Rattle.lft_whole.specs.inner.Tokens.{EachIsToken, EachIsToken-prop};

use lft_syntax::Token;
use std::alloc::Global;

/// A text with its tokens, which lie in it.
#[derive(Drop)]
pub struct LexedText<'a> {
    pub alloc: Global,
    pub text: &'a [u8],
    pub tokens: &'a [Token],
    pub ghost in_text: { EachIsToken text.now tokens.now } by { EachIsToken-prop text.now tokens.now },
}
