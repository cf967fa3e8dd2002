//! Why a program's text has no tree, and where it is refused.

ghost use Rattle.std.specs.Prelude.{◌≢◌, ◌-◌, ◌<◌, ◌≤◌, length, IfSome, IfNone};
ghost use Rattle.lft_syntax.specs.{declared.fault.LexFault.TheVariants.NoMemory as LexNoMemory, Lexes.LexFails};
ghost use Rattle.lft_text_diagnostics.specs.{Candidates.{CanStand, CanStandAt}, Refusals.{HasNoTree, IsLong, IsRefusal}};
ghost use Rattle.lft_text_diagnostics.specs.declared.candidate.Candidate.{Candidate};

use lft_syntax::{LexFault, TokenKind, Tokens, refused_at};

/// Why a text is refused.
#[derive(Clone, Copy)]
pub(crate) enum TextCause {
    /// It can't be cut into tokens any further.
    Lex(LexFault),
    /// No tree has this token there. Tokens count from 1.
    Token(usize, TokenKind),
    /// It ends before its tree does. The number is one more than there are tokens.
    End(usize),
}

/// Why a text is refused, and which of its bytes that is about.
#[derive(Clone, Copy)]
pub(crate) struct TextRefusal {
    pub why: TextCause,
    pub start: usize,
    pub end: usize,
}

/// The refusal at the token with that number, or at the end of the text. Tokens count from 1.
pub(crate) fn at_token(text: &[u8], tokens: &Tokens, number: usize) -> TextRefusal
    requires number { 0 < number }
    requires none { HasNoTree text.now tokens.now number }
    ensures refusal { IsRefusal text.now result }
    ensures inside { (result.start ≤ result.end) × (result.end ≤ length text.now) }
    ensures behind { (candidate : Candidate) → CanStand text.now (number - 1) candidate → CanStandAt text.now result.why candidate }
{
    match tokens.as_slice().get(number - 1) {
        Some(token) => TextRefusal {
            why: TextCause::Token(number, token.kind),
            start: token.start,
            end: token.end,
        },
        None => TextRefusal {
            why: TextCause::End(number),
            start: text.len(),
            end: text.len(),
        },
    }
}

/// The refusal at the byte where a text stops being tokens. One that is too long is refused nowhere.
pub(crate) fn at_byte(text: &[u8], fault: LexFault) -> Option<TextRefusal>
    requires fails { LexFails text.now fault }
    requires fault { fault ≢ LexNoMemory }
    ensures refusal { IfSome result (IsRefusal text.now) }
    ensures inside { IfSome result (λ r. (r.start ≤ r.end) × (r.end ≤ length text.now)) }
    ensures none { IfNone result (IsLong text.now) }
{
    match refused_at(text) {
        Some(start) => Some(TextRefusal {
            why: TextCause::Lex(fault),
            start,
            // Where that would end isn't known, so its first byte is marked.
            end: start + 1,
        }),
        None => None,
    }
}
