//! What to write in place of a token, by the tokens before it.

ghost use Rattle.lft_text_diagnostics.specs.inner.Trying.{AreTokens};

use crate::candidate::Candidate;
use crate::candidates::Trial;
use crate::ways::{BROADCAST, FEDERATION, GENERICS, SPACING, TYPE, VALUE, of_token, of_word};
use lft_syntax::{Token, TokenKind, Tokens, can_stand};
use lft_tag::NoMemory;
use std::alloc::Global;

/// The first `count` tokens of a text: those before the one that is refused. They are counted from the
/// last, which is number 1.
#[derive(Drop)]
pub(crate) struct Before<'a> {
    pub alloc: Global,
    pub text: &'a [u8],
    pub tokens: &'a Tokens,
    pub count: usize,
}

/// What a core text has alone where nothing is told of what could stand, or not at all.
fn is_of_whole(candidate: Candidate) -> bool {
    matches!(
        candidate,
        Candidate::Import
            | Candidate::From
            | Candidate::Text
            | Candidate::Symbol(b'[')
            | Candidate::Symbol(b']')
    )
}

impl Trial for Before<'_> {
    ghost use Rattle.std.specs.Prelude.{◌≤◌, length};
    ghost use Rattle.lft_syntax.specs.Lexes.{Lexes};
    ghost use Rattle.lft_text_diagnostics.specs.Candidates.{CanStand};

    ghost is_sound = { λ before. Lexes before.text.now before.tokens.now × (before.count ≤ length before.tokens.now) };

    ghost stands = { λ before candidate. CanStand before.text.now before.count candidate };

    fn can_stand(&self, candidate: Candidate) -> Result<bool, NoMemory> {
        if is_of_whole(candidate) {
            return Ok(false);
        }
        let can = can_stand(
            self.alloc,
            self.text,
            self.tokens,
            self.count,
            candidate.token(),
        )?;
        Ok(can)
    }
}

impl<'a> Before<'a> {
    /// The token with that number. The one that is refused is number 0.
    pub(crate) fn token(&self, number: usize) -> Option<Token> {
        let place = self.count.checked_sub(number)?;
        self.tokens.as_slice().get(place).copied()
    }

    /// Its spelling; nothing where there is none.
    pub(crate) fn spelling(&self, number: usize) -> &'a [u8] {
        match self.token(number) {
            Some(token) => self.text.get(token.start..token.end).unwrap_or(b""),
            None => b"",
        }
    }

    /// Whether it is spelled so.
    pub(crate) fn is(&self, number: usize, spelling: &str) -> bool {
        self.spelling(number) == spelling.as_bytes()
    }

    /// Whether it is a number.
    fn is_number(&self, number: usize) -> bool {
        match self.token(number) {
            Some(token) => matches!(token.kind, TokenKind::Number(_)),
            None => false,
        }
    }

    /// A word that is left out was read as the unit of a number: `state n: int = 0` and then `deadline(`,
    /// `mode A {` or `method f(`.
    fn of_unit(&self) -> Option<&'static str> {
        if self.is_number(2) {
            of_word(self.spelling(1))
        } else if self.is_number(3) {
            // In `mode A {` the name behind the word is taken for the next member, so it is refused one token
            // later.
            of_word(self.spelling(2))
        } else {
            None
        }
    }

    /// Whether the token that is refused begins a line, or stands behind a `)`.
    fn begins_anew(&self) -> bool {
        let Some(last) = self.token(1) else {
            return true;
        };
        let Some(next) = self.token(0) else {
            return false;
        };
        match self.text.get(last.end..next.start) {
            Some(between) => self.is(1, ")") || between.contains(&b'\n'),
            None => false,
        }
    }

    /// Whether the text ends with a name, or the second of two with a point between them, behind the sign.
    fn ends_name(&self, sign: &str) -> bool {
        self.is(2, sign) || self.is(2, ".") && self.is(4, sign)
    }

    /// What to write in place of a sign where a type, a value or a member is, or in place of one.
    fn of_sign(&self, sign: u8) -> Result<Option<&'static str>, NoMemory>
        requires lexed { AreTokens self.now }
    {
        // Of this sign `of_token` has words, whatever stands before it.
        if sign == b'@' {
            return Ok(None);
        }
        if self.is(1, ":") && self.can_stand(Candidate::Code)? {
            return Ok(Some(TYPE));
        }
        if !self.can_stand(Candidate::Member)? {
            return Ok(None);
        }
        match sign {
            b'(' if self.begins_anew() => Ok(Some(BROADCAST)),
            b'|' | b'&' | b'?' if self.ends_name(":") => Ok(Some(TYPE)),
            _ if self.ends_name("=") => Ok(Some(VALUE)),
            _ => Ok(None),
        }
    }

    /// Whether a member of a reactor could begin in place of the last token.
    fn last_begins_member(&self) -> Result<bool, NoMemory>
        requires lexed { AreTokens self.now }
    {
        let Some(count) = self.count.checked_sub(1) else {
            return Ok(false);
        };
        let shorter = Before {
            alloc: self.alloc,
            text: self.text,
            tokens: self.tokens,
            count,
        };
        shorter.can_stand(Candidate::Member)
    }

    /// What to write in place of the token that is refused, by those just before it.
    pub(crate) fn way(
        &self,
        kind: TokenKind,
        spelling: &[u8],
    ) -> Result<Option<&'static str>, NoMemory>
        requires lexed { AreTokens self.now }
    {
        // The first value is one token, as `0`, or two, as `1 ms`.
        let is_delayed = self.is(2, "(") && self.is(4, "action")
            || self.is(3, "(") && self.is(5, "action");
        if kind == TokenKind::Symbol(b',') && is_delayed {
            return Ok(Some(SPACING));
        }
        if kind == TokenKind::Symbol(b'<') && (self.is(2, "reactor") || self.is(2, "new")) {
            return Ok(Some(GENERICS));
        }
        if self.is(2, "reactor") && (self.is(1, "at") || spelling == "at".as_bytes()) {
            return Ok(Some(FEDERATION));
        }
        if kind == TokenKind::Name && self.is(1, "at") && self.last_begins_member()? {
            return Ok(Some(FEDERATION));
        }
        let way = self.of_unit();
        match kind {
            TokenKind::Symbol(sign) if way.is_none() => self.of_sign(sign),
            _ => Ok(way),
        }
    }

    /// What to write in place of the last token, where that begins a member of a reactor. So do many that
    /// are left out, as `mode A {`, and they are read as names of instances.
    pub(crate) fn way_of_last(&self) -> Result<Option<&'static str>, NoMemory>
        requires lexed { AreTokens self.now }
    {
        let Some(last) = self.token(1) else {
            return Ok(None);
        };
        let way = of_token(last.kind, self.spelling(1));
        if way.is_some() && self.last_begins_member()? {
            Ok(way)
        } else {
            Ok(None)
        }
    }
}
