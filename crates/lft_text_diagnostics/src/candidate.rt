//! What can be told to stand at a place of a program's text.

ghost use Rattle.std.specs.Prelude.{◌≡◌, ◌++◌, OnOk, string_bytes};
ghost use Rattle.lft_syntax.specs.inner.Seen.{seen_as, letters_ascii};
ghost use Rattle.lft_text_diagnostics.specs.Candidates.{candidate_token, candidate_words, lexeme_words};

use crate::sentence::push_spelled;
use lft_syntax::Seen;
use lft_tag::NoMemory;
use std::alloc::Global;

/// What is tried in place of a token.
#[derive(Clone, Copy, PartialEq, Eq)]
pub enum Candidate {
    Name,
    Unit,
    TypeTime,
    Import,
    From,
    Number,
    Code,
    Text,
    Symbol(u8),
    Arrow,
    /// A member of a reactor.
    Member,
    Reactor,
    Action,
    Startup,
    New,
    After,
}

impl Candidate {
    /// A token of the candidate.
    pub(crate) fn token(self) -> Seen<'static>
        ensures is { seen_as result ≡ candidate_token self }
        ensures ascii { letters_ascii result }
    {
        match self {
            // Any name will do that isn't a word of the grammar or a unit.
            Candidate::Name => Seen::Letters(b"x"),
            Candidate::Unit => Seen::Letters(b"ms"),
            Candidate::TypeTime => Seen::Letters(b"time"),
            Candidate::Import => Seen::Letters(b"import"),
            Candidate::From => Seen::Letters(b"from"),
            Candidate::Number => Seen::Number(1),
            Candidate::Code => Seen::Code,
            Candidate::Text => Seen::Text,
            Candidate::Symbol(sign) => Seen::Symbol(sign),
            Candidate::Arrow => Seen::Arrow,
            // Where this word can begin a member the others can too.
            Candidate::Member => Seen::Letters(b"timer"),
            Candidate::Reactor => Seen::Letters(b"reactor"),
            Candidate::Action => Seen::Letters(b"action"),
            Candidate::Startup => Seen::Letters(b"startup"),
            Candidate::New => Seen::Letters(b"new"),
            Candidate::After => Seen::Letters(b"after"),
        }
    }

    /// Puts its token behind a text.
    pub fn push_token(self, text: &mut Vec<u8>) -> Result<(), NoMemory>
        ensures { OnOk result (text.new.items ≡ text.old.items ++ lexeme_words (candidate_token self)) }
    {
        match self.token() {
            Seen::Letters(letters) => text.extend_from_slice(letters)?,
            Seen::Symbol(sign) => text.push(sign)?,
            Seen::Number(_) => text.push(b'1')?,
            Seen::Code => text.extend_from_slice(b"{= =}")?,
            Seen::Text => text.extend_from_slice(b"\"\"")?,
            Seen::Arrow => text.extend_from_slice(b"->")?,
            // No candidate has such a token.
            Seen::Decimal | Seen::TildeArrow => {}
        }
        Ok(())
    }

    /// Puts what it is called behind the text.
    pub fn push_words(self, alloc: Global, out: &mut String) -> Result<(), NoMemory>
        ensures { OnOk result (string_bytes out.new ≡ string_bytes out.old ++ candidate_words self) }
    {
        match self {
            Candidate::Name => out.push_str("a name")?,
            Candidate::Unit => out.push_str("a unit of time (ns us ms s min h d week)")?,
            Candidate::TypeTime => out.push_str("the type `time`")?,
            Candidate::Number => out.push_str("a number")?,
            Candidate::Code => out.push_str("code, {= .. =}")?,
            Candidate::Text => out.push_str("a string")?,
            Candidate::Member => out.push_str("a member of the reactor, as `timer` or `reaction`")?,
            _ => {
                let mut token = Vec::new(alloc);
                self.push_token(&mut token)?;
                push_spelled(alloc, out, &token)?;
            }
        }
        Ok(())
    }
}
