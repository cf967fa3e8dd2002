//! What could stand in place of a token, found by trying.

ghost use Rattle.std.specs.Prelude.{◌≡◌, IfOk, true};
ghost use Rattle.lft_whole_driver.specs.inner.Could.{IsReadPast};

use lft_tag::NoMemory;
use lft_text_diagnostics::Candidate;
use lft_text_diagnostics::candidates::{Trial, candidates, push_candidates};
use lft_whole::{TextFault, TreeFault, lex};
use lft_whole_parser::parse;
use std::alloc::Global;

/// Where more could stand, it isn't said what.
const MOST: usize = 10;

/// Whether a text is read further than the token of this number.
fn is_read_past(alloc: Global, text: &[u8], token: usize) -> Result<bool, NoMemory>
    ensures { IfOk result (λ yes. yes ≡ true → IsReadPast text.now token) }
{
    let tokens = match lex(alloc, text) {
        Ok(tokens) => tokens,
        Err(TextFault::BadText(_)) => return Ok(false),
        Err(TextFault::NoMemory) => return Err(NoMemory),
    };
    match parse(alloc, text, &tokens) {
        Ok(_) => Ok(true),
        // The candidate stands last. A refusal behind it says only that the text ends too soon.
        Err(TreeFault::Unexpected(at)) | Err(TreeFault::Package(at)) => Ok(token < at),
        Err(TreeFault::NoMemory) => Err(NoMemory),
    }
}

/// What stands before a token of a text, which is tried with others in place of that token.
#[derive(Clone, Copy)]
struct Prefix<'a> {
    alloc: Global,
    text: &'a [u8],
    token: usize,
}

impl Trial for Prefix<'_> {
    ghost use Rattle.lft_whole_driver.specs.inner.Could.{CanStandLast};

    ghost is_sound = { λ front. Unit {0} };

    ghost stands = { λ front candidate. CanStandLast front.text.now front.token candidate };

    fn can_stand(&self, candidate: Candidate) -> Result<bool, NoMemory> {
        // A try reads the front anew, however long it is.
        let mut text = Vec::from_slice(self.alloc, self.text)?;
        // A blank, so that the candidate doesn't go on with the last token of the front.
        text.push(b' ')?;
        candidate.push_token(&mut text)?;
        is_read_past(self.alloc, &text, self.token)
    }
}

/// Puts what could stand in place of a token behind a text: the bytes before it are the front of its file.
pub(crate) fn push_could(
    alloc: Global,
    out: &mut String,
    text: &[u8],
    start: usize,
    token: usize,
) -> Result<(), NoMemory> {
    let front = Prefix {
        alloc,
        text: text.get(..start).unwrap_or(b""),
        token,
    };
    let found = candidates(alloc, &front)?;
    push_candidates(alloc, out, &found, MOST)
}

/// Puts behind a text that a unit could stand behind a token of a file, where one can. The token ends there.
pub(crate) fn push_unit(
    alloc: Global,
    out: &mut String,
    text: &[u8],
    end: usize,
    token: usize,
) -> Result<(), NoMemory> {
    let front = Prefix {
        alloc,
        text: text.get(..end).unwrap_or(b""),
        // A unit would be the next token.
        token: token.saturating_add(1),
    };
    if front.can_stand(Candidate::Unit)? {
        out.push_str("  Behind it could stand: ")?;
        Candidate::Unit.push_words(alloc, out)?;
        out.push_str(".\n")?;
    }
    Ok(())
}
