//! Where what shows a cause stands in the text.

ghost use Rattle.std.specs.Prelude.{◌≡◌};
ghost use Rattle.lft_program_diagnostics.specs.Spots.{found_spot, later, witness_spot};

use crate::spans::{Span, name_spot, reactor_spot, time_spot, token_spot};
use lft_syntax::Token;
use lft_tree::Reference;
use lft_validate::{Finding, Witness};

/// Where what the finding shows stands: of two that are one the second.
fn found_spot(tokens: &[Token], finding: Finding) -> Option<Span>
    ensures { result ≡ found_spot tokens.now finding.entry }
{
    match finding {
        Finding::GivenTwice { second, .. } => token_spot(tokens, second.at),
        Finding::UnknownReactor { instance } => token_spot(tokens, instance.reactor_at),
        Finding::UnknownName { name } => name_spot(tokens, name),
        Finding::UnknownTime { time } => time_spot(tokens, time),
        Finding::UnknownParameter { value, .. } => token_spot(tokens, value.at),
        Finding::WrongPlace { name, .. } => name_spot(tokens, name),
        Finding::WrongTime { time, .. } => time_spot(tokens, time),
        Finding::MainHasPort { port } => token_spot(tokens, port.at),
        Finding::WidthMismatch { connection } => token_spot(tokens, connection.arrow),
        Finding::NoTrigger { reaction } => token_spot(tokens, reaction.at),
        Finding::NamedTwice { second, .. } => name_spot(tokens, second),
        Finding::LongTime { time } => time_spot(tokens, time),
    }
}

/// The name that stands later in the text.
fn later<'a>(one: &'a Reference, other: &'a Reference) -> &'a Reference
    ensures { result.now ≡ later one.now other.now }
{
    if one.at < other.at { other } else { one }
}

/// Where what the witness shows stands: of two that are one, or that write one port, the second.
pub(crate) fn spot_of(tokens: &[Token], witness: Witness) -> Option<Span>
    ensures { result ≡ witness_spot tokens.now witness.entry }
{
    match witness {
        Witness::NoMain => None,
        Witness::TwoMains { second, .. } => reactor_spot(tokens, second),
        Witness::SameReactors { second, .. } => token_spot(tokens, second.at),
        Witness::DeclaredTwice { second, .. } => token_spot(tokens, second.at),
        Witness::Member { finding, .. } => found_spot(tokens, finding),
        Witness::JoinedTwice { second, .. } => name_spot(tokens, second),
        Witness::JoinedAndWritten {
            joined,
            written,
            ..
        } => name_spot(tokens, later(joined, written)),
        Witness::LongDefault { parameter, .. } => token_spot(tokens, parameter.at),
    }
}

/// Where the first of the two things stands that a witness names, if it names two.
pub(crate) fn spot_before(tokens: &[Token], witness: Witness) -> Option<Span> {
    match witness {
        Witness::TwoMains { first, .. } => reactor_spot(tokens, first),
        Witness::SameReactors { first, .. } => token_spot(tokens, first.at),
        Witness::DeclaredTwice { first, .. } => token_spot(tokens, first.at),
        Witness::Member {
            finding: Finding::GivenTwice { first, .. },
            ..
        } => token_spot(tokens, first.at),
        Witness::Member {
            finding: Finding::NamedTwice { first, .. },
            ..
        } => name_spot(tokens, first),
        Witness::JoinedTwice { first, .. } => name_spot(tokens, first),
        Witness::JoinedAndWritten {
            joined,
            written,
            ..
        } => {
            if joined.at < written.at {
                name_spot(tokens, joined)
            } else {
                name_spot(tokens, written)
            }
        }
        Witness::NoMain | Witness::LongDefault { .. } | Witness::Member { .. } => None,
    }
}
