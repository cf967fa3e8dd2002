//! Where the tokens of a text stand, by line and column.

ghost use Rattle.std.specs.Prelude.{◌+◌, ◌<◌, ◌≤◌, IfOk, length};
ghost use Rattle.lft_whole_parser.specs.Imports.Places.{AreSpots, IsSpotOfByte};
ghost use Rattle.lft_whole.specs.inner.Tokens.{AreTokens};

use lft_text_diagnostics::{begins_letter, place_of};
use lft_whole::Token;
use lft_whole::sources::Spot;
use std::alloc::{AllocError, Global};

/// The spot of the first byte.
fn first(text: &[u8]) -> Spot
    ensures { IsSpotOfByte text.now 0 result }
{
    Spot { line: 1, column: 1 }
}

/// The spot behind a byte.
fn after(text: &[u8], at: usize, spot: Spot) -> Spot
    requires inside { at < length text.now }
    requires spot { IsSpotOfByte text.now at spot }
    ensures { IsSpotOfByte text.now (at + 1) result }
{
    let byte = text[at];
    if byte == b'\n' {
        return Spot {
            line: spot.line + 1,
            column: 1,
        };
    }
    // The bytes of a letter behind its first move no column.
    if begins_letter(byte) {
        return Spot {
            line: spot.line,
            column: spot.column + 1,
        };
    }
    spot
}

/// The spot of a byte further on.
fn spot_at(text: &[u8], from: usize, spot: Spot, to: usize) -> Spot
    requires order { from ≤ to }
    requires inside { to ≤ length text.now }
    requires spot { IsSpotOfByte text.now from spot }
    ensures { IsSpotOfByte text.now to result }
{
    let mut here = spot;
    for at in from..to {
        here = after(text, at, here);
    }
    here
}

/// Where each token of a text begins, and last where the text ends.
pub(crate) fn spots(alloc: Global, text: &[u8], tokens: &[Token]) -> Result<Vec<Spot>, AllocError>
    requires { AreTokens text.now tokens.now }
    ensures { IfOk result (λ spots. AreSpots text.now tokens.now spots.items) }
{
    let mut spots = Vec::new(alloc);
    let mut spot = first(text);
    let mut from = 0;
    for place in 0..tokens.len() {
        let start = tokens[place].start;
        // On from the token before: from the start of the text each time, it would cost bytes times tokens.
        spot = spot_at(text, from, spot, start);
        from = start;
        spots.push(spot)?;
    }
    spots.push(spot_at(text, from, spot, text.len()))?;
    Ok(spots)
}

/// Where a byte of a text stands.
pub(crate) fn spot_of(text: &[u8], at: usize) -> Spot
    requires { at ≤ length text.now }
    ensures { IsSpotOfByte text.now at result }
{
    let place = place_of(text, at);
    Spot {
        line: place.line,
        column: place.column,
    }
}
