//! A file of a program, and the tokens of all files by number.

ghost use Rattle.std.specs.Prelude.{◌≡◌, IfNone, IfSome};
ghost use Rattle.lft_whole.specs.inner.Sources.Tokens.{StandsAt, number_at};

use crate::File;
use crate::sources::stop::Place;

/// Where a token begins, for people: line and column count from 1. A letter of several bytes counts once.
#[derive(Clone, Copy, Debug, PartialEq, Eq)]
pub struct Spot {
    pub line: usize,
    pub column: usize,
}

/// A file of a program.
#[derive(Debug, Drop)]
pub struct SourceFile {
    /// Its path without `.` and `..`.
    pub path: String,
    pub tree: File,
    /// The number of the file that each import names.
    pub imports: Vec<usize>,
    /// Where each token begins, and last where the text ends.
    pub spots: Vec<Spot>,
    /// Its bytes.
    pub text: Vec<u8>,
    /// The number of its first token among those of all files.
    pub first: usize,
}

impl SourceFile {
    ghost use Rattle.std.specs.Prelude.{◌≡◌, ℕ, IfNone, IfSome};
    ghost use Rattle.lft_whole.specs.{Sources.Spots.spot_at, inner.Sources.Tokens.HasToken};

    /// Where the token of this number begins.
    pub fn spot(&self, token: usize) -> Spot
        ensures { result ≡ spot_at self.now.spots.items token }
    {
        match self.spots.get(token) {
            Some(spot) => *spot,
            // Each token has a spot, and so has the end: this doesn't come.
            None => Spot { line: 1, column: 1 },
        }
    }

    /// Which token of the file has this number among those of all files.
    fn own(&self, number: usize) -> Option<usize>
        ensures some { IfSome result (HasToken self.now number) }
        ensures none { IfNone result ((token : ℕ) → HasToken self.now number token → ⊥) }
    {
        // A smaller number is of a file before this one.
        let token = number.checked_sub(self.first)?;
        if token < self.spots.len() {
            Some(token)
        } else {
            None
        }
    }
}

/// The number of a token among those of all files.
pub fn number_of(files: &[SourceFile], place: Place) -> usize
    ensures { result ≡ number_at files.now place }
{
    match files.get(place.file) {
        // No clause bounds what a file says of itself. Of files that were read the sum is below the limit.
        Some(file) => file.first.saturating_add(place.token),
        None => place.token,
    }
}

/// Where the token of this number among those of all files stands. The end of a file counts as one.
pub fn place_of(files: &[SourceFile], number: usize) -> Option<Place>
    ensures some { IfSome result (StandsAt files.now number) }
    ensures none { IfNone result ((place : Place) → StandsAt files.now number place → ⊥) }
{
    for file in 0..files.len() {
        if let Some(token) = files[file].own(number) {
            return Some(Place { file, token });
        }
    }
    None
}
