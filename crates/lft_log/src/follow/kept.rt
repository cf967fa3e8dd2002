//! What is kept of a log that is read.

ghost use Rattle.std.specs.Prelude.{◌<◌};
ghost use Rattle.lft_log.specs.Follow.Kept.{IsKeptOn};

use lft_tag::MAX_ROWS;

/// No more bytes of a log are kept.
const MOST: usize = 1 << 30;

/// What is kept of a log.
#[derive(Drop)]
pub enum Kept {
    /// It isn't asked for, or memory was refused.
    Nothing,
    /// All that was read.
    All(Vec<u8>),
    /// More was read than is kept, so all is given up.
    TooLong,
}

/// Bytes that are kept, and a piece behind them, where so many rows came before.
fn with_piece(bytes: Vec<u8>, rows: u64, piece: &[u8]) -> Kept
    ensures { IsKeptOn (4000000 < rows) (Kept.All bytes) result piece.now }
{
    if rows > MAX_ROWS as u64 || piece.len() > MOST || bytes.len() > MOST - piece.len() {
        return Kept::TooLong;
    }
    let mut bytes = bytes;
    match bytes.extend_from_slice(piece) {
        Ok(()) => Kept::All(bytes),
        Err(_) => Kept::Nothing,
    }
}

/// Puts a piece of a log behind what is kept of it, where so many rows came before.
pub(crate) fn keep(kept: &mut Kept, rows: u64, piece: &[u8])
    ensures { IsKeptOn (4000000 < rows) kept.old kept.new piece.now }
{
    *kept = match std::mem::replace(kept, Kept::Nothing) {
        Kept::All(bytes) => with_piece(bytes, rows, piece),
        other => other,
    };
}
