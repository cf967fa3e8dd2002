//! Which channels of banks and multiports are joined, by number.

ghost use Rattle.std.specs.Prelude.{◌≡◌, ◌*◌, ◌<◌, Some, slice_get};
ghost use Rattle.lft_elaborate.specs.inner.Channels.Channels.{places, joined, left_channel};

/// How many channels are joined where there are so many on each side.
pub fn joined(left: usize, right: usize, broadcast: bool) -> usize
    ensures { result ≡ joined left right broadcast }
{
    if broadcast {
        // Nothing is joined then. So `left_channel` never divides by 0.
        if left == 0 { 0 } else { right }
    } else {
        // Sides that differ are no fault. A compiler warns, and joins as many as there are.
        left.min(right)
    }
}

/// The channel on the left that is joined to this one on the right.
pub fn source(left: usize, right: usize, broadcast: bool, channel: usize) -> usize
    requires { channel < joined left right broadcast }
    ensures result { result ≡ left_channel left broadcast channel }
    ensures there { result < left }
{
    // Over and over, as 0 1 0 1, and not in blocks, as 0 0 1 1.
    if broadcast { channel % left } else { channel }
}

/// The member and the channel that stand at a place of a bank's multiport.
pub fn place_at(members: usize, channels: usize, interleaved: bool, place: usize) -> (usize, usize)
    requires { place < members * channels }
    ensures { slice_get (places members channels interleaved) place ≡ Some result }
{
    // Members are outermost, but in `interleaved(..)` channels are.
    if interleaved {
        (place % members, place / members)
    } else {
        (place / channels, place % channels)
    }
}
