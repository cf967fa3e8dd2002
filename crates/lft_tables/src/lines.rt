//! Texts cut where a line ends.

ghost use Rattle.std.specs.Prelude.{◌≡◌, ◌<◌, ◌++◌, length, IfSome, false};
ghost use Rattle.lft_tables.specs.{Parts.EndsLine, inner.Parts.{BeginsPlain, IsCut}};

/// The first byte of a byte order mark. A reader takes the mark off where a text begins, and
/// nowhere else.
const MARK: u8 = 239;

/// The text in two parts: up to the first end of a line at or behind this place, and what comes
/// behind it. None where no line ends there, or where a byte order mark may stand behind it.
pub fn cut_behind(text: &[u8], from: usize) -> Option<(&[u8], &[u8])>
    ensures { IfSome result (λ p. (text.now ≡ p.0.now ++ p.1.now) × EndsLine p.0.now × BeginsPlain p.1.now) }
{
    for at in from..text.len() {
        if text[at] == b'\n' {
            let (front, rest) = text.split_at(at + 1);
            if may_begin_with_mark(rest) {
                return None;
            }
            return Some((front, rest));
        }
    }
    None
}

/// The first lines of a text, of so many bytes or a few more, and what comes behind them.
pub fn first_lines(text: &[u8], bytes: usize) -> (&[u8], &[u8])
    ensures cut { IsCut text.now result.0.now result.1.now }
    ensures shorter { 0 < length text.now → length result.1.now < length text.now }
{
    match cut_behind(text, bytes) {
        Some(parts) => parts,
        None => text.split_at(text.len()),
    }
}

/// Whether the text begins as a byte order mark does.
pub fn may_begin_with_mark(text: &[u8]) -> bool
    ensures { result ≡ false → BeginsPlain text.now }
{
    !text.is_empty() && text[0] == MARK
}
