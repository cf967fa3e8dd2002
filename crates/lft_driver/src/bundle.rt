//! The three texts of a bundle.

ghost use Rattle.std.specs.Prelude.{◌≡◌, ◌≢◌, ◌<◌, ◌↔◌, ◌++◌, ℕ, IsTrue, IfErr, IfOk, IfSome, IfNone, List, length, take, drop, codes};
ghost use Rattle.lft_driver.specs.{Bundles.{StartsLine, IsBundle, IsCut, IsMarkerLine}, Markers.IsMissing};

const PROGRAM: &[u8] = b"--- program\n";

const EXTERNALS: &[u8] = b"--- externals\n";

const TRACE: &[u8] = b"--- trace\n";

/// A program, its external inputs and a trace of it, as texts.
#[derive(Clone, Copy, Debug)]
pub struct Bundle<'a> {
    pub program: &'a [u8],
    pub externals: &'a [u8],
    pub trace: &'a [u8],
}

/// Whether the marker stands at the place.
fn stands_at(text: &[u8], marker: &[u8], place: usize) -> bool
    requires { place < length text.now }
    ensures { IsTrue result ↔ (take (length marker.now) (drop place text.now) ≡ marker.now) }
{
    text[place..].starts_with(marker)
}

/// Whether a line begins at the place: at the head of the text, or after a line feed.
fn begins_line(text: &[u8], place: usize) -> bool
    requires { place < length text.now }
    ensures { IsTrue result ↔ StartsLine text.now place }
{
    place == 0 || text[place - 1] == b'\n'
}

/// Whether the line that begins at the place is the marker, which has its line feed.
fn is_marker_line(text: &[u8], marker: &[u8], place: usize) -> bool
    requires { place < length text.now }
    ensures { IsTrue result ↔ IsMarkerLine text.now marker.now place }
{
    begins_line(text, place) && stands_at(text, marker, place)
}

/// What stands before the first line that is the marker, and what follows that line.
fn cut<'a>(text: &'a [u8], marker: &[u8]) -> Option<(&'a [u8], &'a [u8])>
    ensures some { IfSome result (λ r. IsCut text.now marker.now r.0.now r.1.now) }
    ensures none { IfNone result ((before after : List ℕ) → IsCut text.now marker.now before after → ⊥) }
{
    for place in 0..text.len() {
        if is_marker_line(text, marker, place) {
            return Some((&text[..place], &text[place + marker.len()..]));
        }
    }
    None
}

/// A marker of a bundle.
#[derive(Clone, Copy, Debug, PartialEq, Eq)]
pub(crate) enum Marker {
    Program,
    Externals,
    Trace,
}

/// Whether some marker stands in the text with a carriage return behind it.
pub(crate) fn has_returned_marker(text: &[u8]) -> bool {
    // Asked of a refused bundle alone, so it may look at each place.
    for place in 0..text.len() {
        let rest = &text[place..];
        if rest.starts_with(b"--- program\r")
            || rest.starts_with(b"--- externals\r")
            || rest.starts_with(b"--- trace\r")
        {
            return true;
        }
    }
    false
}

/// What follows the first line, if that is the marker of the program.
fn behind_program(text: &[u8]) -> Option<&[u8]>
    ensures some { IfSome result (λ rest. text.now ≡ codes "--- program\n" ++ rest.now) }
    ensures none { IfNone result ((rest : List ℕ) → text.now ≢ codes "--- program\n" ++ rest) }
{
    text.strip_prefix(PROGRAM)
}

/// The texts of a bundle, else the first marker that is missing.
pub(crate) fn read_bundle(text: &[u8]) -> Result<Bundle<'_>, Marker>
    ensures bundle { IfOk result (λ b. IsBundle text.now b.program.now b.externals.now b.trace.now) }
    ensures missing { IfErr result (IsMissing text.now) }
{
    let Some(rest) = behind_program(text) else {
        return Err(Marker::Program);
    };
    // Each is looked for behind the one before: a line `--- trace` in the program belongs to that.
    let Some((program, others)) = cut(rest, EXTERNALS) else {
        return Err(Marker::Externals);
    };
    let Some((externals, trace)) = cut(others, TRACE) else {
        return Err(Marker::Trace);
    };
    Ok(Bundle {
        program,
        externals,
        trace,
    })
}

/// The texts of a bundle: the lines after a first line `--- program` up to a line `--- externals`,
/// those after it up to a line `--- trace`, and all that follows. None where a marker is missing.
/// It takes no memory.
pub fn split_bundle(text: &[u8]) -> Option<Bundle<'_>>
    ensures some { IfSome result (λ b. IsBundle text.now b.program.now b.externals.now b.trace.now) }
    ensures none { IfNone result ((program externals trace : List ℕ) → IsBundle text.now program externals trace → ⊥) }
{
    match read_bundle(text) {
        Ok(bundle) => Some(bundle),
        Err(_) => None,
    }
}
