//! Names of few bytes.

ghost use Rattle.std.specs.Prelude.{◌≡◌, ◌<◌, ◌≤◌, ◌↔◌, length, take, IsTrue};

/// So many bytes may a short name have.
const ROOM: usize = 31;

/// Whether a name is too long.
pub(crate) fn is_long(name: &[u8]) -> bool
    ensures { IsTrue result ↔ (31 < length name.now) }
{
    name.len() > ROOM
}

/// A name that isn't too long.
#[derive(Clone, Copy)]
pub(crate) struct ShortName {
    pub(crate) bytes: [u8; 31],
    pub(crate) len: u8,
    ghost within: { len ≤ 31 },
}

impl ShortName {
    /// The name, or an empty one in place of a name that is too long.
    pub(crate) fn of(name: &[u8]) -> ShortName
        ensures short { length name.now ≤ 31 → name.now ≡ take result.len result.bytes }
        ensures long { 31 < length name.now → result.len ≡ 0 }
    {
        let mut bytes = [0; 31];
        if is_long(name) {
            return ShortName { bytes, len: 0 };
        }
        for at in 0..name.len() {
            bytes[at] = name[at];
        }
        let len = name.len() as u8;
        ShortName { bytes, len }
    }

    /// Whether it is this one, which isn't empty.
    #[inline(always)]
    pub(crate) fn is(&self, name: &[u8]) -> bool
        ensures { IsTrue result ↔ (0 < self.now.len) × (name.now ≡ take self.now.len self.now.bytes) }
    {
        0 < self.len && name == &self.bytes[..self.len as usize]
    }
}
