//! Tags and names as keys of an ordered map.

ghost use Rattle.std.specs.Prelude.{◌≡◌, ◌↔◌};
ghost use Rattle.lft_queue.specs.inner.Keys.{key_of, key_tag, name_of};

use lft_ir::Name;
use lft_tag::Tag;

/// Time, microstep, whether it is an action, and the number of the port or action: so keys are in
/// the order of their tags.
pub(crate) type Key = (u64, u32, bool, u32);

/// The key of a tag and a port or action.
pub(crate) fn key(tag: Tag, name: Name) -> Key
    ensures { result ≡ key_of tag name }
{
    match name {
        Name::Port(port) => (tag.time, tag.micro, false, port),
        Name::Action(action) => (tag.time, tag.micro, true, action),
    }
}

/// The tag of a key.
pub(crate) fn tag_of_key(key: Key) -> Tag
    ensures { result ≡ key_tag key }
{
    Tag {
        time: key.0,
        micro: key.1,
    }
}

/// The port or action of a key.
pub(crate) fn name_of_key(key: Key) -> Name
    ensures { result ≡ name_of key.2 key.3 }
{
    if key.2 {
        return Name::Action(key.3);
    }
    Name::Port(key.3)
}
