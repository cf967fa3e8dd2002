//! The names that have an event at a tag.

ghost use Rattle.std.specs.Prelude.{◌≡◌, map};
ghost use Rattle.std.specs.Iterator.{YieldsFirst, item_count};
ghost use Rattle.lft_queue.specs.inner.{Pending.names_at, Keys.{pending_at, AreFrom}};

use crate::keys::{Key, name_of_key, tag_of_key};
use lft_ir::{Name, Value};
use lft_tag::Tag;
use std::collections::btree_map::Range;
use std::marker::Model;

/// The names that have an event at a tag, one after another: ports before actions, and each kind by
/// number.
#[derive(Drop)]
pub struct NamesAt<'a> {
    tag: Tag,
    events: Range<'a, Key, Value>,
}

impl<'a> Model for NamesAt<'a> {
    ghost use Rattle.std.specs.Prelude.{List, map};
    ghost use Rattle.lft_ir.specs.declared.parts.Name.{Name};
    ghost use Rattle.lft_queue.specs.inner.{Pending.names_at, Keys.{pending_at, AreFrom}};

    ghost Value = { List Name };

    ghost view = { λ a. names_at a.tag (map pending_at a.events) };

    ghost invariant = { λ a. AreFrom a.tag a.events };
}

impl<'a> NamesAt<'a> {
    // the names at the tag among events from the tag on
    pub(crate) fn new(tag: Tag, events: Range<'a, Key, Value>) -> NamesAt<'a>
        requires { AreFrom tag events }
        ensures { result ≡ names_at tag (map pending_at events.entry) }
    {
        NamesAt { tag, events }
    }
}

impl<'a> Iterator for NamesAt<'a> {
    type Item = Name;

    ghost next_gives = { YieldsFirst (λ names. names) };

    ghost remaining = { item_count (λ names. names) };

    // Events are in the order of their tags: from the first later one on there is no name left.
    fn next(&mut self) -> Option<Name> {
        let Some((key, _)) = self.events.next() else {
            return None;
        };
        if !self.tag.is_same(tag_of_key(*key)) {
            return None;
        }
        Some(name_of_key(*key))
    }
}
