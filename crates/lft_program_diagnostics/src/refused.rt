//! A program that has a tree and is refused.

use lft_syntax::Token;
use lft_tree::Reactor;
use std::alloc::Global;

/// A program that has a tree, with its reactors in the order of the file.
#[derive(Clone, Copy)]
pub(crate) struct Refused<'a> {
    pub alloc: Global,
    pub text: &'a [u8],
    pub tokens: &'a [Token],
    pub reactors: &'a [&'a Reactor],
}

impl<'a> Refused<'a> {
    /// The reactor with that place in the file.
    pub(crate) fn reactor(&self, place: usize) -> Option<&'a Reactor> {
        Some(*self.reactors.get(place)?)
    }

    /// The first reactor of that name.
    pub(crate) fn named(&self, name: &str) -> Option<&'a Reactor> {
        // One by one: of a refused program this is asked a few times.
        for reactor in self.reactors {
            if let Some(other) = &reactor.name {
                if other.as_str() == name {
                    return Some(*reactor);
                }
            }
        }
        None
    }
}
