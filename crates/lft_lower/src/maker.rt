//! What all reactors are made of.

ghost use Rattle.std.specs.Prelude.{◌≡◌, None, map, option_map, slice_get, slice_index_or, unwrap_or};
ghost use Rattle.lft_lower.specs.inner.{Meanings.Names.texts, Needed.needed_in};
ghost use Rattle.lft_whole.specs.inner.Sources.Tokens.{number_at};

use lft_elaborate::Settings;
use lft_whole::sources::{Place, SourceFile, number_of};
use std::alloc::Global;

/// What all reactors are made of: the settings, which are all known.
#[derive(Clone, Copy)]
pub(crate) struct Maker<'s, 'a> {
    pub(crate) alloc: Global,
    pub(crate) files: &'s [SourceFile],
    pub(crate) settings: &'s Settings<'a>,
    /// The names of the settings in the core.
    pub(crate) names: &'s [Option<String>],
    /// For each shape how many parameters each instance of it has to give.
    pub(crate) needed: &'s [usize],
    ghost counted: { needed.now ≡ map needed_in settings.now.shapes.items },
}

impl<'s> Maker<'s, '_> {
    /// The name of a setting in the core, if it has one.
    pub(crate) fn name(self, setting: usize) -> Option<&'s str>
        ensures { option_map (λ name. name.now) result ≡ slice_index_or (texts self.entry.names.now) setting None }
    {
        match self.names.get(setting) {
            Some(Some(name)) => Some(name.as_str()),
            _ => None,
        }
    }

    /// The number of a token of a file among those of all files.
    pub(crate) fn token(self, file: usize, token: usize) -> usize
        ensures { result ≡ number_at self.entry.files.now (record { file = file; token = token }) }
    {
        number_of(self.files, Place { file, token })
    }

    /// How many parameters each instance of a shape has to give.
    pub(crate) fn needed_of(self, shape: usize) -> usize
        ensures { result ≡ unwrap_or (slice_get self.entry.needed.now shape) 0 }
    {
        self.needed.get(shape).copied().unwrap_or(0)
    }
}
