//! How the settings of a program stand to its instances. It has laws alone, and no code.
//!
//! A setting fits an instance where its shape is of the instance's reactor, and its numbers are those of the
//! values there. The main setting fits the main instance. Where one fits, so does that of each member: this
//! carries widths and names to all instances.

ghost use Rattle.lft_same.specs.inner.Fits.Laws.{InsideLaw, MainLaw, NamesLaw, WidthsLaw};

use lft_whole::sources::SourceFile;

/// Reactors and settings of these files are those of the language. It does no work.
pub fn laws_of_settings(files: &[SourceFile])
    ensures names { NamesLaw files.now }
    ensures main { MainLaw files.now }
    ensures inside { InsideLaw files.now }
{}

/// Widths of settings are those of the language. It does no work.
pub fn law_of_widths(files: &[SourceFile])
    ensures { WidthsLaw files.now }
{}
