#![tactic(auto)]
//! Laws alone, and no code: the core tree of a program is the whole program.
//!
//! - `expanded`: what a program means, written out: a whole one and a core one.
//! - `fits`: how the settings of a program stand to its instances.
//!
//! Each law stands on a function without code. `law_of_lowering` is the one that a verdict rests on: a tree
//! that lowering makes, of which no cause of refusal holds, is the whole program. But where a reaction has no
//! trigger, as its channels are none, a logical action that nothing schedules triggers it.

pub mod expanded;
pub mod fits;

ghost use Rattle.lft_same.specs.inner.Laws.{InsideTimesLaw, KnownLaw, LoweredLaw, MainTimesLaw, PeriodLaw, TimeLaw};

use lft_whole::sources::SourceFile;

/// Times of core instances are those of the language. It does no work.
pub fn laws_of_times(files: &[SourceFile])
    ensures main { MainTimesLaw files.now }
    ensures inside { InsideTimesLaw files.now }
    ensures time { TimeLaw files.now }
    ensures known { KnownLaw }
    ensures period { PeriodLaw files.now }
{}

/// A lowered program is the whole program. It does no work.
pub fn law_of_lowering(files: &[SourceFile])
    ensures { LoweredLaw files.now }
{}
