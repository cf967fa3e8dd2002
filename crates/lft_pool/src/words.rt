//! The state words of instances.

ghost use Rattle.std.specs.Prelude.{◌≡◌, ◌↔◌, ◌<◌, IsTrue, pos, length, Some, slice_get, slice_set, IfOk};
ghost use Rattle.lft_ir.specs.declared.parts.Reaction.{Reaction as ReactionOf};

use lft_ir::Program;
use lft_tag::NoMemory;
use std::alloc::Global;

/// The word at the place.
pub(crate) fn word_at(words: &[i64], place: u32) -> i64
    requires { place < length words.now }
    ensures { slice_get words.now place ≡ Some result }
{
    words[place as usize]
}

/// Whether the two words are the same.
pub(crate) fn is_same(a: i64, b: i64) -> bool
    ensures { IsTrue result ↔ (a ≡ b) }
{
    a == b
}

/// Writes the word at the place.
pub(crate) fn set_word(words: &mut Vec<i64>, place: u32, word: i64)
    requires { place < length words.old.items }
    ensures { words.new.items ≡ slice_set words.old.items place word }
{
    words[place as usize] = word;
}

/// A word 0 for each instance that has reactions.
pub(crate) fn no_words(alloc: Global, program: &Program) -> Result<Vec<i64>, NoMemory>
    ensures { IfOk result (λ words. (r : _) (x : ReactionOf) → slice_get program.now.reactions r ≡ Some x → slice_get words.items x.instance ≡ Some (pos 0)) }
{
    let mut most = 0;
    for place in 0..program.reactions() {
        let instance = program.reaction(place as u32).instance;
        if instance > most {
            most = instance;
        }
    }
    Ok(vec![in alloc; 0; most as usize + 1]?)
}
