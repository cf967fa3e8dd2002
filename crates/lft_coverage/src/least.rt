//! The reactions that ran least often.

use lft_ir::Program;
use lft_ir::words::{push_number, push_reaction};
use lft_lists::item_at;
use std::alloc::AllocError;

/// So many are told.
const MOST: usize = 4;

/// A reaction that ran, and how many runs it had.
#[derive(Clone, Copy, Drop)]
struct Ran {
    runs: u64,
    reaction: u32,
}

/// Whether the one ran less often, or as often and has the lesser number.
fn is_less(one: Ran, other: Ran) -> bool {
    one.runs < other.runs || (one.runs == other.runs && one.reaction < other.reaction)
}

/// The reaction that ran least often of those behind the last one that was told.
fn next_least(program: &Program, counts: &[u64], last: Option<Ran>) -> Option<Ran> {
    let mut least = None;
    for reaction in 0..program.reactions().min(counts.len()) {
        let mine = Ran {
            runs: item_at(counts, reaction),
            reaction: reaction as u32,
        };
        let is_behind = match last {
            Some(told) => is_less(told, mine),
            None => true,
        };
        let is_least = match least {
            Some(so_far) => is_less(mine, so_far),
            None => true,
        };
        if mine.runs != 0 && is_behind && is_least {
            least = Some(mine);
        }
    }
    least
}

/// Tells the reactions that ran least often, where some ran.
pub(crate) fn tell_least(
    text: &mut String,
    program: &Program,
    counts: &[u64],
) -> Result<(), AllocError> {
    let mut last = None;
    // A pass over the counts for each of them, in place of a sorted copy: no memory is asked for.
    for turn in 0..MOST {
        let Some(next) = next_least(program, counts, last) else {
            break;
        };
        text.push_str(if turn == 0 { "  least often: " } else { ", " })?;
        push_reaction(text, program, next.reaction)?;
        text.push_str(" ")?;
        push_number(text, next.runs)?;
        last = Some(next);
    }
    if last.is_some() {
        text.push_str("\n")?;
    }
    Ok(())
}
