//! How many pairs of reactions had open runs together.

ghost use Rattle.std.specs.Prelude.{◌↔◌, ◌+◌, ◌<◌, ◌≤◌, ℕ, IsTrue, length, min};
ghost use Rattle.lft_graph.specs.Counts.{Count, CountPairs};
ghost use Rattle.lft_coverage.specs.inner.{Facts.HasSets, Pairs.{HaveMet, IsCountedWith}};

use lft_counts::Overlaps;
use lft_ir::Program;

/// Whether a pair met, and is to be counted with this reaction: where both met the other, it is counted
/// with the greater number.
fn is_counted(program: &Program, overlaps: &Overlaps, reaction: u32, other: u32) -> bool
    requires sets { HasSets program.now overlaps.now }
    requires reaction { reaction < length program.now.reactions }
    requires other { other < length program.now.reactions }
    ensures { IsTrue result ↔ IsCountedWith overlaps.now other reaction }
{
    overlaps.has_met(reaction, other) && (other < reaction || !overlaps.has_met(other, reaction))
}

/// How many pairs are counted with a reaction, of 64 others from a number on.
fn pairs_from(program: &Program, overlaps: &Overlaps, reaction: u32, from: usize) -> usize
    requires sets { HasSets program.now overlaps.now }
    requires reaction { reaction < length program.now.reactions }
    requires from { from ≤ length program.now.reactions }
    ensures { (n : ℕ) → Count (λ a. IsCountedWith overlaps.now a reaction) from n → Count (λ a. IsCountedWith overlaps.now a reaction) (min (length program.now.reactions) (from + 64)) (n + result) }
{
    let mut many = 0;
    for other in from..program.reactions().min(from + 64) {
        if is_counted(program, overlaps, reaction, other as u32) {
            many += 1;
        }
    }
    many
}

/// How many pairs are counted with a reaction. Reactions that it never met are passed 64 at a time.
fn pairs_with(program: &Program, overlaps: &Overlaps, reaction: u32) -> usize
    requires sets { HasSets program.now overlaps.now }
    requires reaction { reaction < length program.now.reactions }
    ensures { Count (λ a. IsCountedWith overlaps.now a reaction) (length program.now.reactions) result }
{
    let mut many = 0;
    for word in 0..program.reactions() / 64 + 1 {
        if !overlaps.has_none(reaction, word) {
            many += pairs_from(program, overlaps, reaction, word * 64);
        }
    }
    many
}

/// How many pairs of reactions had open runs together.
pub(crate) fn met_pairs(program: &Program, overlaps: &Overlaps) -> usize
    requires { HasSets program.now overlaps.now }
    ensures { CountPairs (HaveMet overlaps.now) (length program.now.reactions) result }
{
    let mut many = 0;
    for reaction in 0..program.reactions() {
        many += pairs_with(program, overlaps, reaction as u32);
    }
    many
}
