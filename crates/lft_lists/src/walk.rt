//! A walk along the ways from number to number: an order in which each number stands behind those that it
//! leads to, or a circle.

ghost use Rattle.std.specs.Prelude.{◌≡◌, ◌≢◌, ℕ, List, [], Some, ◌+◌, ◌<◌, ◌≤◌, ◌^◌, ◌↔◌, IfOk, IfSome, IfNone, IsTrue, drop, length, slice_get};
ghost use Rattle.lft_lists.specs.{Walks.IsCircle, inner.Walking.{WaysPassed, Has, IsPassed, IsWalk, IsWalked, Leads}, declared.walk.Stage.TheVariants.New};

use crate::item_at;
use std::alloc::{AllocError, Global};

/// What numbers lead to.
pub trait Ways {
    ghost use Rattle.std.specs.Prelude.{ℕ, List, ◌≡◌, ◌+◌, ◌<◌, ◌^◌, IfSome, slice_get};

    ghost ways: { Self → ℕ → List ℕ };

    /// The number at the place, counted from 0, among those that a number leads to.
    fn way(&self, number: usize, place: usize) -> Option<usize>
        ensures value { result ≡ slice_get (ways self.now number) place }
        ensures room { IfSome result (λ _. place + 1 < 2 ^ 64) };
}

/// What a walk over all numbers ends in.
#[derive(Drop)]
pub enum Walked {
    /// The numbers, each behind those that it leads to.
    Order(Vec<usize>),
    /// Numbers of which each leads to the next, and the last to the first.
    Circle(Vec<usize>),
}

/// How far a number is looked at: not yet, on the path, or to the end.
#[derive(Clone, Copy, PartialEq, Eq, Drop)]
enum Stage {
    New,
    Open,
    Done,
}

/// Whether the walk is done with the number. One past the end stands for none.
fn is_passed(marks: &[Stage], number: usize) -> bool
    ensures { IsTrue result ↔ IsPassed marks.now number }
{
    number >= marks.len() || marks[number] == Stage::Done
}

/// The first way of a number, from that place on, to one that the walk isn't done with: its place, and where it
/// leads.
fn first_left<W: Ways>(
    ways: &W,
    marks: &[Stage],
    number: usize,
    from: usize,
) -> Option<(usize, usize)>
    ensures some { IfSome result (λ p. (slice_get (W.ways ways.now number) p.0 ≡ Some p.1) × (¬ IsPassed marks.now p.1) × WaysPassed marks.now (W.ways ways.now number) from p.0) }
    ensures none { IfNone result (WaysPassed marks.now (W.ways ways.now number) from (length (W.ways ways.now number))) }
{
    let mut place = from;
    'ways: while let Some(next) = ways.way(number, place) {
        if !is_passed(marks, next) {
            return Some((place, next));
        }
        place += 1;
    }
    None
}

/// The end of the path, from a number on.
fn path_from(alloc: Global, path: &[usize], number: usize) -> Result<Vec<usize>, AllocError>
    requires { Has path.now number }
    ensures { IfOk result (λ v. (n : ℕ) × (slice_get path.now n ≡ Some number) × (v.items ≡ drop n path.now)) }
{
    let mut place = 0;
    'places: while item_at(path, place) != number {
        place += 1;
    }
    Vec::from_slice(alloc, &path[place..])
}

/// Walks from a number, if it wasn't looked at before. The circle that this comes to, if it does.
fn walk_from<W: Ways>(
    alloc: Global,
    ways: &W,
    marks: &mut [Stage],
    nexts: &mut [usize],
    order: &mut Vec<usize>,
    start: usize,
) -> Result<Option<Vec<usize>>, AllocError>
    requires within { start < length marks.old }
    requires walk { IsWalk (W.ways ways.now) start marks.old nexts.old [] order.old.items }
    ensures walk { IfOk result (λ found. IfNone found (IsWalk (W.ways ways.now) (start + 1) marks.new nexts.new [] order.new.items)) }
    ensures circle { IfOk result (λ found. IfSome found (λ v. IsCircle (Leads (W.ways ways.now)) v.items)) }
{
    match item_at(marks, start) {
        Stage::New => {}
        _ => return Ok(None),
    }
    // A list, so that no depth of calls grows with the input.
    let mut path = Vec::new(alloc);
    marks[start] = Stage::Open;
    path.push(start)?;
    'walk: while let Some(top) = path.pop() {
        match first_left(ways, marks, top, nexts[top]) {
            None => {
                marks[top] = Stage::Done;
                order.push(top)?;
            }
            Some((place, next)) => {
                nexts[top] = place;
                path.push(top)?;
                match item_at(marks, next) {
                    Stage::New => {}
                    _ => return Ok(Some(path_from(alloc, &path, next)?)),
                }
                marks[next] = Stage::Open;
                path.push(next)?;
            }
        }
    }
    Ok(None)
}

/// The numbers below the count, each behind those of them that it leads to, or a circle. It takes time in the
/// number of ways. The walk begins at each number in turn, and takes the ways of each in their order.
pub fn walk_all<W: Ways>(alloc: Global, ways: &W, count: usize) -> Result<Walked, AllocError>
    ensures { IfOk result (IsWalked (W.ways ways.now) count) }
{
    let mut marks = vec![in alloc; Stage::New; count]?;
    let mut nexts = vec![in alloc; 0; count]?;
    let mut order = Vec::new(alloc);
    'starts: for start in 0..count {
        if let Some(circle) = walk_from(alloc, ways, &mut marks, &mut nexts, &mut order, start)? {
            return Ok(Walked::Circle(circle));
        }
    }
    Ok(Walked::Order(order))
}
