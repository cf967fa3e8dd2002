//! All reactors below the main one, contained ones first.

ghost use Rattle.std.specs.Prelude.{◌≡◌, ◌≤◌, ◌<◌, ℕ, Some, None, IfOk, IfSome, IfNone, OnOk, IsTrue, true, false};
ghost use Rattle.lft_classes.specs.declared.scopes.ReactorNames.{ReactorNames};
ghost use Rattle.lft_classes.specs.inner.{Causes.last_token, Walks.{IsWalk, IsWalkOver, IsList}, Nestings.IsNesting, Shapes.{inside, tables}};

use crate::deciding::decide;
use crate::making::shapes_of;
use crate::scopes::ReactorNames;
use crate::shapes::Shape;
use crate::walk::{Traversal, Visit};
use crate::work::Work;
use lft_whole::sources::{NoProgram, Place, SourceFile, Why};
use std::alloc::Global;

/// The shapes of the main reactor, which is the first one, and of all that it contains.
#[derive(Drop)]
pub struct Nesting<'a> {
    /// What may be listed still.
    pub work: Work,
    pub shapes: Vec<Shape<'a>>,
    /// The numbers of the shapes, contained ones first.
    pub order: Vec<usize>,
}

/// The next instance of a shape, as the number of the member and that of the shape in it.
fn next_child(shapes: &[Shape], visit: Visit) -> Option<(usize, usize)>
    ensures some { IfSome result (λ child. (inside (tables shapes.now) visit.node child.0 ≡ Some child.1) × ((k : ℕ) → visit.next ≤ k → k < child.0 → inside (tables shapes.now) visit.node k ≡ None)) }
    ensures none { IfNone result ((k : ℕ) → visit.next ≤ k → inside (tables shapes.now) visit.node k ≡ None) }
{
    let Some(shape) = shapes.get(visit.node) else {
        return None;
    };
    for number in visit.next..shape.children.len() {
        if let Some(child) = shape.child(number) {
            return Some((number, child.shape));
        }
    }
    None
}

/// Why a shape may not be in the instance of this number, as it contains that.
fn contains_itself(shapes: &[Shape], shape: usize, member: usize) -> NoProgram {
    let Some(found) = shapes.get(shape) else {
        // Neither comes, as the walk came to this member. Want of memory says nothing of a program.
        return NoProgram::NoMemory;
    };
    let Some(inherited) = found.member(member) else {
        return NoProgram::NoMemory;
    };
    NoProgram::at(Why::ContainsItself, inherited.file, inherited.at())
}

/// Goes on with the instances of the shape that is gone over; whether there was one.
fn step(shapes: &[Shape], work: &mut Work, walk: &mut Traversal) -> Result<bool, NoProgram>
    ensures walk { OnOk result ((first : ℕ) → IsWalk (inside (tables shapes.now)) first walk.old → IsWalk (inside (tables shapes.now)) first walk.new) }
    ensures over { IfOk result (λ more. more ≡ false → IsWalkOver walk.new) }
    ensures main { OnOk result (work.new.main ≡ work.old.main) }
    ensures work { IfOk result (λ more. IsTrue more → work.new.left < work.old.left) }
{
    let Some(visit) = walk.top() else {
        return Ok(false);
    };
    work.spend(1)?;
    let Some((member, inner)) = next_child(shapes, visit) else {
        walk.end()?;
        return Ok(true);
    };
    if walk.is_done(inner) {
        walk.pass(member.saturating_add(1))?;
        return Ok(true);
    }
    if walk.enter(inner)? {
        return Ok(true);
    }
    Err(contains_itself(shapes, visit.node, member))
}

/// The shapes, each behind those that it contains. None may contain itself.
fn order_of(alloc: Global, shapes: &[Shape], work: &mut Work) -> Result<Vec<usize>, NoProgram>
    ensures order { IfOk result (λ order. IsList (inside (tables shapes.now)) 0 order.items) }
    ensures main { OnOk result (work.new.main ≡ work.old.main) }
{
    let mut walk = Traversal::of(alloc, 0)?;
    'visits: loop {
        if !step(shapes, work, &mut walk)? {
            break;
        }
    }
    Ok(walk.into_listed())
}

/// The number of the last token of the first file, which is its end.
fn last_token(files: &[SourceFile]) -> usize
    ensures { result ≡ last_token files.now }
{
    match files.first() {
        // The end of the text has a spot, so there is one at least.
        Some(file) => file.spots.len().saturating_sub(1),
        None => 0,
    }
}

impl<'a> Nesting<'a> {
    /// The reactors of the files that the main one of the first file contains.
    pub fn of(alloc: Global, files: &'a [SourceFile]) -> Result<Nesting<'a>, NoProgram>
        ensures nesting { IfOk result (λ nesting. (scopes : ReactorNames) × IsNesting files.now scopes nesting) }
    {
        let scopes = ReactorNames::of(alloc, files)?;
        let main = scopes.main(last_token(files))?;
        let first = Work::of(Place {
            file: main.file,
            token: main.reactor.at,
        });
        let made = shapes_of(alloc, scopes, first, main)?;
        let (mut work, mut shapes) = made;
        let order = order_of(alloc, &shapes, &mut work)?;
        // A parameter is needed where one inside needs what it is given, so these come first.
        for place in 0..order.len() {
            decide(alloc, &mut shapes, order[place])?;
        }
        Ok(Nesting {
            work,
            shapes,
            order,
        })
    }
}
