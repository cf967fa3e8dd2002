//! The shapes of the main reactor and of all that it contains, each made when it is asked for first.

ghost use Rattle.std.specs.Prelude.{◌≡◌, ◌<◌, ℕ, Some, OnOk, IfNone, IfOk, IfSome, length, map, slice_get, string_bytes};
ghost use Rattle.lft_resolve.specs.inner.Tests.{texts};
ghost use Rattle.lft_classes.specs.declared.shapes.{Inherited.Inherited, Shape.Shape};
ghost use Rattle.lft_classes.specs.inner.Below.{IsBelow};
ghost use Rattle.lft_classes.specs.inner.Makings.{AddsShape, AreMadeShapes, AreShapes, GoesOnMaking, HasChildren, IsNeeded, IsOfClass, KeepsBut, KeepsNoted, KnowsNone, KnowsOne, SetsOne};
ghost use Rattle.lft_classes.specs.inner.{Built.{AreGiven, AreNoted, Core, IsChildInstance, IsNoted, cores, first_class, instance_of}, Chains.extended_reactor};
ghost use Rattle.lft_classes.specs.inner.{Circles.GivesOnce, Shapes.{tables, thing_named}};

use crate::scopes::{Class, ReactorNames};
use crate::shapes::{Child, GivenValue, Shape};
use crate::work::Work;
use lft_resolve::index::Index;
use lft_tag::NoMemory;
use lft_whole::sources::{NoProgram, Why};
use lft_whole::{Assignment, Instance};
use std::alloc::Global;

/// The shapes so far.
#[derive(Drop)]
struct Making<'a> {
    alloc: Global,
    scopes: ReactorNames<'a>,
    work: Work,
    shapes: Vec<Shape<'a>>,
    /// For each reactor the number of its shape.
    known: Vec<Option<usize>>,
}

/// The names to which values are given.
fn given_names<'a>(alloc: Global, given: &'a [Assignment]) -> Result<Vec<&'a str>, NoMemory>
    ensures { IfOk result (λ v. texts v.items ≡ map (λ a. string_bytes a.name.text) given.now) }
{
    let mut names = Vec::new(alloc);
    for assignment in given {
        names.push(assignment.name.text.as_str())?;
    }
    Ok(names)
}

/// For what the parameters of a shape are given, in the order of the parameters.
fn given_of<'a>(
    alloc: Global,
    inner: &Shape<'a>,
    file: usize,
    instance: &'a Instance,
) -> Result<Vec<GivenValue<'a>>, NoProgram>
    ensures once { OnOk result (GivesOnce instance.now.given.items) }
    ensures given { IfOk result (λ given. AreGiven (thing_named inner.now) instance.now.given.items given.items) }
{
    let names = given_names(alloc, &instance.given)?;
    let index = Index::of(alloc, &names)?;
    let mut given = Vec::new(alloc);
    for place in 0..instance.given.len() {
        let assignment = &instance.given[place];
        let name = assignment.name.text.as_str();
        let Some(parameter) = inner.parameter(name) else {
            return Err(NoProgram::at(Why::GivesNoParameter, file, assignment.name.at));
        };
        // The index has the first place of each name, so two of one name are
        // found without comparing each two.
        if index.get(name).unwrap_or(place) != place {
            return Err(NoProgram::at(Why::GivenTwice, file, assignment.name.at));
        }
        given.push(GivenValue {
            parameter,
            value: &assignment.value,
        })?;
    }
    given.sort_by_key(|given| given.parameter)?;
    Ok(given)
}

/// The same for the parameters of the shape of this number.
fn given_inside<'a>(
    alloc: Global,
    shapes: &[Shape<'a>],
    shape: usize,
    file: usize,
    instance: &'a Instance,
) -> Result<Vec<GivenValue<'a>>, NoProgram>
    ensures once { OnOk result ((inner : Shape) → slice_get shapes.now shape ≡ Some inner → GivesOnce instance.now.given.items) }
    ensures given { IfOk result (λ given. (inner : Shape) → slice_get shapes.now shape ≡ Some inner → AreGiven (thing_named inner) instance.now.given.items given.items) }
{
    // The other case doesn't come: the caller has just asked for this shape.
    let Some(inner) = shapes.get(shape) else {
        return Ok(Vec::new(alloc));
    };
    let given = given_of(alloc, inner, file, instance)?;
    Ok(given)
}

/// As many times nothing.
fn nothing(alloc: Global, count: usize) -> Result<Vec<Option<usize>>, NoMemory>
    ensures { IfOk result (λ v. KnowsNone v.items) }
{
    let mut list = Vec::new(alloc);
    for _ in 0..count {
        list.push(None)?;
    }
    Ok(list)
}

/// Notes the number of the shape of a reactor.
fn note(known: &mut Vec<Option<usize>>, class: usize, shape: usize)
    ensures { KnowsOne known.old.items known.new.items class shape }
{
    if class < known.len() {
        known[class] = Some(shape);
    }
}

/// Notes what is in the members of a shape.
fn set_children<'a>(shapes: &mut Vec<Shape<'a>>, shape: usize, children: Vec<Option<Child<'a>>>)
    ensures cores { cores shapes.new.items ≡ cores shapes.old.items }
    ensures others { KeepsBut shapes.old.items shapes.new.items shape }
    ensures noted { shape < length shapes.old.items → HasChildren shapes.new.items shape children.entry.items }
    ensures tables { SetsOne shapes.old.items shapes.new.items shape children.entry.items }
{
    if shape < shapes.len() {
        shapes[shape].children = children;
    }
}

impl<'a> Making<'a> {
    /// Makes the shape of a reactor; its number.
    fn add_shape(&mut self, class: Class<'a>) -> Result<usize, NoProgram>
        ensures adds { IfOk result (AddsShape self.old self.new class.entry) }
    {
        let number = self.shapes.len();
        let shape = Shape::of(self.alloc, &self.scopes, &mut self.work, class)?;
        // Noted before its instances are looked at: so a reactor that contains itself
        // ends here. It is refused later, by the walk that puts them in order.
        self.shapes.push(shape)?;
        note(&mut self.known, class.number, number);
        Ok(number)
    }

    /// The number of the shape of a reactor.
    fn shape_of(&mut self, class: Class<'a>) -> Result<usize, NoProgram>
        ensures goes { OnOk result (GoesOnMaking (λ first. IsBelow self.old.scopes first class.entry.number) self.old self.new) }
        ensures shape { IfOk result (λ shape. (first : ℕ) → IsBelow self.old.scopes first class.entry.number → AreMadeShapes self.old.scopes first self.old → IsOfClass (cores self.new.shapes.items) shape class.entry.number) }
        ensures noted { OnOk result (KeepsNoted self.old.shapes.items self.new.shapes.items) }
    {
        if let Some(Some(known)) = self.known.get(class.number).copied() {
            return Ok(known);
        }
        let number = self.add_shape(class)?;
        Ok(number)
    }

    /// What is in an instance.
    fn child_of(&mut self, file: usize, instance: &'a Instance) -> Result<Child<'a>, NoProgram>
        ensures goes { OnOk result (GoesOnMaking (IsNeeded self.old.scopes file instance.now) self.old self.new) }
        ensures child { IfOk result (λ child. (first : ℕ) → IsNeeded self.old.scopes file instance.now first → AreMadeShapes self.old.scopes first self.old → (r : ℕ) × (extended_reactor self.old.scopes file instance.now.reactor ≡ Some r) × IsOfClass (cores self.new.shapes.items) child.shape r) }
        ensures once { OnOk result ((first : ℕ) → IsNeeded self.old.scopes file instance.now first → AreMadeShapes self.old.scopes first self.old → GivesOnce instance.now.given.items) }
        ensures given { IfOk result (λ child. (inner : Shape) → slice_get self.new.shapes.items child.shape ≡ Some inner → AreGiven (thing_named inner) instance.now.given.items child.given.items) }
        ensures noted { OnOk result (KeepsNoted self.old.shapes.items self.new.shapes.items) }
    {
        let Some(class) = self.scopes.get(file, instance.reactor.text.as_str()) else {
            return Err(NoProgram::at(Why::NoReactor, file, instance.reactor.at));
        };
        let shape = self.shape_of(class)?;
        let given = given_inside(self.alloc, &self.shapes, shape, file, instance)?;
        Ok(Child { shape, given })
    }

    /// What is in the member of this number of a shape, if it is an instance.
    fn child_at(&mut self, shape: usize, number: usize) -> Result<Option<Child<'a>>, NoProgram>
        ensures goes { OnOk result (GoesOnMaking (λ first. Unit {0}) self.old self.new) }
        ensures child { IfOk result (λ o. IfSome o (λ child. (first : ℕ) → AreMadeShapes self.old.scopes first self.old → IsChildInstance self.old.scopes (cores self.new.shapes.items) shape number child)) }
        ensures noted { OnOk result (KeepsNoted self.old.shapes.items self.new.shapes.items) }
        ensures none { IfOk result (λ o. IfNone o ((c : Core) (m : Inherited) (n : ℕ) → slice_get (cores self.old.shapes.items) shape ≡ Some c → slice_get c.members number ≡ Some m → instance_of self.old.scopes (m.file, m.member.now) ≡ Some n → ⊥)) }
    {
        let Some(found) = self.shapes.get(shape) else {
            return Ok(None);
        };
        let Some(inherited) = found.member(number) else {
            return Ok(None);
        };
        let Some(instance) = inherited.instance() else {
            return Ok(None);
        };
        let child = self.child_of(inherited.file, instance)?;
        Ok(Some(child))
    }

    /// Notes what is in each instance of a shape, which has so many members.
    fn fill(&mut self, shape: usize, count: usize) -> Result<(), NoProgram>
        ensures goes { OnOk result (GoesOnMaking (λ first. Unit {0}) self.old self.new) }
        ensures others { OnOk result (KeepsBut self.old.shapes.items self.new.shapes.items shape) }
        ensures noted { OnOk result ((c : Core) → slice_get (cores self.old.shapes.items) shape ≡ Some c → length c.members ≡ count → IsNoted self.old.scopes (tables self.new.shapes.items) shape c) }
    {
        // A list of its own until it is whole: meanwhile the shape is read, and shapes are put behind it.
        let mut children = Vec::new(self.alloc);
        for number in 0..count {
            let child = self.child_at(shape, number)?;
            children.push(child)?;
        }
        set_children(&mut self.shapes, shape, children);
        Ok(())
    }

    /// Notes what is in each instance of each shape, also of those that are made meanwhile.
    fn fill_all(&mut self) -> Result<(), NoProgram>
        ensures goes { OnOk result (GoesOnMaking (λ first. Unit {0}) self.old self.new) }
        ensures noted { OnOk result (AreNoted self.old.scopes (cores self.new.shapes.items) (tables self.new.shapes.items)) }
    {
        // The list grows meanwhile. A call for each instance would need a stack
        // as deep as reactors contain each other.
        for shape in 0..usize::MAX {
            let count = match self.shapes.get(shape) {
                Some(found) => found.members.len(),
                None => return Ok(()),
            };
            self.fill(shape, count)?;
        }
        Ok(())
    }
}

/// The shapes of the main reactor, which is the first one, and of all that it contains.
pub(crate) fn shapes_of<'a>(
    alloc: Global,
    scopes: ReactorNames<'a>,
    work: Work,
    main: Class<'a>,
) -> Result<(Work, Vec<Shape<'a>>), NoProgram>
    ensures shapes { IfOk result (λ made. AreShapes scopes.entry main.entry.number (cores made.1.items) (tables made.1.items)) }
    ensures first { IfOk result (λ made. first_class (cores made.1.items) ≡ Some main.entry) }
    ensures noted { IfOk result (λ made. AreNoted scopes.entry (cores made.1.items) (tables made.1.items)) }
    ensures main { IfOk result (λ made. made.0.main ≡ work.main) }
{
    let known = nothing(alloc, scopes.len())?;
    let shapes = Vec::new(alloc);
    let mut making = Making {
        alloc,
        scopes,
        work,
        shapes,
        known,
    };
    // First of all, so that its number is 0: the walk that orders the shapes begins there.
    making.add_shape(main)?;
    making.fill_all()?;
    let Making {
        alloc: _,
        scopes: _,
        work,
        shapes,
        known: _,
    } = making;
    Ok((work, shapes))
}
