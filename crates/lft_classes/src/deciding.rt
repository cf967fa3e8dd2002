//! Which parameters decide widths, and which are times.

ghost use Rattle.std.specs.Prelude.{◌≡◌, ◌≢◌, ℕ, Some, IfNone, IfOk, IfSome, OnOk, slice_get, true};
ghost use Rattle.lft_classes.specs.declared.{scopes.ReactorNames.ReactorNames, shapes.Inherited.Inherited as InheritedMember};
ghost use Rattle.lft_classes.specs.inner.{Built.cores, Shapes.tables};
ghost use Rattle.lft_classes.specs.inner.Needs.{AreNeedMarks, HasNeed, HasNoMarkedIndex, IsIndexFree, IsParameterIn, IsPassed, IsPassedIn, IsReadyToDecide, IsTimeIn, IsUnmarkedAt, Marks, NamesParameter, IsDecided};
ghost use Rattle.lft_classes.specs.Needs.{Times, Widths};

use crate::shapes::{Inherited, Shape};
use lft_whole::sources::{NoProgram, Why};
use lft_whole::{Assignment, Connection, Count, Expression, Instance, Member, Width, WrittenValue};
use std::alloc::Global;

/// For each parameter of a shape whether it decides a width, and whether it is a time.
#[derive(Drop)]
struct Needs {
    sized: Vec<bool>,
    timed: Vec<bool>,
}

/// The parameter that is named where a value stands.
fn named(shape: &Shape, value: &Expression) -> Option<usize>
    ensures some { IfSome result (IsParameterIn shape.now value.now) }
    ensures none { IfNone result ((n : ℕ) → IsParameterIn shape.now value.now n → ⊥) }
{
    match &value.value {
        WrittenValue::Word(word) => shape.parameter(word.as_str()),
        _ => None,
    }
}

/// Notes the parameter of this number.
fn mark(list: &mut Vec<bool>, parameter: usize)
    ensures { Marks (λ n. n ≡ parameter) list.old.items list.new.items }
{
    // True of each number that is given. Asked here, so that no caller has to show it.
    if parameter < list.len() {
        list[parameter] = true;
    }
}

/// Notes the parameter of this number, if it is needed.
fn mark_if(list: &mut Vec<bool>, parameter: usize, is_needed: bool)
    ensures { Marks (λ n. (is_needed ≡ true) × (n ≡ parameter)) list.old.items list.new.items }
{
    if is_needed {
        mark(list, parameter);
    }
}

/// Refuses a bank of a reactor with a width or a time that needs the number in the bank.
fn refuse_by_index(inner: &Shape, file: usize, instance: &Instance) -> Result<(), NoProgram>
    ensures { OnOk result (HasNoMarkedIndex inner.now instance.now) }
{
    // A bank has one setting for all its members, and here each of them would need its own.
    if instance.width.is_some()
        && let Some(index) = inner.parameter("bank_index")
    {
        if inner.is_sized(index) {
            return Err(NoProgram::at(Why::WidthByIndex, file, instance.name.at));
        }
        if inner.is_timed(index) {
            return Err(NoProgram::at(Why::NoTime, file, instance.name.at));
        }
    }
    Ok(())
}

impl Needs {
    /// Notes what stands where a time does.
    fn note_time(&mut self, shape: &Shape, value: &Option<Expression>)
        ensures sized { self.new.sized ≡ self.old.sized }
        ensures timed { Marks (IsTimeIn shape.now value.now) self.old.timed.items self.new.timed.items }
    {
        let Some(value) = value else {
            return;
        };
        // What names no parameter is refused where the time is read. Here only the parameters are wanted.
        let Some(parameter) = named(shape, value) else {
            return;
        };
        mark(&mut self.timed, parameter);
    }

    /// Notes the parameters that a width names.
    fn note_width(
        &mut self,
        shape: &Shape,
        file: usize,
        width: &Option<Width>,
    ) -> Result<(), NoProgram>
        ensures sized { OnOk result (Marks (NamesParameter shape.now width.now) self.old.sized.items self.new.sized.items) }
        ensures timed { self.new.timed ≡ self.old.timed }
    {
        let Some(width) = width else {
            return Ok(());
        };
        for term in &width.terms {
            if let Count::Word(word) = &term.count {
                let Some(parameter) = shape.parameter(word.as_str()) else {
                    return Err(NoProgram::at(Why::UnknownParameter, file, term.at));
                };
                mark(&mut self.sized, parameter);
            }
        }
        Ok(())
    }

    /// Notes the parameter that is given to one that an instance needs.
    fn note_assignment(&mut self, shape: &Shape, inner: &Shape, assignment: &Assignment)
        ensures sized { Marks (IsPassed Widths shape.now inner.now assignment.now) self.old.sized.items self.new.sized.items }
        ensures timed { Marks (IsPassed Times shape.now inner.now assignment.now) self.old.timed.items self.new.timed.items }
    {
        // A name that is no parameter doesn't come: it was refused when the values were put in order.
        let Some(needed) = inner.parameter(assignment.name.text.as_str()) else {
            return;
        };
        let Some(parameter) = named(shape, &assignment.value) else {
            return;
        };
        mark_if(&mut self.sized, parameter, inner.is_sized(needed));
        mark_if(&mut self.timed, parameter, inner.is_timed(needed));
    }

    /// Notes the parameters that are given to those that an instance needs.
    fn note_given(&mut self, shape: &Shape, inner: &Shape, given: &[Assignment])
        ensures sized { Marks (IsPassedIn Widths shape.now inner.now given.now) self.old.sized.items self.new.sized.items }
        ensures timed { Marks (IsPassedIn Times shape.now inner.now given.now) self.old.timed.items self.new.timed.items }
    {
        for assignment in given {
            self.note_assignment(shape, inner, assignment);
        }
    }

    /// Notes what a connection needs.
    fn note_connection(&mut self, shape: &Shape, connection: &Connection)
        ensures sized { self.new.sized ≡ self.old.sized }
        ensures timed { Marks (IsTimeIn shape.now connection.now.delay) self.old.timed.items self.new.timed.items }
    {
        self.note_time(shape, &connection.delay);
    }

    /// Notes what an instance needs, which is the member of this number.
    fn note_instance(
        &mut self,
        shapes: &[Shape],
        shape: &Shape,
        number: usize,
        inherited: Inherited,
        instance: &Instance,
    ) -> Result<(), NoProgram>
        ensures sized { OnOk result (Marks (HasNeed Widths shapes.now shape.now number (Member.Instance instance.now)) self.old.sized.items self.new.sized.items) }
        ensures timed { OnOk result (Marks (HasNeed Times shapes.now shape.now number (Member.Instance instance.now)) self.old.timed.items self.new.timed.items) }
        ensures index { OnOk result (IsUnmarkedAt shapes.now shape.now number (Member.Instance instance.now)) }
    {
        self.note_width(shape, inherited.file, &instance.width)?;
        let Some(child) = shape.child(number) else {
            return Ok(());
        };
        let Some(inner) = shapes.get(child.shape) else {
            return Ok(());
        };
        self.note_given(shape, inner, &instance.given);
        refuse_by_index(inner, inherited.file, instance)?;
        Ok(())
    }

    /// Notes what the member of this number needs.
    fn note(
        &mut self,
        shapes: &[Shape],
        shape: &Shape,
        number: usize,
        inherited: Inherited,
    ) -> Result<(), NoProgram>
        ensures sized { OnOk result (Marks (HasNeed Widths shapes.now shape.now number inherited.entry.member.now) self.old.sized.items self.new.sized.items) }
        ensures timed { OnOk result (Marks (HasNeed Times shapes.now shape.now number inherited.entry.member.now) self.old.timed.items self.new.timed.items) }
        ensures index { OnOk result (IsUnmarkedAt shapes.now shape.now number inherited.entry.member.now) }
    {
        match inherited.member {
            Member::Port(port) => self.note_width(shape, inherited.file, &port.width)?,
            Member::Timer(timer) => {
                self.note_time(shape, &timer.offset);
                self.note_time(shape, &timer.period);
            }
            // Its spacing isn't noted: a logical action may have none but 0, and that of a physical one means
            // nothing here.
            Member::Action(action) => self.note_time(shape, &action.min_delay),
            Member::Connection(connection) => self.note_connection(shape, connection),
            Member::Instance(instance) => {
                self.note_instance(shapes, shape, number, inherited, instance)?;
            }
            Member::Reaction(_) | Member::Foreign { .. } => {}
        }
        Ok(())
    }
}

/// What a shape needs of its parameters, where that is known of the shapes in it.
fn needs_of(alloc: Global, shapes: &[Shape], shape: &Shape) -> Result<Needs, NoProgram>
    ensures sized { IfOk result (λ needs. AreNeedMarks Widths shapes.now shape.now needs.sized.items) }
    ensures timed { IfOk result (λ needs. AreNeedMarks Times shapes.now shape.now needs.timed.items) }
    ensures index { OnOk result ((k : ℕ) (m : InheritedMember) → slice_get shape.now.members.items k ≡ Some m → IsUnmarkedAt shapes.now shape.now k m.member.now) }
{
    let count = shape.parameters.len();
    let mut needs = Needs {
        sized: vec![in alloc; false; count]?,
        timed: vec![in alloc; false; count]?,
    };
    for number in 0..shape.members.len() {
        needs.note(shapes, shape, number, shape.members[number])?;
    }
    Ok(needs)
}

/// Decides it for the shape of this number. Those in it come before.
pub(crate) fn decide(alloc: Global, shapes: &mut Vec<Shape>, number: usize) -> Result<(), NoProgram>
    ensures tables { OnOk result (tables shapes.new.items ≡ tables shapes.old.items) }
    ensures cores { OnOk result (cores shapes.new.items ≡ cores shapes.old.items) }
    ensures decided { OnOk result ((scopes : ReactorNames) (first : ℕ) → IsReadyToDecide scopes first shapes.old.items number → IsDecided scopes shapes.new.items number) }
    ensures index { OnOk result ((scopes : ReactorNames) (first : ℕ) → IsReadyToDecide scopes first shapes.old.items number → IsIndexFree scopes (cores shapes.old.items) (tables shapes.old.items) number) }
    ensures kept { OnOk result ((scopes : ReactorNames) (s : ℕ) → s ≢ number → IsDecided scopes shapes.old.items s → IsDecided scopes shapes.new.items s) }
{
    if number >= shapes.len() {
        return Ok(());
    }
    let Needs { sized, timed } = needs_of(alloc, shapes, &shapes[number])?;
    let shape = &mut shapes[number];
    shape.sized = sized;
    shape.timed = timed;
    Ok(())
}
