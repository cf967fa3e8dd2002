//! What is present at a tag, by the causes of events.

ghost use Rattle.std.specs.Prelude.{◌≡◌, IfSome, IfNone};
ghost use Rattle.lft_ir.specs.Sound.{IsNameOf};
ghost use Rattle.lft_model.specs.Presence.{At, IsPresent};
ghost use Rattle.lft_rows.specs.inner.Presence.Causes.{IsCause, IsLastCause, IsValueFrom, Carries, value_of as the_value_of};

use crate::presence::causes::EventCause;
use crate::presence::events::Presence;
use crate::presence::lookup::last_cause;
use lft_ir::steps::{Step, row_at};
use lft_ir::{Name, Value};
use lft_lists::item_at;
use lft_tag::{Shift, Tag};

/// The value that a step writes or schedules.
fn value_of(step: &Step) -> Option<Value>
    ensures { result ≡ the_value_of step.now }
{
    match step {
        Step::Write(_, value) => Some(*value),
        Step::Schedule(_, value, _) => Some(*value),
        Step::Start => None,
        Step::Read(_, _) => None,
        Step::Stop => None,
        Step::End => None,
    }
}

impl<'a> Presence<'a> {
    /// The last of the causes of the name from whose tags the shift leads to the tag.
    fn last_cause(&self, name: u32, shift: Shift, tag: Tag) -> Option<EventCause>
        ensures { IsLastCause self.now.plan self.now.rows name (shift.time, shift.steps) tag result }
    {
        last_cause(self.causes(), name, shift, tag)
    }

    /// The value that stands at the place of the cause.
    fn carried(&self, cause: EventCause) -> Option<Value>
        requires { IsCause self.now.plan self.now.rows cause }
        ensures { Carries self.now.plan self.now.rows cause result }
    {
        let rows = self.rows();
        let place = cause.place as usize;
        if place < rows.len() {
            let row = row_at(rows, place);
            value_of(&row.step)
        } else {
            Some(item_at(self.events(), place - rows.len()).value)
        }
    }

    /// The value of the last of the causes of the name from whose tags the shift leads to the tag.
    fn value_from(&self, name: u32, shift: Shift, tag: Tag) -> Option<Value>
        ensures { IsValueFrom self.now.plan self.now.rows name (shift.time, shift.steps) tag result }
    {
        match self.last_cause(name, shift, tag) {
            Some(cause) => self.carried(cause),
            None => None,
        }
    }

    /// The value of an event of the port or action at the tag, if it has one.
    pub fn value_at(&self, tag: Tag, name: Name) -> Option<Value>
        requires { IsNameOf self.now.plan.program name }
        ensures some { IfSome result (λ v. At self.now.plan self.now.rows tag name v) }
        ensures none { IfNone result (IsPresent self.now.plan self.now.rows tag name → ⊥) }
    {
        let program = self.program();
        match name {
            Name::Port(number) => {
                let port = program.port(number);
                self.value_from(port.origin, port.shift, tag)
            }
            Name::Action(number) => {
                self.value_from(program.ports() as u32 + number, Shift::none(), tag)
            }
        }
    }
}
