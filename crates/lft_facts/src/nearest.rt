//! The nearest events of a port or an action.

ghost use Rattle.std.specs.Prelude.{IfSome};
ghost use Rattle.lft_ir.specs.{Sound.IsNameOf, declared.parts.Trigger.TheVariants.On as TheName, Steps.Fits.RowsFit};
ghost use Rattle.lft_rows.specs.inner.Presence.Causes.{AreCauses};
ghost use Rattle.lft_facts.specs.{Reasons.IsNearest, inner.Causes.StandsForName};

use lft_ir::steps::Row;
use lft_ir::{Name, Program};
use lft_model::Plan;
use lft_rows::presence::{EventCause, cause_tag, first_after, last_before, moved};
use lft_tag::{Shift, Tag};

/// The key of the port or action, and the shift that leads from the tags of its causes to those of
/// its events.
fn key_of(program: &Program, name: Name) -> (u32, Shift)
    requires { IsNameOf program.now name }
    ensures { StandsForName program.now name result.0 (result.1.time, result.1.steps) }
{
    match name {
        Name::Port(number) => {
            let port = program.port(number);
            (port.origin, port.shift)
        }
        Name::Action(number) => (program.ports() as u32 + number, Shift::none()),
    }
}

/// The tag of the last event of the port or action before the tag.
pub(crate) fn event_before(
    plan: &Plan,
    rows: &[Row],
    causes: &[EventCause],
    tag: Tag,
    name: Name,
) -> Option<Tag>
    requires fit { RowsFit plan.now.program rows.now }
    requires causes { AreCauses plan.now rows.now causes.now }
    requires name { IsNameOf plan.now.program name }
    ensures { IfSome result (IsNearest plan.now rows.now tag (TheName name)) }
{
    let (key, shift) = key_of(plan.program(), name);
    // The causes stand in order, so no rows are gone over for each input.
    match last_before(causes, key, shift, tag) {
        Some(cause) => Some(moved(cause_tag(cause), shift)),
        None => None,
    }
}

/// The tag of the first event of the port or action after the tag.
pub(crate) fn event_after(
    plan: &Plan,
    rows: &[Row],
    causes: &[EventCause],
    tag: Tag,
    name: Name,
) -> Option<Tag>
    requires fit { RowsFit plan.now.program rows.now }
    requires causes { AreCauses plan.now rows.now causes.now }
    requires name { IsNameOf plan.now.program name }
    ensures { IfSome result (IsNearest plan.now rows.now tag (TheName name)) }
{
    let (key, shift) = key_of(plan.program(), name);
    match first_after(causes, key, shift, tag) {
        Some(cause) => Some(moved(cause_tag(cause), shift)),
        None => None,
    }
}
