//! What rows write to the origin of a port.

ghost use Rattle.std.specs.Prelude.{◌≡◌, ◌<◌, ◌↔◌, length, IsTrue, IfSome, IfNone, cond, None};
ghost use Rattle.lft_ir.specs.{declared.parts.Name.TheVariants.Port as ThePort, Steps.Fits.RowsFit};
ghost use Rattle.lft_tag.specs.{Tags.{IsRecorded, same_tag}, Shifts.shifted};
ghost use Rattle.lft_model.specs.{Fitting.EachFits, Presence.{At, IsPresent, PortClash, value_written as the_value_written}};

use crate::plan::Plan;
use lft_ir::steps::{Row, Step, row_at};
use lft_ir::{Name, Port, Value};
use lft_tag::Tag;

// The value that a step writes to the port, if it writes one.
fn value_written(step: Step, port: u32) -> Option<Value>
    ensures { result ≡ the_value_written port step }
{
    match step {
        Step::Write(Name::Port(number), value) => {
            if number == port { Some(value) } else { None }
        }
        _ => None,
    }
}

// The value that a row gives the port at the tag: it writes its origin, and the delays of its chain
// lead from the row's tag to this one.
fn value_arriving(row: Row, port: &Port, tag: Tag) -> Option<Value>
    requires { IsRecorded row.tag }
    ensures { result ≡ cond (same_tag tag (shifted row.tag (port.now.shift.time, port.now.shift.steps))) (the_value_written port.now.origin row.step) None }
{
    if row.tag.plus(port.shift).is_same(tag) {
        value_written(row.step, port.origin)
    } else {
        None
    }
}

/// The value of the port's event at the tag, if it has one: the last that arrives there.
pub(crate) fn port_value(plan: &Plan, rows: &[Row], tag: Tag, port: u32) -> Option<Value>
    requires fit { RowsFit plan.now.program rows.now }
    requires port { port < length plan.now.program.ports }
    ensures some { IfSome result (λ v. At plan.now rows.now tag (ThePort port) v) }
    ensures none { IfNone result (IsPresent plan.now rows.now tag (ThePort port) → ⊥) }
{
    let port = plan.program().port(port);
    let mut value = None;
    for place in 0..rows.len() {
        let arriving = value_arriving(row_at(rows, place), port, tag);
        if arriving.is_some() {
            value = arriving;
        }
    }
    value
}

/// Whether the origin of the port was written at two tags from which its delays lead to this one.
pub(crate) fn port_clashes(plan: &Plan, rows: &[Row], tag: Tag, port: u32) -> bool
    requires fit { EachFits plan.now.program rows.now }
    requires port { port < length plan.now.program.ports }
    ensures { IsTrue result ↔ PortClash plan.now rows.now tag port }
{
    let port = plan.program().port(port);
    let mut first: Option<Tag> = None;
    for place in 0..rows.len() {
        let row = row_at(rows, place);
        if value_arriving(row, port, tag).is_some() {
            match first {
                Some(earlier) => {
                    if !earlier.is_same(row.tag) {
                        return true;
                    }
                }
                None => first = Some(row.tag),
            }
        }
    }
    false
}
