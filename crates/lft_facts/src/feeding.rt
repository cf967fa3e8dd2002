//! Which port leads from one reaction to another at once.

ghost use Rattle.std.specs.Prelude.{◌≡◌, ◌↔◌, ◌<◌, Some, length, Contains, IfSome, IfNone, IsTrue};
ghost use Rattle.lft_ir.specs.{Sound.IsNameOf, declared.parts.Name.TheVariants.Port as ThePort};
ghost use Rattle.lft_graph.specs.Precedence.{Feeds};
ghost use Rattle.lft_facts.specs.{Facts.FeedsBy, inner.Ways.IsFedUndelayed};

use lft_ir::{Name, Program, Trigger};
use lft_lists::item_at;

/// Whether the port is among the names.
fn has_port(names: &[Name], port: u32) -> bool
    ensures { IsTrue result ↔ Contains names.now (ThePort port) }
{
    for place in 0..names.len() {
        if let Name::Port(number) = item_at(names, place) {
            if number == port {
                return true;
            }
        }
    }
    false
}

/// The port of the name, where its origin is among the effects and leads to it without a delay.
fn fed_port(program: &Program, effects: &[Name], name: Name) -> Option<u32>
    requires { IsNameOf program.now name }
    ensures some { IfSome result (λ p. (name ≡ ThePort p) × IsFedUndelayed program.now effects.now name) }
    ensures none { IfNone result (¬ IsFedUndelayed program.now effects.now name) }
{
    match name {
        Name::Port(number) => {
            let port = program.port(number);
            // By a delayed port nothing is fed at the tag of the write, so it orders no two runs there.
            if port.shift.time == 0 && port.shift.steps == 0 && has_port(effects, port.origin) {
                Some(number)
            } else {
                None
            }
        }
        Name::Action(_) => None,
    }
}

/// An input port of the second reaction whose origin the first may write, and which is reached
/// without a delay.
pub(crate) fn feeding_port(program: &Program, first: u32, second: u32) -> Option<u32>
    requires first { first < length program.now.reactions }
    requires second { second < length program.now.reactions }
    ensures some { IfSome result (λ p. FeedsBy program.now first second p) }
    ensures none { IfNone result (¬ Feeds program.now first second) }
{
    let effects = program.reaction(first).effects.as_slice();
    let reader = program.reaction(second);
    let triggers = reader.triggers.as_slice();
    for place in 0..triggers.len() {
        if let Trigger::On(name) = item_at(triggers, place) {
            let port = fed_port(program, effects, name);
            if port.is_some() {
                return port;
            }
        }
    }
    let uses = reader.uses.as_slice();
    for place in 0..uses.len() {
        let port = fed_port(program, effects, item_at(uses, place));
        if port.is_some() {
            return port;
        }
    }
    None
}
