//! Whether two programs have the same parts.

ghost use Rattle.std.specs.Prelude.{◌≡◌};
ghost use Rattle.std.specs.Bool.{Decides};

use crate::parts::{Action, Name, Port, Reaction, Timer, Trigger};
use lft_tag::{Shift, Source};

fn same_source(a: Option<Source>, b: Option<Source>) -> bool
    ensures { Decides result (a ≡ b) }
{
    match (a, b) {
        (None, None) => true,
        (Some(x), Some(y)) => x.port == y.port && x.delay == y.delay,
        (None, Some(_)) | (Some(_), None) => false,
    }
}

fn same_shift(a: Shift, b: Shift) -> bool
    ensures { Decides result (a ≡ b) }
{
    a.time == b.time && a.steps == b.steps
}

fn same_port(a: &Port, b: &Port) -> bool
    ensures { Decides result (a.now ≡ b.now) }
{
    a.instance == b.instance
        && a.is_input == b.is_input
        && same_source(a.source, b.source)
        && a.origin == b.origin
        && same_shift(a.shift, b.shift)
}

pub fn same_ports(a: &[Port], b: &[Port]) -> bool
    ensures { Decides result (a.now ≡ b.now) }
{
    if a.len() != b.len() {
        return false;
    }
    for i in 0..a.len() {
        if !same_port(&a[i], &b[i]) {
            return false;
        }
    }
    true
}

pub fn same_actions(a: &[Action], b: &[Action]) -> bool
    ensures { Decides result (a.now ≡ b.now) }
{
    a == b
}

pub fn same_timers(a: &[Timer], b: &[Timer]) -> bool
    ensures { Decides result (a.now ≡ b.now) }
{
    a == b
}

fn same_names(a: &[Name], b: &[Name]) -> bool
    ensures { Decides result (a.now ≡ b.now) }
{
    a == b
}

fn same_triggers(a: &[Trigger], b: &[Trigger]) -> bool
    ensures { Decides result (a.now ≡ b.now) }
{
    a == b
}

fn same_reaction(a: &Reaction, b: &Reaction) -> bool
    ensures { Decides result (a.now ≡ b.now) }
{
    a.instance == b.instance
        && a.place == b.place
        && same_triggers(a.triggers.as_slice(), b.triggers.as_slice())
        && same_names(a.uses.as_slice(), b.uses.as_slice())
        && same_names(a.effects.as_slice(), b.effects.as_slice())
}

pub fn same_reactions(a: &[Reaction], b: &[Reaction]) -> bool
    ensures { Decides result (a.now ≡ b.now) }
{
    if a.len() != b.len() {
        return false;
    }
    for i in 0..a.len() {
        if !same_reaction(&a[i], &b[i]) {
            return false;
        }
    }
    true
}
