//! What fields name in a program.

ghost use Rattle.std.specs.Prelude.{◌≡◌, ◌≢◌, ◌<◌, ◌↔◌, ℕ, IfSome, IfNone, IsTrue, length};
ghost use Rattle.lft_ir.specs.Names.{IsNamed};
ghost use Rattle.lft_trace.specs.{ExternalTables.IsPhysical, Traces.{IsThing, thing}};

use crate::kind::RowKind;
use crate::reaction_names::ReactionNames;
use lft_ir::{Found, Name, Program};

/// The reaction of this name. The rows of one run stand together, so the name of the last row's
/// reaction is tried before all others.
pub fn read_reaction(program: &Program, last: Option<u32>, field: &[u8]) -> Option<u32>
    requires { IfSome last (λ r. r < length program.now.reactions) }
    ensures some { IfSome result (λ r. IsNamed program.now.names (Found.Reaction r) field.now) }
    ensures none { IfNone result ((r : ℕ) → IsNamed program.now.names (Found.Reaction r) field.now → ⊥) }
    ensures within { IfSome result (λ r. r < length program.now.reactions) }
{
    match last {
        Some(number) => {
            if names_reaction(program, number, field) {
                Some(number)
            } else {
                find_reaction(program, field)
            }
        }
        None => find_reaction(program, field),
    }
}

/// The reaction of this name that a row of this event has. `last` is that of the row before.
#[inline(always)]
pub(crate) fn read_reaction_of(
    names: &ReactionNames,
    last: Option<u32>,
    kind: RowKind,
    field: &[u8],
) -> Option<u32>
    requires { IfSome last (λ r. r < length names.now.reactions) }
    ensures some { IfSome result (λ r. IsNamed names.now.names (Found.Reaction r) field.now) }
    ensures none { IfNone result ((r : ℕ) → IsNamed names.now.names (Found.Reaction r) field.now → ⊥) }
    ensures within { IfSome result (λ r. r < length names.now.reactions) }
{
    let program = names.program();
    match names.guess(last, kind, field) {
        Some(number) => Some(number),
        None => read_reaction(program, last, field),
    }
}

// Whether the field names the reaction.
pub(crate) fn names_reaction(program: &Program, number: u32, field: &[u8]) -> bool
    requires { number < length program.now.reactions }
    ensures { IsTrue result ↔ IsNamed program.now.names (Found.Reaction number) field.now }
{
    field == program.name_of_reaction(number).as_bytes()
}

// The reaction of this name, looked up among all names.
fn find_reaction(program: &Program, field: &[u8]) -> Option<u32>
    ensures some { IfSome result (λ r. IsNamed program.now.names (Found.Reaction r) field.now) }
    ensures none { IfNone result ((r : ℕ) → IsNamed program.now.names (Found.Reaction r) field.now → ⊥) }
    ensures within { IfSome result (λ r. r < length program.now.reactions) }
{
    match program.find_bytes(field) {
        Some(found) => reaction(found),
        None => None,
    }
}

/// The port or action of this name.
pub fn read_thing(program: &Program, field: &[u8]) -> Option<Name>
    ensures some { IfSome result (λ n. IsThing program.now field.now n) }
    ensures none { IfNone result ((n : Name) → IsThing program.now field.now n → ⊥) }
{
    match program.find_bytes(field) {
        Some(found) => port_or_action(found),
        None => None,
    }
}

/// The port or action of this name, where the guessed one is tried before all others.
pub(crate) fn read_guessed(program: &Program, guess: Option<Name>, field: &[u8]) -> Option<Name>
    ensures some { IfSome result (λ n. IsThing program.now field.now n) }
    ensures none { IfNone result ((n : Name) → IsThing program.now field.now n → ⊥) }
{
    match guess {
        Some(name) => {
            if names_thing(program, name, field) {
                Some(name)
            } else {
                read_thing(program, field)
            }
        }
        None => read_thing(program, field),
    }
}

// Whether the field names this port or action of the program.
fn names_thing(program: &Program, name: Name, field: &[u8]) -> bool
    ensures { IsTrue result ↔ IsThing program.now field.now name }
{
    match name {
        Name::Port(number) => {
            (number as usize) < program.ports() && field == program.name_of_port(number).as_bytes()
        }
        Name::Action(number) => {
            (number as usize) < program.actions()
                && field == program.name_of_action(number).as_bytes()
        }
    }
}

/// The physical action of this name.
pub(crate) fn read_physical(program: &Program, field: &[u8]) -> Option<u32>
    ensures some { IfSome result (λ a. IsPhysical program.now field.now a) }
    ensures none { IfNone result ((a : ℕ) → IsPhysical program.now field.now a → ⊥) }
{
    match program.find_bytes(field) {
        Some(found) => match action(found) {
            Some(number) => {
                if program.action(number).physical {
                    Some(number)
                } else {
                    None
                }
            }
            None => None,
        },
        None => None,
    }
}

fn action(found: Found) -> Option<u32>
    ensures some { IfSome result (λ a. found ≡ Found.Action a) }
    ensures none { IfNone result ((a : ℕ) → found ≢ Found.Action a) }
{
    match found {
        Found::Action(number) => Some(number),
        Found::Instance(_) => None,
        Found::Port(_) => None,
        Found::Timer(_) => None,
        Found::Reaction(_) => None,
    }
}

fn reaction(found: Found) -> Option<u32>
    ensures some { IfSome result (λ r. found ≡ Found.Reaction r) }
    ensures none { IfNone result ((r : ℕ) → found ≢ Found.Reaction r) }
{
    match found {
        Found::Reaction(number) => Some(number),
        Found::Instance(_) => None,
        Found::Port(_) => None,
        Found::Action(_) => None,
        Found::Timer(_) => None,
    }
}

fn port_or_action(found: Found) -> Option<Name>
    ensures some { IfSome result (λ n. found ≡ thing n) }
    ensures none { IfNone result ((n : Name) → found ≢ thing n) }
{
    match found {
        Found::Port(number) => Some(Name::Port(number)),
        Found::Action(number) => Some(Name::Action(number)),
        Found::Instance(_) => None,
        Found::Timer(_) => None,
        Found::Reaction(_) => None,
    }
}
