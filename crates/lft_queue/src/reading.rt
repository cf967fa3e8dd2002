//! Which ports reactions read.

ghost use Rattle.std.specs.Prelude.{◌≡◌, ◌↔◌, ◌⊎◌, ◌<◌, ℕ, true, length, slice_get, Some, IfOk, Contains};
ghost use Rattle.lft_ir.specs.declared.parts.Name.{Name as NameOf};
ghost use Rattle.lft_queue.specs.inner.Reading.{is_read, AreReadPortsMarked};

use lft_ir::{Name, Program};
use lft_lists::item_at;
use lft_tag::NoMemory;
use std::alloc::Global;

/// The name is marked, where it is a port.
fn mark(marked: &mut [bool], name: Name)
    requires { (p : ℕ) → name ≡ NameOf.Port p → p < length marked.old }
    ensures count { length marked.new ≡ length marked.old }
    ensures each { (p : ℕ) → (slice_get marked.new p ≡ Some true) ↔ ((slice_get marked.old p ≡ Some true) ⊎ (name ≡ NameOf.Port p)) }
{
    match name {
        Name::Port(port) => marked[port as usize] = true,
        Name::Action(_) => {}
    }
}

/// The ports among the names are marked.
fn mark_all(marked: &mut [bool], names: &[Name])
    requires { (p : ℕ) → Contains names.now (NameOf.Port p) → p < length marked.old }
    ensures count { length marked.new ≡ length marked.old }
    ensures each { (p : ℕ) → (slice_get marked.new p ≡ Some true) ↔ ((slice_get marked.old p ≡ Some true) ⊎ Contains names.now (NameOf.Port p)) }
{
    'names: for place in 0..names.len() {
        mark(marked, item_at(names, place));
    }
}

/// For each port whether a reaction reads it.
pub fn read_ports(alloc: Global, program: &Program) -> Result<Vec<bool>, NoMemory>
    ensures marked { IfOk result (λ marked. AreReadPortsMarked program.now (length program.now.reactions) marked.items) }
    ensures read { IfOk result (λ marked. (p : ℕ) → p < length program.now.ports → slice_get marked.items p ≡ Some (is_read program.now p)) }
{
    let mut marked = vec![in alloc; false; program.ports()]?;
    'reactions: for number in 0..program.reactions() {
        let reaction = program.reaction(number as u32);
        mark_all(&mut marked, reaction.triggers.names());
        mark_all(&mut marked, reaction.uses.as_slice());
    }
    Ok(marked)
}
