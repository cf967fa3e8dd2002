//! What stands beside a name that nothing has: the ports and actions of the reactor that it would be in.

use lft_ir::Program;
use lft_tag::NoMemory;
use std::alloc::Global;

/// More names aren't listed.
const MOST_NAMES: usize = 6;

/// The name up to its last point, with the point.
fn reactor_of(name: &[u8]) -> &[u8] {
    for at in (0..name.len()).rev() {
        if name[at] == b'.' {
            return &name[..at + 1];
        }
    }
    &[]
}

/// Whether the name is one of the reactor, and of none in it.
fn is_in(reactor: &[u8], name: &str) -> bool {
    match name.as_bytes().strip_prefix(reactor) {
        Some(rest) => !rest.contains(&b'.'),
        None => false,
    }
}

/// The names of the ports and actions of the reactor.
fn names_in<'a>(
    alloc: Global,
    program: &'a Program,
    reactor: &[u8],
) -> Result<Vec<&'a str>, NoMemory> {
    let mut found = Vec::new(alloc);
    for number in 0..program.ports() as u32 {
        let name = program.name_of_port(number);
        if is_in(reactor, name) {
            found.push(name)?;
        }
    }
    for number in 0..program.actions() as u32 {
        let name = program.name_of_action(number);
        if is_in(reactor, name) {
            found.push(name)?;
        }
    }
    Ok(found)
}

/// Puts the ports and actions of the reactor that the name would be in behind the text, where it has some.
pub(crate) fn push_siblings(
    alloc: Global,
    out: &mut String,
    program: &Program,
    name: &[u8],
) -> Result<(), NoMemory> {
    let found = names_in(alloc, program, reactor_of(name))?;
    if found.is_empty() {
        return Ok(());
    }
    out.push_str("  There are: ")?;
    for place in 0..found.len() {
        if place > 0 {
            out.push_str(", ")?;
        }
        if place == MOST_NAMES {
            out.push_str("..\n")?;
            return Ok(());
        }
        out.push_str(found[place])?;
    }
    out.push_str(".\n")?;
    Ok(())
}
