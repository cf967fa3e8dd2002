//! Why a program has no graph, for people.

ghost use Rattle.std.specs.Prelude.{◌≡◌, ◌<◌, ◌++◌, ℕ, Some, IfOk, OnOk, find, length, slice_get, string_bytes};
ghost use Rattle.lft_ir.specs.Parts.{inputs};
ghost use Rattle.lft_program_diagnostics.specs.Loops.{between, fed, has_port as has_that_port, is_fed as is_fed_by, is_port_name as is_that_port, loop_words, step_words, told_step, turned_by_one};

use lft_ir::words::{push_name, push_reaction};
use lft_ir::{Name, Program, Reaction};
use lft_lists::item_at;
use lft_tag::NoMemory;
use std::alloc::Global;

/// Whether the name is of that port.
fn is_port(port: u32, name: Name) -> bool
    ensures { result ≡ is_that_port port name }
{
    match name {
        Name::Port(number) => number == port,
        Name::Action(_) => false,
    }
}

/// Whether the port is among the names.
fn has_port(names: &[Name], port: u32) -> bool
    ensures { result ≡ has_that_port names.now port }
{
    names.iter().any(|name| is_port(port, *name))
}

/// Whether one of the effects leads to the name without a delay.
fn is_fed(program: &Program, effects: &[Name], name: Name) -> bool
    ensures { result ≡ is_fed_by program.now effects.now name }
{
    match name {
        Name::Port(number) if (number as usize) < program.ports() => {
            let port = program.port(number);
            // What a delayed port gets is read at a later tag, so neither reaction waits for the other.
            port.shift.time == 0 && port.shift.steps == 0 && has_port(effects, port.origin)
        }
        _ => false,
    }
}

/// The first of the names to which one of the effects leads without a delay.
fn first_fed(program: &Program, effects: &[Name], names: &[Name]) -> Option<Name>
    ensures { result ≡ find (is_fed_by program.now effects.now) names.now }
{
    for place in 0..names.len() {
        let name = item_at(names, place);
        if is_fed(program, effects, name) {
            return Some(name);
        }
    }
    None
}

/// The first input of the second reaction that the first writes without a delay.
fn feeding(
    alloc: Global,
    program: &Program,
    first: &Reaction,
    second: &Reaction,
) -> Result<Option<Name>, NoMemory>
    ensures { IfOk result (λ found. found ≡ fed program.now first.now second.now) }
{
    let names = second.inputs(alloc)?;
    Ok(first_fed(program, first.effects.as_slice(), &names))
}

/// Puts two reactions and what stands between them behind the text.
fn push_between(
    out: &mut String,
    program: &Program,
    first: u32,
    words: &str,
    second: u32,
) -> Result<(), NoMemory>
    ensures { OnOk result (string_bytes out.new ≡ string_bytes out.old ++ between program.now first words.now second) }
{
    out.push_str("  ")?;
    push_reaction(out, program, first)?;
    out.push_str(words)?;
    push_reaction(out, program, second)?;
    Ok(())
}

/// Puts how one reaction comes before another behind the text.
fn push_told(
    out: &mut String,
    program: &Program,
    first: u32,
    second: u32,
    found: Option<Name>,
) -> Result<(), NoMemory>
    ensures { OnOk result (string_bytes out.new ≡ string_bytes out.old ++ told_step program.now first second found) }
{
    match found {
        Some(name) => {
            push_between(out, program, first, " writes what ", second)?;
            out.push_str(" reads of ")?;
            push_name(out, program, name)?;
            out.push_str(".\n")?;
        }
        None => {
            push_between(out, program, first, " comes before ", second)?;
            out.push_str(" in their reactor.\n")?;
        }
    }
    Ok(())
}

/// The same, by what the reactions name.
fn push_step(
    alloc: Global,
    out: &mut String,
    program: &Program,
    first: u32,
    second: u32,
) -> Result<(), NoMemory>
    requires first { first < length program.now.reactions }
    requires second { second < length program.now.reactions }
    ensures { OnOk result (string_bytes out.new ≡ string_bytes out.old ++ step_words program.now first second) }
{
    let found = feeding(
        alloc,
        program,
        program.reaction(first),
        program.reaction(second),
    )?;
    push_told(out, program, first, second, found)
}

/// The number behind that place, or the first where none is.
fn next_of(reactions: &[u32], place: usize) -> u32
    requires { place < length reactions.now }
    ensures next { slice_get (turned_by_one reactions.now) place ≡ Some result }
    ensures among { (i : ℕ) × (slice_get reactions.now i ≡ Some result) }
{
    if place + 1 < reactions.len() {
        item_at(reactions, place + 1)
    } else {
        item_at(reactions, 0)
    }
}

/// Why the reactions of a causality loop wait for one another, in lines that end with a line feed.
pub fn tell_loop(alloc: Global, program: &Program, reactions: &[u32]) -> Result<String, NoMemory>
    requires { (i r : ℕ) → slice_get reactions.now i ≡ Some r → r < length program.now.reactions }
    ensures { IfOk result (λ words. string_bytes words ≡ loop_words program.now reactions.now) }
{
    let mut out = String::new(alloc);
    out.push_str("Program: these reactions wait for one another at one tag.\n")?;
    for place in 0..reactions.len() {
        let first = item_at(reactions, place);
        push_step(alloc, &mut out, program, first, next_of(reactions, place))?;
    }
    out.push_str("  A delay on one of these connections, as `after 0`, breaks the loop.\n")?;
    Ok(out)
}
