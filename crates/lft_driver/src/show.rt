//! What is shown of a program: its ports and precedence, or all of it.

ghost use Rattle.std.specs.Prelude.{◌≡◌, ◌≢◌, ◌++◌, ◌<◌, Some, IfOk, IfErr, OnOk, flat_map, length, slice_get, string_bytes, true};
ghost use Rattle.std.specs.{List.enumerate_from, Io.KnownBytes.Keeps};
ghost use Rattle.lft_ir.specs.{Parts.Parts, declared.parts.{Port.Port as PortOf, Reaction.Reaction}};
ghost use Rattle.lft_graph.specs.{Graph.IsGraphOf, Precedence.HasNoLoop};
ghost use Rattle.lft_load.specs.{Meaning.IsProgramOf, Refusals.is_of_text};
ghost use Rattle.lft_driver.specs.Refusals.{ShowProgramRefusal, ShowRefusal};
ghost use Rattle.lft_driver.specs.Shown.{IsTextShown, IsShownProgram, before_words, lines_of, port_lines, shown_port_words, reaction_line, shown_reaction_words, show_words};
ghost use Rattle.lft_load.specs.declared.fault.Part.TheVariants as part;

use crate::listing::all_lines;
use lft_graph::Graph;
use lft_ir::Program;
use lft_ir::words::{push_port, push_reaction};
use lft_load::{Fault, graph_of, push_field, push_names, read_program, write_text};
use std::alloc::{AllocError, Global};
use std::io::Write;

/// Puts the line of a port at the end of a text.
fn push_port_line(text: &mut String, program: &Program, number: u32) -> Result<(), AllocError>
    requires { number < length program.now.ports }
    ensures { OnOk result ((port : PortOf) → slice_get program.now.ports number ≡ Some port → string_bytes text.new ≡ string_bytes text.old ++ shown_port_words program.now (number, port)) }
{
    let port = program.port(number);
    text.push_str("port ")?;
    push_port(text, program, number)?;
    text.push_str(" origin=")?;
    push_port(text, program, port.origin)?;
    push_field(text, " after=", port.shift.time)?;
    push_field(text, "+", u64::from(port.shift.steps))?;
    text.push_str("\n")?;
    Ok(())
}

/// Puts the reactions just before one at the end of a line.
fn push_before(text: &mut String, program: &Program, before: &[u32]) -> Result<(), AllocError>
    ensures { OnOk result (string_bytes text.new ≡ string_bytes text.old ++ before_words program.now before.now) }
{
    if before.is_empty() {
        // A sign for none, so that a script finds something in each field.
        text.push_str("-")?;
    } else {
        push_names(text, program, before)?;
    }
    Ok(())
}

/// Puts the line of a reaction of this level at the end of a text.
fn push_reaction_line(
    text: &mut String,
    program: &Program,
    number: u32,
    level: u32,
    before: &[u32],
) -> Result<(), AllocError>
    ensures { OnOk result (string_bytes text.new ≡ string_bytes text.old ++ shown_reaction_words program.now number level before.now) }
{
    text.push_str("reaction ")?;
    push_reaction(text, program, number)?;
    push_field(text, " level=", u64::from(level))?;
    text.push_str(" before=")?;
    push_before(text, program, before)?;
    text.push_str("\n")?;
    Ok(())
}

/// Puts the line of a reaction at the end of a text, by the graph: level and list are asked for here,
/// so that what is written above speaks of them alone.
pub(crate) fn push_line(
    text: &mut String,
    program: &Program,
    graph: &Graph,
    number: u32,
) -> Result<(), AllocError>
    requires reaction { number < length program.now.reactions }
    requires graph { IsGraphOf program.now graph.now }
    ensures { OnOk result ((x : Reaction) → string_bytes text.new ≡ string_bytes text.old ++ reaction_line program.now graph.now (number, x)) }
{
    push_reaction_line(
        text,
        program,
        number,
        graph.level(number),
        graph.before(number),
    )
}

/// Puts the lines of all ports at the end of a text.
pub(crate) fn push_ports(text: &mut String, program: &Program) -> Result<(), AllocError>
    ensures { OnOk result (string_bytes text.new ≡ string_bytes text.old ++ port_lines program.now) }
{
    for number in 0..program.ports() {
        push_port_line(text, program, number as u32)?;
    }
    Ok(())
}

/// Puts the lines of all reactions at the end of a text.
fn push_reactions(text: &mut String, program: &Program, graph: &Graph) -> Result<(), AllocError>
    requires { IsGraphOf program.now graph.now }
    ensures { OnOk result (string_bytes text.new ≡ string_bytes text.old ++ flat_map (reaction_line program.now graph.now) (enumerate_from 0 program.now.reactions)) }
{
    for number in 0..program.reactions() {
        push_line(text, program, graph, number as u32)?;
    }
    Ok(())
}

/// The lines of all ports and then of all reactions.
fn show_lines(alloc: Global, program: &Program, graph: &Graph) -> Result<String, AllocError>
    requires { IsGraphOf program.now graph.now }
    ensures { IfOk result (λ text. string_bytes text ≡ show_words program.now graph.now) }
{
    let mut text = String::new(alloc);
    push_ports(&mut text, program)?;
    push_reactions(&mut text, program, graph)?;
    Ok(text)
}

/// The lines of a program: all of them, or those of ports and reactions.
fn lines(alloc: Global, program: &Program, graph: &Graph, all: bool) -> Result<String, AllocError>
    requires { IsGraphOf program.now graph.now }
    ensures { IfOk result (λ text. string_bytes text ≡ lines_of all program.now graph.now) }
{
    if all {
        all_lines(alloc, program, graph)
    } else {
        show_lines(alloc, program, graph)
    }
}

/// Writes the lines of a program, as `show_text` does. With `all` those of its instances, actions and
/// timers stand among them, and below the line of a reaction those of its triggers, uses and effects.
pub fn show_program<W: Write>(
    alloc: Global,
    program: &Program,
    all: bool,
    out: &mut W,
) -> Result<(), Fault>
    ensures shown { OnOk result (IsShownProgram all program.now (W.contents out.old) (W.contents out.new)) }
    ensures refused { IfErr result (ShowProgramRefusal all program.now (W.contents out.old) (W.contents out.new)) }
    ensures none { IfErr result (λ f. is_of_text f.part f.number ≡ true → HasNoLoop program.now → ⊥) }
    ensures kept { IfErr result (λ f. f.part ≢ part.Write → Keeps (W.contents out.old) (W.contents out.new)) }
{
    let graph = match graph_of(alloc, program) {
        Ok(graph) => graph,
        Err(fault) => return Err(fault),
    };
    // All of the text is there before any is written, so that a refused growth cuts none.
    match lines(alloc, program, &graph, all) {
        Ok(text) => write_text(text.as_bytes(), out),
        Err(_) => Err(Fault::no_memory()),
    }
}

/// Writes a line for each port of a program, with its origin and its delays, and then a line for
/// each reaction, with its level and the reactions just before it. The fault is that of the first
/// layer that refuses, in the order lex, syntax, program, graph, write.
pub fn show_text<W: Write>(alloc: Global, program: &[u8], out: &mut W) -> Result<(), Fault>
    ensures shown { OnOk result (IsTextShown program.now (W.contents out.old) (W.contents out.new)) }
    ensures refused { IfErr result (ShowRefusal program.now (W.contents out.old) (W.contents out.new)) }
    ensures none { IfErr result (λ f. is_of_text f.part f.number ≡ true → (parts : Parts) → IsProgramOf program.now parts → HasNoLoop parts → ⊥) }
    ensures kept { IfErr result (λ f. f.part ≢ part.Write → Keeps (W.contents out.old) (W.contents out.new)) }
{
    match read_program(alloc, program) {
        Ok(flat) => show_program(alloc, &flat, false, out),
        Err(fault) => Err(fault),
    }
}
