//! The text of the way of an event: the last connections from the origin of a port to the port.

ghost use Rattle.std.specs.Prelude.{◌≡◌, ◌++◌, unwrap_or, IfOk, OnOk, string_bytes};
ghost use Rattle.lft_tag.specs.Tags.{IsRecorded};
ghost use Rattle.lft_ir.specs.Steps.Fits.{RowsFit};
ghost use Rattle.lft_report.specs.Hops.{source_into as the_source_into, way_back as the_way_back, reached as the_reached, end_words, hop_words, told_back, hops_words, way_at};

use crate::ways::{delay_into, push_arrow};
use lft_ir::Program;
use lft_ir::steps::{Row, row_at};
use lft_ir::words::{push_port, push_tag};
use lft_lists::item_at;
use lft_tag::Tag;
use std::alloc::{AllocError, Global};

/// The port from which the connection into the port comes, if there is one.
fn source_into(program: &Program, port: u32) -> Option<u32>
    ensures { result ≡ the_source_into program.now port }
{
    if (port as usize) < program.ports() {
        match program.port(port).source {
            Some(source) => Some(source.port),
            None => None,
        }
    } else {
        None
    }
}

/// The port from which the connection into the port comes; a port without one is its own.
fn before(program: &Program, port: u32) -> u32
    ensures { result ≡ unwrap_or (the_source_into program.now port) port }
{
    match source_into(program, port) {
        Some(source) => source,
        None => port,
    }
}

/// The ports into which the last connections on the way to the port lead, the last first. One more is
/// looked for than is told, and no more: many ports may stand behind one long way.
fn way_back(alloc: Global, program: &Program, port: u32) -> Result<Vec<u32>, AllocError>
    ensures { IfOk result (λ way. way.items ≡ the_way_back program.now 21 port) }
{
    let mut way = Vec::new(alloc);
    let mut at = port;
    let mut left = 21_u32;
    while left > 0 {
        left -= 1;
        // Port by port, though each has its origin by itself: the connections between are what is told.
        match source_into(program, at) {
            Some(source) => {
                way.push(at)?;
                at = source;
            }
            None => return Ok(way),
        }
    }
    Ok(way)
}

/// The tag at which the port gets what is written to its origin at the tag; a number that is of no port
/// has the tag itself.
fn reached(program: &Program, tag: Tag, port: u32) -> Tag
    requires { IsRecorded tag }
    ensures { result ≡ the_reached program.now tag port }
{
    if (port as usize) < program.ports() {
        tag.plus(program.port(port).shift)
    } else {
        tag
    }
}

/// Puts a port, and when it gets what is written to its origin at the tag, at the end of the text.
fn push_end(text: &mut String, program: &Program, tag: Tag, port: u32) -> Result<(), AllocError>
    requires { IsRecorded tag }
    ensures { OnOk result (string_bytes text.new ≡ string_bytes text.old ++ end_words program.now tag port) }
{
    push_port(text, program, port)?;
    text.push_str(" ")?;
    push_tag(text, reached(program, tag, port))?;
    Ok(())
}

/// Puts the connection into the port, with the tags before and after it, at the end of the text.
fn push_hop(text: &mut String, program: &Program, tag: Tag, port: u32) -> Result<(), AllocError>
    requires { IsRecorded tag }
    ensures { OnOk result (string_bytes text.new ≡ string_bytes text.old ++ hop_words program.now tag port) }
{
    text.push_str("    ")?;
    push_end(text, program, tag, before(program, port))?;
    push_arrow(text, delay_into(program, port))?;
    push_end(text, program, tag, port)?;
    text.push_str("\n")?;
    Ok(())
}

/// Puts the connections into the ports, the last first, at the end of the text.
fn push_hops(
    text: &mut String,
    program: &Program,
    tag: Tag,
    ports: &[u32],
) -> Result<(), AllocError>
    requires { IsRecorded tag }
    ensures { OnOk result (string_bytes text.new ≡ string_bytes text.old ++ told_back (hop_words program.now tag) ports.now) }
{
    // They are listed from the port back, and told from the origin on.
    let mut left = ports.len();
    while left > 0 {
        left -= 1;
        push_hop(text, program, tag, item_at(ports, left))?;
    }
    Ok(())
}

/// Puts the connections into the ports, the last first, at the end of the text: all, or of more than 20
/// the last ones.
fn push_some(
    text: &mut String,
    program: &Program,
    tag: Tag,
    ports: &[u32],
) -> Result<(), AllocError>
    requires { IsRecorded tag }
    ensures { OnOk result (string_bytes text.new ≡ string_bytes text.old ++ hops_words program.now tag ports.now) }
{
    // Many inputs may stand behind one long way: to go back over all of it for each takes the product of both.
    if 20 < ports.len() {
        text.push_str("    ..\n")?;
        push_hops(text, program, tag, &ports[0..20])?;
    } else {
        push_hops(text, program, tag, ports)?;
    }
    Ok(())
}

/// Puts the way to the port of what the row at the place writes to its origin at the end of the text.
pub(crate) fn push_way_at(
    alloc: Global,
    text: &mut String,
    program: &Program,
    rows: &[Row],
    port: u32,
    row: u32,
) -> Result<(), AllocError>
    requires { RowsFit program.now rows.now }
    ensures { OnOk result (string_bytes text.new ≡ string_bytes text.old ++ way_at program.now rows.now port row) }
{
    if (row as usize) < rows.len() {
        let tag = row_at(rows, row as usize).tag;
        let ports = way_back(alloc, program, port)?;
        push_some(text, program, tag, ports.as_slice())?;
    }
    Ok(())
}
