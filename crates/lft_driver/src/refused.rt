//! Why texts are refused, for people. Something is told only of texts that have no meaning.

ghost use Rattle.std.specs.Prelude.{◌≡◌, ◌++◌, ◌⊎◌, ℕ, List, IfOk, IfNone, IfSome, string_bytes};
ghost use Rattle.lft_graph.specs.Precedence.{HasNoLoop};
ghost use Rattle.lft_trace.specs.Faults.{is_told};
ghost use Rattle.lft_driver.specs.Meaning.{IsNoTrace, IsTrace};
ghost use Rattle.lft_driver.specs.Told.{HasNoOrder, HasOrder, HaveMeaning, HaveNoMeaning, IsBundleRefusal, IsNoTable, IsPlanned, IsReadBundle, IsTable, IsUnplanned, TellsExternals, TellsInputsOrLoop, TellsLoop, TellsNoOrder, TellsOneTrace, TellsFirstRefused, TellsTrace, missing_words};
ghost use Rattle.lft_driver.specs.inner.Told.{ReadsProgram};

use crate::bundle::{Marker, has_returned_marker, read_bundle};
use lft_graph::{Graph, GraphFault};
use lft_ir::Program;
use lft_program::flattened;
use lft_program_diagnostics::{tell_loop, tell_refusal};
use lft_syntax::{LexFault, SyntaxFault, lex, parse};
use lft_tag::NoMemory;
use lft_text_diagnostics::tables::{tell_externals, tell_trace};
use lft_text_diagnostics::{tell_no_tokens, tell_no_tree};
use lft_trace::{TraceFault, read_externals, read_trace};
use std::alloc::Global;

/// What a program's text gives: the program, or why the text is refused.
#[derive(Drop)]
enum Start {
    Program(Program),
    Refused(String),
}

/// What a program's text gives. It is read once: what is told is told of the fault at hand.
fn read(alloc: Global, text: &[u8]) -> Result<Start, NoMemory>
    ensures { IfOk result (ReadsProgram text.now) }
{
    let tokens = match lex(alloc, text) {
        Ok(tokens) => tokens,
        Err(LexFault::NoMemory) => return Err(NoMemory),
        Err(fault) => {
            let words = tell_no_tokens(alloc, text, fault)?;
            return Ok(Start::Refused(words));
        }
    };
    let ast = match parse(alloc, text, &tokens) {
        Ok(ast) => ast,
        Err(SyntaxFault::NoMemory) => return Err(NoMemory),
        Err(SyntaxFault::Unexpected(number)) => {
            let words = tell_no_tree(alloc, text, &tokens, number)?;
            return Ok(Start::Refused(words));
        }
    };
    match flattened(alloc, &ast) {
        Ok(program) => Ok(Start::Program(program)),
        Err(refusal) => {
            let words = tell_refusal(alloc, text, &tokens, &ast, &refusal)?;
            Ok(Start::Refused(words))
        }
    }
}

/// Whether the fault tells something of the table.
fn is_told(fault: TraceFault) -> bool
    ensures { result ≡ is_told fault }
{
    !matches!(fault, TraceFault::NotCsv | TraceFault::NoMemory)
}

/// Why a text is no table of external inputs, if it isn't.
// A reader of records that failed tells as little of the text as want of memory, and is told as such.
pub fn refusal_of_externals(
    alloc: Global,
    program: &Program,
    externals: &[u8],
) -> Result<Option<String>, NoMemory>
    ensures no_table { IfOk result (λ told. IfSome told (λ _. IsNoTable program.now externals.now)) }
    ensures tells { IfOk result (λ told. IfSome told (λ words. TellsExternals program.now externals.now (string_bytes words))) }
    ensures none { IfOk result (λ told. IfNone told (IsTable program.now externals.now)) }
{
    let Err(fault) = read_externals(alloc, program, externals) else {
        return Ok(None);
    };
    if !is_told(fault) {
        return Err(NoMemory);
    }
    let words = tell_externals(alloc, program, externals, fault)?;
    Ok(Some(words))
}

/// Why a text is no trace table, if it isn't. The table is called by the word.
pub fn refusal_of_trace(
    alloc: Global,
    program: &Program,
    trace: &[u8],
    word: &'static str,
) -> Result<Option<String>, NoMemory>
    ensures no_trace { IfOk result (λ told. IfSome told (λ _. IsNoTrace program.now trace.now)) }
    ensures tells { IfOk result (λ told. IfSome told (λ words. TellsTrace program.now trace.now word.now (string_bytes words))) }
    ensures none { IfOk result (λ told. IfNone told (IsTrace program.now trace.now)) }
{
    let Err(fault) = read_trace(alloc, program, trace) else {
        return Ok(None);
    };
    if !is_told(fault) {
        return Err(NoMemory);
    }
    let words = tell_trace(alloc, program, trace, fault, word)?;
    Ok(Some(words))
}

/// Why the reactions of a program have no order, if they have none.
pub fn refusal_of_graph(alloc: Global, program: &Program) -> Result<Option<String>, NoMemory>
    ensures tells { IfOk result (λ told. IfSome told (λ words. TellsLoop program.now (string_bytes words))) }
    ensures none { IfOk result (λ told. IfNone told (HasNoLoop program.now)) }
{
    match Graph::build(alloc, program) {
        Ok(_) => Ok(None),
        Err(GraphFault::CausalityLoop(reactions)) => {
            let words = tell_loop(alloc, program, reactions.as_slice())?;
            Ok(Some(words))
        }
        Err(GraphFault::NoMemory) => Err(NoMemory),
    }
}

/// Why a program's text is refused, or why its reactions have no order, in lines as those of
/// `refusal_of_texts`. None where the program can be shown.
pub fn refusal_of_program(alloc: Global, program: &[u8]) -> Result<Option<String>, NoMemory>
    ensures no_order { IfOk result (λ told. IfSome told (λ _. HasNoOrder program.now)) }
    ensures tells { IfOk result (λ told. IfSome told (λ words. TellsNoOrder program.now (string_bytes words))) }
    ensures none { IfOk result (λ told. IfNone told (HasOrder program.now)) }
{
    match read(alloc, program)? {
        Start::Program(flat) => refusal_of_graph(alloc, &flat),
        Start::Refused(words) => Ok(Some(words)),
    }
}

/// Why a program has no plan under some external inputs, if it has none.
pub fn refusal_of_plan(
    alloc: Global,
    program: &Program,
    externals: &[u8],
) -> Result<Option<String>, NoMemory>
    ensures no_plan { IfOk result (λ told. IfSome told (λ _. IsUnplanned program.now externals.now)) }
    ensures tells { IfOk result (λ told. IfSome told (λ words. TellsInputsOrLoop program.now externals.now (string_bytes words))) }
    ensures none { IfOk result (λ told. IfNone told (IsPlanned program.now externals.now)) }
{
    match refusal_of_externals(alloc, program, externals)? {
        Some(words) => Ok(Some(words)),
        None => refusal_of_graph(alloc, program),
    }
}

/// Why the first of three texts that is refused is: where, the line with a mark, and what helps, in lines
/// that end with a line feed. None where all three are read. `NoMemory` too where the reader of records failed.
///
/// It reads each text once, so it costs what they do.
pub fn refusal_of_texts(
    alloc: Global,
    program: &[u8],
    externals: &[u8],
    trace: &[u8],
) -> Result<Option<String>, NoMemory>
    ensures no_meaning { IfOk result (λ told. IfSome told (λ _. HaveNoMeaning program.now externals.now trace.now)) }
    ensures tells { IfOk result (λ told. IfSome told (λ words. TellsFirstRefused program.now externals.now trace.now (string_bytes words))) }
    ensures none { IfOk result (λ told. IfNone told (HaveMeaning program.now externals.now trace.now)) }
{
    let flat = match read(alloc, program)? {
        Start::Program(flat) => flat,
        Start::Refused(words) => return Ok(Some(words)),
    };
    match refusal_of_plan(alloc, &flat, externals)? {
        Some(words) => Ok(Some(words)),
        None => refusal_of_trace(alloc, &flat, trace, "Trace"),
    }
}

/// Why the first of two trace tables that isn't one is none.
pub fn refusal_of_traces(
    alloc: Global,
    program: &Program,
    first: &[u8],
    second: &[u8],
) -> Result<Option<String>, NoMemory>
    ensures no_trace { IfOk result (λ told. IfSome told (λ _. IsNoTrace program.now first.now ⊎ IsNoTrace program.now second.now)) }
    ensures tells { IfOk result (λ told. IfSome told (λ words. TellsOneTrace program.now first.now second.now (string_bytes words))) }
    ensures none { IfOk result (λ told. IfNone told (IsTrace program.now first.now × IsTrace program.now second.now)) }
{
    match refusal_of_trace(alloc, program, first, "First trace")? {
        Some(words) => Ok(Some(words)),
        None => refusal_of_trace(alloc, program, second, "Second trace"),
    }
}

/// The sentence on a marker that is missing.
fn marker_words(marker: Marker) -> &'static str
    ensures { result.now ≡ missing_words marker }
{
    match marker {
        Marker::Program => "Bundle: its first line isn't `--- program`.\n",
        Marker::Externals => "Bundle: behind the program no line is `--- externals`.\n",
        Marker::Trace => "Bundle: behind the external inputs no line is `--- trace`.\n",
    }
}

/// What a bundle is.
fn bundle_words(alloc: Global, text: &[u8]) -> Result<String, NoMemory> {
    let mut out = String::new(alloc);
    if has_returned_marker(text) {
        out.push_str(
            "  A line of a marker ends with a line feed alone, and not with a carriage return before it.\n",
        )?;
    }
    out.push_str(
        "  A bundle is the lines `--- program`, `--- externals` and `--- trace`, each with its text behind it.\n",
    )?;
    Ok(out)
}

/// Which marker of a bundle is missing, and what a bundle is.
fn tell_marker(alloc: Global, text: &[u8], marker: Marker) -> Result<String, NoMemory>
    ensures { IfOk result (λ words. (rest : List ℕ) × (string_bytes words ≡ missing_words marker ++ rest)) }
{
    let help = bundle_words(alloc, text)?;
    let mut out = String::new(alloc);
    out.push_str(marker_words(marker))?;
    out.push_str(help.as_str())?;
    Ok(out)
}

/// Why a bundle is refused: the first marker that is missing, or why the first of its texts that is refused
/// is. None where all are read.
pub fn refusal_of_bundle(alloc: Global, text: &[u8]) -> Result<Option<String>, NoMemory>
    ensures some { IfOk result (λ told. IfSome told (λ words. IsBundleRefusal text.now (string_bytes words))) }
    ensures none { IfOk result (λ told. IfNone told (IsReadBundle text.now)) }
{
    match read_bundle(text) {
        Ok(bundle) => refusal_of_texts(alloc, bundle.program, bundle.externals, bundle.trace),
        Err(marker) => {
            let words = tell_marker(alloc, text, marker)?;
            Ok(Some(words))
        }
    }
}
