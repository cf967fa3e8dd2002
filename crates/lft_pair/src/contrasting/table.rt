//! Both answers in columns.

ghost use Rattle.std.specs.Prelude.{◌≡◌, ◌++◌, length, max, IfOk, OnOk, string_bytes};
ghost use Rattle.lft_pair.specs.{Words.{effect_words, first_words}, Told.{widest, contrast_row_words}};

use crate::contrasting::cells::{effect_cell, first_cell, push_second};
use crate::contrasting::contrasts::Contrast;
use lft_ir::Program;
use lft_ir::words::push_padded;
use lft_lists::item_at;
use std::alloc::{AllocError, Global};

/// How wide the first two columns are.
#[derive(Clone, Copy, Drop)]
pub(crate) struct TableWidths {
    pub effect: usize,
    pub first: usize,
}

/// The width, or the length of the cell where that is greater.
fn wider(width: usize, cell: &str) -> usize
    ensures { result ≡ max width (length cell.now) }
{
    if width < cell.len() {
        cell.len()
    } else {
        width
    }
}

/// The width of the first column.
fn effect_width(
    alloc: Global,
    program: &Program,
    contrasts: &[Contrast],
) -> Result<usize, AllocError>
    ensures { IfOk result (λ width. width ≡ widest (effect_words program.now) 6 contrasts.now) }
{
    // As wide as the word over the column, `effect`.
    let mut width = 6;
    for place in 0..contrasts.len() {
        let cell = effect_cell(alloc, program, item_at(contrasts, place))?;
        width = wider(width, cell.as_str());
    }
    Ok(width)
}

/// The width of the second column.
fn first_width(alloc: Global, contrasts: &[Contrast]) -> Result<usize, AllocError>
    ensures { IfOk result (λ width. width ≡ widest first_words 5 contrasts.now) }
{
    // As wide as the word over the column, `first`.
    let mut width = 5;
    for place in 0..contrasts.len() {
        let cell = first_cell(alloc, item_at(contrasts, place))?;
        width = wider(width, cell.as_str());
    }
    Ok(width)
}

/// Columns as wide as their words.
pub(crate) fn widths_of(
    alloc: Global,
    program: &Program,
    contrasts: &[Contrast],
) -> Result<TableWidths, AllocError>
    ensures effect { IfOk result (λ widths. widths.effect ≡ widest (effect_words program.now) 6 contrasts.now) }
    ensures first { IfOk result (λ widths. widths.first ≡ widest first_words 5 contrasts.now) }
{
    let effect = effect_width(alloc, program, contrasts)?;
    let first = first_width(alloc, contrasts)?;
    Ok(TableWidths { effect, first })
}

/// Puts a line of the table at the end of the text.
pub(crate) fn push_row(
    alloc: Global,
    text: &mut String,
    program: &Program,
    widths: TableWidths,
    contrast: Contrast,
) -> Result<(), AllocError>
    ensures { OnOk result (string_bytes text.new ≡ string_bytes text.old ++ contrast_row_words program.now widths.effect widths.first contrast) }
{
    let effect = effect_cell(alloc, program, contrast)?;
    let first = first_cell(alloc, contrast)?;
    text.push_str("  ")?;
    push_padded(text, widths.effect, effect.as_str())?;
    text.push_str("  ")?;
    push_padded(text, widths.first, first.as_str())?;
    text.push_str("  ")?;
    push_second(text, contrast)?;
    text.push_str("\n")?;
    Ok(())
}
