//! Where two traces differ.

ghost use Rattle.std.specs.Prelude.{IfOk, string_bytes};
ghost use Rattle.lft_ir.specs.Steps.Fits.{RowsFit};
ghost use Rattle.lft_model.specs.Breaches.{Legal};
ghost use Rattle.lft_pair.specs.{Pairs.IsDifference, Shown.ShowsDifference};

mod answers;
mod cells;
mod contrasts;
mod counts;
mod effects;
mod finding;
mod reads;
mod runs;
mod table;
mod telling;

pub use contrasts::{Contrast, Contrasts, LastWrite, Scheduling};
pub use finding::find;
use lft_ir::steps::Rows;
use lft_model::Plan;
use lft_tag::{NoMemory, Tag};
use std::alloc::Global;
pub use telling::tell;

/// The text of the difference of two legal traces: for which effects the reaction's runs at the tag
/// answered otherwise, in which rows, what they read, and what stands before them. It looks at the rows
/// of both traces some times.
pub fn contrast(
    alloc: Global,
    plan: &Plan,
    first: &Rows,
    second: &Rows,
    tag: Tag,
    reaction: u32,
) -> Result<String, NoMemory>
    requires first_fits { RowsFit plan.now.program first.now }
    requires second_fits { RowsFit plan.now.program second.now }
    requires legal { Legal plan.now first.now }
    requires difference { IsDifference plan.now first.now second.now tag reaction }
    ensures { IfOk result (λ text. ShowsDifference plan.now first.now second.now tag reaction (string_bytes text)) }
{
    let contrasts = find(alloc, plan, first, second, tag, reaction)?;
    let text = tell(alloc, plan.program(), tag, reaction, &contrasts)?;
    Ok(text)
}
