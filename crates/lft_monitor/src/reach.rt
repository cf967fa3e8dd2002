//! How far rows reach: the numbers of runs and tags, and the last tag with a run.

ghost use Rattle.std.specs.Prelude.{◌≡◌, ◌+◌, ◌++◌, List, Some, IfSome, IsTrue, ◌↔◌, ℕ, take, slice_get};
ghost use Rattle.lft_ir.specs.declared.steps.row.Row.{Row as TheRow};
ghost use Rattle.lft_rows.specs.inner.Slices.{Rises};
ghost use Rattle.lft_monitor.specs.Reach.{IsReach};

use lft_ir::steps::{Row, is_start, row_at};
use lft_tag::Tag;

/// How many runs rows have, at how many different tags, and the last of these tags.
#[derive(Clone, Copy, PartialEq, Eq, Debug, Drop)]
pub struct Reach {
    pub runs: u64,
    pub tags: u64,
    pub tag: Option<Tag>,
}

/// Whether the last tag is this one.
fn is_last(last: Option<Tag>, tag: Tag) -> bool
    ensures { IsTrue result ↔ (last ≡ Some tag) }
{
    match last {
        Some(other) => other.is_same(tag),
        None => false,
    }
}

/// The reach with one row more. None where a count would be too great.
fn with_row(reach: Reach, row: Row) -> Option<Reach>
    ensures { IfSome result (λ more. (t : List TheRow) (n : ℕ) → slice_get t n ≡ Some row → Rises t → IsReach (take n t) reach → IsReach (take (n + 1) t) more) }
{
    if !is_start(&row.step) {
        return Some(reach);
    }
    let runs = reach.runs.checked_add(1)?;
    if is_last(reach.tag, row.tag) {
        return Some(Reach { runs, ..reach });
    }
    let tags = reach.tags.checked_add(1)?;
    Some(Reach {
        runs,
        tags,
        tag: Some(row.tag),
    })
}

/// The reach of rows with more behind them. None where a count would be too great.
pub(crate) fn reach_behind(reach: Reach, rows: &[Row]) -> Option<Reach>
    ensures { IfSome result (λ more. (done : List TheRow) → Rises (done ++ rows.now) → IsReach done reach → IsReach (done ++ rows.now) more) }
{
    let mut reach = reach;
    for place in 0..rows.len() {
        reach = with_row(reach, row_at(rows, place))?;
    }
    Some(reach)
}
