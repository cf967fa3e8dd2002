//! Up to where rows are asked for.

ghost use Rattle.std.specs.Prelude.{◌≡◌, ◌<◌, ◌++◌, ◌∷◌, List, [], length, take, drop, false, IfSome, IfNone, IsTrue, Some};
ghost use Rattle.lft_ir.specs.declared.steps.row.Row.{Row as TheRow};
ghost use Rattle.lft_log.specs.{Told.{AreAll, IsPastEnd, KeepTo}, inner.Told.IsAskedOf};

use lft_ir::steps::{Row, row_at};
use lft_tag::Tag;

/// Rows are asked for up to the tag of the first row at or past some tag, or up to the end.
#[derive(Clone, Copy, Drop)]
pub(crate) struct Asked {
    until: Option<Tag>,
    /// The tag of the first row at or past it, once it is there.
    last: Option<Tag>,
}

impl Asked {
    /// Before the first row.
    pub(crate) fn new(until: Option<Tag>) -> Asked
        ensures until { result.until ≡ until }
        ensures asked { IsAskedOf [] result }
    {
        Asked { until, last: None }
    }

    /// Whether the row behind others goes past what is asked for.
    fn is_past(&mut self, row: Row) -> bool
        ensures until { self.new.until ≡ self.old.until }
        ensures past { IsTrue result → (t : List TheRow) → IsAskedOf t self.old → IsPastEnd self.old.until t row.tag }
        ensures asked { result ≡ false → (t : List TheRow) → IsAskedOf t self.old → IsAskedOf (t ++ row ∷ []) self.new }
    {
        let Some(until) = self.until else {
            return false;
        };
        // More rows at that tag may come: only one behind it shows that they are all there.
        match self.last {
            Some(last) => last.is_before(row.tag),
            None => {
                if !row.tag.is_before(until) {
                    self.last = Some(row.tag);
                }
                false
            }
        }
    }

    /// How many rows there are before the first that is past what is asked for. None where no row is.
    pub(crate) fn past_end(&mut self, rows: &[Row]) -> Option<usize>
        ensures until { self.new.until ≡ self.old.until }
        ensures within { IfSome result (λ n. n < length rows.now) }
        ensures past { IfSome result (λ n. (t : List TheRow) → IsAskedOf t self.old → KeepTo self.old.until (t ++ take n rows.now) × AreAll self.old.until (t ++ take n rows.now) (drop n rows.now)) }
        ensures asked { IfNone result ((t : List TheRow) → IsAskedOf t self.old → IsAskedOf (t ++ rows.now) self.new) }
    {
        for place in 0..rows.len() {
            if self.is_past(row_at(rows, place)) {
                return Some(place);
            }
        }
        None
    }
}
