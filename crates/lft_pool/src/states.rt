//! The state words round each ended run.

use lft_lists::List;

/// The state words before and after each ended run, in order of the ends.
pub type States = List<(i64, i64)>;
