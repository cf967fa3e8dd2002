//! What a run reads.

use lft_ir::Value;
use lft_lists::List;

/// For each input of a reaction in order, its value, or that it is absent.
pub type Reads = List<Option<Value>>;
