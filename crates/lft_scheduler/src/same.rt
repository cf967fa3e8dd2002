//! Whether two lists of reads are the same.

ghost use Rattle.std.specs.Prelude.{◌≡◌};
ghost use Rattle.std.specs.Bool.{Decides};

use lft_ir::Value;

/// Whether the two reads have the same values.
pub fn same_reads(a: &[Option<Value>], b: &[Option<Value>]) -> bool
    ensures { Decides result (a.now ≡ b.now) }
{
    a == b
}
