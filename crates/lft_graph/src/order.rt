//! All reactions in the order of their levels.

ghost use Rattle.std.specs.Prelude.{◌≡◌, ◌≤◌, length, IfOk};
ghost use Rattle.lft_graph.specs.Graph.{AreByLevel};

use lft_tag::NoMemory;
use std::alloc::Global;

/// All reactions by level and then by number.
pub(crate) fn by_level(alloc: Global, levels: &[u32]) -> Result<Vec<u32>, NoMemory>
    requires { length levels.now ≤ 10000 }
    ensures { IfOk result (λ order. AreByLevel levels.now order.items) }
{
    let mut pairs = Vec::new(alloc);
    'levels: for number in 0..levels.len() {
        pairs.push((levels[number], number as u32))?;
    }
    pairs.sort_unstable();
    let mut order = Vec::new(alloc);
    'pairs: for place in 0..pairs.len() {
        order.push(pairs[place].1)?;
    }
    Ok(order)
}
