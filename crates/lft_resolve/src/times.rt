//! Times in nanoseconds.

ghost use Rattle.std.specs.Prelude.{◌≡◌, ◌<◌, ◌≤◌, MatchOption};
ghost use Rattle.lft_tree.specs.Tree.{nanoseconds, unit_nanoseconds};
ghost use Rattle.lft_resolve.specs.Causes.{longest};

use lft_tag::MAX_TIME;
use lft_tree::{Time, TimeUnit};

/// How many nanoseconds a unit has.
fn unit_nanoseconds(unit: Option<TimeUnit>) -> u64
    ensures { result ≡ unit_nanoseconds unit }
{
    match unit {
        None | Some(TimeUnit::Nanosecond) => 1,
        Some(TimeUnit::Microsecond) => 1_000,
        Some(TimeUnit::Millisecond) => 1_000_000,
        Some(TimeUnit::Second) => 1_000_000_000,
        Some(TimeUnit::Minute) => 60_000_000_000,
        Some(TimeUnit::Hour) => 3_600_000_000_000,
        Some(TimeUnit::Day) => 86_400_000_000_000,
        Some(TimeUnit::Week) => 604_800_000_000_000,
    }
}

/// A written time in nanoseconds, if it isn't past the greatest.
pub fn nanoseconds(time: Time) -> Option<u64>
    ensures { MatchOption result (longest < nanoseconds time) (λ n. (n ≡ nanoseconds time) × (n ≤ longest)) }
{
    let all = time.count.checked_mul(unit_nanoseconds(time.unit))?;
    if all <= MAX_TIME { Some(all) } else { None }
}
