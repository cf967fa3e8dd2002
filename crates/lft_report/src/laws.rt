//! A law of what is explained. It does no work.

ghost use Rattle.lft_report.specs.Explained.{RaceLaw};

use lft_model::Plan;

/// Of the first breach of a trace the race is told in any case.
pub fn law_race(plan: &Plan)
    ensures { RaceLaw plan.now }
{
    // Asked for what every plan keeps.
    plan.keeps();
}
