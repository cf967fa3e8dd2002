//! Laws of a pass that goes on as rows come. They do no work.

ghost use Rattle.lft_rows.specs.inner.Passes.{GrownLaw, NearerLaw};

use lft_model::Plan;

/// What a pass has gone over it has gone over still, when more rows come or the stop comes nearer.
pub fn law_pass(plan: &Plan)
    ensures grown { GrownLaw plan.now }
    ensures nearer { NearerLaw plan.now }
{
    plan.keeps();
}
