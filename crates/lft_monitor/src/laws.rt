//! Laws of rows that come one after another. They do no work.

ghost use Rattle.lft_monitor.specs.{Sure.{FinishedLaw, ToldLaw, RowLaw, SureLaw, WholeLaw, DroppedLaw, LaterInputsLaw}, inner.Timely.{TimelyLaw, OverdueLaw}};

use lft_model::Plan;

/// What is told of some rows stays true when more come, and what is told at the end is the whole.
pub fn law_sure(plan: &Plan)
    ensures finished { FinishedLaw plan.now }
    ensures told { ToldLaw plan.now }
    ensures row { RowLaw plan.now }
    ensures sure { SureLaw plan.now }
    ensures whole { WholeLaw plan.now }
    ensures dropped { DroppedLaw plan.now }
    ensures inputs { LaterInputsLaw plan.now }
{
    plan.keeps();
}

/// What the acceptor keeps of finished tags shows that nothing is broken so far, once nothing is due
/// before the tag at hand; and what is due before it is broken.
pub fn law_timely(plan: &Plan)
    ensures timely { TimelyLaw plan.now }
    ensures overdue { OverdueLaw plan.now }
{
    plan.keeps();
}
