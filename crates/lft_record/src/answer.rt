//! From a plan and cards to a recording.

ghost use Rattle.std.specs.Prelude.{◌≡◌, IfOk, IfErr, OnOk, true};
ghost use Rattle.lft_record.specs.{Answers.{AnswerRefusalUnder, IsAnswerUnder}, Recordings.{IsPlanRecorded, RecordRefusal}, Scripts.card_law};

use crate::bodies::{FollowsCards, Scripted, card_bodies};
use crate::cards::{Cards, read_cards};
use crate::fault::cards_fault;
use crate::recording::record_to;
use lft_load::Fault;
use lft_model::Plan;
use std::alloc::Global;
use std::io::Write;
use std::marker::Brand;
use std::sync::Wait;
use std::thread::Threads;

/// True, once a plan is recorded with the bodies of the cards, and the trace table is written. The fault is
/// that of the cards; then `write` where the table couldn't be written, else `pool` where the recording
/// stopped. `memory` 1 may come in place of any.
pub fn record_plan<R: Threads + Wait + Sync, W: Write>(
    rt: &R,
    alloc: Global,
    plan: Plan,
    cards: &[u8],
    workers: u32,
    max_runs: u32,
    out: &mut W,
) -> Result<bool, Fault>
    ensures yes { IfOk result (λ recorded. recorded ≡ true) }
    ensures recorded { OnOk result (IsAnswerUnder plan cards.now workers max_runs (W.contents out.old) (W.contents out.new)) }
    ensures refused { IfErr result (AnswerRefusalUnder plan cards.now workers max_runs (W.contents out.old) (W.contents out.new)) }
{
    let cards = match read_cards(alloc, plan.program(), cards) {
        Ok(cards) => cards,
        Err(fault) => return Err(cards_fault(fault)),
    };
    match record_cards::<Brand, R, W>(rt, alloc, plan, &cards, workers, max_runs, out) {
        Ok(()) => Ok(true),
        Err(fault) => Err(fault),
    }
}

// Records the plan with the bodies of the cards.
fn record_cards<S: Scripted + Send, R: Threads + Wait + Sync, W: Write>(
    rt: &R,
    alloc: Global,
    plan: Plan,
    cards: &Cards,
    workers: u32,
    max_runs: u32,
    out: &mut W,
) -> Result<(), Fault>
    requires { cards.now ≡ S.scripts }
    ensures recorded { OnOk result (IsPlanRecorded (card_law cards.now) plan workers max_runs (W.contents out.old) (W.contents out.new)) }
    ensures refused { IfErr result (RecordRefusal (card_law cards.now) plan workers max_runs (W.contents out.old) (W.contents out.new)) }
{
    match card_bodies::<S>(alloc, plan.program(), cards, max_runs) {
        Ok(bodies) => record_to(rt, alloc, plan, bodies, workers, max_runs, out),
        Err(_) => Err(Fault::no_memory()),
    }
}
