//! What bodies answer by their cards.

ghost use Rattle.std.specs.Prelude.{◌≡◌, IfOk};
ghost use Rattle.lft_record.specs.Scripts.{card_done, content_value, script_done, script_word, step_done};

use crate::cards::card::{CardStep, CardValue};
use crate::cards::{Cards, Script};
use lft_ir::Value;
use lft_ir::steps::Step;
use lft_model::Reads;
use lft_pool::{Done, Steps};
use lft_tag::{NoMemory, Tag};
use std::alloc::Global;

/// What a body of the reaction answers at a tag, with the state word before the run and what it
/// reads. A reaction without cards makes no step and keeps the word.
pub fn card_answer(
    alloc: Global,
    cards: &Cards,
    reaction: u32,
    tag: Tag,
    state: i64,
    reads: &Reads,
) -> Result<Done, NoMemory>
    ensures { IfOk result (λ done. done ≡ card_done cards.now reaction tag state reads.now) }
{
    match cards.script(reaction) {
        Some(script) => follow(alloc, script, tag, state, reads),
        None => Ok(Done {
            state,
            steps: Steps::from_vec(Vec::new(alloc)),
        }),
    }
}

// What a body answers by its script.
fn follow(
    alloc: Global,
    script: &Script,
    tag: Tag,
    state: i64,
    reads: &Reads,
) -> Result<Done, NoMemory>
    ensures { IfOk result (λ done. done ≡ script_done script.now tag state reads.now) }
{
    let mut steps = Vec::new(alloc);
    for step in script.steps.as_slice() {
        steps.push(made(step, tag, state, reads))?;
    }
    Ok(Done {
        state: word_after(script, tag, state, reads),
        steps: Steps::from_vec(steps),
    })
}

// The state word that a body leaves.
fn word_after(script: &Script, tag: Tag, state: i64, reads: &Reads) -> i64
    ensures { result ≡ script_word script.now tag state reads.now }
{
    match &script.state {
        Some(expression) => expression.value(tag, state, reads),
        None => state,
    }
}

// The step of a run that a card's step makes.
fn made(step: &CardStep, tag: Tag, state: i64, reads: &Reads) -> Step
    ensures { result ≡ step_done tag state reads.now step.now }
{
    match step {
        CardStep::Write(name, content) => {
            Step::Write(*name, value_of(content, tag, state, reads))
        }
        CardStep::Schedule(name, content, delay) => {
            Step::Schedule(*name, value_of(content, tag, state, reads), *delay)
        }
        CardStep::Stop => Step::Stop,
    }
}

fn value_of(content: &CardValue, tag: Tag, state: i64, reads: &Reads) -> Value
    ensures { result ≡ content_value tag state reads.now content.now }
{
    match content {
        CardValue::Bare => Value::Bare,
        CardValue::Int(expression) => Value::Int(expression.value(tag, state, reads)),
    }
}
