//! Bodies whose answers are made beforehand.

ghost use Rattle.std.specs.Prelude.{◌≡◌, IfOk, OnOk, length};

use lft_ir::steps::Step;
use lft_ir::{Name, Value};
use lft_model::{Plan, Reads};
use lft_pool::{AnyAnswer, Bodies, Body, Code, Done, Steps};
use lft_tag::{NoMemory, Tag};
use std::alloc::Global;

/// Code that leaves a state word and takes steps whatever it is given. Where it has no steps it has no memory.
#[derive(Drop)]
pub(crate) struct Prepared {
    pub(crate) alloc: Global,
    pub(crate) word: i64,
    pub(crate) steps: Option<&'static [Step]>,
}

impl Code for Prepared {
    ghost can_run = { λ _. Unit {0} };

    ghost gives = { λ _ _ _ _ _. Unit {0} };

    ghost repeats = { λ _. Unit {0} };

    fn run(self, _tag: Tag, _state: i64, _reads: Reads) -> Result<Done, NoMemory> {
        match self.steps {
            Some(steps) => done(self.alloc, self.word, steps),
            None => Err(NoMemory),
        }
    }

    fn again(&self) -> Option<Self> {
        Some(Prepared {
            alloc: self.alloc,
            word: self.word,
            steps: self.steps,
        })
    }
}

/// A body of whose answers nothing is asked.
pub(crate) type PreparedBody = Body<AnyAnswer, Prepared>;

/// Bodies of whose answers nothing is asked.
pub(crate) type PreparedBodies = Bodies<AnyAnswer, Prepared>;

/// The answer that leaves this state word and makes these steps.
pub(crate) fn done(alloc: Global, state: i64, steps: &[Step]) -> Result<Done, NoMemory> {
    let steps = Steps::from_vec(Vec::from_slice(alloc, steps)?);
    Ok(Done { state, steps })
}

/// The step that writes a number to a port.
pub(crate) fn write(port: u32, value: i64) -> Step {
    Step::Write(Name::Port(port), Value::Int(value))
}

/// A body of a reaction that takes no step.
pub(crate) fn idle_body(alloc: Global, reaction: u32) -> PreparedBody
    ensures { result ≡ reaction }
{
    body_of(
        alloc,
        Answer {
            reaction,
            steps: Some(&[]),
        },
    )
}

/// Puts a body behind the others of its reaction.
pub(crate) fn put_body<C: Code + Drop>(
    bodies: &mut Bodies<AnyAnswer, C>,
    body: Body<AnyAnswer, C>,
) -> Result<(), NoMemory>
    ensures { OnOk result (length bodies.new ≡ length bodies.old) }
{
    match bodies.put(body) {
        Ok(()) => return Ok(()),
        Err(_) => return Err(NoMemory),
    }
}

/// What the body of a run of this reaction answers: its steps, or want of memory.
#[derive(Clone, Copy)]
pub(crate) struct Answer {
    pub(crate) reaction: u32,
    pub(crate) steps: Option<&'static [Step]>,
}

/// The body with this answer.
fn body_of(alloc: Global, answer: Answer) -> PreparedBody
    ensures { result ≡ answer.reaction }
{
    let code = Prepared {
        alloc,
        word: 0,
        steps: answer.steps,
    };
    Body::new(answer.reaction, code)
}

/// Bodies with these answers, each behind the others of its reaction.
pub(crate) fn bodies_of(
    alloc: Global,
    plan: &Plan,
    answers: &[Answer],
) -> Result<PreparedBodies, NoMemory>
    ensures { IfOk result (λ bodies. length bodies ≡ length plan.now.program.reactions) }
{
    let mut bodies = PreparedBodies::new(alloc, plan.program())?;
    for answer in answers.iter() {
        put_body(&mut bodies, body_of(alloc, *answer))?;
    }
    Ok(bodies)
}
