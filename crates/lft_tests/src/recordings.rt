//! Recordings: bodies that run at once, in which order they are taken, a closure as a body, a body without memory.

ghost use Rattle.std.specs.Prelude.{◌≡◌, IfOk, OnOk, length};

use crate::bodies::{Answer, Prepared, bodies_of, done, put_body, write};
use crate::texts::{AT_ONCE, ONE, PIPE, TWO, is_accepted, plan};
use lft_ir::steps::Step;
use lft_ir::{Name, Value};
use lft_model::{Plan, Reads};
use lft_pool::{
    AnyAnswer, Bodies, Body, BoxedCode, Code, Done, Recorded, Stop, Stopped, record_run,
};
use lft_tag::{NoMemory, Tag};
use std::alloc::Global;
use std::sync::Wait;
use std::sync::atomic::{AtomicU64, Ordering};
use std::test::Fail;
use std::thread;
use std::thread::Threads;

/// What comes of a recording.
type Ended<C> = Result<Recorded<AnyAnswer, C>, Stopped<AnyAnswer, C>>;

/// A recording of at most ten runs. Nothing is told of it: what knows the clauses of a recording is long to prove.
fn record<C: Code + Drop + Send, R: Threads + Wait + Sync>(
    rt: &R,
    alloc: Global,
    plan: Plan,
    bodies: Bodies<AnyAnswer, C>,
    workers: u32,
) -> Ended<C>
    requires { length bodies ≡ length plan.program.reactions }
{
    record_run(rt, alloc, plan, bodies, workers, 10)
}

/// Whether a recording came to its stop with these state words before and after each run.
fn leaves<C: Code + Drop>(ended: &Ended<C>, words: &[(i64, i64)]) -> bool {
    match ended {
        Ok(recorded) => recorded.states.as_slice() == words,
        Err(_) => false,
    }
}

/// A body that waits until another one has begun, and writes 1; -1 where the other one hadn't begun
/// after so many turns.
#[derive(Drop)]
struct Meeting<'a> {
    alloc: Global,
    port: u32,
    begun: &'a AtomicU64,
}

/// Counts a body that has begun, and waits for a second one. 1 where it came, else -1.
fn meet(begun: &AtomicU64) -> i64 {
    begun.fetch_add(1, Ordering::SeqCst);
    for _ in 0..100_000_000u64 {
        if begun.load(Ordering::SeqCst) > 1 {
            return 1;
        }
        thread::yield_now();
    }
    -1
}

impl Code for Meeting<'_> {
    ghost can_run = { λ _. Unit {0} };

    ghost gives = { λ _ _ _ _ _. Unit {0} };

    fn run(self, _tag: Tag, _state: i64, _reads: Reads) -> Result<Done, NoMemory> {
        let came = meet(self.begun);
        done(self.alloc, came, &[write(self.port, came)])
    }

    fn again(&self) -> Option<Self> {
        None
    }
}

/// A body for each of the two reactions of `TWO`, each of which waits for the other one.
fn meeting_bodies<'a>(
    alloc: Global,
    plan: &Plan,
    begun: &'a AtomicU64,
) -> Result<Bodies<AnyAnswer, Meeting<'a>>, NoMemory>
    ensures { IfOk result (λ bodies. length bodies ≡ length plan.now.program.reactions) }
{
    let mut bodies = Bodies::new(alloc, plan.program())?;
    for number in 0..2u32 {
        let code = Meeting {
            alloc,
            port: number,
            begun,
        };
        put_body(&mut bodies, Body::new(number, code))?;
    }
    Ok(bodies)
}

/// Whether both have met, and judging accepts what was recorded.
fn is_met(alloc: Global, ended: &Ended<Meeting<'_>>) -> bool {
    match ended {
        Ok(recorded) => is_accepted(alloc, &recorded.plan, &recorded.rows),
        Err(_) => false,
    }
}

/// Whether two bodies meet that two workers run.
fn meets<R: Threads + Wait + Sync>(
    rt: &R,
    alloc: Global,
    begun: &AtomicU64,
) -> Result<bool, NoMemory> {
    let plan = plan(alloc, TWO, AT_ONCE)?;
    let bodies = meeting_bodies(alloc, &plan, begun)?;
    let ended = record(rt, alloc, plan, bodies, 2);
    Ok(leaves(&ended, &[(0, 1), (0, 1)]) && is_met(alloc, &ended))
}

// no clause says that a body runs while no lock is held, or that there are two workers: with a lock
// round the bodies, or one worker for all, the first one waits in vain
#[test]
fn runs_two_bodies_at_once(rt: HostRuntime) {
    let begun = AtomicU64::new(0);
    assert!(rt; meets(&rt, rt.alloc(), &begun) == Ok(true));
}

/// Puts so many bodies that leave this word behind the others of the first reaction.
fn put_leaving(
    alloc: Global,
    bodies: &mut Bodies<AnyAnswer, Prepared>,
    word: i64,
    count: u64,
) -> Result<(), NoMemory>
    ensures { OnOk result (length bodies.new ≡ length bodies.old) }
{
    let code = Prepared {
        alloc,
        word,
        steps: Some(&[]),
    };
    match bodies.put_many(0, code, count) {
        Ok(()) => return Ok(()),
        Err(_) => return Err(NoMemory),
    }
}

const TO_40_MS: &[u8] = b"kind,time,microstep,name,value\nstop,40000000,0,,\n";

/// Eleven bodies for the first reaction of `PIPE`.
fn many_bodies(alloc: Global, plan: &Plan) -> Result<Bodies<AnyAnswer, Prepared>, NoMemory>
    ensures { IfOk result (λ bodies. length bodies ≡ length plan.now.program.reactions) }
{
    let mut bodies = Bodies::new(alloc, plan.program())?;
    for (word, count) in [(1, 1), (9, 0), (2, 3), (3, 7)] {
        put_leaving(alloc, &mut bodies, word, count)?;
    }
    Ok(bodies)
}

/// Whether a recording of five of them by one worker takes them in their order, and leaves six.
fn takes_in_order<R: Threads + Wait + Sync>(rt: &R, alloc: Global) -> Result<bool, NoMemory> {
    let plan = plan(alloc, PIPE, TO_40_MS)?;
    let bodies = many_bodies(alloc, &plan)?;
    let ended = record(rt, alloc, plan, bodies, 1);
    let has_six = match &ended {
        Ok(recorded) => recorded.left.left(0) == 6,
        Err(_) => false,
    };
    Ok(has_six && leaves(&ended, &[(0, 1), (1, 2), (2, 2), (2, 2), (2, 3)]))
}

// no clause says which of a reaction's bodies meets which of its runs, or where among them those stand that are kept
// by their count
#[test]
fn takes_bodies_in_the_order_in_which_they_were_put(rt: HostRuntime) {
    assert!(rt; takes_in_order(&rt, rt.alloc()) == Ok(true));
}

/// Whether a recording of `ONE` with this body leaves the state word 1.
fn leaves_one<C: Code + Drop + Send, R: Threads + Wait + Sync>(
    rt: &R,
    alloc: Global,
    code: C,
) -> Result<bool, NoMemory>
    requires { C.can_run code }
{
    let plan = plan(alloc, ONE, AT_ONCE)?;
    let mut bodies = Bodies::new(alloc, plan.program())?;
    put_body(&mut bodies, Body::new(0, code))?;
    Ok(leaves(&record(rt, alloc, plan, bodies, 1), &[(0, 1)]))
}

// what a body keeps of its code is asked for at the closure
#[test]
fn records_a_boxed_closure(rt: HostRuntime) -> Result<(), Fail> {
    let alloc = rt.alloc();
    let code: BoxedCode = Box::new(
        alloc,
        move |_tag: Tag, state: i64, _reads: Reads| -> Result<Done, NoMemory>
            ensures { Unit {0} }
        { done(alloc, state.wrapping_add(1), &[]) },
    )?;
    assert!(rt; leaves_one(&rt, alloc, code) == Ok(true));
    Ok(())
}

const WRITES: Answer = Answer {
    reaction: 0,
    steps: Some(&[Step::Write(Name::Port(0), Value::Int(1))]),
};

const FIRST_FAILS: Answer = Answer {
    reaction: 0,
    steps: None,
};

const SECOND_FAILS: Answer = Answer {
    reaction: 1,
    steps: None,
};

/// How many rows a recording has that stopped for a body that has no memory.
fn rows_stopped<C: Code + Drop>(ended: &Ended<C>) -> Option<usize> {
    match ended {
        Ok(_) => None,
        Err(stopped) => {
            if stopped.reason == Stop::BodyNoMemory {
                Some(stopped.rows.as_slice().len())
            } else {
                None
            }
        }
    }
}

/// How many rows a recording of `PIPE` has by these bodies where it stops for one that has no memory.
fn rows_before<R: Threads + Wait + Sync>(
    rt: &R,
    alloc: Global,
    answers: &[Answer],
) -> Result<Option<usize>, NoMemory> {
    let plan = plan(alloc, PIPE, AT_ONCE)?;
    let bodies = bodies_of(alloc, &plan, answers)?;
    let ended = record(rt, alloc, plan, bodies, 1);
    Ok(rows_stopped(&ended))
}

// the run stays open; no clause says that the reason isn't want of memory for the book
#[test]
fn stops_where_a_body_has_no_memory(rt: HostRuntime) {
    let at_first = rows_before(&rt, rt.alloc(), &[FIRST_FAILS, SECOND_FAILS]);
    let at_second = rows_before(&rt, rt.alloc(), &[WRITES, SECOND_FAILS]);
    assert!(rt; at_first == Ok(Some(1)) && at_second == Ok(Some(5)));
}
